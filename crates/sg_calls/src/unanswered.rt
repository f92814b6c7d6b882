// Why a study of a graph has no answer.
use sg_model::Fault;
use sg_tjoin::Unproved;
use std::alloc::AllocError;

/// Why a study has no answer.
#[derive(Debug, Drop)]
pub enum Unanswered {
    /// The numbers are refused, or the allocator had no memory left.
    Fault(Fault),
    /// No proof was found within the memory that is allowed.
    TablesTooLarge,
}

impl From<Fault> for Unanswered {
    ghost use Rattle.std.specs.Prelude.{◌≡◌};
    ghost use Rattle.sg_calls.specs.declared.unanswered.Unanswered.TheVariants.{Fault as ByFault};

    ghost from_gives = { λ fault e. e ≡ ByFault fault };

    fn from(fault: Fault) -> Self {
        Unanswered::Fault(fault)
    }
}

impl From<AllocError> for Unanswered {
    ghost use Rattle.std.specs.Prelude.{◌≡◌};
    ghost use Rattle.sg_model.specs.declared.refusal.Fault.TheVariants.{NoMemory as OutOfMemory};
    ghost use Rattle.sg_calls.specs.declared.unanswered.Unanswered.TheVariants.{Fault as ByFault};

    ghost from_gives = { λ _ e. e ≡ ByFault OutOfMemory };

    fn from(_: AllocError) -> Self {
        Unanswered::Fault(Fault::NoMemory)
    }
}

impl From<Unproved> for Unanswered {
    ghost use Rattle.std.specs.Prelude.{◌≡◌};
    ghost use Rattle.sg_calls.specs.Graphs.{unanswered_by};

    ghost from_gives = { λ unproved e. e ≡ unanswered_by unproved };

    fn from(unproved: Unproved) -> Self {
        match unproved {
            Unproved::NoMemory => Unanswered::Fault(Fault::NoMemory),
            Unproved::TablesTooLarge => Unanswered::TablesTooLarge,
        }
    }
}
