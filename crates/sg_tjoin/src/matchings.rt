// The count of the steps that matchings took.
ghost use Rattle.std.specs.Prelude.{◌≡◌, ◌+◌};
ghost use Rattle.sg_tjoin.specs.Matchings.{no_matchings};

use sg_arena::Arena;
use std::marker::Model;
use std::snapshot::Snapshot;

/// How many steps matchings took, as the families of sets that they handed back have counted them. It takes no
/// bytes.
///
/// Each count remembers the one before it by a snapshot, which has no bytes and shows what it was taken of. So it
/// has no largest number.
#[derive(Drop)]
#[cycle(matchings)]
pub struct Matchings {
    last: Snapshot<Count>,
}

impl Model for Matchings {
    ghost use Rattle.std.specs.Prelude.{ℕ, ◌*◌, ◌+◌};
    ghost use Rattle.std.proofs.Common.{arith};
    ghost use Rattle.sg_tjoin.specs.Matchings.{MatchingSteps};

    ghost Value = { MatchingSteps };

    ghost view = { λ m. m.last.value };

    ghost size = { λ s. 2 * s.runs + 1 };

    ghost size_decreases = { λ m h. Prim.grind (arith) };
}

const _: () = prove!(size_of::<Matchings>() == 0);

// The steps of a run, and those before it, if there are any.
#[derive(Drop)]
#[cycle(matchings)]
struct Count {
    before: Option<Snapshot<Matchings>>,
    family: Option<Snapshot<Arena>>,
}

impl Model for Count {
    ghost use Rattle.std.specs.Prelude.{ℕ, ◌*◌, ◌+◌};
    ghost use Rattle.std.specs.Option.{option_map_or};
    ghost use Rattle.std.proofs.Common.{arith};
    ghost use Rattle.sg_tjoin.specs.Matchings.{MatchingSteps};

    ghost Value = { MatchingSteps };

    ghost view = { λ c. record { steps = option_map_or (λ m. m.value.steps) c.before 0 + option_map_or (λ f. f.value.steps) c.family 0; runs = option_map_or (λ m. m.value.runs + 1) c.before 0 } };

    ghost size = { λ s. 2 * s.runs };

    ghost size_decreases = { λ c h. Prim.grind (arith) };
}

impl Matchings {
    /// Before the first run.
    pub fn new() -> Matchings
        ensures { result ≡ no_matchings }
    {
        let count = Count {
            before: None,
            family: None,
        };
        Matchings {
            last: Snapshot::of(&count),
        }
    }

    /// Counts the steps of the run that handed this family back.
    pub fn add(&mut self, family: &Arena)
        ensures steps { self.new.steps ≡ self.old.steps + family.now.steps }
        ensures runs { self.new.runs ≡ self.old.runs + 1 }
    {
        let count = Count {
            before: Some(Snapshot::of(self)),
            family: Some(Snapshot::of(family)),
        };
        self.last = Snapshot::of(&count);
    }
}
