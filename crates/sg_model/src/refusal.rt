use std::alloc::AllocError;
use thiserror::Error;

/// Why an input is refused, with the numbers that show it. Records, fields, spins, bonds and darts
/// are numbered from 0.
#[derive(Debug, Drop, Error)]
pub enum Refusal {
    /// Number 1: the input has more bytes than the limit.
    #[error("TooLong")]
    TooLong { limit: u64 },
    /// Number 2: the records end before the awaited `end`.
    #[error("Unended")]
    Unended,
    /// Number 3: this field is not a number, or is out of the range of its place.
    #[error("BadNumber")]
    BadNumber { at: u32, field: u32 },
    /// Number 4: the first field of this record is not a word that may appear there.
    #[error("UnknownKind")]
    UnknownKind { at: u32 },
    /// Number 5: this record has a wrong number of fields or comes a second time.
    #[error("BadShape")]
    BadShape { at: u32 },
    /// Number 6: a lattice has another number of couplings than bonds.
    #[error("CouplingCount")]
    CouplingCount { found: u32, wanted: u32 },
    /// Number 7: the number of spins is above the limit.
    #[error("TooManySpins")]
    TooManySpins { n: i128 },
    /// Number 8: there is one more bond than the limit; `m` is the limit plus 1.
    #[error("TooManyBonds")]
    TooManyBonds { m: u32 },
    /// Number 9: both ends of this bond are the same spin.
    #[error("SelfBond")]
    SelfBond { bond: u32 },
    /// Number 10: the list of this spin, the least such, is not its darts, each once. The dart is
    /// the first entry that is none of them or is listed earlier; else the least that is missing.
    #[error("BadRotation")]
    BadRotation { spin: u32, dart: u32 },
    /// Number 11: this entry of the seam, the first such, is not a bond or is listed earlier.
    #[error("BadSeam")]
    BadSeam { bond: u32 },
    /// Number 12: this record, the first such, follows the last `end`.
    #[error("Trailing")]
    Trailing { at: u32 },
    /// Number 13: the sum of the couplings' sizes is above the limit.
    #[error("SumTooLarge")]
    SumTooLarge { sum: i128 },
    /// Number 15: the Euler number, spins minus bonds plus faces and less two for each component but
    /// one, is not 2. Number 14 is not in use.
    #[error("NotPlanar")]
    NotPlanar { euler: i64 },
    /// Number 16: a domain wall is asked for, and the seam is empty.
    #[error("NoSeam")]
    NoSeam,
    /// Number 17: no law of disorder has the name that was given.
    #[error("UnknownLaw")]
    UnknownLaw,
    /// Number 18: an input that begins as a JSON object is none.
    #[error("BadJson")]
    BadJson,
    /// Number 19: the member at this place is missing, does not belong, or is no number or list of
    /// its form; `item` is the first wrong entry of a list, and else 0.
    #[error("BadMember")]
    BadMember { place: u32, item: u32 },
    /// Number 20: a JSON input has more bytes than the limit.
    #[error("JsonTooLong")]
    JsonTooLong { limit: u64 },
    /// Number 21: the number of terminals is odd.
    #[error("OddTerminals")]
    OddTerminals { count: u32 },
    /// Number 22: this terminal, the first such, is not a node or is listed earlier.
    #[error("BadTerminal")]
    BadTerminal { node: u32 },
    /// Number 23: this node, the least such, is not reached from node 0.
    #[error("NotJoined")]
    NotJoined { node: u32 },
}

/// Why a call that reads or builds an instance has none to give.
#[derive(Debug, Drop)]
pub enum Fault {
    /// The input is refused.
    Refused(Refusal),
    /// The allocator had no memory left.
    NoMemory,
}

impl From<AllocError> for Fault {
    ghost use Rattle.std.specs.Prelude.{◌≡◌};
    ghost use Rattle.sg_model.specs.declared.refusal.Fault.TheVariants.{NoMemory as OutOfMemory};

    ghost from_gives = { λ _ e. e ≡ OutOfMemory };

    fn from(_: AllocError) -> Self {
        Fault::NoMemory
    }
}

impl From<Refusal> for Fault {
    ghost use Rattle.std.specs.Prelude.{◌≡◌};
    ghost use Rattle.sg_model.specs.declared.refusal.Fault.TheVariants.{Refused as IsRefused};

    ghost from_gives = { λ r e. e ≡ IsRefused r };

    fn from(refusal: Refusal) -> Self {
        Fault::Refused(refusal)
    }
}
