ghost use Rattle.std.specs.Prelude.{◌≡◌};
ghost use Rattle.sg_draft.specs.Members.{bad_entry as bad_entry_of, bad_member as bad_member_of, place_of};

use sg_model::Refusal;

/// A part of an input, as the refusal 19 names it.
#[derive(Clone, Copy, Debug, PartialEq, Eq)]
pub enum Member {
    /// The kind of the lattice, or that it is a general instance.
    Kind,
    /// The names of all members.
    Names,
    /// The rows of a lattice.
    Rows,
    /// The columns of a lattice.
    Cols,
    /// The number of spins of a general instance.
    SpinCount,
    /// The couplings of a lattice.
    Couplings,
    /// The bonds of a general instance.
    Bonds,
    /// The darts of each spin, in cyclic order.
    Rotation,
    /// The bonds whose signs are changed for a domain wall.
    Seam,
    /// The values of spins that are stated as a ground state.
    Spins,
    /// The loops that are stated as its proof.
    Loops,
    /// The radii of the regions that are stated as its proof.
    Radii,
    /// The radii at which regions took the faces.
    FaceRadii,
}

impl Member {
    /// The number of the member in the line of its refusal.
    pub fn place(self) -> u32
        ensures { result ≡ place_of self }
    {
        match self {
            Member::Kind => 1,
            Member::Names => 2,
            Member::Rows => 3,
            Member::Cols => 4,
            Member::SpinCount => 5,
            Member::Couplings => 6,
            Member::Bonds => 7,
            Member::Rotation => 8,
            Member::Seam => 9,
            Member::Spins => 10,
            Member::Loops => 11,
            Member::Radii => 12,
            Member::FaceRadii => 13,
        }
    }
}

/// The refusal of an entry of a member, the first wrong one.
pub fn bad_entry(what: Member, entry: usize) -> Refusal
    ensures { result ≡ bad_entry_of what entry }
{
    Refusal::BadMember {
        place: what.place(),
        item: entry.min(u32::MAX as usize) as u32,
    }
}

/// The refusal of a member that is missing, does not belong, or is no number or list of its form.
pub fn bad_member(what: Member) -> Refusal
    ensures { result ≡ bad_member_of what }
{
    Refusal::BadMember {
        place: what.place(),
        item: 0,
    }
}
