// How large an instance may be: as large as the program takes, or larger where a call finds one least
// energy or two.
ghost use Rattle.std.specs.Prelude.{◌≡◌, ◌≤◌};
ghost use Rattle.sg_base.specs.Limits.{large_bond_limit, large_spin_limit};
ghost use Rattle.sg_draft.specs.Limits.{large_limits, program_limits};

use sg_base::{BOND_LIMIT, LARGE_BOND_LIMIT, LARGE_SPIN_LIMIT, SPIN_LIMIT};

/// The most spins and the most bonds of an instance.
#[derive(Clone, Copy)]
pub struct Limits {
    pub spins: u32,
    pub bonds: u32,
}

impl Limits {
    /// The limits of the program, for a call that finds a least energy for each spin or bond.
    pub fn of_program() -> Limits
        ensures value { result ≡ program_limits }
        ensures spins { result.spins ≤ large_spin_limit }
        ensures bonds { result.bonds ≤ large_bond_limit }
    {
        Limits {
            spins: SPIN_LIMIT,
            bonds: BOND_LIMIT,
        }
    }

    /// The limits of large instances, for a call that finds one least energy or two, or none.
    pub fn large() -> Limits
        ensures value { result ≡ large_limits }
        ensures spins { result.spins ≤ large_spin_limit }
        ensures bonds { result.bonds ≤ large_bond_limit }
    {
        Limits {
            spins: LARGE_SPIN_LIMIT,
            bonds: LARGE_BOND_LIMIT,
        }
    }
}
