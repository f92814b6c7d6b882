//! The checker of ground states: it judges spins, an energy and weighted frustrated loops, and needs
//! no trust in the solver.
//!
//! A frustrated loop (Toulouse 1977) is a set of bonds that meets each spin an even number of times
//! and has an odd number of negative bonds, so every assignment breaks at least one of its bonds.
//! Give such loops whole weights `y` so that at each bond the loops through it weigh at most `2|J|`:
//! a packing. Then the broken bonds of any assignment weigh at least half of all `y` together, and
//! every energy is at least `(sum of the y) - (sum of the |J|)`. Spins that have just this energy are
//! a ground state, and spins, energy and loops together prove it. This is weak duality for the joins
//! of Bieche, Maynard, Rammal and Uhry (1980). It holds on every graph, of any genus, connected or
//! not; on planar graphs a proof always exists (Edmonds and Johnson 1973).
//!
//! For the next engineer: `specs/Loop.antt`, `specs/Packing.antt` and `specs/Verdict.antt` say what is
//! judged. `Checker::check` answers the verdict of that definition, and what a yes means is in its
//! contract too; `packing_proves` is the law alone, for a caller that builds a proof and runs no
//! check. The law's proof is `proofs/WeakDuality.antt`, on the lemmas of the crate `sg_base`.
#![tactic(auto)]

mod checker;
mod judge;
mod law;
mod loads;
mod loops;
mod packing;
mod spins;
mod verdict;

pub use checker::Checker;
pub use law::packing_proves;
pub use packing::{Loop, Loops, ResultText};
use std::alloc::AllocError;
pub use verdict::Verdict;

/// The allocator had no memory left.
pub type NoMemory = AllocError;
