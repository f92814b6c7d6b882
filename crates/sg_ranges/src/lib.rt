//! Two studies of a planar spin glass: how far each coupling may move before the ground state changes,
//! and the largest cut.
//!
//! Move one coupling and hold the others: above one value, its turning coupling, every ground state has
//! equal spins at the bond, and below it opposite ones. The distance of a coupling from that value says
//! how stable the ground state is against an error in it. A set of nodes of a planar graph with weighted
//! edges is a spin assignment; the edges between the set and the rest are a cut, and the largest cut is
//! a ground state with every sign changed (Barahona 1982).
//!
//! For the next engineer: `specs/Turn.antt` and `specs/Cut.antt` say what is computed. `turns` rests on
//! the contracts of `ground_state` and `costs`, `largest_cut` on that of `solve`, and neither on their
//! implementation. `proofs/MovedCouplings.antt` and `proofs/Cuts.antt` tie energies to couplings and to
//! cuts.
#![tactic(auto)]

mod cutting;
mod law;
mod turning;

pub use cutting::{CutAnswer, largest_cut};
pub use law::{cuts_are_energies, one_turning_coupling};
use std::alloc::AllocError;
pub use turning::turns;

/// The allocator had no memory left.
pub type NoMemory = AllocError;
