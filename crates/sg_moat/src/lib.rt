//! Moats round the sets of a family of terminals, and the odd cuts at their levels.
//!
//! A matching of the terminals of a weighted graph, at the cost of twice their distances, is proved
//! minimum by duals on nested odd sets of terminals. Round each set lies a moat, as wide as its dual:
//! the depth of a node is how far it is from the set's terminals, beyond what the smaller sets' moats
//! cover. The nodes below a level of a moat are an odd set of terminals and what is near them, so the
//! edges that leave them are an odd cut. [`levels`] gives the cuts at all levels, weighted by their
//! steps: over an edge of weight w all depths together change by at most 2w, so the cuts pack, and they
//! weigh the sum of all duals (Edmonds and Johnson 1973; the moats of Jünger and Pulleyblank 1993).
//!
//! For the next engineer: `duals` finds the dual of a set and, on the way up from a leaf, the duals
//! inside it; `depths` reads the depths of all nodes at a set from the tables of distances, and `slices`
//! makes its cuts, level by level. `specs/` has the premises (`Input`), the duals inside a set (`Sets`),
//! the depths and the cuts of all sets (`Gathers`), and those of one set (`Slices`); `Depths` is private.
//! `proofs/Packing` has the theorem, over `UnitSteps` (at most one depth changes over one unit step) and
//! `EdgeReach` (what sets reach along an edge); `Climb` has the way up from a leaf, and `Cutting` the cuts
//! of one set.
#![tactic(auto)]

mod depths;
mod duals;
mod moats;
mod slices;

pub use moats::levels;
pub use sg_graph::{Cut, Cuts};
use std::alloc::AllocError;

/// The allocator had no memory left.
pub type NoMemory = AllocError;
