//! The judge of minimum T-joins on any weighted graph: it needs no trust in the solver.
//!
//! A proposal is a list of edges, and weighted cuts that are to prove that no T-join weighs less. They
//! do if each cut is left by a set with an odd number of terminals, no edge is loaded with more than
//! twice its weight, and the cuts together weigh twice as much as the edges (Edmonds and Johnson 1973).
//! The cuts come in chains, as growing regions give them: each says which nodes change sides, and its
//! edges must be exactly those with one end inside. The judge keeps a mark for each node and each edge
//! from cut to cut. So its time is linear in the proposal and in the degrees of the nodes that change
//! sides, and it never goes over all edges for one cut.
//!
//! For the next engineer: a yes of `proves_least` carries everything that the contract of a minimum
//! T-join says. No clause says when it says yes; an implementation that always says no would be proved,
//! so tests (`sg_web_rows`) show that it accepts. `specs/Side.antt` has what is kept from cut to cut;
//! `proofs/Sides.antt` that moving one more node to the other side keeps it; and `MarkedLists` of
//! `sg_base` the counting argument: a rising list of marked places that is as long as the number of
//! marks is the list of all marked places.
#![tactic(auto)]

mod cuts;
mod join;
mod judge;
mod loads;
mod marks;
mod proposal;
mod shapes;
mod side;

pub use judge::proves_least;
pub use proposal::{Growth, Growths, NodeList, Proposal};
use std::alloc::AllocError;

/// The allocator had no memory left.
pub type NoMemory = AllocError;
