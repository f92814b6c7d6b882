//! Weighted graphs (`Web`): walks, distances, T-joins and odd cuts.
//!
//! The dual of a planar spin glass is such a graph: a node for each face, an edge of weight `|J|` for
//! each bond. A ground state breaks the bonds of a minimum T-join of the frustrated faces, a set of
//! edges that meets a node an odd number of times exactly if it is frustrated, and weighted odd cuts
//! prove that no T-join weighs less. This crate knows only graphs, no spins.
//!
//! For the next engineer: `specs/` has the definitions that the crates above cite, one concept a file
//! (`Web`, `Walk`, `Join`, `OddCut`, `Incidence`, `Table`). `proofs/Walks.antt`, `proofs/Joins.antt` and
//! `proofs/Tables.antt` have their laws: walks appended and reversed, what distances say over an edge,
//! and that each T-join weighs at least half as much as the cuts of a packing. `first_unreached` and
//! `Incidence` are the functions with an algorithm in them.
#![tactic(auto)]

mod cut;
mod ends;
mod incidence;
mod search;
mod table;
mod web;

pub use cut::{Cut, Cuts};
pub use ends::turn_ends;
pub use incidence::Incidence;
pub use search::{connected, first_unreached};
use std::alloc::AllocError;
pub use table::Table;
pub use web::{Edge, EdgeList, Edges, Terminals, Web};

/// The allocator had no memory left.
pub type NoMemory = AllocError;
