//! Distances in a weighted graph, and the walks that show them.
//!
//! In the dual of a planar spin glass the distance of two frustrated faces is the least sum of `|J|`
//! over the bonds that a string between them breaks. `distances` finds the distances of all nodes from
//! one source (Dijkstra 1959), `distances_over` does so over incidence lists that many searches share,
//! and `path` gives a walk of that length.
//!
//! For the next engineer: `distances` returns a table of distances, four facts that `specs/Table.antt`
//! of the crate below states. `specs/Search.antt` has the invariant of the search: the distances found
//! are right, and for each edge that leaves the nodes found, the heap has a candidate.
//! `proofs/Leads.antt` shows that the least candidate is a distance.
#![tactic(auto)]

mod candidate;
mod search;
mod walk;

pub use search::{distances, distances_over};
use std::alloc::AllocError;
pub use walk::path;

/// The allocator had no memory left.
pub type NoMemory = AllocError;
