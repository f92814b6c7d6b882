//! What growing regions keep about the graph, and what is left of them in the end: the lists that
//! `sg_region_engine` works on beside the forest of the regions (`sg_forest`). Each has its own rules,
//! and none has a part of the method.
//!
//! - [`Adjacency`] has the arcs between nodes, each edge with two darts.
//! - [`Cover`] tells which region has taken a node, and at which radius.
//! - [`Clock`] has the time and the queue of events (`Agenda` of `sg_slots`): at most one event for each edge, each
//!   region and each hub. [`Hubs`] orders the arcs at nodes of high degree, so that only the soonest waits.
//! - [`Nest`] has the finished regions: which region took each node and when, and how they are nested.
//!
//! For the next engineer: nothing is promised of any value here, since callers have the result judged.
//! Each function must only be safe and terminate: a read beyond the end of a list gives nothing, a write
//! there is dropped (`sg_slots`), and sums wrap. Lists are cleared and reused, not made anew; what there is
//! no memory for is left out of them, and `is_short` tells so.
#![tactic(auto)]

mod adjacency;
mod clock;
mod cover;
mod hubs;
mod nest;

pub use adjacency::{Adjacency, Arc, Edge, Exit, first_dart, reverse, second_dart};
pub use clock::{Clock, NEVER};
pub use cover::{Cover, Held, Shallow};
pub use hubs::{Hubs, Soon};
pub use nest::{Nest, Pair, Taken};
use std::alloc::AllocError;

/// The allocator had no memory left.
pub type NoMemory = AllocError;
