//! What finished regions tell: the shortest walks between mates, which give the edges of a T-join, and
//! cuts round the regions.
//!
//! `ways` searches the walks, `rows` puts the nodes of each region side by side, and `chains` makes the
//! cuts, in chains that grow by nodes.
//!
//! For the next engineer: nothing is promised of a T-join or of a cut, since callers have them judged.
//! Each function must only be safe and terminate: a read beyond the end of a list gives nothing, each
//! loop has a bound known at its entry, and sums wrap.
#![tactic(auto)]

mod chains;
mod rows;
mod ways;

pub use chains::{Chains, chains_of};
use std::alloc::AllocError;
pub use ways::{Joining, Mates, Ways, join_of};

/// The allocator had no memory left.
pub type NoMemory = AllocError;
