//! What growing regions may do and have done: limits, work, and blossoms that are counted.
//!
//! - [`Allowance`] is what a run may do, by the size of its graph, and [`Work`] counts the work and the
//!   events of a run against it.
//! - [`Blossoms`] has what each region is made of ([`Whole`]). It keeps the count of the blossoms that are
//!   made and taken apart, and how many may be, under an invariant, so none comes or goes uncounted.
//! - [`Growth`] has the counts that are returned: of blossoms made and taken apart, and of events.
//! - [`batch_of`] and [`window_of`] deal work out: how many trees grow at one time, and how large windows
//!   are.
//!
//! For the next engineer: the counts are what the crates of growing regions promise, so the contracts are
//! here, in a crate that is small. What a region is made of, and how much is dealt out, only has to be
//! safe: callers have the result judged. The only error is running out of memory.
#![tactic(auto)]

mod blossoms;
mod growth;
mod shares;
mod work;

pub use blossoms::{Blossoms, Whole, no_whole};
pub use growth::Growth;
pub use shares::{batch_of, window_of};
use std::alloc::AllocError;
pub use work::{Allowance, Work};

/// The allocator had no memory left.
pub type NoMemory = AllocError;
