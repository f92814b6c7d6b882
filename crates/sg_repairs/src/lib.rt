//! Finished regions that are repaired for one edge after another.
//!
//! `Repairs` grows regions once (`sg_region_engine`), and keeps them with the minimum T-join that they
//! prove. When an edge is removed, it takes the regions over the edge's two ends apart, lets what is
//! left over grow until each terminal has a mate again, and reads off what has changed.
//!
//! For the next engineer: nothing is promised of a repair. Callers have it judged by `sg_nest::proves`,
//! and call a proved solver if there is no repair or the verdict is no. So each function here must only
//! be safe and terminate. What there is no memory for is left out of a list, and the end of each public
//! call asks all of them: what is gone by then was noted in `Changes`, or in the list that it added to.
//! `parts` keeps the finished regions to which an engine is put back, `apart` takes them apart, `order` puts
//! them into an order and reads them off, `old_ways` has the walks between mates before any repair, and
//! `changes` what a repair changes of them.
#![tactic(auto)]

mod apart;
mod changes;
mod old_ways;
mod order;
mod parts;
mod repairs;

pub use repairs::{Repairs, Turn};
use std::alloc::AllocError;

/// The allocator had no memory left.
pub type NoMemory = AllocError;
