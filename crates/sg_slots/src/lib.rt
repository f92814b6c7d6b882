//! What the lists of growing regions are made of: numbers that may be missing, in four bytes each; lists that may
//! be read and written beyond their end; sets of numbers as bits; and the events that wait, in the order of their
//! times.
//!
//! These lists are full of what is missing: a region without a parent, a node without a region. [`Agenda`] is a hot
//! queue, for times that never fall; an [`Event`] is its time, and what it is about ([`Subject`]).
//! Nothing is promised of any value here, nor of the order of events, since callers have the result judged: a read
//! beyond the end of a list gives nothing, a write there is dropped, and sums wrap. Each function must only be safe and
//! terminate. Running out of memory is no error of the functions that add to a list: the list remembers it
//! ([`Store`]), so that a caller asks once, in the end, and not after each item.
//!
//! For the next engineer: `lists.rt` reads and writes lists, `store.rt` has the lists that grow, `marks.rt` the sets,
//! `agenda.rt` the queue. Lists are cleared and reused, not made anew.
#![tactic(auto)]

mod agenda;
mod lists;
mod marks;
mod store;

pub use agenda::{Agenda, Event, Subject};
pub use lists::{Slot, count_at, entry, number, set_entry, sum_up};
pub use marks::Marks;
use std::alloc::AllocError;
pub use store::Store;

/// The allocator had no memory left.
pub type NoMemory = AllocError;
