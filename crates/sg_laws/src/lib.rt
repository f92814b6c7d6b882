//! Laws of disorder: the streams that couplings are drawn from.
//!
//! A spin glass is studied over many samples of its couplings. A law gives them: after a seed, the same
//! stream of whole numbers on every machine. There are four: all couplings 1, alternating signs, random
//! signs (the Edwards-Anderson model with couplings of one size), and sizes spread evenly; and
//! [`Table`], for draws that a caller has from elsewhere.
//!
//! For the next engineer: [`Disorder`] is the contract that matters. A law has a name, and two ghost
//! meanings, `next` and `seeded`: the draws that come now, and those that come after a seed. Callers
//! that draw rest on these alone, so a caller's own law can be used in the same way. A law is passed in
//! a box; in a call through a box its clauses have no names, so [`start`] and [`draws`] restate them. A
//! clause describes boxes by the records of `specs/Named.antt`.
#![tactic(auto)]

mod choice;
mod disorder;
mod drawing;
mod random;
mod regular;
mod table;

pub use choice::named;
pub use disorder::Disorder;
pub use drawing::{draws, start};
pub use random::{PlusMinus, Uniform};
pub use regular::{Alternate, One};
use std::alloc::AllocError;
pub use table::Table;

/// The allocator had no memory left.
pub type NoMemory = AllocError;
