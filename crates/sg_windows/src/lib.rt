//! Ground states near a ground state, proposed by regions that grow in windows.
//!
//! Bonds that the nest of the first ground state shows to be rigid, and those whose ends such bonds join, are left
//! out: other ground states flip the blocks of spins that they join as a whole. Blocks are flipped at random where
//! that costs nothing, rather so that bonds turn of which nothing is known yet. Where this finds no more, all such
//! bonds are weakened a little in the direction that the state satisfies, and a new ground state is found; and then
//! the same for the spins around the bonds that turned alone, with all others held.
//!
//! For the next engineer: no clause speaks of a proposal. Callers compare its energy with the least. Each function
//! only has to be safe and to return: entries beyond the end of a list are ignored, each loop has a bound known at
//! its entry, and sums wrap. What there is no memory for is left out of a list, and before a proposal is given all
//! lists are asked. `sheet` has the instance as plain lists, `room` the bonds that are left out, `chains`
//! joins edges in series, `reduced` has the dual of what is left, `blocks` the flips at random, `window` the ground
//! state of a window, `spots` which windows are asked, and `explorer` all together.
#![tactic(auto)]

mod blocks;
mod chains;
mod explorer;
mod lists;
mod reduced;
mod room;
mod sheet;
mod spots;
mod window;

pub use explorer::Explorer;
use std::alloc::AllocError;

/// The allocator had no memory left.
pub type NoMemory = AllocError;
