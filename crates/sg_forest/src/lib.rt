//! The forest of growing regions: which region is part of which, how far each reaches at a time, and the
//! alternating trees that they form. It knows nodes and edges only by number.
//!
//! - [`Forest`] has the regions. Odd cycles ([`Cycles`]), trees and radii are lists of their own behind
//!   it, and the parts of one blossom are numbered from one base, so that a region that moves moves all
//!   its parts at once.
//! - [`Contact`] is where two regions touch, and [`Step`] a step up a tree.
//! - [`Reach`] is how far a region reaches, and [`Role`] whether it grows, shrinks or rests.
//!
//! Blossoms are counted, and work too (`sg_work`). The type of a forest names the limit, so every
//! operation on a forest keeps to it, and callers get the bound from the type.
//!
//! For the next engineer: nothing else is promised of any value here, since callers have the result
//! judged. Each function must only be safe and terminate. Lists are cleared and reused, not made anew;
//! what there is no memory for is left out of them, and `Forest::is_short` tells so.
#![tactic(auto)]

mod contact;
mod cycles;
mod families;
mod forest;
mod radii;
mod trees;

pub use contact::{Contact, End};
pub use cycles::{Cycles, Link};
pub use forest::{Forest, Step};
pub use radii::{Reach, Role};
use std::alloc::AllocError;

/// The allocator had no memory left.
pub type NoMemory = AllocError;
