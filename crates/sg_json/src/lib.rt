//! Reads Ising instances from JSON: a lattice with its couplings, or a general graph with its bonds and
//! the cyclic order of the darts round each spin.
//!
//! `is_json` tells such an input by its first byte, and `read_json` gives its instance or the one
//! refusal that names its first fault, by member and entry. What a text is as data is the definition of
//! `serde_json`; all checks are made on that data.
//!
//! For the next engineer: `specs/Members.antt` says which draft the members give, and the checks on it
//! are those of `sg_draft`; `specs/ReadJson.antt` says what a text gives and why it is refused. In the
//! code `read.rt` is the way through, `members.rt` reads the two forms, `entry.rt` tests entries of
//! lists, `value.rt` looks into values and `build.rt` makes the lists of an instance.
#![tactic(auto)]

mod build;
mod entry;
mod form;
mod law;
mod members;
mod read;
mod text;
mod value;

pub use law::objects_have_one_answer;
pub use read::read_json;
use std::alloc::AllocError;
pub use text::is_json;

/// The allocator had no memory left.
pub type NoMemory = AllocError;
