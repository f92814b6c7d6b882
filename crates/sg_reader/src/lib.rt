//! Reads the texts that describe Ising instances: lattices with their couplings, and general graphs with
//! their bonds and the cyclic order of the darts round each spin; and the results that follow them,
//! which state an energy, spins and loops.
//!
//! A text is a list of `csv` records. `read_instance` gives the instance at its front, or the one
//! refusal that names its first fault, by record and field; `read_result` does so for the result after
//! an instance, `no_more` tells whether a record is left, and `alone` requires that none is.
//!
//! For the next engineer: `specs/ReadInstance.antt` and `specs/Result.antt` say what a text gives and
//! why it is refused, over the whole list of its records; `specs/Header.antt`, `specs/Body.antt` and
//! `specs/Result.antt` are the tables of checks, `specs/Kept.antt` and `specs/Field.antt` say which
//! records and fields count. The contracts that matter are those of `read_instance` and `read_result`.
//! In the code `rows.rt` gives the records that count, `header.rt` reads the first of an instance,
//! `lattice.rt` and `general.rt` those that follow it, `result.rt` those of a result; only `cursor.rt`
//! uses `csv`. `Rows`, `Row` and `Range` are for readers of other records, which state what they read
//! over any table of checks (`specs/Ended.antt`), and gather it by `Gather`.
#![tactic(auto)]

mod body;
mod cursor;
mod ended;
mod field;
mod general;
mod header;
mod lattice;
mod law;
mod numeral;
mod range;
mod read;
mod result;
mod row;
mod rows;

pub use body::{Link, list_once, read_link};
pub use ended::{Gather, read_to_end};
pub use field::without_marks;
pub use header::{Form, form_named};
pub use law::records_have_one_answer;
pub use numeral::number;
pub use range::Range;
pub use read::{alone, no_more, read_instance};
pub use result::read_result;
pub use row::Row;
pub use rows::Rows;
use std::alloc::AllocError;

/// The allocator had no memory left.
pub type NoMemory = AllocError;
