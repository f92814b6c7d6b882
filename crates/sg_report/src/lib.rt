//! What a command answers: a status, and a text of exact bytes, line by line.
//!
//! A line is a word, the numbers that follow it, each after a comma, and one line feed. Numbers are
//! decimal, with `-` before a negative one and no leading zeros. A report is one line of JSON.
//!
//! A [`Reply`] has such a text, and [`Status`] says how a run ended, with the exit status of each way to end. A
//! refusal has one line, the same for all commands; running out of memory has none, and that error is passed on.
//!
//! For the next engineer: each public function makes exactly the bytes of the definition of its name in
//! `specs/Text.antt`, or in the file of its own kind: `Samples`, `Ensembles`, `Ranges`, `Graphs`,
//! `Report`; the numbers of refusals and verdicts are in `specs/Refusals.antt` and
//! `specs/Verdicts.antt`. The functions allocate their text, and a report its value too.
//! `proofs/FaultReplies.antt` carries a fault over to what a command answers, for any answer in which the line of a
//! refusal is one case.
#![tactic(auto)]

mod answers;
mod counts;
mod ensembles;
mod faults;
mod graphs;
mod line;
mod ranges;
mod reply;
mod report;
mod samples;
mod status;
mod studies;

pub use answers::{energy_text, ground_text};
pub use counts::{bond_count, size_sum};
pub use ensembles::{ensemble_text, widths_text};
pub use faults::{refusal_text, verdict_text};
pub use graphs::{postman_text, tjoin_text};
pub use ranges::{maxcut_text, ranges_text};
pub use reply::{Reply, done, refuse, refuse_fault};
pub use report::report_text;
pub use samples::{instance_text, sample_text};
pub use status::Status;
use std::alloc::AllocError;
pub use studies::{bonds_text, clusters_text, wall_text};

/// The allocator had no memory left.
pub type NoMemory = AllocError;
