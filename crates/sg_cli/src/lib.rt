//! The top call: words and an input in, a status and a text out.
//!
//! [`answer`] makes the reply of every command. A study of an instance gives a ground state, alone or
//! with the packing that proves it, a domain wall, the costs of the bonds, the rigid clusters, or all of
//! these as one line of JSON; the range of each coupling; or a largest cut. `check` judges the proof
//! that follows an instance of any kind, `tjoin` and `postman` solve a weighted graph, and `gen`,
//! `sample`, `ensemble` and `widths` read nothing and draw from a law (`sg_draws`). Every other input is
//! refused with the number of its first failed check.
//!
//! [`run`] is the same over devices: it reads the input from a source and writes the text to a sink. The
//! law [`answers_are_settled`] says that the input determines the reply.
//!
//! For the next engineer: the contract of `answer` is the claim of the whole project. What it says is
//! defined once, in `specs/Served.antt`; `specs/Settled.antt` says it from the side of the input, and
//! `specs/Promises.antt` what `run` adds for its devices. Each command has a file of its own that
//! computes its answer. A new command needs one more file, one more variant in `sg_words`, one more text
//! in `sg_report`, and one more case in `Served`. A command about a planar instance is a study
//! (`study.rt`).
#![tactic(auto)]

mod answering;
mod bonds;
mod check;
mod clusters;
mod energy;
mod graph;
mod ground;
mod law;
mod laws;
mod maxcut;
mod postman;
mod ranges;
mod report;
mod serve;
mod study;
mod tjoin;
mod wall;

pub use answering::{answer, answer_with_all_laws};
pub use law::answers_are_settled;
pub use laws::run_with_all_laws;
pub use serve::run;
pub use sg_report::{Reply, Status};
pub use sg_words::{Command, Drawing, GraphTask, Reading, Size, Study};
