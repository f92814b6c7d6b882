//! What `gen`, `sample`, `ensemble` and `widths` answer: they read nothing, and their couplings are the
//! draws of a law of disorder.
//!
//! [`draw_reply`] takes the first of the laws with the name in the words, and makes a lattice, its least
//! energy, or the domain walls of many cylinders from its draws. An unknown name is refused, and so is a
//! first sample that is not fit.
//!
//! [`drawings_have_one_reply`] is a law: the draws determine the whole reply, and whether it is a
//! refusal or an answer.
//!
//! For the next engineer: `specs/Drawn.antt` says what is answered, with a case for each command, and
//! each command has a file of its own. The law is started anew from its seed wherever draws are made, so
//! that the first sample, which is tested, is the drawing of all others.
#![tactic(auto)]

mod draw;
mod drawn;
mod ensemble;
mod generate;
mod law;
mod sample;
mod widths;

pub use draw::draw_reply;
pub use law::drawings_have_one_reply;
pub use sg_report::NoMemory;
