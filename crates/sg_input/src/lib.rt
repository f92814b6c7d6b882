//! What an input gives: an instance that is fit for the planar solver, or an instance with a stated
//! proof; or the first fault of the input.
//!
//! `read_planar` takes an instance in either form, as records or as one JSON object, and tests the whole
//! of it. `read_proof` takes records only, and makes no test of the instance as a whole, since a proof
//! is judged on every graph. Nothing may follow what they read.
//!
//! For the next engineer: `specs/Input.antt` says what a text gives, and its first fault, in terms of
//! what `sg_reader`, `sg_json` and `sg_planar` say of their parts. In the code `fit.rt` reads for the
//! studies, and `proof.rt` for the checker.
#![tactic(auto)]

mod fit;
mod law;
mod proof;

pub use fit::read_planar;
pub use law::inputs_have_one_answer;
pub use proof::{StatedProof, read_proof};
use std::alloc::AllocError;

/// The allocator had no memory left.
pub type NoMemory = AllocError;
