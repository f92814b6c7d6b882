//! What the functions of the C library compute: their numbers in, what they answer as lists, or the first fault.
//!
//! A caller from C gives a graph, a lattice, a proof or a list of terminals as plain numbers. No number is trusted: each
//! is tested, and what is wrong is named by the fault of which the program prints the line. Nothing here sees a caller's
//! memory except [`fill`], [`refuse`] and [`write_bounds`], which copy what was found into it.
//!
//! For the next engineer: each function has the contract of `sg_ground::solve`, `Checker::check` and the others, over
//! lists of numbers. `specs/Crossing.antt` says what is in a caller's place, and how lists of lists are two lists.
//! `specs/Graphs.antt` and `specs/Lattices.antt` say which numbers give an instance and what is wrong with others, by
//! the tests of `sg_draft`; `specs/Proofs.antt` says the same of a proof by loops and by a nest. `specs/Grounds.antt`
//! says what is answered, and `specs/Running.antt` how a run ends. For weighted graphs these are
//! `specs/Networks.antt` and `specs/Joins.antt`, and for bounds of costs `specs/BondCosts.antt`. They are apart from
//! the exports, since the prover links a static library at each check.
#![tactic(auto)]

mod asked;
mod bounded;
mod crossing;
mod draws;
mod graphs;
mod held;
mod joining;
mod judging;
mod lattices;
mod narrowed;
mod nests;
mod networks;
mod rows;
mod starts;
mod stated;
mod studies;
mod tables;
mod terminal_lists;
mod unanswered;
mod words;

pub use asked::bond_costs;
pub use bounded::write_bounds;
pub use crossing::{NO_PROOF, fill, refuse};
pub use draws::draws_of;
pub use graphs::Given;
pub use joining::{JoinRows, join_of, joins_of, judge_join};
pub use judging::{Judged, code_by, judge, judge_nest};
pub use narrowed::cost_bounds;
pub use nests::{GivenNest, NestRows};
pub use networks::GivenWeb;
pub use rows::Rows;
pub use stated::GivenLoops;
pub use studies::{clusters_of, costs_of, ground_of, nest_of, wall_of};
pub use tables::{TableNumbers, Tables, tables_of};
pub use terminal_lists::GivenLists;
pub use unanswered::Unanswered;
pub use words::words_in;
