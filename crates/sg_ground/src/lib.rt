//! Ground states of planar spin glasses, each with a packing of frustrated loops that proves it.
//!
//! An assignment is a ground state if its broken bonds weigh least. On the plane the sets of broken
//! bonds are the T-joins of the frustrated faces in the dual graph (Bieche, Maynard, Rammal and Uhry
//! 1980, Barahona 1982), so a minimum T-join gives a ground state. The odd cuts that show that no T-join
//! weighs less (Edmonds and Johnson 1973) are frustrated loops of the instance: a set of faces with an
//! odd number of frustrated ones is bounded by bonds of which every assignment breaks one.
//!
//! An instance falls into components that share no bond. Each is solved by itself: energies add, and the
//! loops of all components together prove their sum. An instance with one component is solved as it is.
//!
//! Call `ground_state` if you need no loops, `least_energy` if you need no spins: by `least_joins_break`
//! a minimum T-join alone gives both. For large instances the regions that grow on the dual are the
//! better proof, since their size is linear in the instance: `nested_state` returns them, and
//! `proves_by_nest` judges such a proof from any source.
//!
//! Where no proposal is accepted, a matching answers, whose tables grow as the product of frustrated faces
//! and faces. `solve`, `ground_state` and `least_energy` leave them to the allocator. `nested_state` and the
//! functions whose names end in `_within` have an allowance in bytes, and answer `TablesTooLarge` only where
//! the tables of a component take more (`TablesExceed`), which within the limits of the program never take
//! 4 GiB (`tables_fit`). Functions whose names end in `_counted` have an allowance too, and add the steps that they
//! take to a count (`sg_tjoin::Taken`): at most those of a minimum T-join of the frustrated faces of each component.
//!
//! For the next engineer: `solve`, `ground_state` and `least_energy` are the functions that matter, and
//! their callers rest on their contracts alone, not on how they are implemented. A part is solved
//! (`part`, `whole`, `joins`) by way of its dual: a minimum T-join of the frustrated faces, which has its
//! own proposals and judges, and back by a walk over the bonds; and one loop over all parts puts their
//! answers together (`parts`), with loops or without. The proof: an odd cut is a frustrated loop
//! (`odd_cuts_are_loops`, by `proofs/FrustratedCuts.antt`); a packing of cuts is one of loops, and they
//! are few enough (`Packings`); a T-join fits the faces and weighs what the broken bonds weigh
//! (`JoinFits`). Every assignment breaks a T-join (`BrokenJoins`), and so a minimum one needs no loops
//! (`WeighedJoins`), also if a nest proves it (`NestProofs`); with its cuts it gives loops (`Solutions`).
//! The proof of the whole: what a part gives (`Shares`), what the parts are together (`PartLists`), what
//! holds of some parts (`Glued`), and the step from some parts to one more (`Gluing`).
#![tactic(auto)]

mod allowance;
mod answer;
mod joins;
mod law;
mod least;
mod loops;
mod nested;
mod part;
mod parts;
mod placed;
mod solving;
mod state;
mod whole;

pub use allowance::tables_fit;
pub use answer::{Answer, NestedState};
pub use law::{least_joins_break, odd_cuts_are_loops};
pub use least::{least_energy, least_energy_counted, least_energy_within};
pub use loops::cut_loops;
pub use nested::{nest_by, nested_state, nested_state_counted, proves_by_nest};
pub use solving::{solve, solve_counted, solve_within};
pub use state::{State, ground_state, ground_state_counted, ground_state_within};
use std::alloc::AllocError;

/// The allocator had no memory left.
pub type NoMemory = AllocError;
