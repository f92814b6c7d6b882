//! What all crates share: list types, counting, the limits, and counters of steps.
//!
//! *Lists* are small types over one `Vec`, which clauses see as the list of its items. [`Numbers`] holds small
//! items that are copied, such as spin values, couplings or bond numbers, and `at` gives the item. [`Records`]
//! holds items with parts of their own, such as bonds or loops, and `at` lends the item. [`Lists`] holds lists of
//! small items, such as the darts of each spin, one behind another in one flat list, and `at` lends a list. The
//! other crates give them names: `pub type Couplings = Numbers<i64>;`.
//!
//! *Counting* is what nearly every proof of the crates above rests on. A set of bonds that meets each spin an even
//! number of times crosses each cut an even number of times; the weights of loops or cuts that pack are at most the
//! weight of what they all meet. Here these facts are proved once, over lists of edges and of numbers, without
//! spins. A few small functions go with them: toggle marks, list the marked places, test that a list rises within a
//! bound, and add a weight at given places.
//!
//! The *limits* of the program and of the library stand here once each, with their reasons, and [`Steps`] counts
//! steps that exist only in proofs.
//!
//! For the next engineer: each clause on a list describes the whole list, and none a capacity. The types keep the
//! allocator that `new` was given; only adding an item allocates. Parity is a `Bool`, and a set is a test of numbers
//! or a strictly rising list. `specs/` has the definitions, a file for each kind; `proofs/Handshake.antt` and
//! `proofs/Capacity.antt` have the two laws that the crates above cite most, `proofs/ParityLaws.antt`,
//! `proofs/SumLaws.antt` and `proofs/RisingLists.antt` the small ones.
#![tactic(auto)]

mod limits;
mod lists;
mod loads;
mod marks;
mod numbers;
mod records;
mod rising;
mod steps;

pub use limits::{
    BOND_LIMIT, COST_LIMIT, FORCED_LIMIT, INPUT_LIMIT, JSON_LIMIT, LARGE_BOND_LIMIT,
    LARGE_SPIN_LIMIT, SAMPLE_LIMIT, SPIN_LIMIT, SUM_LIMIT, TABLE_LIMIT, TEXT_LIMIT, WIDTH_LIMIT,
    limits_are_as_stated,
};
pub use lists::Lists;
pub use loads::add_weight;
pub use marks::{flip, places};
pub use numbers::Numbers;
pub use records::Records;
pub use rising::{all_below, is_rising};
use std::alloc::AllocError;
pub use steps::Steps;

/// The allocator had no memory left.
pub type NoMemory = AllocError;
