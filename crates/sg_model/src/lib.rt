//! The planar Ising spin glass without a field: spins, bonds, rotation, seam, energies.
//!
//! An instance has `n` spins and a list of bonds; bond `b` joins the spins `u` and `v` with an integer
//! coupling `J`. An assignment `s` gives each spin 1 or -1, and its energy is `E(s) = - sum over the
//! bonds of J s(u) s(v)`. A ground state has the least energy. Each bond has two darts, one leaving each
//! end; the rotation lists for each spin the darts that leave it, in cyclic order, and so tells how the
//! graph is drawn. The seam is a set of bonds whose signs are changed together to make a domain wall.
//!
//! For the next engineer: `specs/Ising.antt`, `specs/Rotation.antt`, `specs/Spins.antt` and
//! `specs/Energy.antt` hold the definitions that every crate above cites, and `specs/WellFormed.antt`
//! what each `Instance` keeps. `Instance::new` tests the parts that it is given, and
//! `Instance::of_parts` takes parts that are known to be right; `specs/Faults.antt` says which fault the
//! first names. `least_plain` is the reference for each faster solver, since its contract is the
//! definition of a ground state.
#![tactic(auto)]

mod bond;
mod draft;
mod instance;
mod plain;
mod refusal;
mod spins;

pub use bond::{Bond, Bonds};
pub use instance::Instance;
pub use plain::least_plain;
pub use refusal::{Fault, Refusal};
use sg_base::{Lists, Numbers};
pub use spins::Spins;
use std::alloc::AllocError;

/// The allocator had no memory left.
pub type NoMemory = AllocError;

/// Couplings, in the order of the bonds.
pub type Couplings = Numbers<i64>;

/// Bonds by number: a seam, or the bonds of a loop.
pub type BondList = Numbers<u32>;

/// Darts by number: bond `k` has the dart `2k`, which leaves its end `u`, and the dart `2k + 1`,
/// which leaves `v`.
pub type DartList = Numbers<u32>;

/// For each spin its darts, in their cyclic order.
pub type Rotation = Lists<u32>;

/// For each spin the least spin of its cluster.
pub type ClusterList = Numbers<u32>;
