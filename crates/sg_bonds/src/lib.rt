//! What it costs to break a bond of a planar spin glass, which bonds are rigid, and the clusters that
//! rigid bonds form.
//!
//! The cost of a bond is the difference of two least energies: with its two spins equal and with them
//! opposite. A bond of positive cost is rigid: its two spins have the same relative sign in every ground
//! state (Barahona, Maynard, Rammal and Uhry 1982). Spins connected by rigid bonds form clusters, which
//! every ground state of the lattice has in common.
//!
//! For the next engineer: `specs/Cost.antt` and `specs/Cluster.antt` say what is computed, and
//! `specs/Bounds.antt` what a search passes on. `costs_of` narrows bounds of the costs of all bonds until those
//! of the asked bonds meet (`narrowing`): upper bounds come from states (`bounds`), lower ones from paths
//! (`paths`, `proofs/PathBounds.antt`), and no clause says that the bounds passed hold, only what follows if
//! they do. `costs` takes each component by itself (`components`); `proofs/PartCosts.antt` says why a bond
//! costs in the whole what it costs there. A ground state and the states that flip a bond come from
//! `BondStates` (`states`): regions grow once on the dual and are repaired for each bond, and their proposals
//! are judged (`joins`), by the contract of `sg_nest::Judge` and the law `least_joins_with`
//! (`proofs/EdgeJoins.antt`). If that proves nothing, `forcing` solves a copy that forces the bond, by
//! the law `forced_minimum`. `waiting` picks the next bond by a heap. `clusters` needs only to know
//! whether a cost is positive (`telling`): all undecided bonds are weakened a little (`weaken`). If the
//! old ground state still is one, they are all rigid, by the law `weakened_bounds`
//! (`proofs/WeakenedEnergy.antt`); else a new one flips some of them at no cost. `bond_bounds` bounds all costs
//! at once (`enclosing`): from above by flips of parts of the spins (`flipping`), from below by the same law with
//! larger amounts (`deciding`), of which `amounts` proposes some. Costs are even (`proofs/EvenCosts.antt`).
#![tactic(auto)]

mod amounts;
mod bounds;
mod breaking;
mod components;
mod deciding;
mod enclosing;
mod flipping;
mod forcing;
mod joins;
mod law;
mod naming;
mod narrowing;
mod paths;
mod states;
mod telling;
mod waiting;
mod weaken;

pub use bounds::Bound;
pub use breaking::rigid;
pub use components::costs;
pub use enclosing::bond_bounds;
pub use law::{forced_minimum, least_joins_with, rigid_clusters_agree, weakened_bounds};
pub use naming::{clusters, clusters_by, clusters_within};
pub use narrowing::costs_of;
use sg_base::Numbers;
pub use states::{BondStates, LeastBroken};
use std::alloc::AllocError;

/// The allocator had no memory left.
pub type NoMemory = AllocError;

/// What it costs to break each bond, in the order of the bonds.
pub type CostList = Numbers<i64>;
