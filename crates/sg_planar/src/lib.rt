//! The test whether an instance can be solved by the planar method, and the type that keeps its result.
//!
//! A planar spin glass is solved by way of the dual graph of its faces (Bieche, Maynard, Rammal and Uhry
//! 1980, Barahona 1982). That needs a drawing of each component on a sphere: Euler's number, spins minus
//! bonds plus faces, and less two for each component but one, is 2. The sum of the couplings' sizes is
//! bounded too, so that all later numbers fit their types.
//!
//! Faces and components do not depend on the couplings. They are found once, by `Planar::new`, and kept
//! when the couplings change (`with_couplings`).
//!
//! In such an instance that is connected, a list of bonds is the list of broken bonds of an assignment
//! exactly if it fits the faces, and `spin_walk` finds the assignment. `parts` takes an instance apart
//! into its components, and `divide` one that has several.
//!
//! For the next engineer: `Planar::new`, `spin_walk`, `parts` and `divide` are the contracts that
//! matter. `specs/Fit.antt` says what is fit, which check fails first, and what a `Planar` keeps;
//! `specs/BrokenLists.antt` which lists fit the faces; `specs/Parts.antt` what the parts are.
//! All rest on `walk`, over a set of bonds: it continues from marks that earlier walks left, so that the walks
//! from all spins together take time linear in the spins and bonds. `names` walks from each spin that no walk has
//! met, and gives the spins of one walk its name; `Components` keeps the names over all bonds, with the least spin
//! of each component. `specs/Walk.antt` says what a walk leaves, `specs/Naming.antt` what a name is and what
//! components are.
//! `proofs/PlanarDuality.antt` has the mathematics over any embedding, `proofs/EulerBounds.antt` the
//! bounds on faces that the crates above cite, and `proofs/NamedParts.antt` why each part is planar.
#![tactic(auto)]

mod assignment;
mod breadth_first;
mod components;
mod dealing;
mod fitness;
mod fitting;
mod naming;
mod parting;
mod planar;

pub use assignment::spin_walk;
pub use breadth_first::{head, walk};
pub use components::{Division, Part, PartList, SpinNumbers, divide, parts};
pub use fitting::fits_faces;
pub use naming::names;
pub use parting::Components;
pub use planar::{NotFit, Planar};
use std::alloc::AllocError;

/// The allocator had no memory left.
pub type NoMemory = AllocError;
