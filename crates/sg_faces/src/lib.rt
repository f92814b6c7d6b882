//! The faces of a graph drawn on a surface: a walk along the boundary of each region.
//!
//! The drawing is given as a rotation system: for each spin the cyclic order of the darts that leave it
//! (Heffter 1891, Edmonds 1960). From a dart one walks over its bond to the spin at the other end, and
//! leaves that by the next dart in its order; the darts met until the walk is back are one face. A spin
//! without a bond has a face of its own. Frustration is defined on these faces, and their number gives
//! the genus of the surface by Euler's formula.
//!
//! For the next engineer: `trace` is the contract that matters, `IsFaceLabels` in `specs/Faces.antt`:
//! two darts have one label exactly if they lie in one orbit. Euler's number depends on the number of
//! components, which is a relation (`specs/Euler.antt`); `one_euler` in `proofs/SameFaces.antt` says
//! that it is one number. `proofs/FaceOrbits.antt` has the facts on the orbits of `phi`,
//! `proofs/BareSpins.antt` those on spins without a bond, and `proofs/Rotations.antt` of `sg_model`
//! those on the darts of a rotation.
#![tactic(auto)]

mod faces;
mod labels;
mod table;
mod tracing;

pub use faces::Faces;
use std::alloc::AllocError;
pub use tracing::trace;

/// The allocator had no memory left.
pub type NoMemory = AllocError;
