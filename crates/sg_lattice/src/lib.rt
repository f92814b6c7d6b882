//! The built-in lattices: square, triangular and hexagonal with free boundaries, and the cylinder.
//!
//! A lattice has `R` rows, which grow to the south, and `C` columns, which grow to the east; spin `(r,
//! c)` has the number `r * C + c`. `build` takes the couplings in the order of the bonds (first all that
//! run to the east, row by row, then those to the south, then the diagonals to the south-east) and gives
//! the instance with its planar rotation: at each spin the darts to the east, north, north-west, west,
//! south and south-east, as far as they exist. The seam of a cylinder is the list of the bonds from its
//! last column to its first.
//!
//! For the next engineer: `specs/Tables.antt` is the whole definition, and `build`'s contract says that
//! the instance is that table with the couplings. `proofs/LatticeRotation.antt` proves that each table
//! is a rotation, from the steps of each kind in `proofs/KindSteps.antt`, so `build` fails only if an
//! allocation fails.
#![tactic(auto)]

mod kind;
mod lattice;
mod shape;

pub use kind::{Kind, least_cols};
pub use lattice::{bond_count, build};
use std::alloc::AllocError;

/// The allocator had no memory left.
pub type NoMemory = AllocError;
