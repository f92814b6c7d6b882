//! Domain walls of planar spin glasses: the exact difference of two least energies.
//!
//! The seam is a set of bonds, such as those that close a cylinder. Changing the signs of their
//! couplings changes the boundary from periodic to antiperiodic and forces a domain wall into the
//! lattice. The change of the least energy is the energy of that wall (Bray and Moore 1984); how it
//! scales with the size of the lattice tells whether there is order at low temperature.
//!
//! For the next engineer: `specs/Wall.antt` says what the three numbers are. `wall` uses the contract of
//! `least_energy_within` and not its implementation.
#![tactic(auto)]

mod walls;

use std::alloc::AllocError;
pub use walls::{WallAnswer, wall, wall_within};

/// The allocator had no memory left.
pub type NoMemory = AllocError;
