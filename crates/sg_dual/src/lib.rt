//! The dual of a planar spin glass: a node for each face, an edge for each bond, and the frustrated
//! faces.
//!
//! A face is frustrated if a walk along it passes an odd number of negative bonds (Toulouse 1977); then
//! no spins satisfy all bonds around it. The bonds that an assignment breaks meet each frustrated face
//! an odd number of times and each other face an even number of times, so on the plane a ground state
//! breaks a minimum T-join of the frustrated faces (Bieche, Maynard, Rammal and Uhry 1980).
//!
//! For the next engineer: `dual` is the contract that matters, over the definitions in
//! `specs/Dual.antt`. `proofs/Frustration.antt` proves that the number of frustrated faces is even,
//! `proofs/FacesJoined.antt` that the dual of a connected instance is connected.
#![tactic(auto)]

mod duality;

pub use duality::dual;
use std::alloc::AllocError;

/// The allocator had no memory left.
pub type NoMemory = AllocError;
