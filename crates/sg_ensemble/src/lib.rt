//! Ensembles of domain walls: the wall energies of cylinders with drawn couplings.
//!
//! Whether there is order at low temperature shows in how the energy of a domain wall scales with the
//! size of the lattice (Bray and Moore 1984), averaged over many samples. A law of disorder gives the
//! couplings of one cylinder after another. Each wall energy is exact, and so are their sum and the sum
//! of their squares, which give the mean and its error.
//!
//! All samples of a size are one drawing with many couplings: it is traced once, and each sample puts
//! its couplings in. `ensemble_on` and `width_on` take a drawing that the caller has.
//!
//! For the next engineer: `specs/Samples.antt` says which draws belong to which sample, and
//! `specs/Widths.antt` what is recorded for each width. `ensemble` rests on the contracts of `sg_laws`,
//! `sg_lattice`, `Planar` and `wall`. It is proved that each drawn cylinder is fit for the solver: its
//! sum is small (`proofs/DrawnCylinders.antt`), and on one drawing it is the lattice with these
//! couplings (`proofs/OneDrawing.antt`).
#![tactic(auto)]

mod by_width;
mod drawing;
mod samples;
mod sums;

pub use by_width::{Width, WidthList, width_on, widths};
pub use samples::{EnsembleAnswer, ensemble, ensemble_on};
use sg_base::Numbers;
use std::alloc::AllocError;

/// The allocator had no memory left.
pub type NoMemory = AllocError;

/// The energies of domain walls, one for each sample.
pub type CostList = Numbers<i64>;
