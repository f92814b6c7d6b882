use sg_base::Records;
use sg_model::{BondList, Spins};

/// A loop of bonds and its weight `y`, as a proof states them. Nothing is known of either.
#[derive(Drop)]
pub struct Loop {
    pub y: i64,
    pub bonds: BondList,
}

/// Weighted loops, in the order of the proof. A loop may appear more than once.
pub type Loops = Records<Loop>;

/// What a proof states: an energy, spins that are to have it, and loops that are to show that no
/// assignment has less.
#[derive(Drop)]
pub struct ResultText {
    pub energy: i64,
    pub spins: Spins,
    pub loops: Loops,
}
