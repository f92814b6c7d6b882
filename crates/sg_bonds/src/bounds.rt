// What is known of the costs while they are found.
ghost use Rattle.std.specs.Prelude.{◌≡◌, ◌⊎◌, ◌<ℤ◌, neg_ℤ, true, length};
ghost use Rattle.sg_model.specs.Ising.{IsBond, bond_count};
ghost use Rattle.sg_model.specs.Energy.{IsGroundState, product};
ghost use Rattle.sg_bonds.specs.Bounds.{Narrows, lowered, no_bound};
ghost use Rattle.sg_bonds.specs.Turned.{IsTurned};

use sg_model::{Bond, Instance, Spins};

/// An assignment that lies so far above a ground state, by the bonds at which they have different products.
#[derive(Drop)]
pub(crate) struct Turned {
    pub cost: i64,
    pub marks: Vec<bool>,
}

/// A lower and an upper bound of the cost of a bond. The number -1 says nothing.
#[derive(Clone, Copy)]
pub struct Bound {
    pub low: i64,
    pub high: i64,
}

/// Whether the two have different products at the bond.
pub(crate) fn is_turned(least: &Spins, turned: &Spins, bond: &Bond) -> bool
    requires first { IsBond (length least.now) bond.now }
    requires second { IsBond (length turned.now) bond.now }
    ensures { result ≡ true → product turned.now bond.now ≡ neg_ℤ (product least.now bond.now) }
{
    let like = least.at(bond.u as usize) == least.at(bond.v as usize);
    let turned_like = turned.at(bond.u as usize) == turned.at(bond.v as usize);
    like != turned_like
}

/// The bounds of a bond once there is an assignment that lies so far above the ground state.
pub(crate) fn noted(bound: Bound, is_turned: bool, cost: i64) -> Bound
    ensures { (result ≡ bound) ⊎ ((is_turned ≡ true)
        × ((bound.high ≡ no_bound) ⊎ (cost <ℤ bound.high)) × (result ≡ lowered bound cost)) }
{
    if is_turned && (bound.high == -1 || cost < bound.high) {
        return Bound {
            low: bound.low,
            high: cost,
        };
    }
    bound
}

/// Lowers the upper bound of each bond that the assignment flips to how far it lies above the ground state.
pub(crate) fn note(inst: &Instance, least: &Spins, turned: &Turned, bounds: &mut [Bound])
    requires ground_state { IsGroundState inst.now least.now }
    requires turned { IsTurned inst.now least.now turned.now }
    requires count { length bounds.old ≡ bond_count inst.now }
    ensures { Narrows inst.now bounds.old bounds.new }
{
    let marks = turned.marks.as_slice();
    let count = inst.bonds().len();
    for k in 0..count {
        bounds[k] = noted(bounds[k], marks[k], turned.cost);
    }
}
