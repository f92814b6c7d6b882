ghost use Rattle.std.specs.Prelude.{◌≡◌, ◌<◌, ◌≤◌, ◌+ℤ◌, ◌-ℤ◌, ◌*ℤ◌, ◌*◌, ◌^◌, pos, length, fold, if◌then◌else◌, All, IfOk, unsigned_abs};
ghost use Rattle.sg_model.specs.Ising.{IsBond};
ghost use Rattle.sg_model.specs.Spins.{IsAssignment};
ghost use Rattle.sg_check.specs.Packing.{IsShort, Proves};
ghost use Rattle.sg_base.specs.Limits.{forced_limit};
ghost use Rattle.sg_model.specs.Changes.{negated};
ghost use Rattle.sg_model.specs.Connected.{LeastsUp};
ghost use Rattle.sg_model.specs.Energy.{weight};
ghost use Rattle.sg_ranges.specs.Cut.{IsLargestCut, coupling_sum, cut_weight, is_cut};

use super::NoMemory;
use sg_check::Loops;
use sg_ground::solve;
use sg_model::{Bond, Instance, Spins};
use sg_planar::Planar;
use std::alloc::Global;

/// A largest cut: its weight, the two sides as spins, and the weighted loops that prove it.
#[derive(Drop)]
pub struct CutAnswer {
    pub weight: i64,
    pub spins: Spins,
    pub loops: Loops,
}

/// A largest cut, where the coupling of a bond, of either sign, is its weight: the bonds between the
/// spins that are up and those that are down. The only error is running out of memory.
///
/// It is a ground state of the instance with every sign changed, whose energy is the sum of all
/// couplings less twice the weight of the cut. The loops prove it as the loops of `solve` do, in that
/// instance. The least spin of each component is up. Which of several largest cuts is answered, and
/// with which packing, is not said.
///
/// Cost: one ground state.
pub fn largest_cut(alloc: Global, planar: &Planar) -> Result<CutAnswer, NoMemory>
    ensures cut { IfOk result (λ a. IsLargestCut planar.now.instance a.spins a.weight) }
    ensures first_up { IfOk result (λ a. LeastsUp planar.now.instance a.spins) }
    ensures proves { IfOk result (λ a. Proves (negated planar.now.instance) a.spins
        (coupling_sum planar.now.instance -ℤ (pos 2 *ℤ a.weight)) a.loops) }
    ensures short { IfOk result (λ a. IsShort (negated planar.now.instance) a.loops) }
{
    let opposite = planar.negated()?;
    let least = solve(alloc, &opposite)?;
    let weight = cut_weight(planar.instance(), &least.spins);
    Ok(CutAnswer {
        weight,
        spins: least.spins,
        loops: least.loops,
    })
}

// The weight of the cut between the spins that are up and those that are down.
fn cut_weight(inst: &Instance, spins: &Spins) -> i64
    requires sum { weight inst.now ≤ forced_limit }
    requires assignment { IsAssignment inst.now spins.now }
    ensures { result ≡ cut_weight inst.now spins.now }
{
    cut_sum(inst.bonds().as_slice(), spins) as i64
}

// The sum of the couplings of the bonds that are cut.
fn cut_sum(bonds: &[Bond], spins: &Spins) -> i128
    requires few { length bonds.now ≤ 2 ^ 24 }
    requires joined { All (IsBond (length spins.now)) bonds.now }
    ensures value { result ≡ fold (λ total b. total +ℤ (if is_cut spins.now b then b.j else pos 0)) (pos 0) bonds.now }
    ensures size { unsigned_abs result ≤ 2 ^ 24 * 2 ^ 63 }
{
    let mut total: i128 = 0;
    for bond in bonds {
        total += cut_part(*bond, spins);
    }
    total
}

// The coupling of a bond that is cut, and 0 of another.
fn cut_part(bond: Bond, spins: &Spins) -> i128
    requires { IsBond (length spins.now) bond }
    ensures value { result ≡ (if is_cut spins.now bond then bond.j else pos 0) }
    ensures size { unsigned_abs result < 2 ^ 63 }
{
    if spins.at(bond.u as usize) == spins.at(bond.v as usize) {
        0
    } else {
        i128::from(bond.j)
    }
}
