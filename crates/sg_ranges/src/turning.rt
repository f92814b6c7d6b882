ghost use Rattle.std.specs.Prelude.{◌≡◌, ◌≤◌, ◌+ℤ◌, ◌-ℤ◌, ◌*ℤ◌, ◌*◌, length, IfOk, unsigned_abs};
ghost use Rattle.sg_base.specs.Limits.{sum_limit};
ghost use Rattle.sg_model.specs.Ising.{IsBond};
ghost use Rattle.sg_model.specs.Spins.{IsUpOrDown};
ghost use Rattle.sg_model.specs.Energy.{IsGroundState, product, weight};
ghost use Rattle.sg_bonds.specs.Cost.{AreCosts};
ghost use Rattle.sg_ranges.specs.Turn.{AreTurningPoints, AreTurns, IsDouble};

use super::NoMemory;
use sg_bonds::{CostList, costs};
use sg_ground::ground_state;
use sg_model::{Bond, Instance, Spins};
use sg_planar::Planar;
use std::alloc::Global;

/// The turning coupling of each bond, in the order of the bonds: with this coupling in place of its
/// own the least energies with equal and with opposite spins at the bond are the same. With any
/// coupling above it every ground state has equal spins there, with any below it unlike ones. The
/// only error is running out of memory.
///
/// A bond whose product in a ground state is `p` and that costs `c` to flip has the turning coupling
/// `J - p c / 2`. It is a whole number, since all energies of one instance have one parity.
///
/// Cost: that of `costs`, and one ground state more.
pub fn turns(alloc: Global, planar: &Planar) -> Result<CostList, NoMemory>
    requires sum { weight planar.now.instance ≤ sum_limit }
    ensures turns { IfOk result (AreTurns planar.now.instance) }
    ensures turning_points { IfOk result (AreTurningPoints planar.now.instance) }
{
    let least = ground_state(alloc, planar)?;
    let costs = costs(alloc, planar)?;
    listed(alloc, planar.instance(), &least.spins, costs.as_slice())
}

// The turning couplings, from a ground state and the costs.
fn listed(
    alloc: Global,
    inst: &Instance,
    least: &Spins,
    costs: &[i64],
) -> Result<CostList, NoMemory>
    requires sum { weight inst.now ≤ sum_limit }
    requires ground_state { IsGroundState inst.now least.now }
    requires costs { AreCosts inst.now costs.now }
    ensures turns { IfOk result (AreTurns inst.now) }
    ensures turning_points { IfOk result (AreTurningPoints inst.now) }
{
    let mut turns = CostList::new(alloc);
    for (k, bond) in inst.bonds().as_slice().iter().enumerate() {
        let turning = turn(bond, least, costs[k]);
        turns.push(turning)?;
    }
    Ok(turns)
}

// The turning coupling of a bond: half its cost away from its coupling, on the side to which the spins
// of a ground state do not hold.
fn turn(bond: &Bond, least: &Spins, cost: i64) -> i64
    requires joined { IsBond (length least.now) bond.now }
    requires coupling { unsigned_abs bond.now.j ≤ sum_limit }
    requires cost { IsDouble sum_limit cost }
    ensures twice { result +ℤ result ≡ (bond.now.j +ℤ bond.now.j) -ℤ (product least.now bond.now *ℤ cost) }
    ensures size { unsigned_abs result ≤ 2 * sum_limit }
{
    moved(bond.j, product(least, bond), half(cost))
}

// The product of the two spins of a bond.
fn product(spins: &Spins, bond: &Bond) -> i64
    requires { IsBond (length spins.now) bond.now }
    ensures up_or_down { IsUpOrDown result }
    ensures value { product spins.now bond.now ≡ result }
{
    if spins.at(bond.u as usize) == spins.at(bond.v as usize) {
        1
    } else {
        -1
    }
}

// Half of a cost, which is an even number.
fn half(cost: i64) -> i64
    requires { IsDouble sum_limit cost }
    ensures twice { result +ℤ result ≡ cost }
    ensures size { unsigned_abs result ≤ sum_limit }
{
    cost / 2
}

// The coupling less the product times the distance.
fn moved(coupling: i64, product: i64, distance: i64) -> i64
    requires up_or_down { IsUpOrDown product }
    requires coupling { unsigned_abs coupling ≤ sum_limit }
    requires distance { unsigned_abs distance ≤ sum_limit }
    ensures value { result ≡ coupling -ℤ (product *ℤ distance) }
    ensures size { unsigned_abs result ≤ 2 * sum_limit }
{
    if product == 1 {
        coupling - distance
    } else {
        coupling + distance
    }
}
