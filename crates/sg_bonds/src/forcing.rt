// The least energy with a product at a bond, by a coupling that forces it.
ghost use Rattle.std.specs.Prelude.{◌≡◌, ◌+◌, ◌<◌, ◌≤◌, ◌^◌, ◌*ℤ◌, neg_ℤ, pos, length, IfErr, IfOk, unsigned_abs};
ghost use Rattle.sg_base.specs.Limits.{sum_limit};
ghost use Rattle.sg_model.specs.Ising.{IsBond, bond_at, bond_count};
ghost use Rattle.sg_model.specs.Spins.{IsAssignment, IsUpOrDown};
ghost use Rattle.sg_model.specs.Energy.{IsGroundState, energy, product, weight};
ghost use Rattle.sg_tjoin.specs.Allowance.{IfTooLarge};
ghost use Rattle.sg_ground.specs.Allowance.{TablesExceed};
ghost use Rattle.sg_bonds.specs.Bounds.{ForcedTablesExceed};
ghost use Rattle.sg_bonds.specs.Cost.{IsLeastWith};
ghost use Rattle.sg_bonds.specs.Study.{IsStudy};

use super::states::BondStates;
use super::weaken::Study;
use sg_ground::{State, ground_state_within};
use sg_model::{Bond, Spins};
use sg_planar::Planar;
use sg_tjoin::Unproved;
use std::alloc::Global;

/// Spins and their energy, the least with some product at some bond.
#[derive(Drop)]
pub(crate) struct LeastState {
    pub energy: i64,
    pub spins: Spins,
}

/// The product that the spins do not have at the bond.
pub(crate) fn other_product(spins: &Spins, bond: &Bond) -> i64
    requires { IsBond (length spins.now) bond.now }
    ensures up_or_down { IsUpOrDown result }
    ensures other { product spins.now bond.now ≡ neg_ℤ result }
{
    if spins.at(bond.u as usize) == spins.at(bond.v as usize) {
        -1
    } else {
        1
    }
}

/// An assignment of the least energy among those with this product at the bond, by a new ground state of a copy that
/// forces it.
pub(crate) fn least_with(
    alloc: Global,
    study: &Study,
    bond: u32,
    wanted: i64,
) -> Result<LeastState, Unproved>
    requires study { IsStudy study.now }
    requires bond_in { bond < bond_count study.now.planar.now.instance }
    requires up_or_down { IsUpOrDown wanted }
    ensures least { IfOk result (λ t. IsLeastWith study.now.planar.now.instance bond wanted t.energy) }
    ensures assignment { IfOk result (λ t. IsAssignment study.now.planar.now.instance t.spins) }
    ensures product { IfOk result (λ t. product t.spins (bond_at study.now.planar.now.instance bond) ≡ wanted) }
    ensures energy { IfOk result (λ t. t.energy ≡ energy study.now.planar.now.instance t.spins) }
    ensures too_large { IfErr result (IfTooLarge (ForcedTablesExceed study.now.most_bytes study.now.planar.now.instance)) }
{
    let force = force(study.planar);
    let forced = study.planar.with_coupling(bond, signed(wanted, force))?;
    let least = ground_state_within(alloc, &forced, study.most_bytes)?;
    let coupling = study.planar.instance().bonds().at(bond as usize).j;
    let energy = least.energy + force - signed(wanted, coupling);
    Ok(LeastState {
        energy,
        spins: least.spins,
    })
}

/// A ground state: that which the regions prove, and else a new one.
pub(crate) fn least_state(
    alloc: Global,
    planar: &Planar,
    states: &mut BondStates,
    most_bytes: u64,
) -> Result<State, Unproved>
    requires states { states.old ≡ planar.now }
    ensures states { states.new ≡ planar.now }
    ensures ground_state { IfOk result (λ s. IsGroundState planar.now.instance s.spins) }
    ensures energy { IfOk result (λ s. s.energy ≡ energy planar.now.instance s.spins) }
    ensures too_large { IfErr result (IfTooLarge (TablesExceed most_bytes planar.now.instance)) }
{
    match states.ground_state(alloc)? {
        Some(state) => Ok(state),
        None => ground_state_within(alloc, planar, most_bytes),
    }
}

// One more than the sum of all sizes.
fn force(planar: &Planar) -> i64
    requires { weight planar.now.instance ≤ sum_limit }
    ensures { result ≡ pos (weight planar.now.instance + 1) }
{
    planar.instance().weight() as i64 + 1
}

// A number with the sign of a product.
fn signed(product: i64, number: i64) -> i64
    requires up_or_down { IsUpOrDown product }
    requires size { unsigned_abs number < 2 ^ 63 }
    ensures { result ≡ product *ℤ number }
{
    if product == 1 { number } else { -number }
}
