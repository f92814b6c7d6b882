ghost use Rattle.std.specs.Prelude.{◌≡◌, ◌↔◌, ◌+ℤ◌, ◌<◌, ◌<ℤ◌, All, length, map, neg_ℤ, pos, IfErr, IfOk, IsTrue, OnOk};
ghost use Rattle.sg_model.specs.Broken.{is_broken};
ghost use Rattle.sg_model.specs.Ising.{IsBond, bond_at, bond_count};
ghost use Rattle.sg_model.specs.Spins.{IsUpOrDown};
ghost use Rattle.sg_model.specs.Energy.{energy, product};
ghost use Rattle.sg_tjoin.specs.Allowance.{IfTooLarge};
ghost use Rattle.sg_bonds.specs.Bounds.{ForcedTablesExceed};
ghost use Rattle.sg_bonds.specs.Cost.{IsCost, IsLeastWith};
ghost use Rattle.sg_bonds.specs.Study.{IsStudy};
ghost use Rattle.sg_bonds.specs.Turned.{HasBroken, IsTurned};

use super::NoMemory;
use super::bounds::Turned;
use super::forcing::{least_with, other_product};
use super::states::{BondStates, LeastBroken, breaks};
use super::weaken::{Study, product_at};
use sg_base::{flip, places};
use sg_model::{Bond, Spins};
use sg_tjoin::Unproved;
use std::alloc::Global;

/// Whether a bond of this cost is rigid.
pub fn rigid(cost: i64) -> bool
    ensures { IsTrue result ↔ (pos 0 <ℤ cost) }
{
    cost > 0
}

/// The bonds that a state of least energy among those that flip the bond turns, and so the cost of the bond: by what
/// repairs prove, and else by a ground state of a copy that forces the bond.
pub(crate) fn turn(
    alloc: Global,
    study: &Study,
    states: &mut BondStates,
    bond: u32,
) -> Result<Turned, Unproved>
    requires study { IsStudy study.now }
    requires states { states.old ≡ study.now.planar.now }
    requires bond_in { bond < bond_count study.now.planar.now.instance }
    ensures states { OnOk result (states.new ≡ study.now.planar.now) }
    ensures cost { IfOk result (λ t. IsCost study.now.planar.now.instance bond t.cost) }
    ensures turned { IfOk result (IsTurned study.now.planar.now.instance study.now.least.now.spins) }
    ensures too_large { IfErr result (IfTooLarge (ForcedTablesExceed study.now.most_bytes study.now.planar.now.instance)) }
{
    let ends = study.planar.instance().bonds().at(bond as usize);
    let other = other_product(&study.least.spins, ends);
    let found = broken_with(alloc, study, states, bond, other)?;
    let cost = gap(study, bond, other, found.energy);
    Ok(turned_by(alloc, study, cost, &found)?)
}

// What a state of the least energy among those with this product at the bond breaks: by what repairs prove, and else
// by a ground state of a copy that forces it.
fn broken_with(
    alloc: Global,
    study: &Study,
    states: &mut BondStates,
    bond: u32,
    wanted: i64,
) -> Result<LeastBroken, Unproved>
    requires study { IsStudy study.now }
    requires states { states.old ≡ study.now.planar.now }
    requires bond_in { bond < bond_count study.now.planar.now.instance }
    requires up_or_down { IsUpOrDown wanted }
    ensures states { states.new ≡ study.now.planar.now }
    ensures least { IfOk result (λ t. IsLeastWith study.now.planar.now.instance bond wanted t.energy) }
    ensures breaks { IfOk result (λ t. HasBroken study.now.planar.now.instance t.energy t.bonds) }
    ensures too_large { IfErr result (IfTooLarge (ForcedTablesExceed study.now.most_bytes study.now.planar.now.instance)) }
{
    match states.least_with(alloc, bond, wanted)? {
        Some(found) => Ok(found),
        None => forced_with(alloc, study, bond, wanted),
    }
}

// What a ground state of a copy breaks that forces this product at the bond.
fn forced_with(
    alloc: Global,
    study: &Study,
    bond: u32,
    wanted: i64,
) -> Result<LeastBroken, Unproved>
    requires study { IsStudy study.now }
    requires bond_in { bond < bond_count study.now.planar.now.instance }
    requires up_or_down { IsUpOrDown wanted }
    ensures least { IfOk result (λ t. IsLeastWith study.now.planar.now.instance bond wanted t.energy) }
    ensures breaks { IfOk result (λ t. HasBroken study.now.planar.now.instance t.energy t.bonds) }
    ensures too_large { IfErr result (IfTooLarge (ForcedTablesExceed study.now.most_bytes study.now.planar.now.instance)) }
{
    let state = least_with(alloc, study, bond, wanted)?;
    let marks = broken_marks(
        alloc,
        study.planar.instance().bonds().as_slice(),
        &state.spins,
    )?;
    Ok(LeastBroken {
        energy: state.energy,
        bonds: places(alloc, &marks)?,
    })
}

// How far a state lies above the ground state that is least with the other product at the bond: the cost of the bond.
fn gap(study: &Study, bond: u32, other: i64, least: i64) -> i64
    requires study { IsStudy study.now }
    requires bond_in { bond < bond_count study.now.planar.now.instance }
    requires up_or_down { IsUpOrDown other }
    requires other { product study.now.least.now.spins (bond_at study.now.planar.now.instance bond) ≡ neg_ℤ other }
    requires least { IsLeastWith study.now.planar.now.instance bond other least }
    ensures cost { IsCost study.now.planar.now.instance bond result }
    ensures above { least ≡ energy study.now.planar.now.instance study.now.least.now.spins +ℤ result }
{
    let _bonds = study.planar.instance().bonds();
    least - study.least.energy
}

// For each bond whether the spins break it.
fn broken_marks(alloc: Global, bonds: &[Bond], spins: &Spins) -> Result<Vec<bool>, NoMemory>
    requires { All (IsBond (length spins.now)) bonds.now }
    ensures { IfOk result (λ marks. marks.items ≡ map (is_broken spins.now) bonds.now) }
{
    let mut marks = Vec::with_capacity(alloc, bonds.len())?;
    for bond in bonds {
        marks.push(breaks(bond, product_at(spins, bond)))?;
    }
    Ok(marks)
}

// The bonds that are turned by a state which lies so far above the ground state.
fn turned_by(
    alloc: Global,
    study: &Study,
    cost: i64,
    found: &LeastBroken,
) -> Result<Turned, NoMemory>
    requires study { IsStudy study.now }
    requires breaks { HasBroken study.now.planar.now.instance found.now.energy found.now.bonds }
    requires above { found.now.energy ≡ energy study.now.planar.now.instance study.now.least.now.spins +ℤ cost }
    ensures cost { IfOk result (λ t. t.cost ≡ cost) }
    ensures turned { IfOk result (IsTurned study.now.planar.now.instance study.now.least.now.spins) }
{
    let bonds = study.planar.instance().bonds().as_slice();
    let mut marks = broken_marks(alloc, bonds, &study.least.spins)?;
    flip(&mut marks, found.bonds.as_slice());
    Ok(Turned { cost, marks })
}
