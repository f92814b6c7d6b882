// Upper bounds of costs by flips of parts of the spins.
ghost use Rattle.std.specs.Prelude.{◌≡◌, ◌+◌, ◌<◌, ◌≤◌, ◌^◌, ◌+ℤ◌, ◌*ℤ◌, ◌==◌, pos, if◌then◌else◌, length, replicate, set, slice_index, slice_index_or, unsigned_abs, IfOk};
ghost use Rattle.sg_base.specs.Limits.{sum_limit};
ghost use Rattle.sg_model.specs.Ising.{IsBond, bond_count};
ghost use Rattle.sg_model.specs.Spins.{IsAssignment};
ghost use Rattle.sg_model.specs.Energy.{IsGroundState, product, weight};
ghost use Rattle.sg_planar.specs.Walk.{has};
ghost use Rattle.sg_bonds.specs.Bounds.{Narrows};
ghost use Rattle.sg_bonds.specs.Flipped.{AreGains, ArePartNames, AreNamedParts};

use super::NoMemory;
use super::bounds::{Bound, is_turned, noted};
use super::components::numbers_below;
use sg_model::{Bond, Instance, Spins};
use sg_planar::names;
use std::alloc::Global;

/// Parts of the spins: for each spin the name of its part, and for each name what is gained by flipping that part.
#[derive(Drop)]
pub(crate) struct Parts {
    pub(crate) names: Vec<u32>,
    pub(crate) gains: Vec<i64>,
}

/// Each spin is a part of its own.
pub(crate) fn single_spins(alloc: Global, inst: &Instance, least: &Spins) -> Result<Parts, NoMemory>
    requires sum { weight inst.now ≤ sum_limit }
    requires assignment { IsAssignment inst.now least.now }
    ensures parts { IfOk result (AreNamedParts inst.now) }
    ensures gains { IfOk result (λ parts. AreGains inst.now least.now parts.names.items parts.gains.items) }
{
    let names = numbers_below(alloc, inst.n() as usize)?;
    with_gains(alloc, inst, least, names)
}

/// The parts between which the bonds are that another assignment flips.
pub(crate) fn parts_between(
    alloc: Global,
    inst: &Instance,
    least: &Spins,
    other: &Spins,
) -> Result<Parts, NoMemory>
    requires sum { weight inst.now ≤ sum_limit }
    requires first { IsAssignment inst.now least.now }
    requires second { IsAssignment inst.now other.now }
    ensures parts { IfOk result (AreNamedParts inst.now) }
    ensures gains { IfOk result (λ parts. AreGains inst.now least.now parts.names.items parts.gains.items) }
{
    let kept = kept_bonds(alloc, inst, least, other)?;
    let names = names(alloc, inst, &kept)?;
    with_gains(alloc, inst, least, names)
}

// For each bond whether the other assignment has the same product there.
fn kept_bonds(
    alloc: Global,
    inst: &Instance,
    least: &Spins,
    other: &Spins,
) -> Result<Vec<bool>, NoMemory>
    requires first { IsAssignment inst.now least.now }
    requires second { IsAssignment inst.now other.now }
    ensures { IfOk result (λ kept. length kept.items ≡ bond_count inst.now) }
{
    let mut kept = Vec::new(alloc);
    for bond in inst.bonds().as_slice() {
        kept.push(!is_turned(least, other, bond))?;
    }
    Ok(kept)
}

// For each part how far the assignment that flips it lies above the spins: twice the sum of what the bonds
// between it and the others are satisfied by.
fn with_gains(
    alloc: Global,
    inst: &Instance,
    least: &Spins,
    names: Vec<u32>,
) -> Result<Parts, NoMemory>
    requires sum { weight inst.now ≤ sum_limit }
    requires assignment { IsAssignment inst.now least.now }
    requires names { ArePartNames inst.now names.items }
    ensures parts { IfOk result (AreNamedParts inst.now) }
    ensures gains { IfOk result (λ parts. AreGains inst.now least.now parts.names.items parts.gains.items) }
{
    let mut gains = vec![in alloc; 0i64; inst.n() as usize]?;
    add_gains(inst, least, &names, &mut gains);
    Ok(Parts { names, gains })
}

// Adds what is gained at each bond to the two parts that it connects.
fn add_gains(inst: &Instance, least: &Spins, names: &[u32], gains: &mut [i64])
    requires sum { weight inst.now ≤ sum_limit }
    requires assignment { IsAssignment inst.now least.now }
    requires names { ArePartNames inst.now names.now }
    requires none { gains.old ≡ replicate inst.now.n (pos 0) }
    ensures count { length gains.new ≡ inst.now.n }
    ensures gains { AreGains inst.now least.now names.now gains.new }
{
    for bond in inst.bonds().as_slice() {
        let first = names[bond.u as usize];
        let second = names[bond.v as usize];
        let gain = gain_at(least, bond, first == second);
        add(gains, first as usize, gain);
        add(gains, second as usize, gain);
    }
}

// What is gained at a bond if one of its spins is flipped, unless both are.
fn gain_at(spins: &Spins, bond: &Bond, is_within: bool) -> i64
    requires joined { IsBond (length spins.now) bond.now }
    requires size { unsigned_abs bond.now.j ≤ sum_limit }
    ensures { result ≡ (if is_within then pos 0 else pos 2 *ℤ (bond.now.j *ℤ product spins.now bond.now)) }
{
    if is_within {
        return 0;
    }
    if spins.at(bond.u as usize) == spins.at(bond.v as usize) {
        2 * bond.j
    } else {
        -2 * bond.j
    }
}

// Adds to one number of a list.
fn add(list: &mut [i64], place: usize, amount: i64)
    requires within { place < length list.old }
    requires size { unsigned_abs (slice_index_or list.old place (pos 0)) + unsigned_abs amount < 2 ^ 63 }
    ensures { list.new ≡ set list.old place (slice_index_or list.old place (pos 0) +ℤ amount) }
{
    list[place] += amount;
}

/// Lowers the upper bound of each bond between two parts to the lesser gain of the two.
pub(crate) fn note_parts(inst: &Instance, least: &Spins, parts: &Parts, bounds: &mut [Bound])
    requires ground_state { IsGroundState inst.now least.now }
    requires parts { AreNamedParts inst.now parts.now }
    requires gains { AreGains inst.now least.now parts.now.names.items parts.now.gains.items }
    requires count { length bounds.old ≡ bond_count inst.now }
    ensures { Narrows inst.now bounds.old bounds.new }
{
    let names = parts.names.as_slice();
    let gains = parts.gains.as_slice();
    for (k, bond) in inst.bonds().as_slice().iter().enumerate() {
        let first = names[bond.u as usize] as usize;
        let second = names[bond.v as usize] as usize;
        let leaves = first != second;
        bounds[k] = noted(bounds[k], leaves, gains[first]);
        bounds[k] = noted(bounds[k], leaves, gains[second]);
    }
}
