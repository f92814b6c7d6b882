// Bounds from below: a bond costs at least as much as the cheapest bond on a path that joins its ends.
ghost use Rattle.std.specs.Prelude.{◌≡◌, ◌<◌, ℕ, true, false, int_le, length, replicate, IfOk};
ghost use Rattle.sg_model.specs.Ising.{bond_at, bond_count};
ghost use Rattle.sg_model.specs.Connected.{Reached};
ghost use Rattle.sg_planar.specs.Walk.{has};
ghost use Rattle.sg_bonds.specs.Bounds.{IsMet, costs_at_least};

use super::NoMemory;
use super::bounds::Bound;
use sg_model::Instance;
use sg_planar::walk;
use std::alloc::Global;

/// Whether the upper bound of the bond is a lower bound too: no cost is below 0, and none is below the costs
/// of bonds on a path that joins the ends.
pub(crate) fn is_met(
    alloc: Global,
    inst: &Instance,
    bounds: &[Bound],
    bond: u32,
) -> Result<bool, NoMemory>
    requires count { length bounds.now ≡ bond_count inst.now }
    requires bond_in { bond < bond_count inst.now }
    ensures { IfOk result (λ met. met ≡ true → IsMet inst.now bounds.now bond) }
{
    let Bound { low, high } = bounds[bond as usize];
    if high < 0 {
        return Ok(false);
    }
    if high == 0 || high <= low {
        return Ok(true);
    }
    let set = at_least(alloc, bounds, high)?;
    let is_joined = joins(alloc, inst, &set, bond)?;
    Ok(is_joined)
}

// For each bond whether it is known to cost at least so much.
fn at_least(alloc: Global, bounds: &[Bound], least: i64) -> Result<Vec<bool>, NoMemory>
    ensures count { IfOk result (λ set. length set.items ≡ length bounds.now) }
    ensures each { IfOk result (λ set. (k : ℕ) → k < length bounds.now → has set.items k ≡ costs_at_least bounds.now least k) }
{
    let mut set = Vec::with_capacity(alloc, bounds.len())?;
    for bound in bounds {
        set.push(is_at_least(*bound, least))?;
    }
    Ok(set)
}

// Whether the lower bound is at least so much.
fn is_at_least(bound: Bound, least: i64) -> bool
    ensures { result ≡ int_le least bound.low }
{
    least <= bound.low
}

/// Whether bonds of the set lead from one end of the bond to the other.
pub(crate) fn joins(
    alloc: Global,
    inst: &Instance,
    set: &[bool],
    bond: u32,
) -> Result<bool, NoMemory>
    requires count { length set.now ≡ bond_count inst.now }
    requires bond_in { bond < bond_count inst.now }
    ensures { IfOk result (λ joined. joined ≡ true →
        Reached inst.now (has set.now) (bond_at inst.now bond).u (bond_at inst.now bond).v) }
{
    let mut marks = vec![in alloc; false; inst.n() as usize]?;
    let mut order = Vec::new(alloc);
    leads_across(inst, set, bond, &mut marks, &mut order)
}

// The same, over marks that are not set.
fn leads_across(
    inst: &Instance,
    set: &[bool],
    bond: u32,
    marks: &mut [bool],
    order: &mut Vec<u32>,
) -> Result<bool, NoMemory>
    requires count { length set.now ≡ bond_count inst.now }
    requires bond_in { bond < bond_count inst.now }
    requires marks { marks.old ≡ replicate inst.now.n false }
    ensures { IfOk result (λ joined. joined ≡ true →
        Reached inst.now (has set.now) (bond_at inst.now bond).u (bond_at inst.now bond).v) }
{
    let ends = inst.bonds().at(bond as usize);
    walk(inst, set, ends.u, marks, order)?;
    Ok(marks[ends.v as usize])
}
