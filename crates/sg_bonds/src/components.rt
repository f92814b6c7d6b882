// The costs of an instance, from those of its components.
ghost use Rattle.std.specs.Prelude.{◌≡◌, ◌<◌, ◌≤◌, ◌^◌, ℕ, length, map, slice_index_or, All, IfOk};
ghost use Rattle.std.specs.List.Sorted.{IsStrictlyIncreasing};
ghost use Rattle.sg_base.specs.Limits.{sum_limit};
ghost use Rattle.sg_model.specs.Energy.{weight};
ghost use Rattle.sg_model.specs.Ising.{bond_count};
ghost use Rattle.sg_planar.specs.Parts.{AreParts};
ghost use Rattle.sg_ground.specs.Placed.{WritesAt};
ghost use Rattle.sg_bonds.specs.Bounds.{AreBounds};
ghost use Rattle.sg_bonds.specs.Cost.{AreCosts};

use super::bounds::Bound;
use super::narrowing::costs_of;
use super::{CostList, NoMemory};
use sg_model::Instance;
use sg_planar::{Division, Part, Planar, divide};
use sg_tjoin::Unproved;
use std::alloc::{AllocError, Global};

/// The cost of each bond. The only error is running out of memory.
///
/// A bond costs in its component what it costs in the whole, so where there are several, each is copied and taken by
/// itself. Its costs are found as in [`costs_of`].
///
/// Cost: in practice one growth of each component's regions and a repair for about each spin, at most one
/// for each bond; beside them a walk over the bonds of its component for each bond.
pub fn costs(alloc: Global, planar: &Planar) -> Result<CostList, NoMemory>
    requires sum { weight planar.now.instance ≤ sum_limit }
    ensures { IfOk result (AreCosts planar.now.instance) }
{
    match divide(alloc, planar)? {
        Division::Whole => part_costs(alloc, planar),
        Division::Several(list) => join_costs(alloc, planar.instance(), list.as_slice()),
    }
}

// The costs of these parts, by the numbers that the bonds have in the whole.
fn join_costs(alloc: Global, inst: &Instance, parts: &[Part]) -> Result<CostList, NoMemory>
    requires sum { weight inst.now ≤ sum_limit }
    requires parts { AreParts inst.now parts.now }
    ensures { IfOk result (AreCosts inst.now) }
{
    let mut costs = vec![in alloc; 0i64; inst.bonds().len()]?;
    for part in parts {
        let found = part_costs(alloc, &part.planar)?;
        place_costs(&mut costs, part.bonds.as_slice(), found.as_slice());
    }
    Ok(CostList::from_vec(costs))
}

// The costs in one component, or in all of a connected instance.
fn part_costs(alloc: Global, planar: &Planar) -> Result<CostList, NoMemory>
    requires sum { weight planar.now.instance ≤ sum_limit }
    ensures { IfOk result (AreCosts planar.now.instance) }
{
    let asked = numbers_below(alloc, planar.instance().bonds().len())?;
    let mut bounds = vec![in alloc; Bound { low: -1, high: -1 }; asked.len()]?;
    all_costs(alloc, planar, &asked, &mut bounds)
}

// The costs of all bonds, by bounds of them that are narrowed.
fn all_costs(
    alloc: Global,
    planar: &Planar,
    asked: &[u32],
    bounds: &mut [Bound],
) -> Result<CostList, NoMemory>
    requires sum { weight planar.now.instance ≤ sum_limit }
    requires count { length asked.now ≡ bond_count planar.now.instance }
    requires each { (k : ℕ) → k < bond_count planar.now.instance → slice_index_or asked.now k 0 ≡ k }
    requires bounds { AreBounds planar.now.instance bounds.old }
    ensures { IfOk result (AreCosts planar.now.instance) }
{
    match costs_of(alloc, planar, asked, bounds, u64::MAX) {
        Ok(()) => Ok(CostList::from_vec(lower_bounds(alloc, bounds)?)),
        Err(Unproved::NoMemory) => Err(AllocError),
        Err(Unproved::TablesTooLarge) => unreachable!(),
    }
}

/// The numbers below this one.
pub(crate) fn numbers_below(alloc: Global, count: usize) -> Result<Vec<u32>, NoMemory>
    requires { count ≤ 2 ^ 32 }
    ensures count { IfOk result (λ list. length list.items ≡ count) }
    ensures each { IfOk result (λ list. (k : ℕ) → k < count → slice_index_or list.items k 0 ≡ k) }
{
    let mut list = Vec::with_capacity(alloc, count)?;
    for k in 0..count {
        list.push(k as u32)?;
    }
    Ok(list)
}

// The lower bounds.
fn lower_bounds(alloc: Global, bounds: &[Bound]) -> Result<Vec<i64>, NoMemory>
    ensures { IfOk result (λ list. list.items ≡ map (λ bound. bound.low) bounds.now) }
{
    bounds.iter().map(|bound| bound.low).collect(alloc)
}

// Writes the costs of a part to the places of its bonds.
fn place_costs(costs: &mut [i64], places: &[u32], part: &[i64])
    requires rising { IsStrictlyIncreasing places.now }
    requires below { All (λ k. k < length costs.old) places.now }
    requires count { length part.now ≡ length places.now }
    ensures { WritesAt places.now part.now costs.old costs.new }
{
    for (i, place) in places.iter().enumerate() {
        costs[*place as usize] = part[i];
    }
}
