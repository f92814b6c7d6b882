ghost use Rattle.std.specs.Prelude.{◌≡◌, ◌≤◌, length, IfErr, IfOk};
ghost use Rattle.sg_base.specs.Limits.{sum_limit};
ghost use Rattle.sg_model.specs.Ising.{bond_count};
ghost use Rattle.sg_model.specs.Energy.{weight};
ghost use Rattle.sg_bonds.specs.Cost.{AreCosts};
ghost use Rattle.sg_bonds.specs.Cluster.{AreClusters, HasRigid};
ghost use Rattle.sg_planar.specs.Walk.{has};
ghost use Rattle.sg_bonds.specs.Naming.{ShowsRigid};
ghost use Rattle.sg_bonds.specs.Weakened.{WeakenedTablesExceed};
ghost use Rattle.sg_tjoin.specs.Allowance.{IfTooLarge};

use super::NoMemory;
use super::breaking::rigid;
use super::telling::rigid_marks;
use sg_model::{ClusterList, Instance};
use sg_planar::{Planar, names};
use sg_tjoin::Unproved;
use std::alloc::{AllocError, Global};

/// For each spin the least spin of its cluster, those that it reaches over rigid bonds, itself among them. Which
/// bonds are rigid is found without their costs. The only error is that of an allocator that has no memory left.
///
/// Cost: some ten ground states in practice, and for each component a walk over its bonds.
pub fn clusters(alloc: Global, planar: &Planar) -> Result<ClusterList, NoMemory>
    requires sum { weight planar.now.instance ≤ sum_limit }
    ensures { IfOk result (AreClusters planar.now.instance) }
{
    match clusters_within(alloc, planar, u64::MAX) {
        Ok(found) => Ok(found),
        Err(Unproved::NoMemory) => Err(AllocError),
        Err(Unproved::TablesTooLarge) => unreachable!(),
    }
}

/// The clusters of [`clusters`], where the tables of the matching fallback may take `most_bytes` for each
/// component and each ground state.
pub fn clusters_within(
    alloc: Global,
    planar: &Planar,
    most_bytes: u64,
) -> Result<ClusterList, Unproved>
    requires sum { weight planar.now.instance ≤ sum_limit }
    ensures clusters { IfOk result (AreClusters planar.now.instance) }
    ensures too_large { IfErr result (IfTooLarge (WeakenedTablesExceed most_bytes planar.now.instance)) }
{
    let set = rigid_marks(alloc, planar, most_bytes)?;
    Ok(name_clusters(alloc, planar.instance(), &set)?)
}

/// The same, where the cost of each bond is known already: in time linear in the spins and bonds. The
/// only error is running out of memory.
pub fn clusters_by(alloc: Global, inst: &Instance, costs: &[i64]) -> Result<ClusterList, NoMemory>
    requires costs { AreCosts inst.now costs.now }
    ensures { IfOk result (AreClusters inst.now) }
{
    let set = rigid_set(alloc, costs)?;
    name_clusters(alloc, inst, &set)
}

// The clusters by the set of the rigid bonds.
fn name_clusters(alloc: Global, inst: &Instance, set: &[bool]) -> Result<ClusterList, NoMemory>
    requires count { length set.now ≡ bond_count inst.now }
    requires rigid { HasRigid inst.now (has set.now) }
    ensures { IfOk result (AreClusters inst.now) }
{
    let names = names(alloc, inst, set)?;
    Ok(ClusterList::from_vec(names))
}

// For each cost whether it is that of a rigid bond.
fn rigid_set(alloc: Global, costs: &[i64]) -> Result<Vec<bool>, NoMemory>
    ensures { IfOk result (λ set. ShowsRigid costs.now set.items (length costs.now)) }
{
    let mut set = Vec::new(alloc);
    for cost in costs {
        set.push(rigid(*cost))?;
    }
    Ok(set)
}
