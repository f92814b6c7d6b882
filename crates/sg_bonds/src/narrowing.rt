// The costs of chosen bonds, by bounds that are narrowed until they meet.
ghost use Rattle.std.specs.Prelude.{◌≡◌, ◌<◌, ◌≤◌, length, All, IfErr, IfOk, OnOk};
ghost use Rattle.sg_base.specs.Limits.{sum_limit};
ghost use Rattle.sg_model.specs.Ising.{bond_count};
ghost use Rattle.sg_model.specs.Energy.{weight};
ghost use Rattle.sg_tjoin.specs.Allowance.{IfTooLarge};
ghost use Rattle.sg_bonds.specs.Bounds.{AreBounds, AreKnown, ForcedTablesExceed, IsKnown, Narrows, bound_at};
ghost use Rattle.sg_bonds.specs.Cost.{IsCost};
ghost use Rattle.sg_bonds.specs.Study.{IsStudy};

use super::bounds::{Bound, note};
use super::breaking::turn;
use super::forcing::least_state;
use super::paths::is_met;
use super::states::BondStates;
use super::waiting::Waiting;
use super::weaken::Study;
use sg_planar::Planar;
use sg_tjoin::Unproved;
use std::alloc::Global;

/// Narrows bounds of the costs of all bonds until both bounds of each asked bond are its cost: if the bounds
/// that are passed hold, so do these, and none is looser. Callers keep them from call to call, so that a search
/// can be stopped, continued and divided.
///
/// Regions grow once, and prove a ground state. That has one of the two products at a bond, and the state of
/// least energy with the other tells the cost: it is found by a repair of the regions, and if none is proved
/// there, by a ground state of a copy that forces the bond, where the tables of the matching fallback may take
/// `most_bytes` for each component. Each such state flips many bonds, and its energy bounds their costs from
/// above. If other bonds, each of which costs at least so much, lead from one end of a bond to the other, the
/// bond costs at least so much too: an assignment that flips it flips one of them. So the bond with the
/// largest bound is asked first, and where the two bounds meet, nothing is solved.
///
/// Cost: in practice one growth of the regions, and a repair and a walk over all bonds for each asked bond
/// whose bounds do not meet before. An instance that is not connected has no regions, and takes a ground
/// state for each.
pub fn costs_of(
    alloc: Global,
    planar: &Planar,
    asked: &[u32],
    bounds: &mut [Bound],
    most_bytes: u64,
) -> Result<(), Unproved>
    requires sum { weight planar.now.instance ≤ sum_limit }
    requires asked { All (λ k. k < bond_count planar.now.instance) asked.now }
    requires count { length bounds.old ≡ bond_count planar.now.instance }
    ensures narrows { OnOk result (Narrows planar.now.instance bounds.old bounds.new) }
    ensures known { OnOk result (AreBounds planar.now.instance bounds.old → AreKnown planar.now.instance bounds.new asked.now) }
    ensures too_large { IfErr result (IfTooLarge (ForcedTablesExceed most_bytes planar.now.instance)) }
{
    let mut states = BondStates::new(alloc, planar)?;
    let least = least_state(alloc, planar, &mut states, most_bytes)?;
    let study = Study {
        planar,
        least: &least,
        most_bytes,
    };
    narrow(alloc, &study, &mut states, asked, bounds)?;
    settle_all(alloc, &study, &mut states, asked, bounds)?;
    Ok(())
}

// Finds the costs of the asked bonds one by one, that with the largest upper bound first.
fn narrow(
    alloc: Global,
    study: &Study,
    states: &mut BondStates,
    asked: &[u32],
    bounds: &mut [Bound],
) -> Result<(), Unproved>
    requires study { IsStudy study.now }
    requires states { states.old ≡ study.now.planar.now }
    requires count { length bounds.old ≡ bond_count study.now.planar.now.instance }
    ensures states { OnOk result (states.new ≡ study.now.planar.now) }
    ensures narrows { OnOk result (Narrows study.now.planar.now.instance bounds.old bounds.new) }
    ensures too_large { IfErr result (IfTooLarge (ForcedTablesExceed study.now.most_bytes study.now.planar.now.instance)) }
{
    let mut waiting = Waiting::new(alloc, asked)?;
    for _ in 0..asked.len() {
        match waiting.next(bounds)? {
            Some(bond) => settle(alloc, study, states, bond, bounds)?,
            None => break,
        }
    }
    Ok(())
}

// Finds the cost of each asked bond. All of them are known by now, but nothing rests on that.
fn settle_all(
    alloc: Global,
    study: &Study,
    states: &mut BondStates,
    asked: &[u32],
    bounds: &mut [Bound],
) -> Result<(), Unproved>
    requires study { IsStudy study.now }
    requires states { states.old ≡ study.now.planar.now }
    requires asked { All (λ k. k < bond_count study.now.planar.now.instance) asked.now }
    requires count { length bounds.old ≡ bond_count study.now.planar.now.instance }
    ensures narrows { OnOk result (Narrows study.now.planar.now.instance bounds.old bounds.new) }
    ensures known { OnOk result (AreBounds study.now.planar.now.instance bounds.old → AreKnown study.now.planar.now.instance bounds.new asked.now) }
    ensures too_large { IfErr result (IfTooLarge (ForcedTablesExceed study.now.most_bytes study.now.planar.now.instance)) }
{
    for bond in asked {
        settle(alloc, study, states, *bond, bounds)?;
    }
    Ok(())
}

// Finds the cost of a bond: by its bounds if they meet, else by a state that flips it.
fn settle(
    alloc: Global,
    study: &Study,
    states: &mut BondStates,
    bond: u32,
    bounds: &mut [Bound],
) -> Result<(), Unproved>
    requires study { IsStudy study.now }
    requires states { states.old ≡ study.now.planar.now }
    requires bond_in { bond < bond_count study.now.planar.now.instance }
    requires count { length bounds.old ≡ bond_count study.now.planar.now.instance }
    ensures states { OnOk result (states.new ≡ study.now.planar.now) }
    ensures narrows { OnOk result (Narrows study.now.planar.now.instance bounds.old bounds.new) }
    ensures known { OnOk result (AreBounds study.now.planar.now.instance bounds.old → IsKnown study.now.planar.now.instance bond (bound_at bounds.new bond)) }
    ensures too_large { IfErr result (IfTooLarge (ForcedTablesExceed study.now.most_bytes study.now.planar.now.instance)) }
{
    let cost = cost_of(alloc, study, states, bond, bounds)?;
    bounds[bond as usize] = Bound {
        low: cost,
        high: cost,
    };
    Ok(())
}

// The cost of a bond: its upper bound if that is met, else by a state that flips it. That state lowers the upper
// bounds of the bonds that it flips.
fn cost_of(
    alloc: Global,
    study: &Study,
    states: &mut BondStates,
    bond: u32,
    bounds: &mut [Bound],
) -> Result<i64, Unproved>
    requires study { IsStudy study.now }
    requires states { states.old ≡ study.now.planar.now }
    requires bond_in { bond < bond_count study.now.planar.now.instance }
    requires count { length bounds.old ≡ bond_count study.now.planar.now.instance }
    ensures states { OnOk result (states.new ≡ study.now.planar.now) }
    ensures narrows { OnOk result (Narrows study.now.planar.now.instance bounds.old bounds.new) }
    ensures cost { IfOk result (λ cost. AreBounds study.now.planar.now.instance bounds.old → IsCost study.now.planar.now.instance bond cost) }
    ensures too_large { IfErr result (IfTooLarge (ForcedTablesExceed study.now.most_bytes study.now.planar.now.instance)) }
{
    if is_met(alloc, study.planar.instance(), bounds, bond)? {
        return Ok(bounds[bond as usize].high);
    }
    let turned = turn(alloc, study, states, bond)?;
    note(study.planar.instance(), &study.least.spins, &turned, bounds);
    Ok(turned.cost)
}
