ghost use Rattle.std.specs.Prelude.{◌+◌, ◌≤◌, unsigned_abs, IfErr, IfOk};
ghost use Rattle.sg_model.specs.Connected.{IsConnected};
ghost use Rattle.sg_model.specs.Energy.{weight, IsLeastEnergy};
ghost use Rattle.sg_planar.specs.Fit.{IsPlanar};
ghost use Rattle.sg_tjoin.specs.Allowance.{IfTooLarge};
ghost use Rattle.sg_tjoin.specs.Counted.{steps_of};
ghost use Rattle.sg_ground.specs.Allowance.{FacesExceed, TablesExceed};
ghost use Rattle.sg_ground.specs.Counted.{AddsSteps, join_steps};

use super::NoMemory;
use super::joins::{broken_energy, weighed_join};
use super::parts::solve_all;
use sg_planar::Planar;
use sg_tjoin::{Taken, Unproved};
use std::alloc::{AllocError, Global};

/// The least energy, for callers that need no spins: twice the weight of a minimum T-join of the
/// frustrated faces, less the weight of all bonds; and of several components their sum. The only error
/// is that of an allocator that has no memory left.
///
/// Cost: that of `ground_state`; of a connected instance without its walk over the bonds.
pub fn least_energy(alloc: Global, planar: &Planar) -> Result<i64, NoMemory>
    ensures least { IfOk result (IsLeastEnergy planar.now.instance) }
    ensures size { IfOk result (λ e. unsigned_abs e ≤ weight planar.now.instance) }
{
    match least_energy_within(alloc, planar, u64::MAX) {
        Ok(energy) => Ok(energy),
        Err(Unproved::NoMemory) => Err(AllocError),
        Err(Unproved::TablesTooLarge) => unreachable!(),
    }
}

/// The energy of [`least_energy`], where the tables of the matching fallback may take `most_bytes` for
/// each component.
pub fn least_energy_within(alloc: Global, planar: &Planar, most_bytes: u64) -> Result<i64, Unproved>
    ensures least { IfOk result (IsLeastEnergy planar.now.instance) }
    ensures size { IfOk result (λ e. unsigned_abs e ≤ weight planar.now.instance) }
    ensures too_large { IfErr result (IfTooLarge (TablesExceed most_bytes planar.now.instance)) }
{
    let mut steps = Taken::new();
    least_energy_counted(alloc, planar, most_bytes, &mut steps)
}

/// The energy of [`least_energy_within`], and the count of the steps that it took, with the bound of
/// [`solve_counted`](super::solve_counted).
#[tactic(auto, using(crate::proofs::CountedSteps::any_whole, sg_model::proofs::EnergyBounds::least_of_ground_state))]
pub fn least_energy_counted(
    alloc: Global,
    planar: &Planar,
    most_bytes: u64,
    steps: &mut Taken,
) -> Result<i64, Unproved>
    ensures least { IfOk result (IsLeastEnergy planar.now.instance) }
    ensures size { IfOk result (λ e. unsigned_abs e ≤ weight planar.now.instance) }
    ensures too_large { IfErr result (IfTooLarge (TablesExceed most_bytes planar.now.instance)) }
    ensures steps { IfOk result (λ _. AddsSteps 0 planar.now (steps_of steps.old) (steps_of steps.new)) }
{
    if planar.is_connected() {
        return energy_of_whole(alloc, planar, most_bytes, steps);
    }
    let answer = solve_all(alloc, planar, most_bytes, false, steps)?;
    Ok(answer.energy)
}

// The least energy of a connected instance, by the weight of a minimum T-join.
fn energy_of_whole(
    alloc: Global,
    planar: &Planar,
    most_bytes: u64,
    steps: &mut Taken,
) -> Result<i64, Unproved>
    requires connected { IsConnected planar.now.instance }
    ensures least { IfOk result (IsLeastEnergy planar.now.instance) }
    ensures size { IfOk result (λ e. unsigned_abs e ≤ weight planar.now.instance) }
    ensures too_large { IfErr result (IfTooLarge (FacesExceed most_bytes planar.now)) }
    ensures steps { IfOk result (λ _. steps_of steps.new ≤ steps_of steps.old + join_steps planar.now) }
    ensures planar { IsPlanar planar.now }
{
    let join = weighed_join(alloc, planar, most_bytes, steps)?;
    Ok(broken_energy(planar.instance(), join.weight))
}
