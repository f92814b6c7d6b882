ghost use Rattle.std.specs.Prelude.{◌≡◌, ◌≤◌, unsigned_abs, IfErr, IfOk};
ghost use Rattle.sg_model.specs.Connected.{LeastsUp};
ghost use Rattle.sg_model.specs.Energy.{energy, weight, IsGroundState};
ghost use Rattle.sg_tjoin.specs.Allowance.{IfTooLarge};
ghost use Rattle.sg_tjoin.specs.Counted.{steps_of};
ghost use Rattle.sg_ground.specs.Allowance.{TablesExceed};
ghost use Rattle.sg_ground.specs.Counted.{AddsSteps};

use super::NoMemory;
use super::parts::solve_all;
use sg_model::Spins;
use sg_planar::Planar;
use sg_tjoin::{Taken, Unproved};
use std::alloc::{AllocError, Global};

/// A ground state with the least spin of each component up, and its energy.
#[derive(Drop)]
pub struct State {
    pub spins: Spins,
    pub energy: i64,
}

/// A ground state and its energy, for callers that print no loops: none are made where the regions
/// that grow on the dual prove the T-join themselves.
///
/// The instance need not be connected: each component is solved by itself, and its least spin is up.
/// Which of several ground states is answered is not said. The only error is that of an allocator that
/// has no memory left.
///
/// Cost: that of `sg_tjoin::least_weight` on the frustrated faces of each component, and linear in the
/// instance for all components together. An instance that is connected is solved as it is, without a
/// copy.
pub fn ground_state(alloc: Global, planar: &Planar) -> Result<State, NoMemory>
    ensures ground_state { IfOk result (λ s. IsGroundState planar.now.instance s.spins) }
    ensures first_up { IfOk result (λ s. LeastsUp planar.now.instance s.spins) }
    ensures energy { IfOk result (λ s. s.energy ≡ energy planar.now.instance s.spins) }
    ensures size { IfOk result (λ s. unsigned_abs s.energy ≤ weight planar.now.instance) }
{
    match ground_state_within(alloc, planar, u64::MAX) {
        Ok(state) => Ok(state),
        Err(Unproved::NoMemory) => Err(AllocError),
        Err(Unproved::TablesTooLarge) => unreachable!(),
    }
}

/// The state of [`ground_state`], where the tables of the matching fallback may take `most_bytes` for each
/// component.
pub fn ground_state_within(
    alloc: Global,
    planar: &Planar,
    most_bytes: u64,
) -> Result<State, Unproved>
    ensures ground_state { IfOk result (λ s. IsGroundState planar.now.instance s.spins) }
    ensures first_up { IfOk result (λ s. LeastsUp planar.now.instance s.spins) }
    ensures energy { IfOk result (λ s. s.energy ≡ energy planar.now.instance s.spins) }
    ensures size { IfOk result (λ s. unsigned_abs s.energy ≤ weight planar.now.instance) }
    ensures too_large { IfErr result (IfTooLarge (TablesExceed most_bytes planar.now.instance)) }
{
    let mut steps = Taken::new();
    ground_state_counted(alloc, planar, most_bytes, &mut steps)
}

/// The state of [`ground_state_within`], and the count of the steps that it took, with the bound of
/// [`solve_counted`](super::solve_counted).
pub fn ground_state_counted(
    alloc: Global,
    planar: &Planar,
    most_bytes: u64,
    steps: &mut Taken,
) -> Result<State, Unproved>
    ensures ground_state { IfOk result (λ s. IsGroundState planar.now.instance s.spins) }
    ensures first_up { IfOk result (λ s. LeastsUp planar.now.instance s.spins) }
    ensures energy { IfOk result (λ s. s.energy ≡ energy planar.now.instance s.spins) }
    ensures size { IfOk result (λ s. unsigned_abs s.energy ≤ weight planar.now.instance) }
    ensures too_large { IfErr result (IfTooLarge (TablesExceed most_bytes planar.now.instance)) }
    ensures steps { IfOk result (λ _. AddsSteps 0 planar.now (steps_of steps.old) (steps_of steps.new)) }
{
    let answer = solve_all(alloc, planar, most_bytes, false, steps)?;
    Ok(State {
        spins: answer.spins,
        energy: answer.energy,
    })
}
