// The ground state of a connected instance.
ghost use Rattle.std.specs.Prelude.{◌+◌, ◌≤◌, IfErr, IfOk};
ghost use Rattle.sg_model.specs.Connected.{IsConnected};
ghost use Rattle.sg_planar.specs.BrokenLists.{BreaksExactly};
ghost use Rattle.sg_planar.specs.Fit.{IsPlanar};
ghost use Rattle.sg_tjoin.specs.Allowance.{IfTooLarge};
ghost use Rattle.sg_tjoin.specs.Counted.{steps_of};
ghost use Rattle.sg_ground.specs.Allowance.{FacesExceed};
ghost use Rattle.sg_ground.specs.Counted.{join_steps};
ghost use Rattle.sg_ground.specs.Nested.{IsNestedState};
ghost use Rattle.sg_ground.specs.Solution.{IsState};
ghost use Rattle.sg_ground.specs.TightJoin.{IsWeighedJoin};

use super::NoMemory;
use super::answer::NestedState;
use super::joins::{broken_energy, weighed_join};
use super::state::State;
use sg_model::BondList;
use sg_planar::{Planar, spin_walk};
use sg_tjoin::{Taken, Unproved};
use std::alloc::Global;

/// The ground state that breaks just a minimum T-join of the frustrated faces, with the nest that proves
/// the T-join, where one was found.
pub fn whole_state(
    alloc: Global,
    planar: &Planar,
    most_bytes: u64,
    steps: &mut Taken,
) -> Result<NestedState, Unproved>
    requires connected { IsConnected planar.now.instance }
    ensures state { IfOk result (λ a. IsNestedState planar.now a.spins a.energy a.nest) }
    ensures too_large { IfErr result (IfTooLarge (FacesExceed most_bytes planar.now)) }
    ensures steps { IfOk result (λ _. steps_of steps.new ≤ steps_of steps.old + join_steps planar.now) }
    ensures planar { IsPlanar planar.now }
{
    let join = weighed_join(alloc, planar, most_bytes, steps)?;
    let state = joined_state(alloc, planar, &join.edges, join.weight)?;
    Ok(NestedState {
        spins: state.spins,
        energy: state.energy,
        nest: join.nest,
    })
}

/// The ground state that breaks just the edges of this minimum T-join, and its energy by their weight.
pub fn joined_state(
    alloc: Global,
    planar: &Planar,
    edges: &BondList,
    weight: i64,
) -> Result<State, NoMemory>
    requires connected { IsConnected planar.now.instance }
    requires join { IsWeighedJoin planar.now edges.now weight }
    ensures breaks { IfOk result (λ a. BreaksExactly planar.now.instance a.spins edges.now) }
    ensures state { IfOk result (λ a. IsState planar.now.instance a.spins a.energy) }
    ensures planar { IsPlanar planar.now }
{
    let inst = planar.instance();
    let spins = spin_walk(alloc, planar, edges)?;
    let energy = broken_energy(inst, weight);
    Ok(State { spins, energy })
}
