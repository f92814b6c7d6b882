// One component.

ghost use Rattle.std.specs.Prelude.{◌+◌, ◌≤◌, true, IfErr, IfOk};
ghost use Rattle.sg_model.specs.Connected.{IsConnected};
ghost use Rattle.sg_planar.specs.Fit.{IsPlanar};
ghost use Rattle.sg_tjoin.specs.Allowance.{IfTooLarge};
ghost use Rattle.sg_tjoin.specs.Counted.{steps_of};
ghost use Rattle.sg_ground.specs.Allowance.{FacesExceed};
ghost use Rattle.sg_ground.specs.Counted.{join_steps};
ghost use Rattle.sg_ground.specs.Solution.{IsSolution};
ghost use Rattle.sg_ground.specs.TightJoin.{IsTightJoin};

use super::Answer;
use super::joins::dual_of;
use super::loops::cut_loops;
use super::whole::{joined_state, whole_state};
use sg_check::Loops;
use sg_planar::Planar;
use sg_tjoin::{Join, Taken, Unproved, least_join_counted};
use std::alloc::Global;

/// A ground state of a connected instance, with the loops that prove it, if they are wanted.
pub fn solve_part(
    alloc: Global,
    planar: &Planar,
    most_bytes: u64,
    with_loops: bool,
    steps: &mut Taken,
) -> Result<Answer, Unproved>
    requires connected { IsConnected planar.now.instance }
    ensures solution { IfOk result (λ a. IsSolution with_loops planar.now.instance a.spins a.energy a.loops) }
    ensures too_large { IfErr result (IfTooLarge (FacesExceed most_bytes planar.now)) }
    ensures steps { IfOk result (λ _. steps_of steps.new ≤ steps_of steps.old + join_steps planar.now) }
    ensures planar { IsPlanar planar.now }
{
    if with_loops {
        return proved_part(alloc, planar, most_bytes, steps);
    }
    let state = whole_state(alloc, planar, most_bytes, steps)?;
    Ok(Answer {
        spins: state.spins,
        energy: state.energy,
        loops: Loops::new(alloc),
    })
}

// The same with loops: the broken bonds are a minimum T-join of the frustrated faces, and the odd cuts
// that prove the T-join are the loops.
fn proved_part(
    alloc: Global,
    planar: &Planar,
    most_bytes: u64,
    steps: &mut Taken,
) -> Result<Answer, Unproved>
    requires connected { IsConnected planar.now.instance }
    ensures solution { IfOk result (λ a. IsSolution true planar.now.instance a.spins a.energy a.loops) }
    ensures too_large { IfErr result (IfTooLarge (FacesExceed most_bytes planar.now)) }
    ensures steps { IfOk result (λ _. steps_of steps.new ≤ steps_of steps.old + join_steps planar.now) }
    ensures planar { IsPlanar planar.now }
{
    let join = join_faces(alloc, planar, most_bytes, steps)?;
    let state = joined_state(alloc, planar, &join.edges, join.weight)?;
    let loops = cut_loops(alloc, join.cuts)?;
    Ok(Answer {
        spins: state.spins,
        energy: state.energy,
        loops,
    })
}

// A minimum T-join of the frustrated faces, with odd cuts that prove it.
#[tactic(auto, using(crate::proofs::CountedSteps::any_dual))]
fn join_faces(
    alloc: Global,
    planar: &Planar,
    most_bytes: u64,
    steps: &mut Taken,
) -> Result<Join, Unproved>
    requires connected { IsConnected planar.now.instance }
    ensures join { IfOk result (λ j. IsTightJoin planar.now j.edges j.weight j.cuts) }
    ensures too_large { IfErr result (IfTooLarge (FacesExceed most_bytes planar.now)) }
    ensures steps { IfOk result (λ _. steps_of steps.new ≤ steps_of steps.old + join_steps planar.now) }
    ensures planar { IsPlanar planar.now }
{
    let (web, frustrated) = dual_of(alloc, planar)?;
    least_join_counted(alloc, &web, &frustrated, most_bytes, steps)
}
