// Minimum T-joins of the frustrated faces of one component, with their weight, and the energy by
// it.
ghost use Rattle.std.specs.Prelude.{◌≡◌, ◌+◌, ◌≤◌, ◌+ℤ◌, ◌-ℤ◌, ◌%◌, length, pos, unsigned_abs, IfErr, IfOk, IfSome};
ghost use Rattle.sg_base.specs.Limits.{forced_limit};
ghost use Rattle.sg_model.specs.Connected.{IsConnected};
ghost use Rattle.sg_model.specs.Energy.{weight};
ghost use Rattle.sg_planar.specs.Fit.{IsPlanar};
ghost use Rattle.sg_graph.specs.Join.{AreTerminals};
ghost use Rattle.sg_graph.specs.Walk.{IsConnectedWeb};
ghost use Rattle.sg_graph.specs.Web.{total_weight};
ghost use Rattle.sg_dual.specs.Dual.{dual_web, frustrated_faces};
ghost use Rattle.sg_nest.specs.Nest.{NestProves};
ghost use Rattle.sg_tjoin.specs.Allowance.{IfTooLarge};
ghost use Rattle.sg_tjoin.specs.Counted.{steps_of};
ghost use Rattle.sg_ground.specs.Allowance.{FacesExceed};
ghost use Rattle.sg_ground.specs.Counted.{join_steps};
ghost use Rattle.sg_ground.specs.TightJoin.{IsWeighedJoin};

use super::NoMemory;
use sg_dual::dual;
use sg_graph::{Terminals, Web};
use sg_model::Instance;
use sg_planar::Planar;
use sg_tjoin::{LeastJoin, Taken, Unproved, least_weight_counted};
use std::alloc::Global;

/// The dual of a connected instance, and its frustrated faces, of which a minimum T-join can be
/// asked.
pub fn dual_of(alloc: Global, planar: &Planar) -> Result<(Web, Terminals), NoMemory>
    requires connected { IsConnected planar.now.instance }
    ensures web { IfOk result (λ d. d.0 ≡ dual_web planar.now.instance planar.now.faces) }
    ensures frustrated { IfOk result (λ d. d.1 ≡ frustrated_faces planar.now.instance planar.now.faces) }
    ensures terminals { IfOk result (λ d. AreTerminals d.0 d.1) }
    ensures even { IfOk result (λ d. length d.1 % 2 ≡ 0) }
    ensures connected { IfOk result (λ d. IsConnectedWeb d.0) }
    ensures light { IfOk result (λ d. total_weight d.0 ≤ forced_limit) }
    ensures planar { IsPlanar planar.now }
{
    dual(alloc, planar.instance(), planar.faces())
}

/// A minimum T-join of the frustrated faces of a connected instance, its weight, and a nest that proves
/// it, where one was found. Its steps are counted.
#[tactic(auto, using(crate::proofs::CountedSteps::any_dual, crate::proofs::WeighedJoins::any_join))]
pub fn weighed_join(
    alloc: Global,
    planar: &Planar,
    most_bytes: u64,
    steps: &mut Taken,
) -> Result<LeastJoin, Unproved>
    requires connected { IsConnected planar.now.instance }
    ensures join { IfOk result (λ j. IsWeighedJoin planar.now j.edges j.weight) }
    ensures proves { IfOk result (λ j. IfSome j.nest (NestProves
        (dual_web planar.now.instance planar.now.faces) (frustrated_faces planar.now.instance planar.now.faces) j.edges)) }
    ensures too_large { IfErr result (IfTooLarge (FacesExceed most_bytes planar.now)) }
    ensures steps { IfOk result (λ _. steps_of steps.new ≤ steps_of steps.old + join_steps planar.now) }
    ensures planar { IsPlanar planar.now }
{
    let (web, frustrated) = dual_of(alloc, planar)?;
    least_weight_counted(alloc, &web, &frustrated, most_bytes, steps)
}

/// The energy where the broken bonds weigh so much: twice that, less the weight of all bonds.
pub fn broken_energy(inst: &Instance, broken: i64) -> i64
    requires sum { weight inst.now ≤ forced_limit }
    requires light { unsigned_abs broken ≤ forced_limit }
    ensures { result ≡ (broken +ℤ broken) -ℤ pos (weight inst.now) }
{
    let all = inst.weight() as i64;
    broken + broken - all
}
