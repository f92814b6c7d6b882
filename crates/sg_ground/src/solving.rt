ghost use Rattle.std.specs.Prelude.{◌≡◌, ◌≤◌, unsigned_abs, IfErr, IfOk};
ghost use Rattle.sg_model.specs.Connected.{LeastsUp};
ghost use Rattle.sg_model.specs.Energy.{energy, weight, IsGroundState};
ghost use Rattle.sg_check.specs.Packing.{IsShort, Proves};
ghost use Rattle.sg_tjoin.specs.Allowance.{IfTooLarge};
ghost use Rattle.sg_tjoin.specs.Counted.{steps_of};
ghost use Rattle.sg_ground.specs.Allowance.{TablesExceed};
ghost use Rattle.sg_ground.specs.Counted.{AddsSteps};

use super::parts::solve_all;
use super::{Answer, NoMemory};
use sg_planar::Planar;
use sg_tjoin::{Taken, Unproved};
use std::alloc::{AllocError, Global};

/// A ground state, with a packing of frustrated loops that proves it by plain addition.
///
/// `sg_check` judges spins, energy and loops as a proof: the loops go through no bond with more than
/// twice the size of its coupling, and together weigh the energy plus the weight of all bonds. There
/// are at most five loops for each two bonds. The instance need not be connected: each component is
/// solved by itself, and its least spin is up. Which of several ground states is answered, and with
/// which packing, is not said. The only error is that of an allocator that has no memory left.
///
/// Cost: that of `sg_tjoin::least_join` on the frustrated faces of each component, and linear in the
/// instance and the answer for all components together. An instance that is connected is solved as
/// it is, without a copy.
pub fn solve(alloc: Global, planar: &Planar) -> Result<Answer, NoMemory>
    ensures proves { IfOk result
        (λ a. Proves planar.now.instance a.spins a.energy a.loops) }
    ensures short { IfOk result (λ a. IsShort planar.now.instance a.loops) }
    ensures ground_state { IfOk result (λ a. IsGroundState planar.now.instance a.spins) }
    ensures first_up { IfOk result (λ a. LeastsUp planar.now.instance a.spins) }
    ensures energy { IfOk result (λ a. a.energy ≡ energy planar.now.instance a.spins) }
    ensures size { IfOk result (λ a. unsigned_abs a.energy ≤ weight planar.now.instance) }
{
    match solve_within(alloc, planar, u64::MAX) {
        Ok(answer) => Ok(answer),
        Err(Unproved::NoMemory) => Err(AllocError),
        Err(Unproved::TablesTooLarge) => unreachable!(),
    }
}

/// The answer of [`solve`], where the tables of the matching fallback may take `most_bytes` for each
/// component.
pub fn solve_within(alloc: Global, planar: &Planar, most_bytes: u64) -> Result<Answer, Unproved>
    ensures proves { IfOk result
        (λ a. Proves planar.now.instance a.spins a.energy a.loops) }
    ensures short { IfOk result (λ a. IsShort planar.now.instance a.loops) }
    ensures ground_state { IfOk result (λ a. IsGroundState planar.now.instance a.spins) }
    ensures first_up { IfOk result (λ a. LeastsUp planar.now.instance a.spins) }
    ensures energy { IfOk result (λ a. a.energy ≡ energy planar.now.instance a.spins) }
    ensures size { IfOk result (λ a. unsigned_abs a.energy ≤ weight planar.now.instance) }
    ensures too_large { IfErr result (IfTooLarge (TablesExceed most_bytes planar.now.instance)) }
{
    let mut steps = Taken::new();
    solve_counted(alloc, planar, most_bytes, &mut steps)
}

/// The answer of [`solve_within`], and the count of the steps that it took: at most those of a minimum T-join of
/// the frustrated faces of each component (`sg_tjoin::least_join_counted`), whatever answers.
pub fn solve_counted(
    alloc: Global,
    planar: &Planar,
    most_bytes: u64,
    steps: &mut Taken,
) -> Result<Answer, Unproved>
    ensures proves { IfOk result
        (λ a. Proves planar.now.instance a.spins a.energy a.loops) }
    ensures short { IfOk result (λ a. IsShort planar.now.instance a.loops) }
    ensures ground_state { IfOk result (λ a. IsGroundState planar.now.instance a.spins) }
    ensures first_up { IfOk result (λ a. LeastsUp planar.now.instance a.spins) }
    ensures energy { IfOk result (λ a. a.energy ≡ energy planar.now.instance a.spins) }
    ensures size { IfOk result (λ a. unsigned_abs a.energy ≤ weight planar.now.instance) }
    ensures too_large { IfErr result (IfTooLarge (TablesExceed most_bytes planar.now.instance)) }
    ensures steps { IfOk result (λ _. AddsSteps 0 planar.now (steps_of steps.old) (steps_of steps.new)) }
{
    solve_all(alloc, planar, most_bytes, true, steps)
}
