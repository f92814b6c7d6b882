// The components of an instance, one after another.

ghost use Rattle.std.specs.Prelude.{◌≡◌, ◌+◌, ◌<◌, ◌≤◌, length, get_or, All, IfErr, IfOk};
ghost use Rattle.std.specs.List.Sorted.{IsStrictlyIncreasing};
ghost use Rattle.sg_base.specs.Limits.{forced_limit};
ghost use Rattle.sg_model.specs.Connected.{IsConnected};
ghost use Rattle.sg_model.specs.Energy.{weight};
ghost use Rattle.sg_planar.specs.Fit.{IsPlanar};
ghost use Rattle.sg_planar.specs.Parts.{AreParts};
ghost use Rattle.sg_tjoin.specs.Allowance.{IfTooLarge};
ghost use Rattle.sg_tjoin.specs.Counted.{steps_of};
ghost use Rattle.sg_ground.specs.Allowance.{TablesExceed};
ghost use Rattle.sg_ground.specs.Counted.{AddsSteps, all_steps};
ghost use Rattle.sg_ground.specs.Solution.{IsSolution};

use super::Answer;
use super::part::solve_part;
use super::placed::{place_loops, place_values, spins_of};
use sg_check::Loops;
use sg_model::Instance;
use sg_planar::{Division, Part, Planar, divide};
use sg_tjoin::{Taken, Unproved};
use std::alloc::Global;

/// The ground state of the instance as it is where it is connected, and else those of all components, put
/// together; with the loops that prove it, if they are wanted.
#[tactic(auto, using(crate::proofs::CountedSteps::any_whole, crate::proofs::CountedSteps::any_parts))]
pub fn solve_all(
    alloc: Global,
    planar: &Planar,
    most_bytes: u64,
    with_loops: bool,
    steps: &mut Taken,
) -> Result<Answer, Unproved>
    ensures solution { IfOk result (λ a. IsSolution with_loops planar.now.instance a.spins a.energy a.loops) }
    ensures too_large { IfErr result (IfTooLarge (TablesExceed most_bytes planar.now.instance)) }
    ensures steps { IfOk result (λ _. AddsSteps 0 planar.now (steps_of steps.old) (steps_of steps.new)) }
    ensures planar { IsPlanar planar.now }
{
    let inst = planar.instance();
    match divide(alloc, planar)? {
        Division::Whole => solve_part(alloc, planar, most_bytes, with_loops, steps),
        Division::Several(list) => {
            join_parts(alloc, inst, list.as_slice(), most_bytes, with_loops, steps)
        }
    }
}

// The solutions of these parts, put together: values and loops take the numbers of the whole, and
// energies add.
fn join_parts(
    alloc: Global,
    inst: &Instance,
    parts: &[Part],
    most_bytes: u64,
    with_loops: bool,
    steps: &mut Taken,
) -> Result<Answer, Unproved>
    requires parts { AreParts inst.now parts.now }
    requires light { weight inst.now ≤ forced_limit }
    ensures solution { IfOk result (λ a. IsSolution with_loops inst.now a.spins a.energy a.loops) }
    ensures too_large { IfErr result (IfTooLarge (TablesExceed most_bytes inst.now)) }
    ensures steps { IfOk result (λ _. steps_of steps.new ≤ steps_of steps.old + all_steps parts.now) }
{
    let mut values = vec![in alloc; 1i8; inst.n() as usize]?;
    let mut energy = 0i64;
    let mut loops = Loops::new(alloc);
    for part in parts {
        let found = solve_part(alloc, &part.planar, most_bytes, with_loops, steps)?;
        place_values(&mut values, part.spins.as_slice(), found.spins.as_slice());
        energy += found.energy;
        place_loops(
            alloc,
            &mut loops,
            found.loops.as_slice(),
            part.bonds.as_slice(),
        )?;
    }
    Ok(Answer {
        spins: spins_of(alloc, &values)?,
        energy,
        loops,
    })
}
