// The verdict: the tests in their order, those of the spins, those of the loops, and the sum.

ghost use Rattle.std.specs.Prelude.{◌≡◌, ◌<◌, ◌^◌, false, length, replicate, IfNone, IfSome};
ghost use Rattle.sg_model.specs.Ising.{bond_count};
ghost use Rattle.sg_model.specs.WellFormed.{IsInstance};
ghost use Rattle.sg_check.specs.Verdict.{IsVerdict, StatesEnergy, PassesLoops, PassesLoads};

use super::loads::{first_overload, sum_of_weights};
use super::loops::{first_misshapen, first_uneven, first_unfrustrated};
use super::{ResultText, Verdict};
use sg_model::Instance;

// The tests of the spins: their number, and their energy.
pub fn judge_energy(inst: &Instance, text: &ResultText) -> Option<Verdict>
    requires { length text.now.spins < 2 ^ 32 }
    ensures instance { IsInstance inst.now }
    ensures none { IfNone result (StatesEnergy inst.now text.now) }
    ensures some { IfSome result (IsVerdict inst.now text.now) }
{
    let values = text.spins.as_slice();
    if values.len() != inst.n() as usize {
        return Some(Verdict::SpinCount {
            found: values.len() as u32,
        });
    }
    let found = inst.energy(&text.spins);
    if found != i128::from(text.energy) {
        return Some(Verdict::Energy { found });
    }
    None
}

// The tests of the loops and of their weights.
pub fn judge_loops(
    inst: &Instance,
    text: &ResultText,
    marks: &mut [bool],
    loads: &mut [u128],
) -> Verdict
    requires instance { IsInstance inst.now }
    requires few { length text.now.loops < 2 ^ 32 }
    requires energy { StatesEnergy inst.now text.now }
    requires no_marks { marks.old ≡ replicate inst.now.n false }
    requires no_loads { loads.old ≡ replicate (bond_count inst.now) 0 }
    ensures verdict { IsVerdict inst.now text.now result }
    ensures marks { marks.new ≡ marks.old }
    ensures loads { loads.new ≡ loads.old }
{
    let loops = text.loops.as_slice();
    if let Some(index) = first_misshapen(inst, loops) {
        return Verdict::LoopShape { index };
    }
    if let Some(odd) = first_uneven(inst, loops, marks) {
        return Verdict::LoopEven {
            index: odd.index,
            spin: odd.spin,
        };
    }
    if let Some(index) = first_unfrustrated(inst, loops) {
        return Verdict::LoopSign { index };
    }
    if let Some(over) = first_overload(inst, loops, loads) {
        return Verdict::Load {
            bond: over.bond,
            load: over.load as i128,
        };
    }
    judge_sum(inst, text)
}

// The last test: the sum of the weights.
fn judge_sum(inst: &Instance, text: &ResultText) -> Verdict
    requires instance { IsInstance inst.now }
    requires few { length text.now.loops < 2 ^ 32 }
    requires energy { StatesEnergy inst.now text.now }
    requires loops { PassesLoops inst.now text.now.loops }
    requires loads { PassesLoads inst.now text.now.loops }
    ensures { IsVerdict inst.now text.now result }
{
    let found = sum_of_weights(text.loops.as_slice()) as i128;
    let wanted = i128::from(text.energy) + inst.weight();
    if found == wanted {
        Verdict::Yes
    } else {
        Verdict::Sum { found, wanted }
    }
}
