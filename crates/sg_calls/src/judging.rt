// The judges of stated proofs: the numbers in, a verdict out.
ghost use Rattle.std.specs.Prelude.{◌≡◌, ◌⊎◌, ◌≤◌, None, length, IfOk, IfErr};
ghost use Rattle.sg_base.specs.Limits.{input_limit};
ghost use Rattle.sg_model.specs.Energy.{IsGroundState};
ghost use Rattle.sg_model.specs.Faults.{OrNoMemory};
ghost use Rattle.sg_check.specs.Verdict.{IsVerdict};
ghost use Rattle.sg_check.specs.declared.verdict.Verdict.TheVariants.{Yes};
ghost use Rattle.sg_report.specs.Text.{verdict_text as verdict_bytes};
ghost use Rattle.sg_report.specs.Exit.{exit_code};
ghost use Rattle.sg_ground.specs.Nested.{FitsWeb};
ghost use Rattle.sg_cli.specs.Served.{status_by};
ghost use Rattle.sg_calls.specs.Graphs.{Finds, IsFitGraph, IsFitProofFault, IsGraph, IsProofFault, numbers_of};
ghost use Rattle.sg_calls.specs.Grounds.{IsJudged, IsNestVerdict};
ghost use Rattle.sg_calls.specs.Proofs.{loops_of, nest_fault, nest_given, nest_said, stated_fault, States};
ghost use Rattle.sg_draft.specs.Limits.{large_limits};
ghost use Rattle.sg_draft.specs.Tests.{Refuses};

use super::graphs::{Given, fit_graph, graph_of};
use super::held::Held;
use super::nests::{GivenNest, check_lists, nest_by};
use super::stated::{GivenLoops, spins_by, stated_by};
use sg_check::{Checker, ResultText, Verdict};
use sg_cli::Status;
use sg_draft::Limits;
use sg_ground::proves_by_nest;
use sg_model::{Fault, Instance, Spins};
use sg_nest::Nest;
use sg_planar::Planar;
use sg_report::verdict_text;
use std::alloc::{AllocError, Global};

/// A verdict, and its line.
#[derive(Drop)]
pub struct Judged {
    pub verdict: Verdict,
    pub line: Vec<u8>,
}

/// The verdict on what these numbers state as a proof of the graph.
pub fn judge(
    alloc: Global,
    given: &Given,
    energy: i64,
    spins: &[i8],
    loops: &GivenLoops,
) -> Result<Judged, Fault>
    ensures gives { IfOk result (λ found. Finds (IsGraph large_limits (numbers_of given.now))
        (λ inst. IsJudged (States energy spins.now (loops_of loops.now)) inst found.verdict)) }
    ensures line { IfOk result (λ found. found.line.items ≡ verdict_bytes found.verdict) }
    ensures refuses { IfErr result (IsProofFault large_limits (numbers_of given.now) (stated_fault spins.now (loops_of loops.now))) }
{
    let instance = graph_of(alloc, Limits::large(), given)?;
    let instance = Held { value: instance };
    let stated = stated_by(alloc, energy, spins, loops)?;
    let stated = Held { value: stated };
    Ok(verdict_on(alloc, &instance.value, &stated.value)?)
}

// The verdict on a stated proof of an instance.
fn verdict_on(alloc: Global, instance: &Instance, stated: &ResultText) -> Result<Judged, AllocError>
    requires few_spins { length stated.now.spins ≤ input_limit }
    requires few_loops { length stated.now.loops ≤ input_limit }
    ensures exact { IfOk result (λ found. IsVerdict instance.now stated.now found.verdict) }
    ensures least { IfOk result (λ found. found.verdict ≡ Yes → IsGroundState instance.now stated.now.spins) }
    ensures line { IfOk result (λ found. found.line.items ≡ verdict_bytes found.verdict) }
{
    let mut checker = Checker::open(alloc, instance)?;
    let verdict = checker.check(stated);
    let line = verdict_text(alloc, &verdict)?;
    Ok(Judged { verdict, line })
}

/// How a call ends by a verdict.
pub fn code_by(verdict: Verdict) -> u8
    ensures by_verdict { result ≡ exit_code (status_by verdict) }
    ensures yes { result ≡ 0 → verdict ≡ Yes }
    ensures either { (result ≡ 0) ⊎ (result ≡ 3) }
{
    match verdict {
        Verdict::Yes => Status::Done.exit_code(),
        _ => Status::No.exit_code(),
    }
}

/// How a call ends that judges what these numbers state as a proof of the graph by a nest.
pub fn judge_nest(
    alloc: Global,
    given: &Given,
    energy: i64,
    spins: &[i8],
    nest: &GivenNest,
) -> Result<u8, Fault>
    ensures gives { IfOk result (λ code. Finds (IsFitGraph large_limits (numbers_of given.now))
        (IsNestVerdict spins.now (nest_given nest.now) energy code)) }
    ensures codes { IfOk result (λ code. (code ≡ 0) ⊎ (code ≡ 3)) }
    ensures refuses { IfErr result (IsFitProofFault large_limits (numbers_of given.now) (nest_fault spins.now (nest_given nest.now))) }
{
    let planar = fit_graph(alloc, Limits::large(), given)?;
    let planar = Held { value: planar };
    nest_verdict(alloc, &planar.value, energy, spins, nest)
}

// How a call ends that judges what these numbers state as a proof of an instance by a nest.
fn nest_verdict(
    alloc: Global,
    planar: &Planar,
    energy: i64,
    spins: &[i8],
    nest: &GivenNest,
) -> Result<u8, Fault>
    requires { FitsWeb planar.now.instance }
    ensures gives { IfOk result (λ code. IsNestVerdict spins.now (nest_given nest.now) energy code planar.now.instance) }
    ensures codes { IfOk result (λ code. (code ≡ 0) ⊎ (code ≡ 3)) }
    ensures refuses { IfErr result (OrNoMemory (Refuses (nest_fault spins.now (nest_given nest.now)))) }
{
    let (spins, nest) = nest_stated(alloc, spins, nest)?;
    let nest = Held { value: nest };
    if proves_by_nest(alloc, planar, energy, &spins, &nest.value)? {
        Ok(Status::Done.exit_code())
    } else {
        Ok(Status::No.exit_code())
    }
}

// The spins and the nest that numbers state.
fn nest_stated(alloc: Global, spins: &[i8], nest: &GivenNest) -> Result<(Spins, Nest), Fault>
    ensures spins { IfOk result (λ stated. stated.0 ≡ spins.now) }
    ensures nest { IfOk result (λ stated. stated.1 ≡ nest_said (nest_given nest.now)) }
    ensures passes { IfOk result (λ _. nest_fault spins.now (nest_given nest.now) ≡ None) }
    ensures refuses { IfErr result (OrNoMemory (Refuses (nest_fault spins.now (nest_given nest.now)))) }
{
    let spins = spins_by(alloc, spins)?;
    check_lists(nest)?;
    Ok((spins, nest_by(alloc, nest)?))
}
