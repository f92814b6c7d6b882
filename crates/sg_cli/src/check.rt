// What `check` answers: the verdict on a proof. No planar instance is made, so a proof is judged on
// every graph.
ghost use Rattle.std.specs.Prelude.{◌≡◌, ◌<◌, length, IfOk};
ghost use Rattle.sg_base.specs.Limits.{text_limit};
ghost use Rattle.sg_report.specs.Exit.{IsReply};
ghost use Rattle.sg_cli.specs.Served.{AnswersCheck, PrintsVerdict, status_by};

use sg_check::{Checker, ResultText, Verdict};
use sg_input::read_proof;
use sg_model::Instance;
use sg_report::{NoMemory, Reply, Status, refuse_fault, verdict_text};
use std::alloc::Global;

/// What `check` answers to a text within the limit of bytes.
pub fn check_reply(alloc: Global, bytes: &[u8]) -> Result<Reply, NoMemory>
    requires { length bytes.now < text_limit }
    ensures served { IfOk result (λ reply. AnswersCheck bytes.now reply.text.items reply.status) }
    ensures replied { IfOk result (λ reply. IsReply reply.status) }
{
    match read_proof(alloc, bytes) {
        Ok(proof) => verdict_reply(alloc, &proof.instance, &proof.stated),
        Err(fault) => refuse_fault(alloc, &fault),
    }
}

// The verdict on a proof, as its line and its status.
fn verdict_reply(alloc: Global, instance: &Instance, stated: &ResultText) -> Result<Reply, NoMemory>
    requires few_spins { length stated.now.spins < text_limit }
    requires few_loops { length stated.now.loops < text_limit }
    ensures served { IfOk result (λ reply. PrintsVerdict instance.now stated.now reply.text.items reply.status) }
    ensures replied { IfOk result (λ reply. IsReply reply.status) }
{
    let mut checker = Checker::open(alloc, instance)?;
    let verdict = checker.check(stated);
    let text = verdict_text(alloc, &verdict)?;
    Ok(Reply {
        status: verdict_status(verdict),
        text,
    })
}

// How a run ends by a verdict.
fn verdict_status(verdict: Verdict) -> Status
    ensures by_verdict { result ≡ status_by verdict }
    ensures replied { IsReply result }
{
    match verdict {
        Verdict::Yes => Status::Done,
        _ => Status::No,
    }
}
