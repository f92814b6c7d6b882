// What a study answers to a text: its first fault, or the answer to its instance.
ghost use Rattle.std.specs.Prelude.{◌<◌, length, IfOk};
ghost use Rattle.sg_base.specs.Limits.{text_limit};
ghost use Rattle.sg_planar.specs.Fit.{IsFit};
ghost use Rattle.sg_report.specs.Exit.{IsReply};
ghost use Rattle.sg_cli.specs.Served.{AnswersFit, AnswersStudy};

use super::bonds::bonds_reply;
use super::clusters::clusters_reply;
use super::energy::energy_reply;
use super::ground::ground_reply;
use super::maxcut::maxcut_reply;
use super::ranges::ranges_reply;
use super::report::report_reply;
use super::wall::wall_reply;
use sg_input::read_planar;
use sg_planar::Planar;
use sg_report::{NoMemory, Reply, refuse_fault};
use sg_words::Study;
use std::alloc::Global;

/// What a study answers to a text within the limit of bytes.
pub fn study_reply(alloc: Global, study: Study, bytes: &[u8]) -> Result<Reply, NoMemory>
    requires { length bytes.now < text_limit }
    ensures served { IfOk result (λ reply. AnswersStudy study bytes.now reply.text.items reply.status) }
    ensures replied { IfOk result (λ reply. IsReply reply.status) }
{
    match read_planar(alloc, bytes) {
        Ok(planar) => fit_reply(alloc, study, &planar),
        Err(fault) => refuse_fault(alloc, &fault),
    }
}

// What a study answers to an instance that is fit.
fn fit_reply(alloc: Global, study: Study, planar: &Planar) -> Result<Reply, NoMemory>
    requires { IsFit planar.now.instance }
    ensures served { IfOk result (λ reply. AnswersFit study planar.now.instance reply.text.items reply.status) }
    ensures replied { IfOk result (λ reply. IsReply reply.status) }
{
    match study {
        Study::Energy => energy_reply(alloc, planar),
        Study::Ground => ground_reply(alloc, planar),
        Study::Wall => wall_reply(alloc, planar),
        Study::Bonds => bonds_reply(alloc, planar),
        Study::Clusters => clusters_reply(alloc, planar),
        Study::Report => report_reply(alloc, planar),
        Study::Ranges => ranges_reply(alloc, planar),
        Study::Maxcut => maxcut_reply(alloc, planar),
    }
}
