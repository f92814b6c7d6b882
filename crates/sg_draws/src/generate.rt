// What `gen` answers.
ghost use Rattle.std.specs.Prelude.{IfOk};
ghost use Rattle.sg_words.specs.Command.{IsAllowedSize};
ghost use Rattle.sg_report.specs.Exit.{IsReply};
ghost use Rattle.sg_draws.specs.Drawn.{PrintsLattice, drawn_couplings};

use super::drawn::couplings;
use sg_lattice::Kind;
use sg_laws::Disorder;
use sg_report::{NoMemory, Reply, done, instance_text};
use sg_words::Size;
use std::alloc::Global;

/// A lattice whose couplings are the first draws of the law after the seed.
pub fn gen_reply(
    alloc: Global,
    law: &mut Box<dyn Disorder>,
    seed: u64,
    kind: Kind,
    size: Size,
) -> Result<Reply, NoMemory>
    requires { IsAllowedSize kind size }
    ensures served { IfOk result (λ reply.
        PrintsLattice kind size (drawn_couplings kind size (seeded law.old seed)) reply.text.items reply.status) }
    ensures replied { IfOk result (λ reply. IsReply reply.status) }
{
    let j = couplings(alloc, law, seed, kind, size)?;
    let text = instance_text(alloc, kind, size.rows, size.cols, &j)?;
    Ok(done(text))
}
