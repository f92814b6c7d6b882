// What `ground` answers.
ghost use Rattle.std.specs.Prelude.{IfOk};
ghost use Rattle.sg_report.specs.Exit.{IsReply};
ghost use Rattle.sg_cli.specs.Served.{PrintsGround};

use sg_ground::solve;
use sg_planar::Planar;
use sg_report::{NoMemory, Reply, done, ground_text};
use std::alloc::Global;

/// The least energy, spins that have it, and a packing of frustrated loops that proves it.
pub fn ground_reply(alloc: Global, planar: &Planar) -> Result<Reply, NoMemory>
    ensures served { IfOk result (λ reply. PrintsGround planar.now.instance reply.text.items reply.status) }
    ensures replied { IfOk result (λ reply. IsReply reply.status) }
{
    let answer = solve(alloc, planar)?;
    let text = ground_text(alloc, answer.energy, &answer.spins, &answer.loops)?;
    Ok(done(text))
}
