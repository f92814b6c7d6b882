// What `maxcut` answers.
ghost use Rattle.std.specs.Prelude.{IfOk};
ghost use Rattle.sg_report.specs.Exit.{IsReply};
ghost use Rattle.sg_cli.specs.Served.{PrintsCut};

use sg_planar::Planar;
use sg_ranges::largest_cut;
use sg_report::{NoMemory, Reply, done, maxcut_text};
use std::alloc::Global;

/// A largest cut, and a packing of frustrated loops that proves it.
pub fn maxcut_reply(alloc: Global, planar: &Planar) -> Result<Reply, NoMemory>
    ensures served { IfOk result (λ reply. PrintsCut planar.now.instance reply.text.items reply.status) }
    ensures replied { IfOk result (λ reply. IsReply reply.status) }
{
    let found = largest_cut(alloc, planar)?;
    let text = maxcut_text(alloc, found.weight, &found.spins, &found.loops)?;
    Ok(done(text))
}
