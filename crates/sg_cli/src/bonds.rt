// What `bonds` answers.
ghost use Rattle.std.specs.Prelude.{IfOk};
ghost use Rattle.sg_planar.specs.Fit.{IsFit};
ghost use Rattle.sg_report.specs.Exit.{IsReply};
ghost use Rattle.sg_cli.specs.Served.{PrintsCosts};

use sg_bonds::costs;
use sg_planar::Planar;
use sg_report::{NoMemory, Reply, bonds_text, done};
use std::alloc::Global;

/// The cost of each bond.
pub fn bonds_reply(alloc: Global, planar: &Planar) -> Result<Reply, NoMemory>
    requires { IsFit planar.now.instance }
    ensures served { IfOk result (λ reply. PrintsCosts planar.now.instance reply.text.items reply.status) }
    ensures replied { IfOk result (λ reply. IsReply reply.status) }
{
    let found = costs(alloc, planar)?;
    let text = bonds_text(alloc, found.as_slice())?;
    Ok(done(text))
}
