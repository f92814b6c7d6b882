// What `clusters` answers.
ghost use Rattle.std.specs.Prelude.{IfOk};
ghost use Rattle.sg_planar.specs.Fit.{IsFit};
ghost use Rattle.sg_report.specs.Exit.{IsReply};
ghost use Rattle.sg_cli.specs.Served.{PrintsClusters};

use sg_bonds::clusters;
use sg_planar::Planar;
use sg_report::{NoMemory, Reply, clusters_text, done};
use std::alloc::Global;

/// The cluster of each spin.
pub fn clusters_reply(alloc: Global, planar: &Planar) -> Result<Reply, NoMemory>
    requires { IsFit planar.now.instance }
    ensures served { IfOk result (λ reply. PrintsClusters planar.now.instance reply.text.items reply.status) }
    ensures replied { IfOk result (λ reply. IsReply reply.status) }
{
    let found = clusters(alloc, planar)?;
    let text = clusters_text(alloc, found.as_slice())?;
    Ok(done(text))
}
