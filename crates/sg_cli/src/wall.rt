// What `wall` answers.
ghost use Rattle.std.specs.Prelude.{IfOk};
ghost use Rattle.sg_report.specs.Exit.{IsReply};
ghost use Rattle.sg_cli.specs.Served.{AnswersWall, PrintsWall};

use sg_model::Refusal;
use sg_planar::Planar;
use sg_report::{NoMemory, Reply, done, refuse, wall_text};
use sg_wall::wall;
use std::alloc::Global;

/// The energies of the domain wall at the seam, or the refusal of an empty seam.
pub fn wall_reply(alloc: Global, planar: &Planar) -> Result<Reply, NoMemory>
    ensures served { IfOk result (λ reply. AnswersWall planar.now.instance reply.text.items reply.status) }
    ensures replied { IfOk result (λ reply. IsReply reply.status) }
{
    if planar.instance().seam().is_empty() {
        refuse(alloc, &Refusal::NoSeam)
    } else {
        seam_reply(alloc, planar)
    }
}

// The energies of the domain wall at a seam that is not empty.
fn seam_reply(alloc: Global, planar: &Planar) -> Result<Reply, NoMemory>
    ensures served { IfOk result (λ reply. PrintsWall planar.now.instance reply.text.items reply.status) }
    ensures replied { IfOk result (λ reply. IsReply reply.status) }
{
    let found = wall(alloc, planar)?;
    let text = wall_text(
        alloc,
        [found.periodic, found.antiperiodic, found.difference],
    )?;
    Ok(done(text))
}
