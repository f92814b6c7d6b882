// What `energy` answers.
ghost use Rattle.std.specs.Prelude.{IfOk};
ghost use Rattle.sg_report.specs.Exit.{IsReply};
ghost use Rattle.sg_cli.specs.Served.{PrintsGroundState};

use sg_ground::ground_state;
use sg_planar::Planar;
use sg_report::{NoMemory, Reply, done, energy_text};
use std::alloc::Global;

/// The least energy, and spins that have it.
pub fn energy_reply(alloc: Global, planar: &Planar) -> Result<Reply, NoMemory>
    ensures served { IfOk result (λ reply. PrintsGroundState planar.now.instance reply.text.items reply.status) }
    ensures replied { IfOk result (λ reply. IsReply reply.status) }
{
    let state = ground_state(alloc, planar)?;
    let text = energy_text(alloc, state.energy, &state.spins)?;
    Ok(done(text))
}
