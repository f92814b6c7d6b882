// What `postman` answers.
ghost use Rattle.std.specs.Prelude.{◌≡◌, map, IfOk};
ghost use Rattle.sg_graph_text.specs.Network.{IsNetwork};
ghost use Rattle.sg_cli.specs.Graphs.{PrintsTour, pair_of_step};
ghost use Rattle.sg_report.specs.Exit.{IsReply};

use sg_graph_text::Network;
use sg_ground::cut_loops;
use sg_postman::{Step, TourAnswer, tour};
use sg_report::{NoMemory, Reply, done, postman_text};
use std::alloc::Global;

/// A shortest closed walk over every edge, and the odd cuts that prove it.
pub fn postman_reply(alloc: Global, network: &Network) -> Result<Reply, NoMemory>
    requires { IsNetwork network.now.web network.now.terminals }
    ensures served { IfOk result (λ reply. PrintsTour network.now.web reply.text.items reply.status) }
    ensures replied { IfOk result (λ reply. IsReply reply.status) }
{
    let TourAnswer {
        weight,
        steps,
        cuts,
    } = tour(alloc, &network.web)?;
    let pairs = step_pairs(alloc, steps.as_slice())?;
    let loops = cut_loops(alloc, cuts)?;
    let text = postman_text(alloc, weight, &pairs, &loops)?;
    Ok(done(text))
}

// The steps as pairs of an edge and a node.
fn step_pairs(alloc: Global, steps: &[Step]) -> Result<Vec<(u32, u32)>, NoMemory>
    ensures { IfOk result (λ pairs. pairs.items ≡ map pair_of_step steps.now) }
{
    let mut pairs = Vec::new(alloc);
    for step in steps {
        pairs.push((step.edge, step.to))?;
    }
    Ok(pairs)
}
