// What `tjoin` answers.
ghost use Rattle.std.specs.Prelude.{IfOk};
ghost use Rattle.sg_graph_text.specs.Network.{IsNetwork};
ghost use Rattle.sg_cli.specs.Graphs.{PrintsJoin};
ghost use Rattle.sg_report.specs.Exit.{IsReply};

use sg_graph_text::Network;
use sg_ground::cut_loops;
use sg_report::{NoMemory, Reply, done, tjoin_text};
use sg_tjoin::{Join, least_join};
use std::alloc::Global;

/// A minimum T-join of the terminals, and the odd cuts that prove it.
pub fn tjoin_reply(alloc: Global, network: &Network) -> Result<Reply, NoMemory>
    requires { IsNetwork network.now.web network.now.terminals }
    ensures served { IfOk result (λ reply.
        PrintsJoin network.now.web network.now.terminals reply.text.items reply.status) }
    ensures replied { IfOk result (λ reply. IsReply reply.status) }
{
    let Join {
        edges,
        weight,
        cuts,
    } = least_join(alloc, &network.web, &network.terminals)?;
    let loops = cut_loops(alloc, cuts)?;
    let text = tjoin_text(alloc, weight, edges.as_slice(), &loops)?;
    Ok(done(text))
}
