// What `tjoin` and `postman` answer to a text: its first fault, or the answer to its graph. Their input
// is never read as JSON.
ghost use Rattle.std.specs.Prelude.{◌≡◌, ◌<◌, length, IfOk};
ghost use Rattle.sg_base.specs.Limits.{text_limit};
ghost use Rattle.sg_graph_text.specs.Network.{IsNetwork};
ghost use Rattle.sg_cli.specs.Graphs.{AnswersTask, takes_terms};
ghost use Rattle.sg_report.specs.Exit.{IsReply};
ghost use Rattle.sg_cli.specs.Served.{AnswersGraph};

use super::postman::postman_reply;
use super::tjoin::tjoin_reply;
use sg_graph_text::{Network, read_network};
use sg_report::{NoMemory, Reply, refuse_fault};
use sg_words::GraphTask;
use std::alloc::Global;

/// What a task on a graph answers to a text within the limit of bytes.
pub fn graph_reply(alloc: Global, task: GraphTask, bytes: &[u8]) -> Result<Reply, NoMemory>
    requires { length bytes.now < text_limit }
    ensures served { IfOk result (λ reply. AnswersGraph task bytes.now reply.text.items reply.status) }
    ensures replied { IfOk result (λ reply. IsReply reply.status) }
{
    match read_network(alloc, bytes, takes_terminals(task)) {
        Ok(network) => network_reply(alloc, task, &network),
        Err(fault) => refuse_fault(alloc, &fault),
    }
}

// Whether terminals may be given.
fn takes_terminals(task: GraphTask) -> bool
    ensures { result ≡ takes_terms task }
{
    match task {
        GraphTask::TJoin => true,
        GraphTask::Postman => false,
    }
}

// What a task answers in a connected graph.
fn network_reply(alloc: Global, task: GraphTask, network: &Network) -> Result<Reply, NoMemory>
    requires { IsNetwork network.now.web network.now.terminals }
    ensures served { IfOk result (λ reply.
        AnswersTask task network.now.web network.now.terminals reply.text.items reply.status) }
    ensures replied { IfOk result (λ reply. IsReply reply.status) }
{
    match task {
        GraphTask::TJoin => tjoin_reply(alloc, network),
        GraphTask::Postman => postman_reply(alloc, network),
    }
}
