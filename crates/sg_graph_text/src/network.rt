ghost use Rattle.std.specs.Prelude.{◌≡◌, ◌<◌, ◌≤◌, [], All, length, pos, IfOk, IfErr, OnOk};
ghost use Rattle.std.specs.List.{sum_by};
ghost use Rattle.sg_base.specs.Limits.{large_bond_limit, large_spin_limit, sum_limit, text_limit};
ghost use Rattle.sg_graph.specs.Walk.{IsConnectedWeb};
ghost use Rattle.sg_graph.specs.Web.{IsEdge, total_weight, weight_at};
ghost use Rattle.sg_graph_text.specs.Graph.{IsGraphText, ReadsGraph, RefusesGraph};
ghost use Rattle.sg_graph_text.specs.Network.{GivesNetwork, IsNetwork, IsTooHeavy, graph_in, IsUnjoined, RefusesNetwork};
ghost use Rattle.sg_reader.specs.Kept.{kept_of};
ghost use Rattle.sg_reader.specs.Ended.{RefusesAlone};
ghost use Rattle.sg_model.specs.Faults.{OrNoMemory};

use super::graph::GraphText;
use super::read::read_graph;
use sg_base::SUM_LIMIT;
use sg_graph::{Edge, Edges, Terminals, Web, first_unreached};
use sg_model::{Fault, Refusal};
use sg_reader::{Rows, alone};
use std::alloc::Global;

/// A connected weighted graph, and a set of its nodes.
#[derive(Drop)]
pub struct Network {
    /// The graph. Its weights sum to at most 2^44.
    pub web: Web,
    /// The terminals, rising, an even number of them.
    pub terminals: Terminals,
}

// The weights of all edges together.
fn sum_of(edges: &[Edge]) -> i128
    requires few { length edges.now ≤ large_bond_limit }
    ensures { result ≡ pos (sum_by weight_at edges.now) }
{
    let mut total: i128 = 0;
    for edge in edges {
        total += i128::from(edge.w.unsigned_abs());
    }
    total
}

// The graph of a text with nothing behind it, or the first fault of the records.
fn read_alone(alloc: Global, bytes: &[u8], terms: bool) -> Result<GraphText, Fault>
    requires { length bytes.now < text_limit }
    ensures gives { IfOk result (λ text. ReadsGraph terms (kept_of bytes.now) text []) }
    ensures sound { IfOk result IsGraphText }
    ensures refuses { IfErr result (OrNoMemory (RefusesAlone (ReadsGraph terms (kept_of bytes.now))
        (RefusesGraph terms (kept_of bytes.now)))) }
{
    let mut rows = Rows::new(alloc, bytes);
    let given = read_graph(alloc, &mut rows, terms);
    alone(alloc, given, &mut rows)
}

/// The graph of these edges, if its total weight is within the limit.
///
/// # Errors
/// `SumTooLarge`.
pub fn web_within(nodes: u32, edges: Edges) -> Result<Web, Refusal>
    requires some { 1 ≤ nodes }
    requires few_nodes { nodes ≤ large_spin_limit }
    requires few_edges { length edges ≤ large_bond_limit }
    requires joined { All (IsEdge nodes) edges }
    ensures web { IfOk result (λ web. web ≡ record { nodes = nodes; edges = edges }) }
    ensures light { IfOk result (λ web. total_weight web ≤ sum_limit) }
    ensures refused { IfErr result (IsTooHeavy (record { nodes = nodes; edges = edges })) }
{
    let sum = sum_of(edges.as_slice());
    if sum > SUM_LIMIT {
        return Err(Refusal::SumTooLarge { sum });
    }
    Ok(Web::new(nodes, edges))
}

// A graph and its terminals, if its total weight is within the limit.
fn web_of(text: GraphText) -> Result<Network, Refusal>
    requires { IsGraphText text }
    ensures web { IfOk result (λ n. n.web ≡ graph_in text) }
    ensures terminals { IfOk result (λ n. n.terminals ≡ text.terminals) }
    ensures light { IfOk result (λ n. total_weight n.web ≤ sum_limit) }
    ensures refused { IfErr result (IsTooHeavy (graph_in text)) }
{
    let GraphText {
        nodes,
        edges,
        terminals,
    } = text;
    let web = web_within(nodes, edges)?;
    Ok(Network { web, terminals })
}

/// Whether each node of a graph is reached from node 0.
///
/// # Errors
/// `NotJoined` with the least node that is not. `NoMemory`.
pub fn check_joined(alloc: Global, web: &Web) -> Result<(), Fault>
    ensures connected { OnOk result (IsConnectedWeb web.now) }
    ensures refused { IfErr result (OrNoMemory (IsUnjoined web.now)) }
{
    match first_unreached(alloc, web)? {
        Some(node) => Err(Fault::Refused(Refusal::NotJoined { node })),
        None => Ok(()),
    }
}

/// The connected graph of a text with nothing behind it. `terms` says whether terminals may be given.
///
/// # Errors
/// In this order: those of `read_graph`; `Trailing` with the first record behind the `end` that is
/// not skipped; `SumTooLarge` where the weights sum to more than 2^44; `NotJoined` with the least node
/// that is not reached from node 0. `NoMemory` may come at any time.
///
/// The time is linear in the bytes, the nodes and the edges, and the memory is that of the graph and
/// of the longest record.
pub fn read_network(alloc: Global, bytes: &[u8], terms: bool) -> Result<Network, Fault>
    requires { length bytes.now < text_limit }
    ensures gives { IfOk result (λ n. GivesNetwork terms bytes.now n.web n.terminals) }
    ensures sound { IfOk result (λ n. IsNetwork n.web n.terminals) }
    ensures refuses { IfErr result (OrNoMemory (RefusesNetwork terms bytes.now)) }
{
    let text = read_alone(alloc, bytes, terms)?;
    let network = web_of(text)?;
    check_joined(alloc, &network.web)?;
    Ok(network)
}
