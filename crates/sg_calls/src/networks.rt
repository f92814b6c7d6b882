// Weighted graphs and terminals by numbers. No number is trusted: each is tested, and the first fault is named.
ghost use Rattle.std.specs.Prelude.{◌≡◌, ◌*◌, ◌<◌, ◌≤◌, find, length, not, All, None, Some, IfErr, IfOk, OnOk};
ghost use Rattle.std.specs.List.{range_with_len};
ghost use Rattle.sg_base.specs.Limits.{large_bond_limit, large_spin_limit, sum_limit};
ghost use Rattle.sg_model.specs.Faults.{OrNoMemory};
ghost use Rattle.sg_graph.specs.Walk.{IsConnectedWeb};
ghost use Rattle.sg_graph.specs.Web.{IsEdge, total_weight};
ghost use Rattle.sg_graph_text.specs.Graph.{terminals_fault, terminals_of};
ghost use Rattle.sg_graph_text.specs.Network.{IsNetwork};
ghost use Rattle.sg_calls.specs.Networks.{edge_by as edge_numbered, edges_by, GivesWeb, IsWebFault, IsWholeFault, joins_nodes as joins_two, place_fault, web_by, web_fault, web_numbers_of, wrong_at as wrong_at_place, wrong_edge as wrong_edge_of};

use sg_draft::{Limits, check_bond_count, check_spins};
use sg_graph::{Edge, Edges, Web};
use sg_graph_text::{Network, check_joined, list_terminals, web_within};
use sg_model::{Fault, Refusal};
use std::alloc::{AllocError, Global};

// The numbers of nodes and of edges in the line of a refusal.
const NODES: u32 = 17;

const EDGES: u32 = 18;

/// The numbers of a weighted graph: its nodes, and two ends and a weight for each edge.
#[derive(Drop)]
pub struct GivenWeb<'a> {
    pub nodes: u32,
    pub ends: &'a [u32],
    pub weights: &'a [i64],
}

/// The connected graph of these numbers, with these terminals.
///
/// # Errors
/// The first that is wrong, in this order: those of [`check_web`], `BadTerminal`, `OddTerminals`, and those of
/// [`joined_web`].
pub fn network_of(alloc: Global, given: &GivenWeb, terminals: &[u32]) -> Result<Network, Fault>
    ensures gives { IfOk result (λ _. GivesWeb (web_numbers_of given.now) (terminals_fault given.now.nodes terminals.now)) }
    ensures web { IfOk result (λ network. network.web ≡ web_by (web_numbers_of given.now)) }
    ensures terminals { IfOk result (λ network. network.terminals ≡ terminals_of given.now.nodes terminals.now) }
    ensures sound { IfOk result (λ network. IsNetwork network.web network.terminals) }
    ensures refuses { IfErr result (IsWebFault (web_numbers_of given.now) (terminals_fault given.now.nodes terminals.now)) }
{
    check_web(given)?;
    let terminals = list_terminals(alloc, given.nodes, terminals)?;
    let web = joined_web(alloc, given)?;
    Ok(Network { web, terminals })
}

/// The tests of the numbers of a graph.
///
/// # Errors
/// The first that is wrong: `BadMember` for the number of nodes, `TooManySpins`, `BadMember` for the edges, and
/// `TooManyBonds`.
pub fn check_web(given: &GivenWeb) -> Result<(), Refusal>
    ensures some { OnOk result (1 ≤ given.now.nodes) }
    ensures few_nodes { OnOk result (given.now.nodes ≤ large_spin_limit) }
    ensures few_edges { OnOk result (length given.now.weights.now ≤ large_bond_limit) }
    ensures count { OnOk result (length given.now.ends.now ≡ 2 * length given.now.weights.now) }
    ensures joined { OnOk result (All (IsEdge given.now.nodes) (edges_by given.now.ends.now given.now.weights.now)) }
    ensures passes { OnOk result (web_fault (web_numbers_of given.now) ≡ None) }
    ensures refused { IfErr result (λ e. web_fault (web_numbers_of given.now) ≡ Some e) }
{
    if given.nodes == 0 {
        return Err(wrong_at(NODES, 0));
    }
    let most = Limits::large();
    let nodes = u128::from(given.nodes);
    check_spins(most, nodes)?;
    let wrong = wrong_edge(given.nodes, given.ends, given.weights);
    check_place(EDGES, wrong)?;
    check_bond_count(most, given.weights.len())?;
    Ok(())
}

/// The graph of numbers that pass their tests, where it is connected and within the limit of weight.
///
/// # Errors
/// `SumTooLarge`, and then `NotJoined`.
pub fn joined_web(alloc: Global, given: &GivenWeb) -> Result<Web, Fault>
    requires some { 1 ≤ given.now.nodes }
    requires few_nodes { given.now.nodes ≤ large_spin_limit }
    requires few_edges { length given.now.weights.now ≤ large_bond_limit }
    requires count { length given.now.ends.now ≡ 2 * length given.now.weights.now }
    requires joined { All (IsEdge given.now.nodes) (edges_by given.now.ends.now given.now.weights.now) }
    ensures web { IfOk result (λ web. web ≡ web_by (web_numbers_of given.now)) }
    ensures light { IfOk result (λ web. total_weight web ≤ sum_limit) }
    ensures connected { IfOk result (λ web. IsConnectedWeb web) }
    ensures refuses { IfErr result (OrNoMemory (IsWholeFault (web_by (web_numbers_of given.now)))) }
{
    let edges = edges_of(alloc, given.ends, given.weights)?;
    let web = web_within(given.nodes, edges)?;
    check_joined(alloc, &web)?;
    Ok(web)
}

/// The test of what has this number in the line of its refusal, and of which an entry may be wrong.
///
/// # Errors
/// `BadMember` with that entry.
pub fn check_place(place: u32, wrong: Option<usize>) -> Result<(), Refusal>
    ensures passes { OnOk result (wrong ≡ None) }
    ensures refused { IfErr result (λ e. place_fault place wrong ≡ Some e) }
{
    match wrong {
        Some(entry) => Err(wrong_at(place, entry)),
        None => Ok(()),
    }
}

// The refusal of an entry of what has this number.
fn wrong_at(place: u32, entry: usize) -> Refusal
    ensures { result ≡ wrong_at_place place entry }
{
    Refusal::BadMember {
        place,
        item: entry.min(u32::MAX as usize) as u32,
    }
}

// The first edge that does not join two of the nodes or has a negative weight; the whole list where there
// are not two ends for each.
fn wrong_edge(nodes: u32, ends: &[u32], weights: &[i64]) -> Option<usize>
    ensures value { result ≡ wrong_edge_of nodes ends.now weights.now }
    ensures count { result ≡ None → length ends.now ≡ 2 * length weights.now }
    ensures joined { result ≡ None → All (IsEdge nodes) (edges_by ends.now weights.now) }
{
    if ends.len() % 2 != 0 || ends.len() / 2 != weights.len() {
        return Some(0);
    }
    first_unjoined(nodes, ends, weights)
}

// The first edge that does not join two of the nodes or has a negative weight.
fn first_unjoined(nodes: u32, ends: &[u32], weights: &[i64]) -> Option<usize>
    requires { length ends.now ≡ 2 * length weights.now }
    ensures { result ≡ find (λ k. not (joins_two nodes (edge_numbered ends.now weights.now k))) (range_with_len 0 (length weights.now)) }
{
    (0..weights.len()).find(|k| !joins_nodes(nodes, edge_by(ends, weights, *k)))
}

// Whether an edge joins two of the nodes, and its weight is not negative.
fn joins_nodes(nodes: u32, edge: Edge) -> bool
    ensures { result ≡ joins_two nodes edge }
{
    edge.a < nodes && edge.b < nodes && 0 <= edge.w
}

// The edges.
fn edges_of(alloc: Global, ends: &[u32], weights: &[i64]) -> Result<Edges, AllocError>
    requires { length ends.now ≡ 2 * length weights.now }
    ensures { IfOk result (λ edges. edges ≡ edges_by ends.now weights.now) }
{
    let mut edges = Edges::new(alloc);
    edges.reserve(weights.len())?;
    for k in 0..weights.len() {
        edges.push(edge_by(ends, weights, k))?;
    }
    Ok(edges)
}

// Edge `k`.
fn edge_by(ends: &[u32], weights: &[i64], k: usize) -> Edge
    requires count { length ends.now ≡ 2 * length weights.now }
    requires within { k < length weights.now }
    ensures { result ≡ edge_numbered ends.now weights.now k }
{
    Edge {
        a: ends[2 * k],
        b: ends[2 * k + 1],
        w: weights[k],
    }
}
