// Connected graphs with drawn weights and terminals.
ghost use Rattle.std.specs.Prelude.{◌≡◌, ◌≤◌, ◌%◌, length, IfOk};
ghost use Rattle.sg_graph.specs.Join.{AreTerminals};
ghost use Rattle.sg_graph.specs.Web.{IsEdge, total_weight, weight_at};
ghost use Rattle.sg_graph_text.specs.Network.{IsNetwork};

use super::facts::expect;
use rand_core::utils::NextWord;
use rand_pcg::Pcg32;
use sg_base::{all_below, is_rising};
use sg_graph::{Edge, Edges, Terminals, Web, connected};
use sg_graph_text::Network;
use std::alloc::{AllocError, Global};
use std::process::Abort;

/// A family of graphs, and the size of one.
#[derive(Clone, Copy)]
pub enum Family {
    /// A tree in which each node has an edge to an earlier one, and so many more edges between any two nodes, the
    /// same ones again among them, or from a node to itself.
    Tree { nodes: u32, more: u32 },
    /// A node with an edge to each other one, and where it has a rim an edge from each of these to that of half its
    /// number.
    Star { nodes: u32, has_rim: bool },
    /// So many hubs with an edge to each of 140 nodes, which are a path: of one hub a fan.
    Hubs { hubs: u32 },
    /// So many rows and columns.
    Grid { rows: u32, cols: u32 },
}

// An edge as its two ends and its weight.
type EdgeRow = (u32, u32, i64);

// All weights 0, all 1, few with many zeros, few, or of many sizes.
fn weight(law: u32, word: u32) -> u32 {
    match law {
        0 => 0,
        1 => 1,
        2 => (word % 8).saturating_sub(4),
        3 => word % 50,
        _ => word % 1_048_576,
    }
}

// Adds an edge with a drawn weight.
fn push_edge(
    edges: &mut Vec<EdgeRow>,
    a: u32,
    b: u32,
    law: u32,
    draws: &mut Pcg32,
) -> Result<(), AllocError> {
    let w = weight(law, draws.next_word());
    edges.push((a, b, i64::from(w)))?;
    Ok(())
}

// The edges of a tree, and more.
fn push_tree(
    edges: &mut Vec<EdgeRow>,
    nodes: u32,
    more: u32,
    law: u32,
    draws: &mut Pcg32,
) -> Result<(), AllocError> {
    for node in 1..nodes {
        let before = draws.next_word() % node;
        push_edge(edges, before, node, law, draws)?;
    }
    let all = nodes.max(1);
    for _ in 0..more {
        let a = draws.next_word() % all;
        let b = draws.next_word() % all;
        push_edge(edges, a, b, law, draws)?;
    }
    Ok(())
}

fn push_star(
    edges: &mut Vec<EdgeRow>,
    nodes: u32,
    has_rim: bool,
    law: u32,
    draws: &mut Pcg32,
) -> Result<(), AllocError> {
    for node in 1..nodes {
        push_edge(edges, node, 0, law, draws)?;
        if has_rim {
            push_edge(edges, node, node / 2, law, draws)?;
        }
    }
    Ok(())
}

fn push_hubs(
    edges: &mut Vec<EdgeRow>,
    hubs: u32,
    law: u32,
    draws: &mut Pcg32,
) -> Result<(), AllocError> {
    for node in hubs..hubs.saturating_add(140) {
        for hub in 0..hubs {
            push_edge(edges, hub, node, law, draws)?;
        }
        push_edge(edges, node.saturating_sub(1), node, law, draws)?;
    }
    Ok(())
}

fn push_grid(
    edges: &mut Vec<EdgeRow>,
    rows: u32,
    cols: u32,
    law: u32,
    draws: &mut Pcg32,
) -> Result<(), AllocError> {
    let nodes = rows.saturating_mul(cols);
    for node in 1..nodes {
        if node % cols > 0 {
            push_edge(edges, node - 1, node, law, draws)?;
        }
        if node >= cols {
            push_edge(edges, node - cols, node, law, draws)?;
        }
    }
    Ok(())
}

// The edges of a graph.
fn push_edges(
    edges: &mut Vec<EdgeRow>,
    family: Family,
    law: u32,
    draws: &mut Pcg32,
) -> Result<(), AllocError> {
    match family {
        Family::Tree { nodes, more } => push_tree(edges, nodes, more, law, draws),
        Family::Star { nodes, has_rim } => push_star(edges, nodes, has_rim, law, draws),
        Family::Hubs { hubs } => push_hubs(edges, hubs, law, draws),
        Family::Grid { rows, cols } => push_grid(edges, rows, cols, law, draws),
    }
}

// The number of nodes of a graph.
fn node_count(family: Family) -> u32 {
    match family {
        Family::Tree { nodes, more: _ } => nodes,
        Family::Star { nodes, has_rim: _ } => nodes,
        Family::Hubs { hubs } => hubs.saturating_add(140),
        Family::Grid { rows, cols } => rows.saturating_mul(cols),
    }
}

// Node 0, and the last nodes or perhaps one in two.
fn push_ends(ends: &mut Vec<u32>, nodes: u32, draws: &mut Pcg32) -> Result<(), AllocError> {
    let has_all = draws.next_word() % 2 == 0;
    ends.push(0)?;
    for node in 1..nodes {
        if has_all || draws.next_word() % 2 == 0 {
            ends.push(node)?;
        }
    }
    Ok(())
}

// Without the first, where these are odd in number.
fn even_part(ends: &[u32]) -> &[u32] {
    if ends.len() % 2 == 0 {
        return ends;
    }
    match ends {
        [_, others @ ..] => others,
        _ => ends,
    }
}

// An edge of small weight.
fn edge(rt: &impl Abort, nodes: u32, a: u32, b: u32, w: i64) -> Edge
    ensures joined { IsEdge nodes result }
    ensures small { weight_at result ≤ 1048576 }
{
    expect(rt, "first end", a < nodes);
    expect(rt, "second end", b < nodes);
    expect(rt, "no negative weight", w >= 0);
    expect(rt, "small weight", w <= 1048576);
    Edge { a, b, w }
}

// The graph of these edges.
fn web(rt: &impl Abort, alloc: Global, nodes: u32, list: &[EdgeRow]) -> Result<Web, AllocError>
    ensures nodes { IfOk result (λ made. made.nodes ≡ nodes) }
    ensures light { IfOk result (λ made. total_weight made ≤ 10485760000) }
{
    expect(rt, "a node", nodes >= 1);
    expect(rt, "few nodes", nodes <= 10000);
    expect(rt, "few edges", list.len() <= 10000);
    let mut edges = Edges::new(alloc);
    for (a, b, w) in list {
        edges.push(edge(rt, nodes, *a, *b, *w))?;
    }
    Ok(Web::new(nodes, edges))
}

// These nodes of a graph as its terminals: an even number that rises.
fn terminals_of(
    rt: &impl Abort,
    alloc: Global,
    web: &Web,
    ends: &[u32],
) -> Result<Terminals, AllocError>
    ensures terminals { IfOk result (AreTerminals web.now) }
    ensures even { IfOk result (λ made. length made % 2 ≡ 0) }
{
    expect(rt, "terminals that rise", is_rising(ends));
    expect(
        rt,
        "terminals among the nodes",
        all_below(ends, web.nodes() as usize),
    );
    expect(rt, "an even number of terminals", ends.len() % 2 == 0);
    Ok(Terminals::from_vec(Vec::from_slice(alloc, ends)?))
}

// The graph of these edges, which is connected, with these terminals.
fn network(
    rt: &impl Abort,
    alloc: Global,
    nodes: u32,
    list: &[EdgeRow],
    ends: &[u32],
) -> Result<Network, AllocError>
    ensures { IfOk result (λ n. IsNetwork n.web n.terminals) }
{
    let made = web(rt, alloc, nodes, list)?;
    let is_connected = connected(alloc, &made)?;
    expect(rt, "connected", is_connected);
    let terminals = terminals_of(rt, alloc, &made, ends)?;
    Ok(Network {
        web: made,
        terminals,
    })
}

/// A graph with weights of a law, and with terminals: the last nodes, or perhaps one in two, and node 0 where these are
/// odd in number.
pub fn drawn(
    rt: &impl Abort,
    alloc: Global,
    family: Family,
    law: u32,
    draws: &mut Pcg32,
) -> Result<Network, AllocError>
    ensures { IfOk result (λ n. IsNetwork n.web n.terminals) }
{
    let nodes = node_count(family);
    let mut edges = Vec::new(alloc);
    push_edges(&mut edges, family, law, draws)?;
    let mut ends = Vec::new(alloc);
    push_ends(&mut ends, nodes, draws)?;
    network(rt, alloc, nodes, &edges, even_part(&ends))
}
