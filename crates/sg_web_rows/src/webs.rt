// Weighted graphs of a few edges, and terminals among their nodes.
ghost use Rattle.std.specs.Prelude.{◌≡◌, ◌≤◌, ◌%◌, length, IfOk};
ghost use Rattle.sg_graph.specs.Join.{AreTerminals};
ghost use Rattle.sg_graph.specs.Walk.{IsConnectedWeb};
ghost use Rattle.sg_graph.specs.Web.{IsEdge, total_weight, weight_at};

use super::facts::expect;
use sg_base::{all_below, is_rising};
use sg_graph::{Edge, Edges, NoMemory, Terminals, Web, connected};
use std::alloc::Global;
use std::process::Abort;

/// An edge as its two ends and its weight.
pub type EdgeRow = (u32, u32, i64);

/// Four edges between two nodes. Only tables name it, since a body would build it anew.
pub const BUNDLE: &[EdgeRow] = &[(0, 1, 3), (1, 0, 4), (1, 0, 2), (0, 1, 5)];

/// The number of nodes, the edges, and the terminals.
pub type Graph<'a> = (u32, &'a [EdgeRow], &'a [u32]);

/// The weight of a cut, and its edges.
pub type CutRow<'a> = (i64, &'a [u32]);

/// A graph with terminals among its nodes.
pub struct Problem {
    pub web: Web,
    pub terminals: Terminals,
}

// An explicit `Drop`: otherwise each exit of a function that owns one drops both lists.
impl Drop for Problem {
    fn drop(self) {
        let Problem {
            web: _web,
            terminals: _terminals,
        } = self;
    }
}

// An edge of small weight.
fn edge(rt: &impl Abort, nodes: u32, a: u32, b: u32, w: i64) -> Edge
    ensures joined { IsEdge nodes result }
    ensures small { weight_at result ≤ 100 }
{
    expect(rt, "first end", a < nodes);
    expect(rt, "second end", b < nodes);
    expect(rt, "no negative weight", w >= 0);
    expect(rt, "small weight", w <= 100);
    Edge { a, b, w }
}

/// The weighted graph of these edges.
pub fn web(rt: &impl Abort, alloc: Global, nodes: u32, list: &[EdgeRow]) -> Result<Web, NoMemory>
    ensures nodes { IfOk result (λ made. made.nodes ≡ nodes) }
    ensures light { IfOk result (λ made. total_weight made ≤ 10000) }
{
    expect(rt, "a node", nodes >= 1);
    expect(rt, "few nodes", nodes <= 100);
    expect(rt, "few edges", list.len() <= 100);
    let mut edges = Edges::new(alloc);
    for (a, b, w) in list {
        edges.push(edge(rt, nodes, *a, *b, *w))?;
    }
    Ok(Web::new(nodes, edges))
}

// These nodes of a graph as its terminals: an even number that rises.
fn terminals_of(
    rt: &impl Abort,
    alloc: Global,
    web: &Web,
    ends: &[u32],
) -> Result<Terminals, NoMemory>
    ensures terminals { IfOk result (AreTerminals web.now) }
    ensures even { IfOk result (λ made. length made % 2 ≡ 0) }
    ensures same { IfOk result (λ made. made ≡ ends.now) }
{
    expect(rt, "terminals that rise", is_rising(ends));
    expect(
        rt,
        "terminals among the nodes",
        all_below(ends, web.nodes() as usize),
    );
    expect(rt, "an even number of terminals", ends.len() % 2 == 0);
    Ok(Terminals::from_vec(Vec::from_slice(alloc, ends)?))
}

/// A graph with its terminals.
pub fn problem_of(rt: &impl Abort, alloc: Global, graph: &Graph) -> Result<Problem, NoMemory>
    ensures terminals { IfOk result (λ made. AreTerminals made.web made.terminals) }
    ensures even { IfOk result (λ made. length made.terminals % 2 ≡ 0) }
    ensures light { IfOk result (λ made. total_weight made.web ≤ 10000) }
{
    let (nodes, list, ends) = *graph;
    let small = web(rt, alloc, nodes, list)?;
    let terminals = terminals_of(rt, alloc, &small, ends)?;
    Ok(Problem {
        web: small,
        terminals,
    })
}

/// The same of a graph that has to be connected.
pub fn connected_problem(rt: &impl Abort, alloc: Global, graph: &Graph) -> Result<Problem, NoMemory>
    ensures connected { IfOk result (λ made. IsConnectedWeb made.web) }
    ensures terminals { IfOk result (λ made. AreTerminals made.web made.terminals) }
    ensures even { IfOk result (λ made. length made.terminals % 2 ≡ 0) }
    ensures light { IfOk result (λ made. total_weight made.web ≤ 10000) }
{
    let problem = problem_of(rt, alloc, graph)?;
    let is_connected = connected(alloc, &problem.web)?;
    expect(rt, "connected", is_connected);
    Ok(problem)
}
