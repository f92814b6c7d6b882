ghost use Rattle.std.specs.Prelude.{◌≡◌, ◌<◌, ◌≤◌, ◌≤ℤ◌, ◌^◌, All, pos};
ghost use Rattle.sg_graph.specs.Web.{IsEdge, IsWeb, degree_of, edge_at, edge_count, ends_on, total_weight, weight_of, with_weight};
ghost use Rattle.sg_graph.specs.Walk.{other_end};

use sg_base::{Numbers, Records};
use std::marker::Model;

/// An edge between the nodes `a` and `b`, which may be the same, of weight `w`.
#[derive(Clone, Copy, Debug)]
pub struct Edge {
    pub a: u32,
    pub b: u32,
    pub w: i64,
}

impl Edge {
    /// The end away from `node`, for an edge that ends there: `node` itself where both ends do.
    pub fn other(&self, node: u32) -> u32
        ensures { result ≡ other_end node self.now }
    {
        if self.a == node { self.b } else { self.a }
    }
}

/// Edges, in their order.
pub type Edges = Records<Edge>;

/// Edges by their numbers.
pub type EdgeList = Numbers<u32>;

/// Nodes by their numbers, strictly rising.
pub type Terminals = Numbers<u32>;

/// A weighted multigraph: at least one node and at most 2^24 nodes and edges. Edges may be parallel,
/// and may join a node to itself. No weight is negative, and together they are at most 2^60.
#[derive(Drop)]
pub struct Web {
    nodes: u32,
    edges: Edges,
}

impl Model for Web {
    ghost use Rattle.sg_graph.specs.Web.{Graph, IsWeb};

    ghost Value = { Graph };

    ghost view = { λ web. record { nodes = web.nodes; edges = web.edges } };

    ghost invariant = { λ web. IsWeb (record { nodes = web.nodes; edges = web.edges }) };
}

impl Web {
    /// The graph of `nodes` nodes with these edges. It does not allocate.
    pub fn new(nodes: u32, edges: Edges) -> Self
        requires { IsWeb (record { nodes = nodes; edges = edges }) }
        ensures { result ≡ record { nodes = nodes; edges = edges } }
    {
        Web { nodes, edges }
    }

    /// The number of nodes.
    pub fn nodes(&self) -> u32
        ensures value { result ≡ self.now.nodes }
        ensures web { IsWeb self.now }
    {
        self.nodes
    }

    /// The edges, in their order.
    pub fn edges(&self) -> &Edges
        ensures value { result.now ≡ self.now.edges }
        ensures web { IsWeb self.now }
    {
        &self.edges
    }

    /// Edge `e`.
    pub fn edge(&self, e: u32) -> Edge
        requires { e < edge_count self.now }
        ensures value { result ≡ edge_at self.now e }
        ensures joined { IsEdge self.now.nodes result }
    {
        *self.edges.at(e as usize)
    }

    /// The weight of the edges of the list, counted as often as they stand in it.
    pub fn weight(&self, list: &[u32]) -> u128
        requires { All (λ e. e < edge_count self.now) list.now }
        ensures value { result ≡ weight_of self.now list.now }
        ensures size { result < 2 ^ 126 }
        ensures web { IsWeb self.now }
    {
        let all = self.edges().as_slice();
        let mut sum: u128 = 0;
        for e in list {
            sum += u128::from(all[*e as usize].w.unsigned_abs());
        }
        sum
    }

    /// Gives edge `e` another weight, not below 0, and returns the old one. All weights together
    /// have to stay within 2^60. It does not allocate.
    pub fn set_weight(&mut self, e: u32, weight: i64) -> i64
        requires edge { e < edge_count self.old }
        requires not_negative { pos 0 ≤ℤ weight }
        requires light { total_weight (with_weight self.old e weight) ≤ 2 ^ 60 }
        ensures web { self.new ≡ with_weight self.old e weight }
        ensures old { result ≡ (edge_at self.old e).w }
    {
        let Edge { a, b, w } = self.edge(e);
        self.edges.set(e as usize, Edge { a, b, w: weight });
        w
    }

    /// The number of edge ends at the node, an edge to itself twice, in time linear in the edges. It does
    /// not allocate. For one node only: callers that need all degrees use incidence lists.
    pub fn degree(&self, node: u32) -> u32
        requires { node < self.now.nodes }
        ensures { result ≡ degree_of self.now node }
    {
        let mut degree = 0;
        for edge in self.edges.as_slice() {
            degree += ends(edge, node);
        }
        degree
    }
}

// How many ends the edge has at the node.
fn ends(edge: &Edge, node: u32) -> u32
    ensures { result ≡ ends_on node edge.now }
{
    u32::from(edge.a == node) + u32::from(edge.b == node)
}
