ghost use Rattle.std.specs.Prelude.{◌≡◌, ◌≢◌, ◌≤◌, ◌<◌, ◌^◌, length, replicate, slice_set, Some, None, IfOk, IsTrue};
ghost use Rattle.sg_graph.specs.Table.{IsTable, at_home, distance_at, is_reached, parent_at, with_route};

use super::NoMemory;
use std::alloc::Global;
use std::marker::Model;

// The number that means no edge, for a node that is not reached.
const UNREACHED: u32 = u32::MAX;

/// For one source, which nodes are reached from it, at which distance, and over which edge each was
/// reached: 12 bytes a node.
#[derive(Drop)]
pub struct Table {
    source: u32,
    // Both have an entry for each node. The source's edge says only that it is reached.
    distances: Vec<i64>,
    edges: Vec<u32>,
}

impl Model for Table {
    ghost use Rattle.sg_graph.specs.Table.{Routes, IsTable};

    ghost Value = { Routes };

    ghost use Rattle.std.specs.Prelude.{◌≡◌, length};
    ghost use Rattle.sg_graph.specs.Slots.{routes_of};

    ghost view = { λ t. record { source = t.source; to = routes_of t.distances.items t.edges.items } };

    ghost invariant = { λ t. (length t.distances.items ≡ length t.edges.items) × IsTable (record { source = t.source; to = routes_of t.distances.items t.edges.items }) };
}

impl Table {
    /// A table of `nodes` nodes that reaches the source alone, at distance 0.
    pub fn new(alloc: Global, nodes: u32, source: u32) -> Result<Self, NoMemory>
        requires source_in { source < nodes }
        requires few { nodes ≤ 2 ^ 24 }
        ensures { IfOk result (λ t. t ≡ record { source = source; to = slice_set (replicate nodes None) source (Some at_home) }) }
    {
        let distances = vec![in alloc; 0i64; nodes as usize]?;
        let mut edges = vec![in alloc; UNREACHED; nodes as usize]?;
        edges[source as usize] = 0;
        Ok(Table {
            source,
            distances,
            edges,
        })
    }

    /// Notes that the node is reached at this distance over this edge, in place of what was noted of
    /// it before. No `Web` has an edge with a number beyond the limit. It does not allocate.
    pub fn set(&mut self, node: u32, distance: i64, edge: u32)
        requires node_in { node < length self.old.to }
        requires not_source { node ≢ self.old.source }
        requires edge { edge < 2 ^ 24 }
        ensures { self.new ≡ with_route self.old node distance edge }
    {
        self.distances[node as usize] = distance;
        self.edges[node as usize] = edge;
    }

    /// The source.
    pub fn source(&self) -> u32
        ensures value { result ≡ self.now.source }
        ensures table { IsTable self.now }
    {
        self.source
    }

    /// Whether the node is reached.
    pub fn reached(&self, node: u32) -> bool
        requires { node < length self.now.to }
        ensures value { result ≡ is_reached self.now node }
        ensures table { IsTable self.now }
    {
        self.edges[node as usize] != UNREACHED
    }

    /// The distance of a node that is reached.
    pub fn distance(&self, node: u32) -> i64
        requires node_in { node < length self.now.to }
        requires reached { IsTrue (is_reached self.now node) }
        ensures { result ≡ distance_at self.now node }
    {
        self.distances[node as usize]
    }

    /// The edge over which the node was reached: none for the source, and for nodes not reached.
    pub fn parent(&self, node: u32) -> Option<u32>
        requires { node < length self.now.to }
        ensures { result ≡ parent_at self.now node }
    {
        let edge = self.edges[node as usize];
        if node != self.source && edge != UNREACHED {
            Some(edge)
        } else {
            None
        }
    }
}
