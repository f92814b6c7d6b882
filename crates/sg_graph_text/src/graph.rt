use sg_graph::{Edges, Terminals};

/// A weighted graph and a set of its nodes.
#[derive(Drop)]
pub struct GraphText {
    /// The number of nodes, which are numbered from 0.
    pub nodes: u32,
    /// The edges, in the order of their records.
    pub edges: Edges,
    /// The terminals, rising; none where the text gives none.
    pub terminals: Terminals,
}
