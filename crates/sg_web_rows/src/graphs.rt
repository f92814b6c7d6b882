// What graphs are made of, and tables over their nodes.
ghost use Rattle.std.specs.Prelude.{◌<◌, length};
ghost use Rattle.sg_graph.specs.Incidence.{AreIncident};

use super::facts::expect;
use super::webs::{BUNDLE, EdgeRow, web};
use sg_graph::{Edge, Incidence, NoMemory, Table, Web, connected, first_unreached};
use std::alloc::Global;
use std::process::Abort;
use std::test::Fail;

// The degree of a node, and the edges that end there.
type NodeRow<'a> = (u32, &'a [u32]);

// The number of nodes of a graph, its edges, the first node that is not reached, and each node.
type Row<'a> = (u32, &'a [EdgeRow], Option<u32>, &'a [NodeRow<'a>]);

// Nodes without edges, parallel edges, an edge to itself, which counts twice and is listed once, and a
// triangle with such an edge and a node apart.
static ROWS: [Row; 4] = [
    (2, &[], Some(1), &[(0, &[]), (0, &[])]),
    (2, BUNDLE, None, &[(4, &[0, 1, 2, 3]), (4, &[0, 1, 2, 3])]),
    (1, &[(0, 0, 1)], None, &[(2, &[0])]),
    (
        4,
        &[(0, 1, 1), (2, 0, 1), (0, 0, 1), (2, 1, 1)],
        Some(3),
        &[(4, &[0, 1, 2]), (2, &[0, 3]), (2, &[1, 3]), (0, &[])],
    ),
];

// The nodes are these.
fn expect_nodes(rt: &impl Abort, small: &Web, incidence: &Incidence, nodes: &[NodeRow])
    requires { AreIncident small.now incidence.now }
{
    expect(rt, "number of nodes", small.nodes() as usize == nodes.len());
    for node in 0..small.nodes() {
        let (degree, edges) = nodes[node as usize];
        expect(rt, "degree", small.degree(node) == degree);
        expect(rt, "edges at a node", incidence.at(node) == edges);
    }
}

// The graph of a row is made of these edges and nodes, and is connected or not.
fn expect_graph(rt: &impl Abort, alloc: Global, row: &Row) -> Result<(), NoMemory> {
    let (count, list, unreached, nodes) = *row;
    let small = web(rt, alloc, count, list)?;
    expect(rt, "number of edges", small.edges().len() == list.len());
    let is_connected = connected(alloc, &small)?;
    expect(rt, "connected", is_connected == unreached.is_none());
    let found = first_unreached(alloc, &small)?;
    expect(rt, "first node that is not reached", found == unreached);
    let incidence = Incidence::new(alloc, &small)?;
    expect_nodes(rt, &small, &incidence, nodes);
    Ok(())
}

#[test]
fn graphs_have_these_edges_and_nodes(rt: HostRuntime) -> Result<(), Fail> {
    for row in &ROWS {
        expect_graph(&rt, rt.alloc(), row)?;
    }
    expect(&rt, "other end", Edge { a: 2, b: 0, w: 1 }.other(2) == 0);
    Ok(())
}

// A node of a table has this distance, if it is reached, and this edge to its parent.
fn expect_node(
    rt: &impl Abort,
    table: &Table,
    node: u32,
    distance: Option<i64>,
    parent: Option<u32>,
)
    requires { node < length table.now.to }
{
    let found = if table.reached(node) {
        Some(table.distance(node))
    } else {
        None
    };
    expect(rt, "distance", found == distance);
    expect(rt, "parent", table.parent(node) == parent);
}

#[test]
fn a_table_keeps_what_is_set(rt: HostRuntime) -> Result<(), Fail> {
    let mut table = Table::new(rt.alloc(), 3, 1)?;
    table.set(2, 7, 4);
    expect(&rt, "source", table.source() == 1);
    expect_node(&rt, &table, 0, None, None);
    expect_node(&rt, &table, 1, Some(0), None);
    expect_node(&rt, &table, 2, Some(7), Some(4));
    Ok(())
}
