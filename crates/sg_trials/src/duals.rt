// The dual graphs of small drawings, and their frustrated faces.
use super::facts::expect;
use super::texts::instance;
use sg_dual::dual;
use sg_faces::trace;
use sg_graph::{Edge, Web, connected};
use sg_model::{Fault, Instance};
use std::alloc::Global;
use std::test::Fail;

// The ends and the weight of an edge.
type EdgeRow = (u32, u32, i64);

// The number of nodes, the edges, and the terminals.
type WebRow<'a> = (u32, &'a [EdgeRow], &'a [u32]);

fn is_edge(edge: &Edge, row: &EdgeRow) -> bool {
    edge.a == row.0 && edge.b == row.1 && edge.w == row.2
}

fn are_edges(edges: &[Edge], rows: &[EdgeRow]) -> bool {
    if edges.len() != rows.len() {
        return false;
    }
    for k in 0..rows.len() {
        if !is_edge(&edges[k], &rows[k]) {
            return false;
        }
    }
    true
}

fn is_web(web: &Web, terminals: &[u32], row: &WebRow) -> bool {
    let (nodes, edges, ends) = *row;
    web.nodes() == nodes && are_edges(web.edges().as_slice(), edges) && terminals == ends
}

// Whether this is the dual of an instance that is not too heavy, and it is connected.
fn has_dual(alloc: Global, inst: &Instance, row: &WebRow) -> Result<bool, Fault> {
    let faces = trace(alloc, inst)?;
    if faces.count() > 1 << 24 || inst.weight() > 1 << 60 {
        return Ok(false);
    }
    let (web, terminals) = dual(alloc, inst, &faces)?;
    let is_connected = connected(alloc, &web)?;
    Ok(is_connected && is_web(&web, terminals.as_slice(), row))
}

// The same of the instance of a text.
fn is_dual(alloc: Global, text: &str, row: &WebRow) -> Result<bool, Fault> {
    let inst = instance(alloc, text)?;
    has_dual(alloc, &inst, row)
}

static ROWS: [(&str, WebRow); 3] = [
    (
        "square,2,2\n3,4,2,-5\nend\n",
        (2, &[(0, 1, 3), (1, 0, 4), (1, 0, 2), (0, 1, 5)], &[0, 1]),
    ),
    ("square,1,1\nend\n", (1, &[], &[])),
    ("square,1,2\n-7\nend\n", (1, &[(0, 0, 7)], &[])),
];

#[test]
fn a_face_with_an_odd_number_of_negative_sides_is_frustrated(rt: HostRuntime) -> Result<(), Fail> {
    for (text, row) in &ROWS {
        let is_wanted = is_dual(rt.alloc(), text, row)?;
        expect(&rt, text, is_wanted);
    }
    Ok(())
}
