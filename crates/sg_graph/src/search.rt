ghost use Rattle.std.specs.Prelude.{◌↔◌, ◌≡◌, length, All, IfOk, IsTrue, MatchOption, OnOk};
ghost use Rattle.sg_graph.specs.Walk.{IsConnectedWeb, IsFirstUnreached};
ghost use Rattle.sg_graph.specs.Incidence.{EndsAt};
ghost use Rattle.sg_graph.specs.Search.{MarksReached, VisitsEdges};

use super::{Incidence, NoMemory, Web};
use std::alloc::Global;

/// Whether each node is reached from node 0, by a search in time linear in nodes and edges.
pub fn connected(alloc: Global, web: &Web) -> Result<bool, NoMemory>
    ensures { IfOk result (λ answer. IsTrue answer ↔ IsConnectedWeb web.now) }
{
    let unreached = first_unreached(alloc, web)?;
    Ok(unreached.is_none())
}

/// The least node that is not reached from node 0, and none where all are, by a search in time linear
/// in nodes and edges.
pub fn first_unreached(alloc: Global, web: &Web) -> Result<Option<u32>, NoMemory>
    ensures { IfOk result (λ node. MatchOption node (IsConnectedWeb web.now) (IsFirstUnreached web.now)) }
{
    let marks = marks_from_first(alloc, web)?;
    let nodes = web.nodes();
    for node in 0..nodes {
        if !marks[node as usize] {
            return Ok(Some(node));
        }
    }
    Ok(None)
}

// Marks the nodes that are reached from node 0.
fn marks_from_first(alloc: Global, web: &Web) -> Result<Vec<bool>, NoMemory>
    ensures { IfOk result (λ marks. MarksReached web.now marks.items) }
{
    let incidence = Incidence::new(alloc, web)?;
    let mut marks = vec![in alloc; false; web.nodes() as usize]?;
    let mut found: Vec<u32> = Vec::new(alloc);
    found.push(0)?;
    marks[0] = true;
    let mut next = 0;
    while next < found.len() {
        let node = found[next];
        visit(web, incidence.at(node), node, &mut marks, &mut found)?;
        next += 1;
    }
    Ok(marks)
}

// Marks the far ends of the edges at the node, and notes those that were not marked.
fn visit(
    web: &Web,
    edges_here: &[u32],
    node: u32,
    marks: &mut Vec<bool>,
    found: &mut Vec<u32>,
) -> Result<(), NoMemory>
    requires here { All (EndsAt web.now node) edges_here.now }
    requires marks { length marks.old.items ≡ web.now.nodes }
    ensures { OnOk result (VisitsEdges web.now node edges_here.now marks.old.items marks.new.items found.old.items found.new.items) }
{
    let edges = web.edges().as_slice();
    for k in edges_here {
        let other = edges[*k as usize].other(node);
        if !marks[other as usize] {
            found.push(other)?;
            marks[other as usize] = true;
        }
    }
    Ok(())
}
