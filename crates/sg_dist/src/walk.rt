ghost use Rattle.std.specs.Prelude.{◌≡◌, ◌≢◌, reverse, IfOk, IsTrue};
ghost use Rattle.std.specs.List.{AllPairs};
ghost use Rattle.sg_graph.specs.Web.{weight_of};
ghost use Rattle.sg_graph.specs.Walk.{IsWebWalk};
ghost use Rattle.sg_graph.specs.Table.{IsTableOf, IsWayBack, is_reached, length_to};

use super::NoMemory;
use sg_graph::{EdgeList, Table, Web};
use std::alloc::Global;

/// The edges of a shortest walk from the source of the table to the node, in order, in time linear
/// in their number.
pub fn path(alloc: Global, web: &Web, table: &Table, to: u32) -> Result<EdgeList, NoMemory>
    requires table { IsTableOf web.now table.now }
    requires reached { IsTrue (is_reached table.now to) }
    ensures walk { IfOk result (λ edges. IsWebWalk web.now table.now.source edges to) }
    ensures shortest { IfOk result (λ edges. weight_of web.now edges ≡ length_to table.now to) }
    ensures none_twice { IfOk result (AllPairs (λ e f. e ≢ f)) }
{
    let back = way_back(alloc, web, table, to)?;
    Ok(turned_round(back))
}

fn turned_round(mut back: Vec<u32>) -> EdgeList
    ensures { result ≡ reverse back.items }
{
    back.reverse();
    EdgeList::from_vec(back)
}

// The parent edges from the node back to the source.
fn way_back(alloc: Global, web: &Web, table: &Table, to: u32) -> Result<Vec<u32>, NoMemory>
    requires table { IsTableOf web.now table.now }
    requires reached { IsTrue (is_reached table.now to) }
    ensures { IfOk result (λ back. IsWayBack web.now table.now to back.items table.now.source) }
{
    let edges = web.edges().as_slice();
    let mut back = Vec::new(alloc);
    let mut at = to;
    while let Some(edge) = table.parent(at) {
        back.push(edge)?;
        at = edges[edge as usize].other(at);
    }
    Ok(back)
}
