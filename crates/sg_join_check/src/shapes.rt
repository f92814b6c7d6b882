// The tests of lists alone.

ghost use Rattle.std.specs.Prelude.{◌+◌, ◌*◌, ◌≤◌, ◌↔◌, IsTrue, All};
ghost use Rattle.sg_graph.specs.Web.{IsWeb};
ghost use Rattle.sg_join_check.specs.Shape.{HasCutShape, IsEdgeSet};

use sg_base::{all_below, is_rising};
use sg_graph::{Cut, Web};

// Whether the list is a set of edges.
pub fn is_edge_set(web: &Web, list: &[u32]) -> bool
    ensures { IsTrue result ↔ IsEdgeSet web.now list.now }
{
    is_rising(list) && all_below(list, web.edges().len())
}

fn has_shape(web: &Web, cut: &Cut) -> bool
    ensures { IsTrue result ↔ HasCutShape web.now cut.now }
{
    cut.y >= 1 && is_edge_set(web, cut.edges.as_slice())
}

// Whether each cut has a weight of 1 or more, and a set of edges.
pub fn all_shaped(web: &Web, cuts: &[Cut]) -> bool
    ensures { IsTrue result → All (HasCutShape web.now) cuts.now }
{
    for cut in cuts {
        if !has_shape(web, cut) {
            return false;
        }
    }
    true
}

// Whether there are at most three cuts for each two terminals, and one for each node.
pub fn are_few(web: &Web, terminals: usize, cuts: usize) -> bool
    ensures few { IsTrue result → 2 * cuts ≤ 3 * terminals + 2 * web.now.nodes }
    ensures web { IsWeb web.now }
{
    2 * cuts as u128 <= 3 * terminals as u128 + 2 * u128::from(web.nodes())
}
