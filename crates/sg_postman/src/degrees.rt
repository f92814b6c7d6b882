ghost use Rattle.std.specs.Prelude.{◌≡◌, ◌==◌, ◌<◌, ℕ, length, IfOk};
ghost use Rattle.sg_base.specs.Parity.{xor};
ghost use Rattle.sg_base.specs.Sets.{is_marked};
ghost use Rattle.sg_postman.specs.Tour.{odd_nodes};

use super::NoMemory;
use sg_base::places;
use sg_graph::{Terminals, Web};
use std::alloc::Global;

/// The nodes at which an odd number of edges end, an edge to itself twice, in time linear in nodes and
/// edges.
pub fn odd_nodes(alloc: Global, web: &Web) -> Result<Terminals, NoMemory>
    ensures { IfOk result (λ nodes. nodes ≡ odd_nodes web.now) }
{
    let edges = web.edges().as_slice();
    let mut odd = vec![in alloc; false; web.nodes() as usize]?;
    for k in 0..edges.len() {
        let edge = edges[k];
        turn(&mut odd, edge.a);
        turn(&mut odd, edge.b);
    }
    places(alloc, &odd)
}

// Turns the mark of the node.
fn turn(marks: &mut Vec<bool>, node: u32)
    requires { node < length marks.old.items }
    ensures count { length marks.new.items ≡ length marks.old.items }
    ensures turned { (x : ℕ) → is_marked marks.new.items x ≡ xor (is_marked marks.old.items x) (node == x) }
{
    marks[node as usize] = !marks[node as usize];
}
