ghost use Rattle.std.specs.Prelude.{◌≡◌, ℕ, ◌<◌, length, All};
ghost use Rattle.sg_base.specs.Ends.{is_end};
ghost use Rattle.sg_base.specs.Parity.{parity_by, xor};
ghost use Rattle.sg_base.specs.Sets.{is_marked};
ghost use Rattle.sg_graph.specs.Web.{edge_at, edge_count};

use super::Web;
use sg_base::flip;

/// Turns the marks at both ends of each edge of the list, those of an edge to itself back again.
///
/// Started with no marks, it leaves those nodes marked that meet an odd number of the ends.
pub fn turn_ends(web: &Web, list: &[u32], marks: &mut [bool])
    requires below { All (λ e. e < edge_count web.now) list.now }
    requires nodes { length marks.old ≡ web.now.nodes }
    ensures { (x : ℕ) → x < web.now.nodes → is_marked marks.new x
        ≡ xor (is_marked marks.old x) (parity_by (λ e. is_end (edge_at web.now e).a (edge_at web.now e).b x) list.now) }
{
    for k in list {
        let edge = web.edge(*k);
        flip(marks, &[edge.a, edge.b]);
    }
}
