ghost use Rattle.std.specs.Prelude.{◌≡◌, ◌<◌, pos, All};
ghost use Rattle.std.specs.List.Sorted.{IsStrictlyIncreasing};
ghost use Rattle.sg_graph.specs.Web.{edge_count, weight_of};

use sg_graph::{EdgeList, Web};

/// What a T-join weighs.
pub fn weight(web: &Web, edges: &EdgeList) -> i64
    requires rising { IsStrictlyIncreasing edges.now }
    requires below { All (λ e. e < edge_count web.now) edges.now }
    ensures { result ≡ pos (weight_of web.now edges.now) }
{
    web.weight(edges.as_slice()) as i64
}
