ghost use Rattle.std.specs.Prelude.{◌+◌, ◌≤◌, ℕ, List};
ghost use Rattle.sg_graph.specs.Join.{IsLeastJoin};
ghost use Rattle.sg_graph.specs.Web.{Graph, total_weight, weight_of};
ghost use Rattle.sg_postman.specs.Tour.{IsClosedWalk, odd_nodes};

/// No closed walk over every edge weighs less than all edges and a minimum T-join of the nodes of
/// odd degree together, for all graphs (Edmonds and Johnson 1973).
///
/// It computes nothing: a caller cites this call for walks from elsewhere.
pub fn closed_walks_weigh()
    ensures { (g : Graph) (join walk : List ℕ) → IsLeastJoin g (odd_nodes g) join → IsClosedWalk g walk
        → total_weight g + weight_of g join ≤ weight_of g walk }
{}
