ghost use Rattle.std.specs.Prelude.{◌≡◌, ℕ, ◌*◌, ◌≤◌, List, sum_by};
ghost use Rattle.sg_graph.specs.declared.cut.Cut.{Cut};
ghost use Rattle.sg_graph.specs.Join.{AreTerminals, IsJoin, IsLeastJoin};
ghost use Rattle.sg_graph.specs.OddCut.{CutsPack, odd_cut_weight};
ghost use Rattle.sg_graph.specs.Web.{Graph, IsWeb, weight_of};

/// Weak duality of T-joins and odd cuts (Edmonds and Johnson 1973), for all weighted graphs: each
/// T-join has an edge in each odd cut, so the weights of cuts that pack are at most twice the weight
/// of any T-join. A T-join of which they weigh twice as much is therefore least.
///
/// It computes nothing: a caller cites this call for cuts from elsewhere.
pub fn cuts_bound_joins()
    ensures bound { (g : Graph) (terminals edges : List ℕ) (cuts : List Cut) →
        IsWeb g → AreTerminals g terminals → IsJoin g terminals edges → CutsPack g terminals cuts →
        sum_by odd_cut_weight cuts ≤ 2 * weight_of g edges }
    ensures least { (g : Graph) (terminals edges : List ℕ) (cuts : List Cut) →
        IsWeb g → AreTerminals g terminals → IsJoin g terminals edges → CutsPack g terminals cuts →
        sum_by odd_cut_weight cuts ≡ 2 * weight_of g edges → IsLeastJoin g terminals edges }
{}
