// The tests of the weights: the load of each edge, and the sums.

ghost use Rattle.std.specs.Prelude.{◌≡◌, ℕ, ◌<◌, ◌≤◌, ◌*◌, ◌^◌, length, slice_index, replicate, All, IsTrue, IfOk, sum_by};
ghost use Rattle.sg_graph.specs.OddCut.{cut_load, odd_cut_weight};
ghost use Rattle.sg_graph.specs.Web.{edge_count, edge_weight, weight_of};
ghost use Rattle.sg_join_check.specs.Shape.{HasCutShape};

use super::NoMemory;
use sg_base::add_weight;
use sg_graph::{Cut, Web};
use std::alloc::Global;

// Adds the weight of each cut at its edges.
fn add_cuts(web: &Web, cuts: &[Cut], loads: &mut [u128])
    requires few { length cuts.now < 2 ^ 32 }
    requires shaped { All (HasCutShape web.now) cuts.now }
    requires no_loads { loads.old ≡ replicate (edge_count web.now) 0 }
    ensures { (e : ℕ) → e < edge_count web.now → slice_index loads.new e ≡ cut_load cuts.now e }
{
    for cut in cuts {
        add_weight(loads, cut.edges.as_slice(), cut.y.unsigned_abs());
    }
}

// Whether no edge carries more than twice its weight.
fn all_within(web: &Web, loads: &[u128]) -> bool
    requires { length loads.now ≡ edge_count web.now }
    ensures { IsTrue result → (e : ℕ) → e < edge_count web.now → slice_index loads.now e ≤ 2 * edge_weight web.now e }
{
    for (e, edge) in web.edges().as_slice().iter().enumerate() {
        if loads[e] > 2 * u128::from(edge.w.unsigned_abs()) {
            return false;
        }
    }
    true
}

// Whether the cuts load no edge with more than twice its weight.
pub fn all_light(alloc: Global, web: &Web, cuts: &[Cut]) -> Result<bool, NoMemory>
    requires few { length cuts.now < 2 ^ 32 }
    requires shaped { All (HasCutShape web.now) cuts.now }
    ensures { IfOk result (λ yes. IsTrue yes → (e : ℕ) → e < edge_count web.now → cut_load cuts.now e ≤ 2 * edge_weight web.now e) }
{
    let mut loads = vec![in alloc; 0u128; web.edges().len()]?;
    add_cuts(web, cuts, &mut loads);
    Ok(all_within(web, &loads))
}

// The weights of all cuts.
fn sum_of_cuts(cuts: &[Cut]) -> u128
    requires { length cuts.now < 2 ^ 32 }
    ensures { result ≡ sum_by odd_cut_weight cuts.now }
{
    let mut total: u128 = 0;
    for cut in cuts {
        total += u128::from(cut.y.unsigned_abs());
    }
    total
}

// Whether the cuts weigh twice as much as the edges.
pub fn is_tight(web: &Web, list: &[u32], cuts: &[Cut]) -> bool
    requires few_cuts { length cuts.now < 2 ^ 32 }
    requires below { All (λ e. e < edge_count web.now) list.now }
    ensures { IsTrue result → sum_by odd_cut_weight cuts.now ≡ 2 * weight_of web.now list.now }
{
    sum_of_cuts(cuts) == 2 * web.weight(list)
}
