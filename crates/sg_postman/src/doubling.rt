ghost use Rattle.std.specs.Prelude.{◌≡◌, ℕ, ◌+◌, ◌<◌, ◌≤◌, ◌^◌, cond, length, pos, sum_by, All, IfOk};
ghost use Rattle.sg_graph.specs.Web.{weight_at};
ghost use Rattle.sg_base.specs.Sets.{holds};
ghost use Rattle.sg_postman.specs.Tracing.{left_of};

use super::NoMemory;
use sg_graph::Edge;
use std::alloc::Global;

/// How often each of `count` edges is to be used: twice if it is in the T-join, and once if it is
/// not.
pub fn copies(alloc: Global, count: usize, join: &[u32]) -> Result<Vec<u32>, NoMemory>
    requires { All (λ e. e < count) join.now }
    ensures count { IfOk result (λ copies. length copies.items ≡ count) }
    ensures copies { IfOk result (λ copies. (e : ℕ) → e < count
        → left_of copies.items e ≡ 1 + cond (holds join.now e) 1 0) }
{
    let mut copies = vec![in alloc; 1u32; count]?;
    for edge in join {
        copies[*edge as usize] = 2;
    }
    Ok(copies)
}

/// The weight of all edges.
pub fn all_weight(edges: &[Edge]) -> i64
    requires { sum_by weight_at edges.now ≤ 2 ^ 60 }
    ensures { result ≡ pos (sum_by weight_at edges.now) }
{
    let mut sum: u64 = 0;
    for edge in edges {
        sum += edge.w.unsigned_abs();
    }
    sum as i64
}
