ghost use Rattle.std.specs.Int.{w64};
ghost use Rattle.std.specs.Prelude.{◌≡◌, ◌≢◌, ℕ, ◌+◌, ◌<◌, ◌≤◌, ◌^◌, FitsSigned, length, slice_index, slice_index_or, vec_capacity};
ghost use Rattle.sg_arena.specs.Family.{leaf_count, IsAlive};
ghost use Rattle.sg_slack.specs.Slack.{mark_at, total_at};
ghost use Rattle.sg_slack.specs.declared.Mark.TheVariants.{Free};
ghost use Rattle.sg_match.specs.Marks.{IsListed};
ghost use Rattle.sg_match.specs.Tree.{StandsAt, tree_edge_at, outers, inners};

use super::TreeEdge;
use sg_arena::Arena;
use sg_slack::Mark;

// The top and the total of each leaf.
pub fn list_leaves(arena: &Arena, tops: &mut [usize], totals: &mut [i64])
    requires small { leaf_count arena.now ≤ 2 ^ 24 }
    requires tops { length tops.old ≡ leaf_count arena.now }
    requires totals { length totals.old ≡ leaf_count arena.now }
    ensures { IsListed arena.now tops.new totals.new }
{
    for leaf in 0..tops.len() {
        tops[leaf] = arena.top(leaf as u32);
        totals[leaf] = arena.total(leaf as u32);
    }
}

// Whether a top is in the tree, and where.
fn mark_of(root: usize, edges: &[TreeEdge], top: usize) -> Mark
    ensures { StandsAt root edges.now top result }
{
    if top == root {
        return Mark::Outer;
    }
    for tree_edge in edges {
        if tree_edge.outer == top {
            return Mark::Outer;
        }
        if tree_edge.inner == top {
            return Mark::Inner;
        }
    }
    Mark::Free
}

// Marks each leaf by the place of its top.
pub fn mark_leaves(root: usize, edges: &[TreeEdge], tops: &[usize], marks: &mut [Mark])
    requires count { length marks.old ≡ length tops.now }
    ensures count { length marks.new ≡ length tops.now }
    ensures marked { (leaf : ℕ) → leaf < length tops.now → StandsAt root edges.now (slice_index tops.now leaf) (mark_at marks.new leaf) }
{
    for leaf in 0..tops.len() {
        marks[leaf] = mark_of(root, edges, tops[leaf]);
    }
}

// The outer and the inner tops of the tree.
pub fn list_tree(root: usize, edges: &[TreeEdge], outer: &mut Vec<usize>, inner: &mut Vec<usize>)
    requires outer { length edges.now + 1 ≤ vec_capacity outer.old }
    requires inner { length edges.now ≤ vec_capacity inner.old }
    ensures outer { outer.new.items ≡ outers root edges.now }
    ensures inner { inner.new.items ≡ inners edges.now }
    ensures outer_room { vec_capacity outer.new ≡ vec_capacity outer.old }
    ensures inner_room { vec_capacity inner.new ≡ vec_capacity inner.old }
{
    outer.clear();
    inner.clear();
    outer.push_reserved(root);
    for tree_edge in edges {
        outer.push_reserved(tree_edge.outer);
        inner.push_reserved(tree_edge.inner);
    }
}
