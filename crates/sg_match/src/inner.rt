ghost use Rattle.std.specs.Prelude.{◌≡◌, ℕ, ◌<◌, ◌≤◌, ◌≤ℤ◌, ◌⊎◌, length, pos, true, IfSome, IfNone, Some};
ghost use Rattle.sg_arena.specs.Family.{IsAlive, IsBlossom, dual_of};
ghost use Rattle.sg_match.specs.InnerZeros.{IsInnerZero, IsLeastInnerZero};
ghost use Rattle.sg_match.specs.Tree.{tree_edge_at};

use super::TreeEdge;
use sg_arena::Arena;

// Whether a node is a blossom of dual 0.
fn is_zero(arena: &Arena, node: usize) -> bool
    requires { IsAlive arena.now node }
    ensures sound { result ≡ true → IsBlossom arena.now node × (dual_of arena.now node ≡ 0) }
    ensures complete { IsBlossom arena.now node → dual_of arena.now node ≡ 0 → result ≡ true }
{
    !arena.is_leaf(node) && arena.dual(node) == 0
}

// The lesser of two names, the first of which may be missing.
fn lesser_name(name: Option<usize>, other: usize) -> usize
    ensures other { result ≤ other }
    ensures name { IfSome name (λ n. result ≤ n) }
    ensures one { (result ≡ other) ⊎ (name ≡ Some result) }
{
    match name {
        Some(name) if name < other => name,
        _ => other,
    }
}

// The least inner top that is no leaf and has dual 0.
pub fn least_inner_zero(arena: &Arena, edges: &[TreeEdge]) -> Option<usize>
    requires { (i : ℕ) → i < length edges.now → IsAlive arena.now (tree_edge_at edges.now i).inner }
    ensures some { IfSome result (IsLeastInnerZero arena.now edges.now) }
    ensures none { IfNone result ((node : ℕ) → IsInnerZero arena.now edges.now node → ⊥) }
{
    let mut least = None;
    for tree_edge in edges {
        if is_zero(arena, tree_edge.inner) {
            least = Some(lesser_name(least, tree_edge.inner));
        }
    }
    least
}

// The lesser of a number and the dual of a node that is no leaf.
fn lesser_dual(arena: &Arena, node: usize, most: i64) -> i64
    requires { IsAlive arena.now node }
    ensures most { result ≤ℤ most }
    ensures dual { IsBlossom arena.now node → result ≤ℤ pos (dual_of arena.now node) }
    ensures one { (result ≡ most) ⊎ (IsBlossom arena.now node × (result ≡ pos (dual_of arena.now node))) }
{
    if arena.is_leaf(node) {
        most
    } else {
        most.min(arena.dual(node))
    }
}

// The least of a number and the duals of the inner tops that are no leaves.
pub fn least_dual(arena: &Arena, edges: &[TreeEdge], most: i64) -> i64
    requires { (i : ℕ) → i < length edges.now → IsAlive arena.now (tree_edge_at edges.now i).inner }
    ensures most { result ≤ℤ most }
    ensures duals { (i : ℕ) → i < length edges.now → IsBlossom arena.now (tree_edge_at edges.now i).inner → result ≤ℤ pos (dual_of arena.now (tree_edge_at edges.now i).inner) }
    ensures one { (result ≡ most) ⊎ ((i : ℕ) × (i < length edges.now) × IsBlossom arena.now (tree_edge_at edges.now i).inner × (result ≡ pos (dual_of arena.now (tree_edge_at edges.now i).inner))) }
{
    let mut least = most;
    for tree_edge in edges {
        least = lesser_dual(arena, tree_edge.inner, least);
    }
    least
}
