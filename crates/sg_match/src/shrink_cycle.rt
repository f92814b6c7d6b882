ghost use Rattle.std.specs.Prelude.{◌≡◌, ℕ, ◌+◌, ◌*◌, ◌<◌, ◌≤◌, length, slice_index, [], ◌∷◌, ◌++◌, vec_len, vec_capacity};
ghost use Rattle.sg_arena.specs.Family.{IsFamily, IsTop, Holds};
ghost use Rattle.sg_arena.specs.Slack.{duals_between};
ghost use Rattle.sg_match.specs.Links.{down_link, up_link, step_link, pair_link};
ghost use Rattle.sg_match.specs.TreeCycle.{IsTreeCycle, HasTight};
ghost use Rattle.sg_match.specs.Path.{AreTight};
ghost use Rattle.sg_match.specs.Tree.{IsOuterLeaf, IsShape};

use super::TreeEdge;
use sg_arena::{Arena, Link};

// Puts a link at the front of a path.
pub fn push_front(path: &mut Vec<Link>, link: Link)
    requires { vec_len path.old < vec_capacity path.old }
    ensures items { path.new.items ≡ link ∷ path.old.items }
    ensures capacity { vec_capacity path.new ≡ vec_capacity path.old }
{
    path.push_reserved(link);
    path.rotate_right(1);
}

// Lengthens a path at its end, by a tree edge and from its outer top on.
pub fn lengthen_tail(path: &mut Vec<Link>, tree_edge: TreeEdge)
    requires { vec_len path.old + 2 ≤ vec_capacity path.old }
    ensures items { path.new.items ≡ path.old.items ++ down_link tree_edge ∷ up_link tree_edge ∷ [] }
    ensures capacity { vec_capacity path.new ≡ vec_capacity path.old }
{
    path.push_reserved(Link {
        node: tree_edge.outer,
        from: tree_edge.pair.to,
        to: tree_edge.pair.from,
    });
    path.push_reserved(Link {
        node: tree_edge.inner,
        from: tree_edge.up.from,
        to: tree_edge.up.to,
    });
}

// Lengthens a path at its front, by a tree edge that begins at an outer top.
pub fn lengthen_head(path: &mut Vec<Link>, tree_edge: TreeEdge, head: usize)
    requires { vec_len path.old + 2 ≤ vec_capacity path.old }
    ensures items { path.new.items ≡ step_link head tree_edge ∷ pair_link tree_edge ∷ path.old.items }
    ensures capacity { vec_capacity path.new ≡ vec_capacity path.old }
{
    push_front(
        path,
        Link {
            node: tree_edge.inner,
            from: tree_edge.pair.from,
            to: tree_edge.pair.to,
        },
    );
    push_front(
        path,
        Link {
            node: head,
            from: tree_edge.up.to,
            to: tree_edge.up.from,
        },
    );
}

// The cycle that an edge between two outer tops closes in the tree, and its base.
pub fn find_cycle(
    arena: &Arena,
    root: usize,
    edges: &[TreeEdge],
    cycle: &mut Vec<Link>,
    u: u32,
    v: u32,
) -> usize
    requires family { IsFamily arena.now }
    requires shape { IsShape arena.now root edges.now }
    requires u { IsOuterLeaf arena.now root edges.now u }
    requires v { IsOuterLeaf arena.now root edges.now v }
    requires apart { (t : ℕ) → IsTop arena.now t → Holds arena.now t u → Holds arena.now t v → ⊥ }
    requires room { 2 * length edges.now + 1 ≤ vec_capacity cycle.old }
    ensures find_cycle { (place : ℕ) × IsTreeCycle arena.now root edges.now cycle.new.items place result result }
    ensures tight { (cost : ℕ → ℕ → ℕ) → HasTight arena.now cost edges.now → cost u v ≡ cost v u → duals_between arena.now u v ≡ cost u v → AreTight arena.now cost cycle.new.items }
    ensures capacity { vec_capacity cycle.new ≡ vec_capacity cycle.old }
{
    let mut head = arena.top(v);
    let mut tail = arena.top(u);
    cycle.clear();
    cycle.push_reserved(Link {
        node: head,
        from: v,
        to: u,
    });
    let mut i = edges.len();
    while head != tail {
        i -= 1;
        let tree_edge = edges[i];
        if tree_edge.outer == tail {
            lengthen_tail(cycle, tree_edge);
            tail = arena.top(tree_edge.up.to);
        } else if tree_edge.outer == head {
            head = arena.top(tree_edge.up.to);
            lengthen_head(cycle, tree_edge, head);
        }
    }
    head
}
