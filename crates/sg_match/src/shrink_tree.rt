ghost use Rattle.std.specs.Prelude.{◌≡◌, ℕ, ◌<◌, length, vec_capacity};
ghost use Rattle.sg_arena.specs.Family.{IsFamily, IsTop, holds, leaf_count};
ghost use Rattle.sg_match.specs.Tree.{tree_edge_at};
ghost use Rattle.sg_match.specs.ShrunkTree.{renamed_edge, shrunk_edges};

use super::TreeEdge;
use sg_arena::Arena;

// Whether a top holds a leaf.
fn lies_in(arena: &Arena, leaf: u32, top: usize) -> bool
    requires family { IsFamily arena.now }
    requires top { IsTop arena.now top }
    requires leaf { leaf < leaf_count arena.now }
    ensures { result ≡ holds arena.now top leaf }
{
    arena.top(leaf) == top
}

// The tree edge, with a new blossom as its outer top if its pair ends in that.
fn rename_outer(arena: &Arena, tree_edge: TreeEdge, blossom: usize) -> TreeEdge
    requires family { IsFamily arena.now }
    requires top { IsTop arena.now blossom }
    requires leaf { tree_edge.pair.to < leaf_count arena.now }
    ensures { result ≡ renamed_edge arena.now blossom tree_edge }
{
    if lies_in(arena, tree_edge.pair.to, blossom) {
        TreeEdge {
            outer: blossom,
            ..tree_edge
        }
    } else {
        tree_edge
    }
}

// Takes the tree edges of a new blossom out of the tree, and puts its name in place of its base's.
pub fn shrink_edges(arena: &Arena, edges: &mut Vec<TreeEdge>, blossom: usize)
    requires family { IsFamily arena.now }
    requires top { IsTop arena.now blossom }
    requires from { (i : ℕ) → i < length edges.old.items → (tree_edge_at edges.old.items i).up.from < leaf_count arena.now }
    requires to { (i : ℕ) → i < length edges.old.items → (tree_edge_at edges.old.items i).pair.to < leaf_count arena.now }
    ensures edges { edges.new.items ≡ shrunk_edges arena.now blossom edges.old.items }
    ensures capacity { vec_capacity edges.new ≡ vec_capacity edges.old }
{
    let mut kept = 0;
    for i in 0..edges.len() {
        let tree_edge = edges[i];
        if !lies_in(arena, tree_edge.up.from, blossom) {
            edges[kept] = rename_outer(arena, tree_edge, blossom);
            kept += 1;
        }
    }
    edges.truncate(kept);
}
