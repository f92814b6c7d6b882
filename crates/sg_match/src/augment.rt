ghost use Rattle.std.specs.Prelude.{◌≡◌, ◌≢◌, ℕ, ◌<◌, ◌≤◌, length, slice_index, vec_capacity};
ghost use Rattle.sg_arena.specs.Family.{IsFamily, IsTop, leaf_count};
ghost use Rattle.sg_match.specs.Tree.{tree_edge_at};
ghost use Rattle.sg_match.specs.Augmented.{HasTwoTops, CanAugment, IsAugmented};
ghost use Rattle.sg_match.specs.Names.{IsTaken};

use super::pairs::{flipped, pair_tops, unpair_tops};
use super::{Edge, Engine, TreeEdge};
use sg_arena::Arena;

// Pairs the leaf's top by an edge from it, and the tops of the tree on the way to the root anew.
pub fn augment_path(
    arena: &Arena,
    pairs: &mut [Option<Edge>],
    root: usize,
    edges: &[TreeEdge],
    u: u32,
    v: u32,
)
    requires family { IsFamily arena.now }
    requires names { (t : ℕ) → IsTop arena.now t → t < length pairs.old }
    requires root { IsTop arena.now root }
    requires edges { (i : ℕ) → i < length edges.now → HasTwoTops arena.now (tree_edge_at edges.now i) }
    requires u { u < leaf_count arena.now }
    requires v { v < leaf_count arena.now }
    ensures { (cost : ℕ → ℕ → ℕ) → CanAugment arena.now cost pairs.old root edges.now u v → IsAugmented arena.now cost pairs.old pairs.new root v }
{
    let mut edge = Edge { from: u, to: v };
    let mut here = arena.top(u);
    let mut there = arena.top(v);
    let mut i = edges.len();
    while i > 0 {
        i -= 1;
        let tree_edge = edges[i];
        if tree_edge.outer == here {
            unpair_tops(pairs, tree_edge.inner, tree_edge.outer);
            pair_tops(pairs, tree_edge.outer, there, edge);
            there = tree_edge.inner;
            edge = flipped(tree_edge.up);
            here = arena.top(tree_edge.up.to);
        }
    }
    pair_tops(pairs, root, there, edge);
}

// Where a name is in a list, or the list's length.
pub fn find_name(names: &[usize], name: usize) -> usize
    ensures within { result ≤ length names.now }
    ensures found { result < length names.now → slice_index names.now result ≡ name }
    ensures absent { result ≡ length names.now → (k : ℕ) → k < length names.now → slice_index names.now k ≢ name }
{
    for i in 0..names.len() {
        if names[i] == name {
            return i;
        }
    }
    names.len()
}

// Takes a name out of a list.
pub fn take_name(names: &mut Vec<usize>, name: usize)
    ensures taken { IsTaken names.old.items names.new.items name }
    ensures capacity { vec_capacity names.new ≡ vec_capacity names.old }
{
    let place = find_name(names, name);
    if place < names.len() {
        names.swap_remove(place);
    }
}

impl Engine {
    ghost use Rattle.std.specs.Prelude.{◌≡◌, ◌+◌, ◌≤◌, None, Some};
    ghost use Rattle.sg_match.specs.Engine.{IsEngine};
    ghost use Rattle.sg_match.specs.Events.{IsTightInto};
    ghost use Rattle.sg_match.specs.Pairs.{pair_of};
    ghost use Rattle.sg_match.specs.Steps.{steps_left};

    // Pairs an unpaired top, and the tops on the way to the root anew. No tree is left.
    pub(crate) fn augment(&mut self, root: usize, u: u32, v: u32, top: usize)
        requires tight_edge { IsTightInto self.old root u v top }
        requires unpaired { pair_of self.old.pairs top ≡ None }
        ensures family { self.new.family ≡ self.old.family }
        ensures table { self.new.table ≡ self.old.table }
        ensures engine { IsEngine self.new }
        ensures less { steps_left self.new + 1 ≤ steps_left self.old }
    {
        augment_path(&self.arena, &mut self.pairs, root, &self.edges, u, v);
        take_name(&mut self.exposed, top);
        self.root = None;
        self.edges.clear();
    }
}
