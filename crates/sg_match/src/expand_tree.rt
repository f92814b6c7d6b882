ghost use Rattle.std.specs.Prelude.{◌≡◌, ℕ, ◌<◌, ◌≤◌, ◌+◌, ◌⊎◌, ◌++◌, drop, length, vec_capacity, Contains};
ghost use Rattle.sg_arena.specs.Family.{link_at};
ghost use Rattle.sg_match.specs.ExpandedTree.{expanded_edges, ring_edges, ring_start};
ghost use Rattle.sg_match.specs.Rings.{IsTurnedRing, IsOdd};
ghost use Rattle.sg_match.specs.Tree.{inners, tree_edge_at};

use super::rings::turn_back;
use super::{Edge, TreeEdge};
use sg_arena::Link;
use std::mem::swap;

// The place of the tree edge of an inner top.
pub fn place_of_inner(edges: &[TreeEdge], node: usize) -> usize
    requires { Contains (inners edges.now) node }
    ensures within { result < length edges.now }
    ensures here { (tree_edge_at edges.now result).inner ≡ node }
{
    for i in 0..edges.len() {
        if edges[i].inner == node {
            return i;
        }
    }
    unreachable!()
}

// Turns a ring round where the place of its entry is even and not 0, and gives the place of the entry
// then.
pub fn turn_to_odd(ring: &mut Vec<Link>, spare: &mut Vec<Link>, entry: usize) -> usize
    requires within { entry < length ring.old.items }
    requires odd { IsOdd (length ring.old.items) }
    requires room { length ring.old.items ≤ vec_capacity spare.old }
    ensures turned_ring { IsTurnedRing ring.old.items entry ring.new.items result }
    ensures odd { (result ≡ 0) ⊎ IsOdd result }
    ensures room { (n : ℕ) → n ≤ vec_capacity ring.old → n ≤ vec_capacity spare.old → (n ≤ vec_capacity ring.new) × (n ≤ vec_capacity spare.new) }
{
    if entry == 0 || entry % 2 == 1 {
        return entry;
    }
    turn_back(ring, spare);
    swap(ring, spare);
    ring.len() - entry
}

// Adds the tree edges over the nodes of a ring from its entry on, two by two, each as an inner and an outer
// top, and at last that of the ring's first node. The tree edge is that of the ring's blossom.
fn push_ring(edges: &mut Vec<TreeEdge>, tree_edge: TreeEdge, ring: &[Link], entry: usize)
    requires entry { entry < length ring.now }
    requires room { length edges.old.items + length ring.now < vec_capacity edges.old }
    ensures edges { edges.new.items ≡ edges.old.items ++ ring_edges tree_edge (link_at ring.now 0).node tree_edge.up (drop (ring_start entry (length ring.now)) ring.now) }
    ensures capacity { vec_capacity edges.new ≡ vec_capacity edges.old }
{
    let mut up = tree_edge.up;
    let mut i = if entry == 0 { ring.len() } else { entry };
    while i + 1 < ring.len() {
        let Link { node, from, to } = ring[i];
        let next = ring[i + 1];
        edges.push_reserved(TreeEdge {
            inner: node,
            outer: next.node,
            up,
            pair: Edge { from, to },
        });
        up = Edge {
            from: next.to,
            to: next.from,
        };
        i += 2;
    }
    edges.push_reserved(TreeEdge {
        inner: ring[0].node,
        up,
        ..tree_edge
    });
}

// Puts the tree edges of a ring from its entry on in place of the tree edge of its blossom. Where the entry
// is the first node, no tree edge is new.
pub fn expand_edge(edges: &mut Vec<TreeEdge>, at: usize, ring: &[Link], entry: usize)
    requires within { at < length edges.old.items }
    requires entry { entry < length ring.now }
    requires room { length edges.old.items + length ring.now ≤ vec_capacity edges.old }
    ensures edges { edges.new.items ≡ expanded_edges edges.old.items at ring.now entry }
    ensures capacity { vec_capacity edges.new ≡ vec_capacity edges.old }
{
    let tree_edge = edges.remove(at);
    let behind = edges.len() - at;
    edges.rotate_left(at);
    push_ring(edges, tree_edge, ring, entry);
    edges.rotate_left(behind);
}
