ghost use Rattle.std.specs.Prelude.{◌≡◌, ℕ, ◌<◌, ◌≤◌, length, vec_capacity, Contains};
ghost use Rattle.sg_arena.specs.Family.{IsFamily, IsChild, IsChildAt, cycle_of, link_at};
ghost use Rattle.sg_base.specs.Sets.{Differ};
ghost use Rattle.sg_match.specs.Path.{nodes_of};
ghost use Rattle.sg_match.specs.Rings.{IsBackwards, IsOdd, IsRingPaired, rotated};

use super::Edge;
use super::pairs::pair_tops;
use sg_arena::{Arena, Link};

// The cycle of a child's blossom, from the child on.
pub fn list_ring(arena: &Arena, child: usize, ring: &mut Vec<Link>)
    requires family { IsFamily arena.now }
    requires child { IsChild arena.now child }
    requires room { length arena.now.nodes ≤ vec_capacity ring.old }
    ensures items { (blossom i : ℕ) → IsChildAt arena.now blossom i child → ring.new.items ≡ rotated i (cycle_of arena.now blossom) }
    ensures capacity { vec_capacity ring.new ≡ vec_capacity ring.old }
{
    ring.clear();
    ring.push_reserved(arena.link(child));
    let mut next = arena.after(child);
    while next != child {
        ring.push_reserved(arena.link(next));
        next = arena.after(next);
    }
}

// The place of a node in a ring.
pub fn place_of(ring: &[Link], node: usize) -> usize
    requires { Contains (nodes_of ring.now) node }
    ensures within { result < length ring.now }
    ensures here { (link_at ring.now result).node ≡ node }
{
    for i in 0..ring.len() {
        if ring[i].node == node {
            return i;
        }
    }
    unreachable!()
}

// The ring from its first node on in the other direction.
pub fn turn_back(ring: &[Link], turned: &mut Vec<Link>)
    requires some { 0 < length ring.now }
    requires room { length ring.now ≤ vec_capacity turned.old }
    ensures turned { IsBackwards ring.now turned.new.items }
    ensures capacity { vec_capacity turned.new ≡ vec_capacity turned.old }
{
    turned.clear();
    let count = ring.len();
    for i in 0..count {
        let node = ring[if i == 0 { 0 } else { count - i }].node;
        let link = ring[count - 1 - i];
        turned.push_reserved(Link {
            node,
            from: link.to,
            to: link.from,
        });
    }
}

// Gives the first node of a ring this pair, and pairs the others along their links, two by two.
pub fn pair_ring(pairs: &mut [Option<Edge>], ring: &[Link], pair: Edge)
    requires some { 0 < length ring.now }
    requires odd { IsOdd (length ring.now) }
    requires names { (i : ℕ) → i < length ring.now → (link_at ring.now i).node < length pairs.old }
    requires differ { Differ (nodes_of ring.now) }
    ensures ring_pairs { IsRingPaired pairs.old pairs.new ring.now pair }
    ensures length { length pairs.new ≡ length pairs.old }
{
    pairs[ring[0].node] = Some(pair);
    let mut i = 1;
    while i + 1 < ring.len() {
        let Link { node, from, to } = ring[i];
        pair_tops(pairs, node, ring[i + 1].node, Edge { from, to });
        i += 2;
    }
}
