ghost use Rattle.std.specs.Prelude.{◌≡◌, ℕ, ◌<◌, ◌≤◌, ◌^◌, length, vec_capacity};
ghost use Rattle.sg_arena.specs.Family.{Holds, IsBlossom, IsChildOf, IsFamily, leaf_count};
ghost use Rattle.sg_match.specs.Feasible.{IsFeasible};
ghost use Rattle.sg_slack.specs.Tight.{IsTight};
ghost use Rattle.sg_slack.specs.Matching.{IsMatching};
ghost use Rattle.sg_match.specs.Pairs.{IsPaired, AllPaired};
ghost use Rattle.sg_match.specs.Rings.{ring_pair};
ghost use Rattle.sg_match.specs.MatePairs.{IsInside, IsMate};

use super::Edge;
use super::pairs::flipped;
use super::rings::{list_ring, place_of};
use sg_arena::{Arena, Link};

// Pairs the children of each blossom, from the tops down, and so the leaves. The ring is room to work in.
pub fn derive_mates(arena: &Arena, pairs: &[Option<Edge>], ring: &mut Vec<Link>, mates: &mut [u32])
    requires family { IsFamily arena.now }
    requires small { leaf_count arena.now ≤ 2 ^ 24 }
    requires names { length pairs.now ≡ length arena.now.nodes }
    requires paired { IsPaired arena.now (λ u v. Unit {0}) pairs.now }
    requires all { AllPaired arena.now pairs.now }
    requires ring { length arena.now.nodes ≤ vec_capacity ring.old }
    requires mates { length mates.old ≡ leaf_count arena.now }
    ensures { (cost : ℕ → ℕ → ℕ) → ((u v : ℕ) → u < leaf_count arena.now → v < leaf_count arena.now → cost u v ≡ cost v u) → IsFeasible arena.now cost → IsPaired arena.now (IsTight arena.now cost) pairs.now → IsMatching arena.now cost mates.new }
{
    for leaf in 0..mates.len() {
        mates[leaf] = mate_of(arena, pairs, leaf as u32, ring);
    }
}

// The mate of a leaf: where the pair of its node leads.
fn mate_of(arena: &Arena, pairs: &[Option<Edge>], leaf: u32, ring: &mut Vec<Link>) -> u32
    requires family { IsFamily arena.now }
    requires names { length pairs.now ≡ length arena.now.nodes }
    requires paired { IsPaired arena.now (λ u v. Unit {0}) pairs.now }
    requires all { AllPaired arena.now pairs.now }
    requires leaf { leaf < leaf_count arena.now }
    requires ring { length arena.now.nodes ≤ vec_capacity ring.old }
    ensures mate { IsMate arena.now pairs.now leaf result }
    ensures capacity { vec_capacity ring.new ≡ vec_capacity ring.old }
{
    let mut node = arena.top(leaf);
    let Some(own) = pairs[node] else {
        unreachable!()
    };
    let mut pair = own;
    while !arena.is_leaf(node) {
        let child = arena.child(node, leaf);
        pair = pair_inside(arena, node, pair, child, ring);
        node = child;
    }
    pair.to
}

// The pair of a child of a blossom with this pair.
fn pair_inside(
    arena: &Arena,
    blossom: usize,
    pair: Edge,
    child: usize,
    ring: &mut Vec<Link>,
) -> Edge
    requires family { IsFamily arena.now }
    requires blossom { IsBlossom arena.now blossom }
    requires from { Holds arena.now blossom pair.from }
    requires child { IsChildOf arena.now blossom child }
    requires ring { length arena.now.nodes ≤ vec_capacity ring.old }
    ensures inside { IsInside arena.now blossom pair child result }
    ensures capacity { vec_capacity ring.new ≡ vec_capacity ring.old }
{
    list_ring(arena, arena.child(blossom, pair.from), ring);
    let place = place_of(ring, child);
    pair_at(ring, pair, place)
}

// The pair of a node of a ring whose first node has this pair.
fn pair_at(ring: &[Link], pair: Edge, place: usize) -> Edge
    requires { place < length ring.now }
    ensures { result ≡ ring_pair ring.now pair place }
{
    if place == 0 {
        return pair;
    }
    let Link { from, to, .. } = ring[if place % 2 == 1 { place } else { place - 1 }];
    let edge = Edge { from, to };
    if place % 2 == 1 { edge } else { flipped(edge) }
}
