//! Least perfect matchings, by Edmonds' method with nested blossoms (Edmonds 1965).
//!
//! For a physicist: the frustrated plaquettes of a planar spin glass are to be joined in pairs so
//! that all pairs together cost least. Here they are the *leaves*, numbered from 0, and the cost of
//! two leaves is an even whole number. [`Engine::run`] gives each leaf its mate, and with the mates a
//! proof that no other pairing costs less: a family of nested odd sets of leaves with *duals*, such
//! that no two leaves have a cost below the duals of the sets that hold just one of them (their
//! *slack* is not negative), mates have slack 0, and each set is left by exactly one pair of mates.
//! So the mates cost as much as all duals together, and `sg_slack::matching_is_least` says why no
//! pairing costs less: each set is odd, so some pair leaves it and pays for its dual.
//!
//! For the next engineer: the contract that matters is that of [`Engine::run`], over `Matching` and
//! `Metric` of `sg_slack`; nothing in it names the tree or a buffer. What the engine keeps between
//! two steps is `IsEngine` of `specs/Engine.antt`, one record for each part: `Feasible`, `Pairs`,
//! `Exposed`, `Tree`. Each step has the file of its name: `search` goes round by round from an exposed
//! top, `dual_change` raises the duals, then `grow`, `augment`, `shrink` and `expand`, and `mates` pairs
//! inside the blossoms at the end. `leaves` lists the leaves' tops, totals and marks anew in each round, so
//! that no step has tables to keep. `shrink_cycle` finds the odd cycle of a shrink; `shrink_tree` and
//! `expand_tree` are what a shrink and an expansion do to the tree. In `proofs/` a file `..Step` carries
//! the parts of the invariant over one step, and a file `..Lemmas` has what several need.
//!
//! ```text
//! let mut costs = Costs::new(alloc, 4)?;            // four places on a line: 0, 3, 5, 8
//! costs.set(0, 1, 6);                               // each cost is twice a distance
//! ..
//! if is_metric(&costs) {
//!     let matched = Engine::open(alloc, costs)?.run(&mut steps);
//!     matched.mates.at(0);                          // 1: the pairs are 0, 1 and 2, 3
//! }
//! ```
#![tactic(auto)]

mod augment;
mod dual_change;
mod expand;
mod expand_tree;
mod grow;
mod inner;
mod leaves;
mod mates;
mod pairs;
mod rings;
mod runs;
mod search;
mod shrink;
mod shrink_cycle;
mod shrink_tree;

use sg_arena::{Arena, Link};
use sg_base::Numbers;
use sg_slack::{Mark, Near};
use std::alloc::{AllocError, Global};
use std::marker::Model;

/// Memory ran out.
pub type NoMemory = AllocError;

/// The mate of each leaf.
pub type Mates = Numbers<u32>;

/// A leaf of one top and a leaf of another.
#[derive(Clone, Copy, Debug, PartialEq, Eq)]
struct Edge {
    from: u32,
    to: u32,
}

/// An edge of the tree, and the pair below it: from a leaf of an inner top the edge leads up to a leaf
/// of an earlier outer top, and the pair to a leaf of the outer top with which the inner one is paired.
#[derive(Clone, Copy, Debug, PartialEq, Eq)]
struct TreeEdge {
    inner: usize,
    outer: usize,
    up: Edge,
    pair: Edge,
}

/// Why the engine stopped.
#[derive(Clone, Copy, Debug, PartialEq, Eq)]
pub enum Stage {
    /// Every top is paired.
    Matched,
    /// This inner top of the tree is a blossom of dual 0, the least such by its name.
    InnerZero { node: usize },
}

/// What comes next at the tree.
#[derive(Clone, Copy)]
enum Event {
    /// An inner blossom has dual 0.
    InnerZero { node: usize },
    /// An outer leaf has slack 0 to a leaf outside the tree.
    OuterFree { u: u32, v: u32 },
    /// Two outer leaves of different tops have slack 0.
    OuterOuter { u: u32, v: u32 },
}

/// What a run returns.
#[derive(Drop)]
pub struct Matched {
    /// The mate of each leaf.
    pub mates: Mates,
    /// The sets and duals that prove it least.
    pub family: Arena,
}

/// An engine at work on a table of costs: the sets with their duals, the pairs of tops, and a tree.
///
/// What it keeps between two steps is in the words of the method: no slack is negative; links of blossoms,
/// pairs and the tree's edges have slack 0; a pair joins two different tops and is the pair of both; the
/// tree grows from an unpaired top, with inner and outer tops alternating; the leaves of one top have totals
/// of one parity; and the steps that were taken and those that are left are at most twice the square of the
/// number of leaves together, where nothing is due. It takes all memory when it is opened.
#[derive(Drop)]
pub struct Engine {
    // The costs, and the outer leaves that the rounds so far have seen.
    near: Near,
    arena: Arena,
    // By name: from a leaf of the top to a leaf of the top with which it is paired.
    pairs: Vec<Option<Edge>>,
    // The unpaired tops but for the root.
    exposed: Vec<usize>,
    // The unpaired top from which the tree grows; none if there is no tree.
    root: Option<usize>,
    // The edges of the tree in the order in which they grew: each ends in the root or in the outer top of
    // an earlier one.
    edges: Vec<TreeEdge>,
    // Room for what a step works on.
    tops: Vec<usize>,
    totals: Vec<i64>,
    marks: Vec<Mark>,
    outer: Vec<usize>,
    inner: Vec<usize>,
    cycle: Vec<Link>,
    ring: Vec<Link>,
    mates: Vec<u32>,
}

impl Model for Engine {
    ghost use Rattle.sg_match.specs.State.{State};

    ghost Value = { State };

    ghost view = { λ e. record { family = e.arena; table = e.near.table; pairs = e.pairs.items; exposed = e.exposed.items; root = e.root; edges = e.edges.items } };

    ghost use Rattle.sg_match.specs.Rooms.{KeepsFields};

    ghost invariant = { λ e. KeepsFields e };
}
