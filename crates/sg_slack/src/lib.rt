//! Costs of pairs of leaves, the pair of least slack, and pairings at the least cost with what proves one
//! minimum, for Edmonds' least perfect matching (Edmonds 1965).
//!
//! For a physicist: the leaves are the frustrated plaquettes of a planar spin glass that are to be joined in
//! pairs so that all pairs together cost least, and [`Costs`] has the cost of joining each two of them. A family
//! of nested odd sets of leaves with *duals* proves it: if no two leaves cost less than the duals of the sets that
//! hold just one of them, every pairing costs at least the sum of all duals, since each set is odd and some pair
//! leaves it. A matching along pairs that cost just as much, and that leaves each set once, costs exactly this
//! sum. That is the law [`matching_is_least`].
//!
//! Each leaf has a *total*, the sum of the duals
//! of the sets that hold it. The *slack* of two leaves that no set holds together is their cost
//! less their two totals. Edmonds' method grows a tree from an unpaired leaf; it next needs the pair
//! of least slack between the tree's outer leaves and the leaves outside, and that between two outer
//! leaves of different sets. A [`Near`] gives the first from the nearest leaves that it keeps, and
//! [`least_outer_outer`] finds the second by a scan over all pairs. So does [`least_outer_free`] for the
//! first: tests compare the answers of a `Near` with it.
//!
//! For the next engineer: the clause that matters is `Least` of `specs/Slack.antt`: a pair of least
//! slack among those meant, and none exactly where there is none. Which of several such pairs is given
//! is free. A table is seen by its entries, `cost_of` of `specs/Table.antt`. Neither scan allocates. A
//! `Near` is seen as its costs and the list of its members with their totals (`Known` of
//! `specs/Members.antt`); what it keeps is `IsNear` of `specs/Kept.antt`. What a caller of the engine needs, and
//! what it cites of its answer, is here without the tree: [`is_metric`] tells whether an engine takes a table of
//! costs (`specs/Metric.antt`), and `specs/Matching.antt` says what a pairing and a matching are. In `proofs/`,
//! `PairingSums` has sums over a pairing, and `DualBound` the bound by the duals.
#![tactic(auto)]

ghost use Rattle.std.specs.Prelude.{◌≡◌, ◌≢◌, ◌↔◌, ◌<◌, ◌-ℤ◌, FitsSigned, IsTrue, Some, false, length};
ghost use Rattle.std.specs.Int.{w64};
ghost use Rattle.sg_slack.specs.Slack.{mark_at, slack_of, IsOuterFree, IsOuterOuter, Least, SumsFit};
ghost use Rattle.sg_slack.specs.Scan.{IsLesser, IsOuterFreeOf, IsOuterOuterOf};

mod law;
mod member;
mod metric;
mod near;

pub use law::matching_is_least;
pub use metric::is_metric;
pub use near::Near;
use std::alloc::{AllocError, Global};
use std::marker::Model;

/// Memory ran out.
pub type NoMemory = AllocError;

/// The place of a leaf: the mark of the top that holds it.
#[derive(Clone, Copy, Debug, PartialEq, Eq)]
pub enum Mark {
    /// Outside the tree.
    Free,
    /// An even number of edges from the tree's root; the root itself is outer.
    Outer,
    /// An odd number of edges from the tree's root.
    Inner,
}

/// Two leaves and their slack.
#[derive(Clone, Copy, Debug, PartialEq, Eq)]
pub struct Pair {
    pub u: u32,
    pub v: u32,
    /// The cost of `u` and `v` less the totals of both.
    pub slack: i64,
}

/// A square table of costs, one for each two leaves.
#[derive(Drop)]
pub struct Costs {
    size: u32,
    // The rows one after another.
    entries: Vec<i64>,
}

impl Model for Costs {
    ghost use Rattle.std.specs.Prelude.{◌≡◌, ◌≤◌, ◌*◌, ◌^◌, length};
    ghost use Rattle.sg_slack.specs.Table.{Table, IsSymmetric};

    ghost Value = { Table };

    ghost view = { λ c. record { size = c.size; entries = c.entries.items } };

    ghost invariant = { λ c. (length c.entries.items ≡ c.size * c.size) × (c.size ≤ 2 ^ 24)
        × IsSymmetric (record { size = c.size; entries = c.entries.items }) };
}

impl Costs {
    ghost use Rattle.std.specs.Prelude.{◌≡◌, ℕ, ◌<◌, ◌≤◌, ◌^◌, IfOk, pos};
    ghost use Rattle.sg_slack.specs.Table.{cost_of, SetsPair};

    /// A table of `k` rows with all entries 0.
    ///
    /// Cost: proportional to the square of `k`.
    pub fn new(alloc: Global, k: u32) -> Result<Costs, NoMemory>
        requires { k ≤ 2 ^ 24 }
        ensures size { IfOk result (λ c. c.size ≡ k) }
        ensures zero { IfOk result (λ c. (u v : ℕ) → cost_of c u v ≡ pos 0) }
    {
        let count = k as usize;
        let entries = vec![in alloc; 0i64; count * count]?;
        Ok(Costs { size: k, entries })
    }

    /// The number of rows.
    ///
    /// Cost: constant.
    pub fn size(&self) -> u32
        ensures value { result ≡ self.now.size }
        ensures small { result ≤ 2 ^ 24 }
    {
        self.size
    }

    /// The cost of two leaves.
    ///
    /// Cost: constant.
    pub fn cost(&self, u: u32, v: u32) -> i64
        requires u { u < self.now.size }
        requires v { v < self.now.size }
        ensures { result ≡ cost_of self.now u v }
    {
        self.entries[u as usize * self.size as usize + v as usize]
    }

    /// Sets the cost of two leaves, in both orders. All other entries stay.
    ///
    /// Cost: constant.
    pub fn set(&mut self, u: u32, v: u32, cost: i64)
        requires u { u < self.old.size }
        requires v { v < self.old.size }
        ensures { SetsPair self.old self.new u v cost }
    {
        let size = self.size as usize;
        self.entries[u as usize * size + v as usize] = cost;
        self.entries[v as usize * size + u as usize] = cost;
    }
}

/// A pair of least slack of an outer leaf `u` and a free leaf `v`, none where there is no such
/// pair. The three slices have an entry for each leaf; `top` isn't read.
///
/// Cost: the number of outer leaves times the number of leaves.
pub fn least_outer_free(costs: &Costs, total: &[i64], top: &[usize], mark: &[Mark]) -> Option<Pair>
    requires totals { length total.now ≡ costs.now.size }
    requires tops { length top.now ≡ costs.now.size }
    requires marks { length mark.now ≡ costs.now.size }
    requires fits { SumsFit costs.now total.now }
    ensures { Least costs.now total.now (IsOuterFree costs.now mark.now) result }
{
    let mut best = None;
    for u in 0..costs.size() {
        if let Mark::Outer = mark[u as usize] {
            best = nearer(best, nearest_free(costs, total, mark, u));
        }
    }
    best
}

/// A pair of least slack of two outer leaves of different tops, none where there is no such pair.
/// The three slices have an entry for each leaf.
///
/// Cost: the number of outer leaves times the number of leaves.
pub fn least_outer_outer(costs: &Costs, total: &[i64], top: &[usize], mark: &[Mark]) -> Option<Pair>
    requires totals { length total.now ≡ costs.now.size }
    requires tops { length top.now ≡ costs.now.size }
    requires marks { length mark.now ≡ costs.now.size }
    requires fits { SumsFit costs.now total.now }
    ensures { Least costs.now total.now (IsOuterOuter costs.now top.now mark.now) result }
{
    let mut best = None;
    for u in 0..costs.size() {
        if let Mark::Outer = mark[u as usize] {
            best = nearer(best, nearest_outer(costs, total, top, mark, u));
        }
    }
    best
}

// The pair of least slack of an outer leaf and a free one.
fn nearest_free(costs: &Costs, total: &[i64], mark: &[Mark], u: u32) -> Option<Pair>
    requires totals { length total.now ≡ costs.now.size }
    requires marks { length mark.now ≡ costs.now.size }
    requires fits { SumsFit costs.now total.now }
    requires leaf { u < costs.now.size }
    requires outer { mark_at mark.now u ≡ Mark.Outer }
    ensures { Least costs.now total.now (IsOuterFreeOf costs.now mark.now u) result }
{
    let mut best = None;
    for v in 0..costs.size() {
        let pair = pair_of(costs, total, u, v);
        best = nearer_if(best, pair, is_free(mark[v as usize]));
    }
    best
}

// The pair of least slack of an outer leaf and one of another top.
fn nearest_outer(costs: &Costs, total: &[i64], top: &[usize], mark: &[Mark], u: u32) -> Option<Pair>
    requires totals { length total.now ≡ costs.now.size }
    requires tops { length top.now ≡ costs.now.size }
    requires marks { length mark.now ≡ costs.now.size }
    requires fits { SumsFit costs.now total.now }
    requires leaf { u < costs.now.size }
    requires outer { mark_at mark.now u ≡ Mark.Outer }
    ensures { Least costs.now total.now (IsOuterOuterOf costs.now top.now mark.now u) result }
{
    let mut best = None;
    for v in 0..costs.size() {
        if is_other_outer(mark[v as usize], top[u as usize], top[v as usize]) {
            best = nearer_if(best, pair_of(costs, total, u, v), true);
        }
    }
    best
}

// Whether a leaf is free.
fn is_free(mark: Mark) -> bool
    ensures { IsTrue result ↔ (mark ≡ Mark.Free) }
{
    match mark {
        Mark::Free => true,
        _ => false,
    }
}

// Whether a leaf is outer, and its top is another.
fn is_other_outer(mark: Mark, top: usize, other: usize) -> bool
    ensures { IsTrue result ↔ ((mark ≡ Mark.Outer) × (top ≢ other)) }
{
    match mark {
        Mark::Outer => top != other,
        _ => false,
    }
}

// The pair of less slack, where the second one counts. Its slack is looked at first, since it is
// rarely less.
fn nearer_if(best: Option<Pair>, more: Pair, counts: bool) -> Option<Pair>
    ensures yes { IsTrue counts → IsLesser best (Some more) result }
    ensures no { counts ≡ false → result ≡ best }
{
    match best {
        Some(first) if first.slack <= more.slack => best,
        _ if counts => Some(more),
        _ => best,
    }
}

// Two leaves with their slack.
fn pair_of(costs: &Costs, total: &[i64], u: u32, v: u32) -> Pair
    requires totals { length total.now ≡ costs.now.size }
    requires fits { SumsFit costs.now total.now }
    requires u { u < costs.now.size }
    requires v { v < costs.now.size }
    ensures { result ≡ record { u = u; v = v; slack = slack_of costs.now total.now u v } }
{
    let slack = slack(costs, total, u, v);
    Pair { u, v, slack }
}

// The slack of two leaves.
fn slack(costs: &Costs, total: &[i64], u: u32, v: u32) -> i64
    requires totals { length total.now ≡ costs.now.size }
    requires fits { SumsFit costs.now total.now }
    requires u { u < costs.now.size }
    requires v { v < costs.now.size }
    ensures { result ≡ slack_of costs.now total.now u v }
{
    difference(
        difference(costs.cost(u, v), total[u as usize]),
        total[v as usize],
    )
}

// A number less another.
fn difference(a: i64, b: i64) -> i64
    requires { FitsSigned w64 (a -ℤ b) }
    ensures { result ≡ a -ℤ b }
{
    a - b
}

// The pair of less slack; the first where they are equal.
fn nearer(best: Option<Pair>, more: Option<Pair>) -> Option<Pair>
    ensures { IsLesser best more result }
{
    match (best, more) {
        (Some(first), Some(second)) if second.slack < first.slack => more,
        (None, _) => more,
        _ => best,
    }
}
