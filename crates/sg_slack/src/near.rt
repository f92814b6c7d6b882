ghost use Rattle.std.specs.Prelude.{◌≡◌, ◌≢◌, ◌↔◌, IsTrue, ℕ, ◌<◌, ◌≤ℤ◌, ◌+ℤ◌, ◌-ℤ◌, ◌⊎◌, ◌^◌, FitsSigned, length, pos, negsuc, true, false};
ghost use Rattle.std.specs.Int.{w64};
ghost use Rattle.sg_slack.specs.Kept.{kept_at, nearest_at, HasRisen, IsKeyOf, IsRise, IsTakenAt};
ghost use Rattle.sg_slack.specs.Scan.{IsNearestFree};
ghost use Rattle.sg_slack.specs.Slack.{slack_of, total_at, Least, SumsFit};

use super::member::Kept;
use super::{Costs, Mark, NoMemory, Pair, difference, is_free, nearer_if};
use std::alloc::Global;
use std::marker::Model;

/// The member that is nearest to a leaf, and their cost less the member's base.
#[derive(Clone, Copy)]
struct Nearest {
    leaf: u32,
    key: i128,
}

/// Costs, and some leaves, the *members*, each with its total; for each leaf it keeps the member of
/// least cost less total.
///
/// All totals grow by the same in a change of duals, so that the nearest member of a leaf stays the
/// nearest: one number holds by how much they have grown.
#[derive(Drop)]
pub struct Near {
    costs: Costs,
    rise: i128,
    members: Vec<Kept>,
    // The place of a leaf among the members, if it is one.
    places: Vec<usize>,
    // For each leaf; where there is a member.
    nearest: Vec<Nearest>,
}

impl Model for Near {
    ghost use Rattle.sg_slack.specs.Members.{Known};
    ghost use Rattle.sg_slack.specs.Kept.{members_of};
    ghost use Rattle.sg_slack.specs.Fields.{HoldsInside};

    ghost Value = { Known };

    ghost view = { λ n. record { table = n.costs; members = members_of n.rise n.members.items } };

    ghost invariant = { λ n. HoldsInside n };
}

impl Near {
    ghost use Rattle.std.specs.Prelude.{◌≡◌, ◌↔◌, ℕ, ℤ, ◌<◌, ◌≤ℤ◌, ◌++◌, ◌∷◌, [], IfOk, IsTrue, length, pos};
    ghost use Rattle.sg_slack.specs.declared.Mark.TheVariants.{Outer};
    ghost use Rattle.sg_slack.specs.Members.{grown, Agree, AreMarked, HaveGrown, IsMember, TotalsFit};
    ghost use Rattle.sg_slack.specs.Slack.{mark_at, IsOuterFree, Least, SumsFit};

    /// These costs and no members.
    ///
    /// Cost: proportional to the number of leaves.
    pub fn open(alloc: Global, costs: Costs) -> Result<Near, NoMemory>
        ensures table { IfOk result (λ n. n.table ≡ costs) }
        ensures members { IfOk result (λ n. n.members ≡ []) }
    {
        let count = costs.size() as usize;
        let members = Vec::with_capacity(alloc, count)?;
        let places = vec![in alloc; 0usize; count]?;
        let nearest = vec![in alloc; Nearest { leaf: 0, key: 0 }; count]?;
        Ok(Near {
            costs,
            rise: 0,
            members,
            places,
            nearest,
        })
    }

    /// The costs.
    ///
    /// Cost: constant.
    pub fn costs(&self) -> &Costs
        ensures { result.now ≡ self.now.table }
    {
        &self.costs
    }

    /// Whether a leaf is a member.
    ///
    /// Cost: constant.
    pub fn has(&self, leaf: u32) -> bool
        requires { leaf < self.now.table.size }
        ensures { IsTrue result ↔ IsMember self.now.members leaf }
    {
        let place = self.places[leaf as usize];
        place < self.members.len() && self.members[place].leaf == leaf
    }

    /// Leaves no members; the costs stay.
    ///
    /// Cost: constant.
    pub fn clear(&mut self)
        ensures table { self.new.table ≡ self.old.table }
        ensures members { self.new.members ≡ [] }
    {
        self.members.clear();
        self.rise = 0;
    }

    /// Adds a leaf with its total. All else stays.
    ///
    /// Cost: proportional to the number of leaves.
    pub fn add(&mut self, leaf: u32, total: i64)
        requires leaf { leaf < self.old.table.size }
        requires fresh { ¬ IsMember self.old.members leaf }
        ensures table { self.new.table ≡ self.old.table }
        ensures members { self.new.members ≡ self.old.members ++ record { leaf = leaf; total = total } ∷ [] }
    {
        let member = kept_of(leaf, total, self.rise);
        let first = self.members.is_empty();
        take_nearer(&self.costs, &mut self.nearest, member, first);
        self.places[leaf as usize] = self.members.len();
        self.members.push_reserved(member);
    }

    /// Raises the total of each member by `delta`. All else stays.
    ///
    /// Cost: constant.
    pub fn shift(&mut self, delta: i64)
        requires whole { pos 0 ≤ℤ delta }
        requires fits { TotalsFit delta self.old.members }
        ensures table { self.new.table ≡ self.old.table }
        ensures members { self.new.members ≡ grown delta self.old.members }
    {
        self.rise = risen(self.rise, delta, self.members.is_empty());
    }

    /// Raises the members' totals to those given, if each member is outer and all totals have grown by
    /// the same; else leaves no members. So all members are kept, or none. The costs stay.
    ///
    /// Cost: proportional to the number of members.
    pub fn follow(&mut self, total: &[i64], mark: &[Mark])
        requires totals { length total.now ≡ self.old.table.size }
        requires marks { length mark.now ≡ self.old.table.size }
        ensures table { self.new.table ≡ self.old.table }
        ensures outer { AreMarked self.new.members mark.now }
        ensures agree { Agree self.new.members total.now }
        ensures kept { (delta : ℤ) → HaveGrown self.old.members total.now mark.now delta → self.new.members ≡ grown delta self.old.members }
        ensures cleared { ((delta : ℤ) → ¬ HaveGrown self.old.members total.now mark.now delta) → self.new.members ≡ [] }
    {
        match rise_to(&self.members, self.rise, total, mark) {
            Some(rise) => self.rise = rise,
            None => self.clear(),
        }
    }

    /// A pair of least slack of an outer leaf `u` and a free leaf `v`, none where there is no such
    /// pair: the answer of [`least_outer_free`](crate::least_outer_free) where the members are the
    /// outer leaves. The three slices have an entry for each leaf; `top` isn't read.
    ///
    /// Cost: proportional to the number of leaves.
    pub fn least(&self, total: &[i64], top: &[usize], mark: &[Mark]) -> Option<Pair>
        requires totals { length total.now ≡ self.now.table.size }
        requires tops { length top.now ≡ self.now.table.size }
        requires marks { length mark.now ≡ self.now.table.size }
        requires fits { SumsFit self.now.table total.now }
        requires members { (u : ℕ) → u < self.now.table.size → (mark_at mark.now u ≡ Outer) ↔ IsMember self.now.members u }
        requires agree { Agree self.now.members total.now }
        ensures { Least self.now.table total.now (IsOuterFree self.now.table mark.now) result }
    {
        if self.members.is_empty() {
            return None;
        }
        nearest_kept(&self.costs, self.rise, &self.nearest, total, mark)
    }
}

// What is kept of a new member, after all have risen by so much.
fn kept_of(leaf: u32, total: i64, rise: i128) -> Kept
    requires whole { pos 0 ≤ℤ rise }
    requires high { rise ≤ℤ pos (2 ^ 65) }
    ensures kept { result ≡ record { leaf = leaf; base = total -ℤ rise } }
    ensures low { negsuc (2 ^ 66) ≤ℤ result.base }
    ensures high { result.base ≤ℤ pos (2 ^ 66) }
{
    Kept {
        leaf,
        base: i128::from(total) - rise,
    }
}

// What the totals have risen by after a shift; nothing where there is no member.
fn risen(rise: i128, delta: i64, none: bool) -> i128
    requires low { pos 0 ≤ℤ rise }
    requires high { none ≡ false → rise ≤ℤ pos (2 ^ 66) }
    ensures none { none ≡ true → result ≡ pos 0 }
    ensures some { none ≡ false → result ≡ rise +ℤ delta }
{
    if none { 0 } else { rise + i128::from(delta) }
}

// What all totals have risen by since the first member came, and had by the last change; none where they
// have not risen alike, or where a member is not outer.
fn rise_to(members: &[Kept], last: i128, total: &[i64], mark: &[Mark]) -> Option<i128>
    requires last { pos 0 ≤ℤ last }
    requires low { (i : ℕ) → i < length members.now → (kept_at members.now i).leaf < length total.now }
    requires marks { length mark.now ≡ length total.now }
    requires first { 0 < length members.now → FitsSigned w64 (kept_at members.now 0).base }
    ensures { IsRise members.now last total.now mark.now result }
{
    if members.is_empty() {
        return None;
    }
    let rise = rise_of(members[0], total);
    if rise < last {
        return None;
    }
    for member in members {
        if !has_risen(*member, rise, total, mark) {
            return None;
        }
    }
    Some(rise)
}

// What the total of a member has risen by since the first member came.
fn rise_of(member: Kept, total: &[i64]) -> i128
    requires low { member.leaf < length total.now }
    requires base { FitsSigned w64 member.base }
    ensures rise { result ≡ total_at total.now member.leaf -ℤ member.base }
    ensures high { result ≤ℤ pos (2 ^ 66) }
{
    i128::from(total[member.leaf as usize]) - member.base
}

// Whether a member is outer and its total has risen by so much.
fn has_risen(member: Kept, rise: i128, total: &[i64], mark: &[Mark]) -> bool
    requires low { member.leaf < length total.now }
    requires marks { length mark.now ≡ length total.now }
    requires whole { pos 0 ≤ℤ rise }
    requires high { rise ≤ℤ pos (2 ^ 66) }
    ensures fits { FitsSigned w64 (total_at total.now member.leaf) }
    ensures risen { IsTrue result → HasRisen total.now mark.now rise member }
    ensures each { HasRisen total.now mark.now rise member → IsTrue result }
{
    let leaf = member.leaf as usize;
    let now = i128::from(total[leaf]);
    match mark[leaf] {
        Mark::Outer => now - rise == member.base,
        _ => false,
    }
}

// Takes a new member as the nearest of each leaf to which none is nearer.
fn take_nearer(costs: &Costs, nearest: &mut [Nearest], member: Kept, first: bool)
    requires count { length nearest.old ≡ costs.now.size }
    requires leaf { member.leaf < costs.now.size }
    requires low { negsuc (2 ^ 66) ≤ℤ member.base }
    requires high { member.base ≤ℤ pos (2 ^ 66) }
    ensures count { length nearest.new ≡ costs.now.size }
    ensures taken { (v : ℕ) → v < costs.now.size → IsTakenAt costs.now member first v (nearest_at nearest.old v) (nearest_at nearest.new v) }
{
    for v in 0..costs.size() {
        let key = i128::from(costs.cost(member.leaf, v)) - member.base;
        let other = Nearest {
            leaf: member.leaf,
            key,
        };
        nearest[v as usize] = nearer_member(nearest[v as usize], other, first);
    }
}

// The second one, where it is the first member or has the less key.
fn nearer_member(kept: Nearest, other: Nearest, first: bool) -> Nearest
    ensures { ((result ≡ other) × ((first ≡ true) ⊎ (other.key ≤ℤ kept.key))) ⊎ ((result ≡ kept) × (first ≡ false) × (kept.key ≤ℤ other.key)) }
{
    if first || other.key < kept.key {
        other
    } else {
        kept
    }
}

// The pair of least slack of a free leaf and its nearest member.
fn nearest_kept(
    costs: &Costs,
    rise: i128,
    nearest: &[Nearest],
    total: &[i64],
    mark: &[Mark],
) -> Option<Pair>
    requires totals { length total.now ≡ costs.now.size }
    requires marks { length mark.now ≡ costs.now.size }
    requires count { length nearest.now ≡ costs.now.size }
    requires fits { SumsFit costs.now total.now }
    requires low { (v : ℕ) → v < costs.now.size → (nearest_at nearest.now v).leaf < costs.now.size }
    requires keys { (v : ℕ) → v < costs.now.size → IsKeyOf costs.now total.now rise v (nearest_at nearest.now v) }
    ensures { Least costs.now total.now (IsNearestFree costs.now nearest.now mark.now) result }
{
    let mut best = None;
    for v in 0..costs.size() {
        let pair = pair_by_key(costs, rise, nearest[v as usize], total, v);
        best = nearer_if(best, pair, is_free(mark[v as usize]));
    }
    best
}

// A leaf and its nearest member, with their slack.
fn pair_by_key(costs: &Costs, rise: i128, nearest: Nearest, total: &[i64], v: u32) -> Pair
    requires totals { length total.now ≡ costs.now.size }
    requires fits { SumsFit costs.now total.now }
    requires u { nearest.leaf < costs.now.size }
    requires v { v < costs.now.size }
    requires key { IsKeyOf costs.now total.now rise v nearest }
    ensures { result ≡ record { u = nearest.leaf; v = v; slack = slack_of costs.now total.now nearest.leaf v } }
{
    let left = narrow_difference(nearest.key, rise);
    Pair {
        u: nearest.leaf,
        v,
        slack: difference(left, total[v as usize]),
    }
}

// A number less another, where that fits 64 bits.
fn narrow_difference(a: i128, b: i128) -> i64
    requires { FitsSigned w64 (a -ℤ b) }
    ensures { result ≡ a -ℤ b }
{
    (a - b) as i64
}
