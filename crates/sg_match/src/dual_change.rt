ghost use Rattle.std.specs.Prelude.{◌≡◌, ℕ, ◌+◌, ◌<◌, ◌≤◌, ◌≤ℤ◌, length, pos, vec_capacity};
ghost use Rattle.sg_arena.specs.Changes.{CanRaise, raised};
ghost use Rattle.sg_base.specs.Naturals.{nat_of};
ghost use Rattle.sg_arena.specs.Family.{leaf_count};
ghost use Rattle.sg_slack.specs.Metric.{IsMetric, cost};
ghost use Rattle.sg_match.specs.Nearest.{HasNearest, IsNearest};
ghost use Rattle.sg_match.specs.Scans.{CanScan, IsScanned};
ghost use Rattle.sg_match.specs.Tree.{inners, outers};
ghost use Rattle.sg_match.specs.Members.{JoinsMembers};
ghost use Rattle.sg_slack.specs.Members.{Agree, AreMarked, IsMember};
ghost use Rattle.sg_slack.specs.Slack.{mark_at, IsOuterFree, Least, SumsFit};
ghost use Rattle.sg_slack.specs.declared.Mark.TheVariants.{Outer};

use super::inner::{least_dual, least_inner_zero};
use super::leaves::{list_leaves, list_tree, mark_leaves};
use super::{Engine, Event, TreeEdge};
use sg_arena::Arena;
use sg_base::Steps;
use sg_slack::{Costs, Mark, Near, Pair, least_outer_outer};
use std::sync::ledger::Ledger;

// By how much the duals may change at most, and the pair of leaves that is tight then.
#[derive(Clone, Copy)]
pub struct Change {
    pub amount: i64,
    pub event: Event,
}

// An alternating tree: its root, and its edges from there on.
#[derive(Drop)]
pub struct Tree<'a> {
    pub root: usize,
    pub edges: &'a [TreeEdge],
}

// By how much the tree's duals may rise before the next slack is 0, and whose slack that is. The tables
// are room to list the leaves in.
pub fn nearest(
    arena: &Arena,
    near: &mut Near,
    tree: &Tree,
    tops: &mut [usize],
    totals: &mut [i64],
    marks: &mut [Mark],
) -> Change
    requires metric { IsMetric near.old.table }
    requires leaves { leaf_count arena.now ≡ near.old.table.size }
    requires stands { HasNearest arena.now (cost near.old.table) tree.now.root tree.now.edges.now }
    requires tops { length tops.old ≡ leaf_count arena.now }
    requires totals { length totals.old ≡ leaf_count arena.now }
    requires marks { length marks.old ≡ leaf_count arena.now }
    ensures whole { result.amount ≡ pos (nat_of result.amount) }
    ensures nearest { IsNearest arena.now (cost near.old.table) tree.now.root tree.now.edges.now (nat_of result.amount) result.event }
    ensures table { near.new.table ≡ near.old.table }
{
    list_leaves(arena, tops, totals);
    mark_leaves(tree.root, tree.edges, tops, marks);
    near.follow(totals, marks);
    add_outer(near, totals, marks);
    let free = near.least(totals, tops, marks);
    scan(near.costs(), free, totals, tops, marks)
}

// Adds the outer leaves that are no members yet.
fn add_outer(near: &mut Near, totals: &[i64], marks: &[Mark])
    requires totals { length totals.now ≡ near.old.table.size }
    requires marks { length marks.now ≡ near.old.table.size }
    requires outer { AreMarked near.old.members marks.now }
    requires agree { Agree near.old.members totals.now }
    ensures table { near.new.table ≡ near.old.table }
    ensures outer { AreMarked near.new.members marks.now }
    ensures agree { Agree near.new.members totals.now }
    ensures every { (u : ℕ) → u < near.old.table.size → mark_at marks.now u ≡ Outer → IsMember near.new.members u }
{
    for leaf in 0..near.costs().size() {
        join(near, leaf, totals[leaf as usize], marks[leaf as usize]);
    }
}

// Adds a leaf if it is outer and no member yet.
fn join(near: &mut Near, leaf: u32, total: i64, mark: Mark)
    requires { leaf < near.old.table.size }
    ensures table { near.new.table ≡ near.old.table }
    ensures members { JoinsMembers near.old.members near.new.members leaf total mark }
{
    match mark {
        Mark::Outer if !near.has(leaf) => near.add(leaf, total),
        _ => {}
    }
}

// The nearer of the free pair and the pair of two outer leaves, which closes its gap from both sides. No
// pair is nearer than one of slack 0.
fn scan(costs: &Costs, free: Option<Pair>, totals: &[i64], tops: &[usize], marks: &[Mark]) -> Change
    requires free { Least costs.now totals.now (IsOuterFree costs.now marks.now) free }
    requires totals { length totals.now ≡ costs.now.size }
    requires tops { length tops.now ≡ costs.now.size }
    requires marks { length marks.now ≡ costs.now.size }
    requires fits { SumsFit costs.now totals.now }
    requires can { CanScan costs.now tops.now totals.now marks.now }
    ensures whole { result.amount ≡ pos (nat_of result.amount) }
    ensures scanned { IsScanned costs.now tops.now totals.now marks.now (nat_of result.amount) result.event }
{
    let Some(free) = free else { unreachable!() };
    let away = Change {
        amount: free.slack,
        event: Event::OuterFree {
            u: free.u,
            v: free.v,
        },
    };
    if free.slack == 0 {
        return away;
    }
    let both = least_outer_outer(costs, totals, tops, marks);
    match both {
        Some(both) if both.slack / 2 < away.amount => Change {
            amount: both.slack / 2,
            event: Event::OuterOuter {
                u: both.u,
                v: both.v,
            },
        },
        _ => away,
    }
}

// Raises the duals of the tree's outer tops and lowers those of its inner ones.
pub fn raise_tree<L: Ledger>(
    arena: &mut Arena,
    tree: &Tree,
    outer: &mut Vec<usize>,
    inner: &mut Vec<usize>,
    delta: i64,
    steps: &mut Steps<L>,
)
    requires outer { length tree.now.edges.now + 1 ≤ vec_capacity outer.old }
    requires inner { length tree.now.edges.now ≤ vec_capacity inner.old }
    requires whole { pos 0 ≤ℤ delta }
    requires tops { CanRaise arena.old (outers tree.now.root tree.now.edges.now) (inners tree.now.edges.now) (nat_of delta) }
    ensures raised { arena.new ≡ raised arena.old (outers tree.now.root tree.now.edges.now) (inners tree.now.edges.now) (nat_of delta) }
    ensures outer_room { vec_capacity outer.new ≡ vec_capacity outer.old }
    ensures inner_room { vec_capacity inner.new ≡ vec_capacity inner.old }
    ensures counted { steps.new ≤ steps.old + 1 }
    ensures alike { steps.new + arena.old.steps ≡ steps.old + arena.new.steps }
{
    if delta > 0 {
        list_tree(tree.root, tree.edges, outer, inner);
        arena.raise(outer, inner, delta, steps);
    }
}

impl Engine {
    ghost use Rattle.std.specs.Prelude.{◌≡◌, ◌+◌, ◌≤◌, Some};
    ghost use Rattle.sg_match.specs.Engine.{IsEngine};
    ghost use Rattle.sg_match.specs.State.{KeepsTree};
    ghost use Rattle.sg_match.specs.Events.{IsNext};
    ghost use Rattle.sg_match.specs.Steps.{steps_left};

    // Raises the duals of the tree as far as no slack becomes negative, and says what is tight
    // then.
    pub(crate) fn change_duals<L: Ledger>(&mut self, root: usize, steps: &mut Steps<L>) -> Event
        requires root { self.old.root ≡ Some root }
        ensures keeps { KeepsTree self.old self.new }
        ensures engine { IsEngine self.new }
        ensures left { steps_left self.new ≡ steps_left self.old }
        ensures counted { steps.new ≤ steps.old + 1 }
        ensures alike { steps.new + self.old.family.steps ≡ steps.old + self.new.family.steps }
        ensures next { IsNext self.new root result }
    {
        let tree = Tree {
            root,
            edges: &self.edges,
        };
        let near = nearest(
            &self.arena,
            &mut self.near,
            &tree,
            &mut self.tops,
            &mut self.totals,
            &mut self.marks,
        );
        let delta = least_dual(&self.arena, tree.edges, near.amount);
        raise_tree(
            &mut self.arena,
            &tree,
            &mut self.outer,
            &mut self.inner,
            delta,
            steps,
        );
        match least_inner_zero(&self.arena, tree.edges) {
            Some(node) => Event::InnerZero { node },
            None => near.event,
        }
    }
}
