use super::inner::least_inner_zero;
use super::{Engine, Event, Stage};
use sg_base::Steps;
use std::sync::ledger::Ledger;

impl Engine {
    ghost use Rattle.std.specs.Prelude.{◌≡◌, ◌↔◌, ℕ, ◌+◌, ◌*◌, ◌≤◌, IfSome, IfNone, Some, None};
    ghost use Rattle.sg_match.specs.Engine.{IsEngine};
    ghost use Rattle.sg_match.specs.Events.{IsTightOuterFree};
    ghost use Rattle.sg_match.specs.InnerZeros.{IsLeastInnerZero};
    ghost use Rattle.sg_match.specs.Pairs.{AllPaired};
    ghost use Rattle.sg_match.specs.Stages.{IsStage, owed};
    ghost use Rattle.sg_match.specs.Steps.{steps_left};

    /// Goes on until every top is paired, or an inner blossom of the tree has dual 0. Where such a
    /// blossom is there already, the least one is named and nothing changes. It does not allocate.
    ///
    /// Cost: each round takes time proportional to the product of the number of leaves and that of outer
    /// leaves.
    pub fn advance<L: Ledger>(&mut self, steps: &mut Steps<L>) -> Stage
        ensures table { self.new.table ≡ self.old.table }
        ensures engine { IsEngine self.new }
        ensures matched { (result ≡ Stage.Matched) ↔ AllPaired self.new.family self.new.pairs }
        ensures inner_zero { (node : ℕ) → result ≡ Stage.InnerZero node → IsLeastInnerZero self.new.family self.new.edges node }
        ensures already { (node : ℕ) → IsLeastInnerZero self.old.family self.old.edges node → (result ≡ Stage.InnerZero node) × (self.new ≡ self.old) × (steps.new ≡ steps.old) }
        ensures bound { steps_left self.old ≤ 2 * self.old.table.size * self.old.table.size }
        ensures left { steps_left self.new ≤ steps_left self.old }
        ensures counted { steps.new + steps_left self.new ≤ steps.old + steps_left self.old + owed result }
        ensures alike { steps.new + self.old.family.steps ≡ steps.old + self.new.family.steps }
    {
        match least_inner_zero(&self.arena, &self.edges) {
            Some(node) => Stage::InnerZero { node },
            None => self.proceed(steps),
        }
    }

    // Round by round: raises the duals of the tree, and follows what is tight then.
    fn proceed<L: Ledger>(&mut self, steps: &mut Steps<L>) -> Stage
        ensures table { self.new.table ≡ self.old.table }
        ensures engine { IsEngine self.new }
        ensures stage { IsStage self.new result }
        ensures left { steps_left self.new ≤ steps_left self.old }
        ensures counted { steps.new + steps_left self.new ≤ steps.old + steps_left self.old + owed result }
        ensures alike { steps.new + self.old.family.steps ≡ steps.old + self.new.family.steps }
    {
        while let Some(root) = self.begin_search() {
            match self.change_duals(root, steps) {
                Event::InnerZero { node } => return Stage::InnerZero { node },
                Event::OuterFree { u, v } => self.grow_or_augment(root, u, v),
                Event::OuterOuter { u, v } => self.shrink(root, u, v, steps),
            }
        }
        Stage::Matched
    }

    // The root of the tree. If there is no tree, one is begun at an unpaired top; none where every
    // top is paired.
    fn begin_search(&mut self) -> Option<usize>
        ensures family { self.new.family ≡ self.old.family }
        ensures table { self.new.table ≡ self.old.table }
        ensures engine { IsEngine self.new }
        ensures root { IfSome result (λ root. self.new.root ≡ Some root) }
        ensures none { IfNone result (AllPaired self.new.family self.new.pairs) }
        ensures left { steps_left self.new ≤ steps_left self.old }
    {
        match self.root {
            Some(root) => Some(root),
            None => self.begin_anew(),
        }
    }

    // Begins a tree at an unpaired top; none where there is no such top.
    fn begin_anew(&mut self) -> Option<usize>
        requires bare { self.old.root ≡ None }
        ensures family { self.new.family ≡ self.old.family }
        ensures table { self.new.table ≡ self.old.table }
        ensures engine { IsEngine self.new }
        ensures root { IfSome result (λ root. self.new.root ≡ Some root) }
        ensures none { IfNone result (AllPaired self.new.family self.new.pairs) }
        ensures left { steps_left self.new ≤ steps_left self.old }
    {
        match self.exposed.pop() {
            Some(root) => {
                self.root = Some(root);
                Some(root)
            }
            None => None,
        }
    }

    // Follows a tight edge out of the tree: takes a paired top and its mate into the tree, or pairs
    // an unpaired one, which ends the tree.
    fn grow_or_augment(&mut self, root: usize, u: u32, v: u32)
        requires root { self.old.root ≡ Some root }
        requires tight_edge { IsTightOuterFree self.old root u v }
        ensures family { self.new.family ≡ self.old.family }
        ensures table { self.new.table ≡ self.old.table }
        ensures engine { IsEngine self.new }
        ensures less { steps_left self.new + 1 ≤ steps_left self.old }
    {
        let top = self.arena.top(v);
        match self.pairs[top] {
            Some(pair) => self.grow(root, u, v, top, pair),
            None => self.augment(root, u, v, top),
        }
    }
}
