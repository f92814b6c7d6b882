use super::Engine;
use super::expand_tree::{expand_edge, place_of_inner, turn_to_odd};
use super::rings::{list_ring, pair_ring, place_of};
use sg_base::Steps;
use std::sync::ledger::Ledger;

impl Engine {
    ghost use Rattle.std.specs.Prelude.{◌≡◌, ◌+◌, ◌≤◌};
    ghost use Rattle.sg_match.specs.InnerZeros.{IsInnerZero};
    ghost use Rattle.sg_match.specs.Engine.{IsEngine};
    ghost use Rattle.sg_match.specs.Steps.{steps_left};

    // Takes an inner blossom of dual 0 apart. The children on the even side of its cycle stay in
    // the tree, alternately inner and outer; the others are paired and leave it.
    pub(crate) fn expand<L: Ledger>(&mut self, node: usize, steps: &mut Steps<L>)
        requires inner_zero { IsInnerZero self.old.family self.old.edges node }
        ensures table { self.new.table ≡ self.old.table }
        ensures engine { IsEngine self.new }
        ensures counted { steps.new ≡ steps.old + 1 }
        ensures alike { steps.new + self.old.family.steps ≡ steps.old + self.new.family.steps }
        ensures less { steps_left self.new + 2 ≤ steps_left self.old }
    {
        let at = place_of_inner(&self.edges, node);
        let tree_edge = self.edges[at];
        let base = self.arena.child(node, tree_edge.pair.from);
        list_ring(&self.arena, base, &mut self.cycle);
        let end = self.arena.child(node, tree_edge.up.from);
        let place = place_of(&self.cycle, end);
        let entry = turn_to_odd(&mut self.cycle, &mut self.ring, place);
        self.arena.expand(node, steps);
        pair_ring(&mut self.pairs, &self.cycle, tree_edge.pair);
        expand_edge(&mut self.edges, at, &self.cycle, entry);
    }
}
