ghost use Rattle.std.specs.Prelude.{◌≡◌, ◌≢◌};

use super::Engine;
use super::shrink_cycle::find_cycle;
use super::shrink_tree::shrink_edges;
use sg_base::Steps;
use std::sync::ledger::Ledger;

// A name, with another in place of the one that goes.
fn renamed(name: usize, gone: usize, other: usize) -> usize
    ensures hit { name ≡ gone → result ≡ other }
    ensures miss { name ≢ gone → result ≡ name }
{
    if name == gone { other } else { name }
}

impl Engine {
    ghost use Rattle.std.specs.Prelude.{◌≡◌, ◌+◌, ◌≤◌, Some};
    ghost use Rattle.sg_match.specs.Engine.{IsEngine};
    ghost use Rattle.sg_match.specs.Events.{IsTightOuterOuter};
    ghost use Rattle.sg_match.specs.Steps.{steps_left};

    // Makes a blossom of two outer tops and the tops between them.
    pub(crate) fn shrink<L: Ledger>(&mut self, root: usize, u: u32, v: u32, steps: &mut Steps<L>)
        requires root { self.old.root ≡ Some root }
        requires tight_edge { IsTightOuterOuter self.old root u v }
        ensures table { self.new.table ≡ self.old.table }
        ensures engine { IsEngine self.new }
        ensures counted { steps.new ≡ steps.old + 1 }
        ensures alike { steps.new + self.old.family.steps ≡ steps.old + self.new.family.steps }
        ensures less { steps_left self.new + 2 ≤ steps_left self.old }
    {
        let base = find_cycle(&self.arena, root, &self.edges, &mut self.cycle, u, v);
        let blossom = self.arena.shrink(&self.cycle, steps);
        self.pairs[blossom] = self.pairs[base];
        self.root = Some(renamed(root, base, blossom));
        shrink_edges(&self.arena, &mut self.edges, blossom);
    }
}
