use super::{Edge, Engine, TreeEdge};

impl Engine {
    ghost use Rattle.std.specs.Prelude.{◌≡◌, ◌+◌, ◌≤◌, Some};
    ghost use Rattle.sg_match.specs.Engine.{IsEngine};
    ghost use Rattle.sg_match.specs.Events.{IsTightInto};
    ghost use Rattle.sg_match.specs.Pairs.{pair_of};
    ghost use Rattle.sg_match.specs.Steps.{steps_left};

    // Takes a paired top and its mate into the tree.
    pub(crate) fn grow(&mut self, root: usize, u: u32, v: u32, top: usize, pair: Edge)
        requires tight_edge { IsTightInto self.old root u v top }
        requires pair { pair_of self.old.pairs top ≡ Some pair }
        ensures family { self.new.family ≡ self.old.family }
        ensures table { self.new.table ≡ self.old.table }
        ensures engine { IsEngine self.new }
        ensures less { steps_left self.new + 1 ≤ steps_left self.old }
    {
        let outer = self.arena.top(pair.to);
        self.edges.push_reserved(TreeEdge {
            inner: top,
            outer,
            up: Edge { from: v, to: u },
            pair,
        });
    }
}
