//! The family as the calls so far have made it. Clauses alone read it: no value here takes a byte.

ghost use Rattle.std.specs.Prelude.{◌≡◌, ◌+◌, ◌<◌, Some, None, take};
ghost use Rattle.sg_arena.specs.Changes.{with_slot, blossom_of};
ghost use Rattle.sg_arena.specs.History.{bare, with_leaf, after_raise};

use crate::Link;
use crate::ghost_list::GhostList;
use std::marker::Model;
use std::snapshot::Snapshot;

/// The family that the calls so far have made.
#[derive(Drop)]
#[cycle(history)]
pub(crate) struct History {
    last: Snapshot<Change>,
}

impl Model for History {
    ghost use Rattle.std.specs.Prelude.{ℕ, ◌*◌, ◌+◌};
    ghost use Rattle.std.proofs.Common.{arith};
    ghost use Rattle.sg_arena.specs.Family.{Family};
    ghost use Rattle.sg_arena.specs.History.{events};

    ghost Value = { Family };

    ghost view = { λ s. s.last.value };

    ghost size = { λ f. 2 * events f + 1 };

    ghost size_decreases = { λ s h. Prim.grind (arith) };
}

// What one call has made of what the calls before it had made.
#[derive(Drop)]
#[cycle(history)]
struct Change {
    event: Event,
}

impl Model for Change {
    ghost use Rattle.std.specs.Prelude.{ℕ, ◌*◌};
    ghost use Rattle.std.proofs.Common.{arith};
    ghost use Rattle.sg_arena.specs.Family.{Family};
    ghost use Rattle.sg_arena.specs.History.{events};
    ghost use Rattle.sg_arena.specs.Event.{after};

    ghost Value = { Family };

    ghost view = { λ c. after c.event };

    ghost size = { λ f. 2 * events f };

    ghost use Rattle.sg_arena.specs.EventFalls.{falls};

    ghost size_decreases = { λ c h. falls c.event };
}

#[derive(Drop)]
#[cycle(history)]
enum Event {
    // A family without leaves, with room for so many nodes.
    Opened(usize),
    // One leaf more, under this name.
    Leaf(Snapshot<History>, usize),
    // The nodes of a cycle are a blossom of this name.
    Shrunk(Snapshot<History>, usize, GhostList<Link>),
    // The blossom of this name has gone.
    Expanded(Snapshot<History>, usize),
    // The outer nodes have been raised, and the inner ones lowered.
    Raised(Snapshot<History>, GhostList<usize>, GhostList<usize>, u64),
}

impl History {
    /// The family of no leaves, with so much room.
    pub(crate) fn open(room: usize) -> History
        ensures { result ≡ bare room }
    {
        let change = Change {
            event: Event::Opened(room),
        };
        History {
            last: Snapshot::of(&change),
        }
    }

    /// Records one leaf more, under this name.
    pub(crate) fn leaf(&mut self, name: usize)
        ensures { self.new ≡ with_leaf self.old name }
    {
        let change = Change {
            event: Event::Leaf(Snapshot::of(self), name),
        };
        self.last = Snapshot::of(&change);
    }

    /// Records that the nodes of a cycle are a blossom of this name.
    pub(crate) fn shrink(&mut self, name: usize, cycle: &[Link])
        ensures { self.new ≡ with_slot self.old name (Some (blossom_of self.old cycle.now)) }
    {
        let cycle = GhostList::of(cycle);
        let change = Change {
            event: Event::Shrunk(Snapshot::of(self), name, cycle),
        };
        self.last = Snapshot::of(&change);
    }

    /// Records that the blossom of this name has gone.
    pub(crate) fn expand(&mut self, name: usize)
        ensures { self.new ≡ with_slot self.old name None }
    {
        let change = Change {
            event: Event::Expanded(Snapshot::of(self), name),
        };
        self.last = Snapshot::of(&change);
    }

    /// Records that the duals of the outer nodes have grown by `delta`, and those of the inner ones fallen.
    pub(crate) fn raise(&mut self, outer: &[usize], inner: &[usize], delta: u64)
        ensures { self.new ≡ after_raise self.old outer.now inner.now delta }
    {
        let (outer, inner) = (GhostList::of(outer), GhostList::of(inner));
        let change = Change {
            event: Event::Raised(Snapshot::of(self), outer, inner, delta),
        };
        self.last = Snapshot::of(&change);
    }
}

const _: () = prove!(size_of::<History>() == 0);
