// The head start of a run: no event is needed for what terminals do before regions have to meet.
//
// Where many edges are the shortest, all regions grow to half of that at once: no two terminals meet, and none gets to
// another node, before. Else each region grows as far as its neighbours let it, first half of the way to another
// terminal. Roots that touch then are paired with one another, and events are entered only for those that are left.
// Radii stay even, so that all meetings stay at whole times. There is no head start for a terminal that is an open hub,
// whose region begins to grow later.
use super::Engine;
use sg_forest::{Contact, End, Role};
use sg_growth::{Exit, reverse};
use sg_slots::number;

/// How terminals grow before events are entered.
#[derive(Clone, Copy, PartialEq, Eq)]
pub enum HeadStart {
    /// Not at all.
    None,
    /// All of them so far, which is at most half of the shortest arc.
    Alike(i64),
    /// Each as far as its neighbours let it.
    Each,
}

// How far a region may grow along an arc, and the root that it touches then, with the dart to it.
#[derive(Clone, Copy)]
struct Room {
    length: i64,
    root: Option<u32>,
    dart: u32,
}

impl<'a> Engine<'a> {
    // The head start.
    pub(super) fn start_ahead(&mut self) {
        match self.head_start {
            HeadStart::None => {}
            HeadStart::Alike(by) => self.pair_first(by),
            HeadStart::Each => self.rise_first(),
        }
    }

    // All terminals grow so far, which is one event, and roots that touch then are paired.
    fn pair_first(&mut self, by: i64) {
        let are_roots = self.unpaired == number(self.terminals.len());
        if by == 0 || !are_roots || !self.work.take_event() {
            return;
        }
        self.clock.begin_at(by);
        for name in 0..number(self.terminals.len()) {
            if self.is_root(name) {
                self.pair_root(name, by);
            }
        }
    }

    // Pairs a root with the first other one that it touches, if there is one.
    fn pair_root(&mut self, name: u32, by: i64) {
        let Some(node) = self.seed(name) else {
            return;
        };
        let arcs = self.arcs;
        let exits = arcs.exits_of(node);
        self.work.add(exits.len());
        for exit in exits {
            if let Some(other) = self.root_at(exit.to)
                && arcs.arc_by(exit).length / 2 <= by
            {
                return self.pair_roots(name, other, exit.dart);
            }
        }
    }

    // Each root grows half of the way to its neighbours, which is one event, and then as far as they let it.
    fn rise_first(&mut self) {
        if !self.work.take_event() {
            return;
        }
        for name in 0..number(self.terminals.len()) {
            if self.is_root(name) {
                self.rise_half(name);
            }
        }
        for name in 0..number(self.terminals.len()) {
            if self.is_root(name) {
                self.rise(name);
            }
        }
    }

    // A root grows to a node without a region, or half of the way to a region, whichever is nearer.
    fn rise_half(&mut self, name: u32) {
        let Some(node) = self.seed(name) else {
            return;
        };
        let arcs = self.arcs;
        let exits = arcs.exits_of(node);
        self.work.add(exits.len());
        let mut least = None;
        for exit in exits {
            let length = arcs.arc_by(exit).length;
            let is_covered = self.cover.held(exit.to).is_some();
            let share = if is_covered { length / 2 } else { length };
            if exit.to != node {
                least = Some(least.unwrap_or(share).min(share));
            }
        }
        self.grow_to(name, least.unwrap_or(0));
    }

    // A root grows as far as its neighbours let it, and is paired with a root that it touches then.
    fn rise(&mut self, name: u32) {
        let Some(room) = self.room_of(name) else {
            return;
        };
        let radius = self.forest.radius(name, self.clock.now());
        self.grow_to(name, radius.saturating_add(room.length));
        if let Some(other) = room.root
            && room.length % 2 == 0
        {
            self.pair_roots(name, other, room.dart);
        }
    }

    // The least room of a root over its arcs; of alike ones one with a root at its end.
    fn room_of(&mut self, name: u32) -> Option<Room> {
        let node = self.seed(name)?;
        let arcs = self.arcs;
        let exits = arcs.exits_of(node);
        self.work.add(exits.len());
        let radius = self.forest.radius(name, self.clock.now());
        let mut least: Option<Room> = None;
        for exit in exits {
            if exit.to == node {
                continue;
            }
            let room = self.room_over(exit, radius);
            let is_less = match least {
                Some(before) => room.length < before.length
                    || room.length == before.length && before.root.is_none(),
                None => true,
            };
            if is_less {
                least = Some(room);
            }
        }
        least
    }

    // The room of a root of a radius over one of its arcs.
    fn room_over(&self, exit: &Exit, radius: i64) -> Room {
        let there = match self.cover.held(exit.to) {
            Some(held) => self.forest.radius(held.terminal, self.clock.now()),
            None => 0,
        };
        let length = self.arcs.arc_by(exit).length;
        Room {
            length: length.wrapping_sub(radius).wrapping_sub(there),
            root: self.root_at(exit.to),
            dart: exit.dart,
        }
    }

    // A root grows to a radius, or to one less if that is odd.
    fn grow_to(&mut self, name: u32, radius: i64) {
        self.forest
            .set_radius(name, radius / 2 * 2, self.clock.now());
    }

    // Whether a terminal is the root of a tree, at rest or not.
    fn is_root(&self, name: u32) -> bool {
        self.forest.role(name) == Role::Outer || self.batches.is_left(name)
    }

    // The terminal at a node, if it is the root of a tree.
    fn root_at(&self, node: u32) -> Option<u32> {
        match self.cover.held(node) {
            Some(held) if self.is_root(held.terminal) => Some(held.terminal),
            _ => None,
        }
    }

    // Two roots are paired over an arc, by its dart, and are in no tree any more.
    fn pair_roots(&mut self, name: u32, other: u32, dart: u32) {
        let own = End {
            terminal: name,
            dart,
        };
        let other = End {
            terminal: other,
            dart: reverse(dart),
        };
        self.forest.pair_by(Contact { own, other });
        self.free_root(own.terminal);
        self.free_root(other.terminal);
    }

    // A root without members is in no tree any more.
    fn free_root(&mut self, name: u32) {
        if self.batches.is_left(name) {
            self.batches.end(Some(name));
            self.rests = self.rests.saturating_sub(1);
        }
        self.forest.dissolve(name);
        self.forest.quit_tree(name);
        self.forest.set_role(name, Role::Free, self.clock.now());
        self.unpaired = self.unpaired.saturating_sub(1);
    }
}
