// What comes of each event, and the run of all of them.
use super::Engine;
use crate::NoMemory;
use sg_forest::{Contact, End, Reach, Role};
use sg_growth::{Arc, Held, NEVER, Soon, reverse};
use sg_slots::{Subject, number};

impl<'a> Engine<'a> {
    // The event of an arc: the region at its start takes the node at its end, or meets a region. If
    // no outer region is there any more, the one at the other end takes over.
    fn arc_event(&mut self, dart: u32) {
        let arc = self.arcs.arc(dart);
        let node = self.arcs.start(dart);
        let Some(here) = self.outer_reach(node) else {
            return self.expect_back(node, &arc);
        };
        self.work.add(1);
        if self.sight(here, &arc).time > self.clock.now() {
            return self.expect(node, here, &arc);
        }
        self.arrive(node, here, &arc)
    }

    // An outer region over a node gets to the end of an arc, or meets the region there.
    fn arrive(&mut self, node: u32, here: Reach, arc: &Arc) {
        let Some(own) = self.end_at(node, arc.dart) else {
            return;
        };
        let Some(held) = self.cover.held(arc.to) else {
            if self.is_open_hub(arc.to) {
                return self.augment_at_hub(own);
            }
            self.take(here.top, arc.to, own.terminal);
            return self.wake(arc.to);
        };
        let there = self.reach(&held);
        let is_bare = there.by == 0 && there.role == Role::Free;
        if is_bare && self.meet_at_bare(node, here, arc, own) {
            return;
        }
        let other = End {
            terminal: held.terminal,
            dart: reverse(arc.dart),
        };
        self.meet(Contact { own, other })
    }

    // A region takes a node, reached from a terminal.
    pub(super) fn take(&mut self, region: u32, node: u32, terminal: u32) {
        let radius = self.forest.radius(region, self.clock.now());
        let held = Held {
            region,
            terminal,
            radius,
        };
        self.cover.take(node, &held);
    }

    // The event of a hub: what comes over its soonest arcs. Arcs that are left wait on.
    fn hub_event(&mut self, hub: u32) {
        for _ in 0..self.work.left() {
            let Some(soon) = self.hubs.first(hub) else {
                break;
            };
            if soon.time > self.clock.now() || self.work.left() == 0 {
                break;
            }
            self.hubs.pop(hub);
            self.hub_arc(hub, soon.dart);
        }
        self.expect_hub(hub)
    }

    // The event of one arc of a hub. If no outer region is there any more, those at the other ends of all
    // its arcs take over.
    fn hub_arc(&mut self, hub: u32, dart: u32) {
        let arc = self.arcs.arc(dart);
        let node = self.hubs.node(hub);
        let Some(here) = self.outer_reach(node) else {
            return self.wake_around(node);
        };
        self.work.add(1);
        let time = self.sight(here, &arc).time;
        if time <= self.clock.now() {
            return self.arrive(node, here, &arc);
        }
        if time < self.clock.due(dart) {
            return self.hubs.push(hub, Soon { time, dart });
        }
    }

    // The event of an inner region: it leaves the node that it took last, or has come to nothing. It waits
    // on where it has grown since the event was entered.
    fn region_event(&mut self, name: u32) {
        if self.forest.role(name) != Role::Inner {
            return;
        }
        if self.height(name) != 0 {
            return self.expect_floor(name);
        }
        let seed = self.seed(name);
        match self.cover.last(name) {
            Some(last) if seed != Some(last) => self.leave(name, last),
            _ if seed.is_some() || self.is_tight_through(name) => self.shrink_at(name),
            _ => self.expand(name),
        }
    }

    /// The node of the terminal, where the region is that of one.
    pub fn seed(&self, name: u32) -> Option<u32> {
        self.terminals.get(name as usize).copied()
    }

    // An inner region leaves the node that it took last.
    fn leave(&mut self, name: u32, last: u32) {
        let arcs = self.arcs;
        self.cover.leave(name, last);
        for exit in arcs.exits_of(last) {
            self.cover.unset_deep(exit.to);
        }
        self.expect_floor(name);
        self.wake_around(last)
    }

    // One event.
    fn happen(&mut self, subject: Subject) {
        match subject {
            Subject::Arc(dart) => self.arc_event(dart),
            Subject::Hub(hub) => self.hub_event(hub),
            Subject::Region(name) => self.region_event(name),
            Subject::Root(name) => self.root_event(name),
        }
    }

    /// The next terminal takes its node and becomes the root of a tree, unless that is an open hub.
    pub fn plant(&mut self, node: u32) {
        if self.is_open_hub(node) {
            return self.plant_at_hub(node);
        }
        let name = self.forest.plant(self.clock.now());
        self.cover.open(name);
        self.take(name, node, name);
        self.unpaired = self.unpaired.saturating_add(1);
    }

    // Enters the first events.
    fn wake_terminals(&mut self) {
        for (name, node) in self.terminals.iter().enumerate() {
            if self.forest.role(number(name)) == Role::Outer {
                self.wake(*node);
            }
        }
    }

    /// Runs until each terminal has a mate. False if that did not come about within the work allowed.
    /// Arcs are twice as long as their edges weigh. The only error is running out of memory.
    pub fn run(&mut self) -> Result<bool, NoMemory> {
        if self.is_sliced {
            let is_done = self.run_slices() && self.go_by_method(1);
            return self.unless_short(is_done);
        }
        for node in self.terminals {
            self.plant(*node);
        }
        self.start_ahead();
        self.wake_terminals();
        self.run_by_method(1)
    }

    // Goes on until no tree is left. False if that did not come about within the work allowed.
    pub(super) fn go_on(&mut self) -> bool {
        self.go_on_until(NEVER)
    }

    // Goes on until no tree is left, or to the end of a time. Whether no tree is left.
    pub(super) fn go_on_until(&mut self, end: i64) -> bool {
        for _ in 0..self.work.left() {
            if self.unpaired <= self.rests || self.work.left() == 0 {
                break;
            }
            let Some(event) = self.clock.pop(end) else {
                break;
            };
            if !self.work.take_event() {
                break;
            }
            if self.clock.begin(&event) {
                self.happen(event.subject);
            }
        }
        self.unpaired <= self.rests
    }
}
