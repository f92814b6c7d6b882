// Entering the events of arcs: to wake a node is to look at each of its arcs.
use super::Engine;
use sg_forest::{Reach, Role};
use sg_growth::{Arc, NEVER, Soon, reverse};
use sg_slots::Slot;

// An outer region that nears the end of an arc: the node at its start, the arc by its dart, and when it
// comes.
#[derive(Clone, Copy)]
struct Coming {
    top: u32,
    node: u32,
    dart: u32,
    time: i64,
}

impl Coming {
    // The one of the two that comes first.
    fn sooner(self, other: Coming) -> Coming {
        if other.time < self.time { other } else { self }
    }
}

impl<'a> Engine<'a> {
    // Enters the event of an arc that leaves a node over which an outer region reaches so far.
    pub(super) fn expect(&mut self, node: u32, here: Reach, arc: &Arc) {
        let time = self.sight(here, arc).time;
        self.expect_at(node, arc.dart, time)
    }

    // Enters the event of an arc that leaves a node, at a time.
    fn expect_at(&mut self, node: u32, dart: u32, time: i64) {
        self.work.add(1);
        match self.hubs.number_of(node) {
            None => self.clock.expect_arc(dart, time),
            Some(hub) => {
                if time == NEVER || time >= self.clock.due(dart) {
                    return;
                }
                self.hubs.push(hub, Soon { time, dart });
                self.expect_hub(hub)
            }
        }
    }

    // Enters the event of the soonest arc of a hub.
    pub(super) fn expect_hub(&mut self, hub: u32) {
        match self.hubs.first(hub) {
            Some(soon) => self.clock.expect_hub(hub, soon.time),
            None => {}
        }
    }

    // Enters the event of the way back of an arc that leaves a node, if an outer region covers its end.
    pub(super) fn expect_back(&mut self, node: u32, arc: &Arc) {
        match self.outer_reach(arc.to) {
            Some(there) => {
                let back = Arc {
                    dart: reverse(arc.dart),
                    to: node,
                    length: arc.length,
                };
                self.expect(arc.to, there, &back)
            }
            None => {}
        }
    }

    // Enters the events of the arcs that leave a node, over which an outer region reaches so far, but
    // only notes those of arcs to hubs. Tells whether all lead to nodes of this region.
    fn wake_by(&mut self, node: u32, here: Reach) -> bool {
        self.work.add(self.arcs.exits_of(node).len());
        match self.hubs.number_of(node) {
            None => self.wake_arcs(node, here),
            Some(hub) => {
                let is_own = self.wake_hub(hub, node, here);
                self.expect_hub(hub);
                is_own
            }
        }
    }

    // The same for a node that is no hub.
    fn wake_arcs(&mut self, node: u32, here: Reach) -> bool {
        let arcs = self.arcs;
        let mut is_own = true;
        for exit in arcs.exits_of(node) {
            let arc = arcs.arc_by(exit);
            let sight = self.sight(here, &arc);
            is_own = is_own && sight.is_own;
            match self.hubs.number_of(arc.to) {
                None => self.clock.expect_arc(arc.dart, sight.time),
                Some(hub) if sight.time != NEVER => self.hubs.note(
                    hub,
                    Soon {
                        time: sight.time,
                        dart: arc.dart,
                    },
                ),
                Some(_) => {}
            }
        }
        is_own
    }

    // Enters the events of the arcs that are noted.
    #[inline(always)]
    fn enter_noted(&mut self) {
        for _ in 0..self.hubs.len() {
            let Some(soon) = self.hubs.take_noted() else {
                break;
            };
            self.clock.expect_arc(soon.dart, soon.time);
        }
    }

    // Fills the heap of a hub anew.
    fn wake_hub(&mut self, hub: u32, node: u32, here: Reach) -> bool {
        let arcs = self.arcs;
        let mut is_own = true;
        self.hubs.clear(hub);
        for exit in arcs.exits_of(node) {
            let arc = arcs.arc_by(exit);
            let sight = self.sight(here, &arc);
            is_own = is_own && sight.is_own;
            if sight.time < self.clock.due(arc.dart) {
                let soon = Soon {
                    time: sight.time,
                    dart: arc.dart,
                };
                self.hubs.add_arc(hub, soon);
            }
        }
        self.hubs.settle(hub);
        is_own
    }

    /// Enters the events of the arcs that leave a node, if an outer region covers it.
    pub fn wake(&mut self, node: u32) {
        if let Some(here) = self.outer_reach(node) {
            self.wake_by(node, here);
        }
        self.enter_noted()
    }

    // Enters the events of the arcs that lead to a node.
    pub(super) fn wake_around(&mut self, node: u32) {
        let arcs = self.arcs;
        self.work.add(arcs.exits_of(node).len());
        if let Some(hub) = self.hubs.number_of(node) {
            self.hubs.clear(hub);
            return self.wake_around_hub(node);
        }
        let reach = self.reach_at(node);
        for exit in arcs.exits_of(node) {
            if let Some(next) = self.coming(&arcs.arc_by(exit), reach) {
                self.expect_at(next.node, next.dart, next.time);
            }
        }
    }

    // The same for a hub, whose own arcs wait no more: of arcs from one outer region, as far as they follow
    // one another, only the soonest.
    fn wake_around_hub(&mut self, node: u32) {
        let arcs = self.arcs;
        let reach = self.reach_at(node);
        let mut soonest: Option<Coming> = None;
        for exit in arcs.exits_of(node) {
            let Some(next) = self.coming(&arcs.arc_by(exit), reach) else {
                continue;
            };
            soonest = match soonest {
                Some(before) if before.top == next.top => Some(before.sooner(next)),
                Some(before) => {
                    self.expect_at(before.node, before.dart, before.time);
                    Some(next)
                }
                None => Some(next),
            };
        }
        match soonest {
            Some(last) => self.expect_at(last.node, last.dart, last.time),
            None => {}
        }
    }

    // The outer region at the end of an arc, if there is one, as it nears the start, where the region
    // over that reaches so far.
    #[inline(always)]
    fn coming(&self, arc: &Arc, reach: Option<Reach>) -> Option<Coming> {
        let Some(there) = self.outer_reach(arc.to) else {
            return None;
        };
        Some(Coming {
            top: there.top,
            node: arc.to,
            dart: reverse(arc.dart),
            time: self.sight_of(there, arc.length, reach).time,
        })
    }

    // Enters the events of the arcs that leave the nodes of a region in an outer top. A node from which they lead to
    // nodes of this top alone is deep from now on.
    pub(super) fn wake_region(&mut self, name: u32, top: u32) {
        let end = self.cover.end(name);
        let mut next = self.cover.first(name);
        for _ in 0..self.arcs.nodes() {
            let Some(node) = self.next_shallow(next, end) else {
                break;
            };
            if let Some(here) = self.reach_at(node)
                && self.wake_by(node, here)
            {
                self.cover.set_deep(node, top);
            }
            next = self.cover.behind(node, end);
        }
        self.enter_noted()
    }

    // The first node that is not deep in a stretch of a row.
    fn next_shallow(&mut self, first: Slot, end: Slot) -> Option<u32> {
        let found = self.cover.shallow(first, end);
        self.work.add(found.passed);
        found.node.number()
    }

    // Enters the events of the arcs that lead to the nodes of a top.
    pub(super) fn wake_around_region(&mut self, name: u32) {
        let end = self.cover.end(name);
        let mut next = self.cover.first(name);
        for _ in 0..self.arcs.nodes() {
            let Some(node) = self.next_shallow(next, end) else {
                break;
            };
            self.wake_around(node);
            next = self.cover.behind(node, end);
        }
    }

    // A top is inner from now on.
    pub(super) fn set_inner(&mut self, name: u32) {
        self.forest.set_role(name, Role::Inner, self.clock.now());
        self.expect_floor(name)
    }

    // Enters the event of an inner region: it comes down to the node that it took last, or to nothing.
    pub(super) fn expect_floor(&mut self, name: u32) {
        let left = self.height(name);
        self.clock.expect_region(name, left)
    }

    // How far a region has grown since it took a node last.
    pub(super) fn height(&self, name: u32) -> i64 {
        let radius = self.forest.radius(name, self.clock.now());
        radius.wrapping_sub(self.cover.floor(name))
    }
}
