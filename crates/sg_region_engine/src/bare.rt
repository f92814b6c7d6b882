// What happens at bare nodes.
//
// A node is bare if nothing that covers it reaches beyond: it lies on the edge of all regions over it.
// Two outer regions that touch one bare node are tight with one another through it, whatever region
// holds it. So a bare node is no wall: regions that touch it meet there, and a region with such a node
// is not taken apart to let them through. To look for a region that touches a node takes its arcs, but
// at a hub one look.
use super::Engine;
use sg_forest::{Contact, End, Reach};
use sg_growth::{Arc, Soon, reverse};

impl<'a> Engine<'a> {
    // An outer region comes to a bare node of a free one. If another touches that node, the two meet;
    // and at a hub it may have to wait for another. Whether that is all there is to the event.
    pub(super) fn meet_at_bare(&mut self, node: u32, here: Reach, arc: &Arc, own: End) -> bool {
        if let Some(hub) = self.hubs.number_of(arc.to) {
            return self.meet_at_hub(node, here, arc, hub, own);
        }
        match self.touching(arc.to, here.top) {
            Some(other) => {
                self.meet_through(node, arc, Contact { own, other });
                true
            }
            None => false,
        }
    }

    // Two outer regions meet at a bare node, the first of them over an arc.
    fn meet_through(&mut self, node: u32, arc: &Arc, contact: Contact) {
        self.meet(contact);
        match self.outer_reach(node) {
            Some(here) => self.expect(node, here, arc),
            None => {}
        }
    }

    // An outer region that touches a bare node, beside one of this top: of another tree, if there is
    // such a one.
    fn touching(&mut self, node: u32, top: u32) -> Option<End> {
        let arcs = self.arcs;
        let tree = self.forest.tree(top);
        let mut found = None;
        for exit in arcs.exits_of(node) {
            let arc = arcs.arc_by(exit);
            self.work.add(1);
            let Some(there) = self.touch_over(arc.to, arc.length) else {
                continue;
            };
            if there.top == top {
                continue;
            }
            let is_other = self.forest.tree(there.top) != tree;
            if is_other || found.is_none() {
                found = self.end_at(arc.to, reverse(arc.dart));
            }
            if is_other {
                break;
            }
        }
        found
    }

    // The outer region over a node, if it reaches just so far beyond.
    fn touch_over(&self, node: u32, length: i64) -> Option<Reach> {
        match self.outer_reach(node) {
            Some(there) if there.by == length => Some(there),
            _ => None,
        }
    }

    // The same at a hub: the other region is the last that touched it, if it still does. If that is this
    // region itself, and the arc over which it touched waits, that one stands for both. Where there is
    // none, the event waits behind those of its time, once.
    fn meet_at_hub(&mut self, node: u32, here: Reach, arc: &Arc, hub: u32, own: End) -> bool {
        let time = self.clock.now();
        let mut waited = false;
        if let Some(last) = self.hubs.touched(hub) {
            let is_same = last.dart == arc.dart;
            let length = self.arcs.arc(last.dart).length;
            match self.touch_over(self.arcs.start(last.dart), length) {
                _ if is_same => waited = last.time == time,
                Some(there) if there.top != here.top => {
                    return self.meet_last(node, arc, hub, own, last.dart);
                }
                Some(_) if self.clock.due(last.dart) == time => return true,
                Some(_) => waited = last.time == time,
                None => {}
            }
        }
        if waited {
            return false;
        }
        let dart = arc.dart;
        self.hubs.touch(hub, Some(Soon { time, dart }));
        self.expect(node, here, arc);
        true
    }

    // An outer region meets the one that touched a hub last.
    fn meet_last(&mut self, node: u32, arc: &Arc, hub: u32, own: End, last: u32) -> bool {
        let Some(other) = self.end_at(self.arcs.start(last), last) else {
            return false;
        };
        self.hubs.touch(hub, None);
        self.meet_through(node, arc, Contact { own, other });
        true
    }

    // Whether the two regions about an inner one touch it at one bare node.
    pub(super) fn is_tight_through(&self, name: u32) -> bool {
        let (Some(pair), Some(above)) = (self.forest.pair(name), self.forest.above(name)) else {
            return false;
        };
        let node = self.arcs.arc(above.other.dart).to;
        let Some(held) = self.cover.held(node) else {
            return false;
        };
        let here = self.reach(&held);
        here.top == name
            && here.by == 0
            && self.touches(above.other, node)
            && self.touches(pair.other, node)
    }

    // Whether a region touches a node on its side of a contact.
    fn touches(&self, side: End, node: u32) -> bool {
        let arc = self.arcs.arc(side.dart);
        let Some(held) = self.cover.held(self.arcs.start(side.dart)) else {
            return false;
        };
        let here = self.reach(&held);
        arc.to == node && here.by == arc.length && here.top == self.forest.top(side.terminal)
    }
}
