// Open hubs: while a hub is open, no region covers it.
//
// A tree that comes to an open hub ends there: its region is paired with the hub, and any number of regions
// may be paired with one hub. A tree that comes to such a region is paired with it in place of the hub. The
// terminal of a hub waits, paired with its own node. So no blossom holds a hub, none is nested there, and the
// arcs of a hub are never all looked at.
//
// This is exact. The cut of a set of nodes is also that of its complement, so a side without the hub can
// always be taken, and the parity of a T-join at one node follows from the parities at all others.
//
// When no tree is left, the hubs are closed: the regions that are paired with one hub all touch its node, and are
// paired with one another, two by two. If their number is odd, they become one blossom, an odd cycle of radius 0
// that is paired with none: the root of a tree in what follows. There is at most one such root for each hub.
use super::Engine;
use sg_forest::{Contact, End, Link, Role};
use sg_growth::{Adjacency, reverse};
use sg_slots::{Slot, Store, entry, number, set_entry};

// A node with more arcs is a hub here. A heap of its own pays only where there are many more (`Hubs`).
const MOST_ARCS: usize = 16;

// The regions that are paired with each hub, its guests: for each node the guest that was added last, and for each
// region the guest that was added before it.
#[derive(Drop)]
struct Guests {
    lasts: Store<Slot>,
    nexts: Store<Slot>,
}

impl Guests {
    // Adds a region to the guests of a hub.
    fn add(&mut self, name: u32, node: u32) {
        let next = self.last(node);
        set_entry(&mut self.nexts.items, name, next);
        set_entry(&mut self.lasts.items, node, Slot::of(name));
    }

    // The guest of a hub that was added last.
    fn last(&self, node: u32) -> Slot {
        entry(&self.lasts.items, node).unwrap_or(Slot::none())
    }

    // The guest that was added before this one.
    fn next(&self, name: u32) -> Slot {
        entry(&self.nexts.items, name).unwrap_or(Slot::none())
    }

    // Whether a list found no memory.
    fn is_short(&self) -> bool {
        self.lasts.is_short() | self.nexts.is_short()
    }
}

// Whether a node is a hub.
fn is_hub(arcs: &Adjacency, node: u32) -> bool {
    arcs.exits_of(node).len() > MOST_ARCS
}

// Whether any node is a hub.
pub fn has_hub(arcs: &Adjacency) -> bool {
    for node in 0..number(arcs.nodes()) {
        if is_hub(arcs, node) {
            return true;
        }
    }
    false
}

impl<'a> Engine<'a> {
    // Whether a node is a hub that no region may cover yet.
    pub(super) fn is_open_hub(&self, node: u32) -> bool {
        self.is_open && is_hub(self.arcs, node)
    }

    // The region of a terminal at an open hub is paired with the hub, over any of its arcs.
    pub(super) fn plant_at_hub(&mut self, node: u32) {
        let name = self.forest.reserve();
        self.cover.open(name);
        if let Some(exit) = self.arcs.exits_of(node).first() {
            let own = End {
                terminal: name,
                dart: reverse(exit.dart),
            };
            self.forest.set_pair(Contact::with_node(own, exit.dart));
        }
    }

    // A tree comes to an open hub: the pairs on the way to the root change sides, and the tree is dissolved.
    pub(super) fn augment_at_hub(&mut self, own: End) {
        let tree = self.forest.tree(self.forest.top(own.terminal));
        let contact = Contact::with_node(own, reverse(own.dart));
        self.forest.flip_pairs(contact, &mut self.work);
        self.end_tree(tree)
    }

    // A tree comes to a region that is paired with an open hub: the two are paired, and the tree is dissolved.
    pub(super) fn augment_by_hub(&mut self, contact: Contact) {
        let tree = self.forest.tree(self.forest.top(contact.own.terminal));
        self.forest.flip_pairs(contact, &mut self.work);
        self.forest.set_pair(contact.reversed());
        self.end_tree(tree)
    }

    // Closes all hubs, and pairs the guests of each with one another.
    pub(super) fn close_hubs(&mut self) {
        self.is_open = false;
        let guests = self.guests();
        let mut ends = Store::new(self.alloc);
        for node in 0..number(self.arcs.nodes()) {
            if !guests.last(node).is_none() {
                self.list_ends(&guests, node, &mut ends);
                self.close_hub(&ends.items);
            }
        }
        self.was_short |= ends.is_short() || guests.is_short();
    }

    // The guests of all hubs.
    fn guests(&self) -> Guests {
        let mut guests = Guests {
            lasts: Store::filled(self.alloc, Slot::none(), self.arcs.nodes()),
            nexts: Store::filled(self.alloc, Slot::none(), self.forest.len()),
        };
        for name in 0..number(self.forest.len()) {
            if let Some(node) = self.host(name) {
                guests.add(name, node);
            }
        }
        guests
    }

    // The hub that a region is paired with.
    fn host(&self, name: u32) -> Option<u32> {
        if !self.cover.is_open(name) || self.forest.role(name) != Role::Free {
            return None;
        }
        match self.forest.pair(name) {
            Some(pair) if pair.is_with_node() => Some(self.arcs.arc(pair.own.dart).to),
            _ => None,
        }
    }

    // Lists where the guests of a hub touch it, in place of what the list had.
    fn list_ends(&self, guests: &Guests, node: u32, ends: &mut Store<End>) {
        ends.items.clear();
        let mut next = guests.last(node);
        for _ in 0..self.forest.len() {
            let Some(name) = next.number() else {
                break;
            };
            if let Some(pair) = self.forest.pair(name) {
                ends.push(pair.own);
            }
            next = guests.next(name);
        }
    }

    // Closes a hub with guests at these ends: they are paired two by two, or are one odd cycle.
    fn close_hub(&mut self, ends: &[End]) {
        self.take_hub(ends);
        if ends.len() % 2 == 0 {
            self.pair_ends(ends);
            return;
        }
        self.unpaired = self.unpaired.saturating_add(1);
        if ends.len() > 1 {
            return self.rest_at_hub(ends);
        }
        if let Some(only) = ends.first() {
            let top = self.forest.top(only.terminal);
            self.forest.leave_unpaired(top, &mut self.work);
        }
    }

    // If the hub is a terminal, its region takes it.
    fn take_hub(&mut self, ends: &[End]) {
        for end in ends {
            if self.is_host(end) {
                let node = self.arcs.arc(end.dart).to;
                self.take(end.terminal, node, end.terminal);
            }
        }
    }

    // Whether an end is that of the terminal at the hub itself.
    fn is_host(&self, end: &End) -> bool {
        self.seed(end.terminal) == Some(self.arcs.arc(end.dart).to)
    }

    // Where two guests of a hub touch: from arc to arc, or over one arc where one of them is the hub's terminal.
    fn contact_at_hub(&self, own: End, other: End) -> Contact {
        let mut contact = Contact { own, other };
        if self.is_host(&own) {
            contact.own.dart = reverse(other.dart);
        } else if self.is_host(&other) {
            contact.other.dart = reverse(own.dart);
        }
        contact
    }

    // Pairs the guests of a hub two by two.
    fn pair_ends(&mut self, ends: &[End]) {
        for place in 0..ends.len() / 2 {
            let first = place.wrapping_mul(2);
            let pair = (ends.get(first), ends.get(first.wrapping_add(1)));
            if let (Some(own), Some(other)) = pair {
                let contact = self.contact_at_hub(*own, *other);
                self.forest.pair_by(contact);
            }
        }
    }

    // An odd number of guests becomes a free blossom of radius 0, paired with none.
    fn rest_at_hub(&mut self, ends: &[End]) {
        self.cycle.items.clear();
        for (place, end) in ends.iter().enumerate() {
            if let Some(other) = next_end(ends, place) {
                let child = self.forest.top(end.terminal);
                let contact = self.contact_at_hub(*end, other);
                self.cycle.push(Link { child, contact });
            }
        }
        let now = self.clock.now();
        let blossom = self.forest.enclose(&self.cycle.items, now, &mut self.work);
        self.forest.set_role(blossom, Role::Free, now);
        self.cover.open(blossom);
        self.append_rows(blossom);
    }
}

// The end behind one in a list, the first behind the last.
fn next_end(ends: &[End], place: usize) -> Option<End> {
    match ends.get(place.wrapping_add(1)) {
        Some(end) => Some(*end),
        None => ends.first().copied(),
    }
}
