// Which region took each node and when, and the nodes of each region.
//
// A node is covered by the regions that hold it; the lowest of them took it. The nodes of a region
// stand in a row: first those of its parts, part by part, then those that it took itself, in the order
// in which it took them; so the row of a part is a stretch of the row of the whole. To take a node, to
// leave one and to put two rows together takes the same time for any rows.
//
// A node is deep in a region if all its neighbours were seen to lie in it. It is deep as long as the
// region is there and none of the neighbours is left; such a node need not be woken.
use sg_slots::{Slot, Store, entry, number, set_entry};
use std::alloc::Global;

// With at least one region for so many nodes, all nodes are cleared at once.
const MANY: usize = 8;

/// Of a node that is covered: the region that took it, the terminal from which it was reached, and the
/// radius of the region then.
#[derive(Clone, Copy)]
pub struct Held {
    pub region: u32,
    pub terminal: u32,
    pub radius: i64,
}

// The region that took a node, if there is one; its terminal and radius. A scan of an arc reads one such record,
// so it has what is read there and no more.
#[derive(Clone, Copy)]
struct Taken {
    region: Slot,
    terminal: u32,
    radius: i64,
}

// The neighbours of a node in its row; and the region in which it is deep, with the birth of that.
#[derive(Clone, Copy)]
struct Place {
    next: Slot,
    previous: Slot,
    deep: Slot,
    birth: u32,
}

/// A node of a row that is not deep, if one was found, and how many nodes were looked at.
#[derive(Clone, Copy)]
pub struct Shallow {
    pub node: Slot,
    pub passed: usize,
}

// The ends of a region's row, the node that it took last, and its number among all that were born;
// a region that is gone has none.
#[derive(Clone, Copy)]
struct Row {
    head: Slot,
    tail: Slot,
    last: Slot,
    birth: Slot,
}

/// The nodes, with the regions that hold them.
#[derive(Drop)]
pub struct Cover {
    taken: Store<Taken>,
    places: Store<Place>,
    rows: Store<Row>,
    births: u32,
}

// A row of no nodes.
fn no_row(birth: Slot) -> Row {
    Row {
        head: Slot::none(),
        tail: Slot::none(),
        last: Slot::none(),
        birth,
    }
}

// A node that nothing covers.
fn bare() -> Taken {
    Taken {
        region: Slot::none(),
        terminal: 0,
        radius: 0,
    }
}

impl Cover {
    /// So many nodes, none of them covered, with room for so many regions.
    pub fn new(alloc: Global, nodes: usize, room: usize) -> Cover {
        let place = Place {
            next: Slot::none(),
            previous: Slot::none(),
            deep: Slot::none(),
            birth: 0,
        };
        Cover {
            taken: Store::filled(alloc, bare(), nodes),
            places: Store::filled(alloc, place, nodes),
            rows: Store::with_room(alloc, room),
            births: 0,
        }
    }

    /// Whether a list found no memory.
    pub fn is_short(&self) -> bool {
        self.taken.is_short() | self.places.is_short() | self.rows.is_short()
    }

    /// What the node's region knows of it, if one holds it.
    #[inline(always)]
    pub fn held(&self, node: u32) -> Option<Held> {
        let taken = self.taken.items.get(node as usize)?;
        let region = taken.region.number()?;
        Some(Held {
            region,
            terminal: taken.terminal,
            radius: taken.radius,
        })
    }

    /// The node that the same region took before this one: the one before it in the row, unless that belongs to a
    /// part, or to the region whose row comes before.
    pub fn before(&self, node: u32) -> Slot {
        let Some(place) = self.places.items.get(node as usize) else {
            return Slot::none();
        };
        match place.previous.number() {
            Some(previous) if self.region(previous) == self.region(node) => place.previous,
            _ => Slot::none(),
        }
    }

    // The region that took a node.
    fn region(&self, node: u32) -> Slot {
        match self.taken.items.get(node as usize) {
            Some(taken) => taken.region,
            None => Slot::none(),
        }
    }

    /// A new region without nodes, also under a name that is used again.
    pub fn open(&mut self, name: u32) {
        let birth = Slot::of(self.births);
        self.births = self.births.wrapping_add(1);
        self.rows.put(name, no_row(birth));
    }

    /// A region goes: it has no nodes, and no node is deep in it.
    pub fn close(&mut self, name: u32) {
        set_entry(&mut self.rows.items, name, no_row(Slot::none()));
    }

    /// Whether there is a region of this name.
    pub fn is_open(&self, name: u32) -> bool {
        !self.row(name).birth.is_none()
    }

    // The row of a region.
    fn row(&self, name: u32) -> Row {
        entry(&self.rows.items, name).unwrap_or(no_row(Slot::none()))
    }

    /// The first node in the row of a region.
    pub fn first(&self, name: u32) -> Slot {
        self.row(name).head
    }

    /// The last node in the row of a region.
    pub fn end(&self, name: u32) -> Slot {
        self.row(name).tail
    }

    /// The node that a region took last.
    pub fn last(&self, name: u32) -> Option<u32> {
        self.row(name).last.number()
    }

    /// The radius at which a region leaves the node that it took last, or has none.
    pub fn floor(&self, name: u32) -> i64 {
        match self.last(name) {
            Some(last) => self.radius_at(last),
            None => 0,
        }
    }

    /// The radius at which a node was taken.
    pub fn radius_at(&self, node: u32) -> i64 {
        match self.taken.items.get(node as usize) {
            Some(taken) => taken.radius,
            None => 0,
        }
    }

    /// A region takes a node: it is held so from now on.
    pub fn take(&mut self, node: u32, held: &Held) {
        let row = self.row(held.region);
        let taken = Taken {
            region: Slot::of(held.region),
            terminal: held.terminal,
            radius: held.radius,
        };
        set_entry(&mut self.taken.items, node, taken);
        let place = Place {
            next: Slot::none(),
            previous: row.tail,
            deep: Slot::none(),
            birth: 0,
        };
        set_entry(&mut self.places.items, node, place);
        let head = self.link(row, Slot::of(node));
        let row = Row {
            head,
            tail: Slot::of(node),
            last: Slot::of(node),
            birth: row.birth,
        };
        set_entry(&mut self.rows.items, held.region, row);
    }

    // Links the end of a row to a node, and gives the first node of the longer row.
    fn link(&mut self, row: Row, node: Slot) -> Slot {
        match row.tail.number() {
            Some(tail) => {
                self.set_next(tail, node);
                row.head
            }
            None => node,
        }
    }

    fn set_next(&mut self, node: u32, next: Slot) {
        if (node as usize) < self.places.items.len() {
            self.places.items[node as usize].next = next;
        }
    }

    fn set_previous(&mut self, node: u32, previous: Slot) {
        if (node as usize) < self.places.items.len() {
            self.places.items[node as usize].previous = previous;
        }
    }

    /// A region leaves the node that it took last.
    pub fn leave(&mut self, name: u32, node: u32) {
        let row = self.row(name);
        let before = self.before(node);
        let Some(place) = entry(&self.places.items, node) else {
            return;
        };
        let head = match place.previous.number() {
            Some(previous) => {
                self.set_next(previous, place.next);
                row.head
            }
            None => place.next,
        };
        set_entry(&mut self.taken.items, node, bare());
        let shorter = Row {
            head,
            tail: place.previous,
            last: before,
            birth: row.birth,
        };
        set_entry(&mut self.rows.items, name, shorter);
    }

    /// The row of a part comes behind that of the whole; the part keeps the ends of its own.
    pub fn append(&mut self, whole: u32, part: u32) {
        let row = self.row(whole);
        let added = self.row(part);
        if let Some(first) = added.head.number() {
            self.set_previous(first, row.tail);
            let head = self.link(row, added.head);
            let longer = Row {
                head,
                tail: added.tail,
                last: row.last,
                birth: row.birth,
            };
            set_entry(&mut self.rows.items, whole, longer);
        }
    }

    /// The row of a part is a row of its own again.
    pub fn cut(&mut self, part: u32) {
        let row = self.row(part);
        if let (Some(head), Some(tail)) = (row.head.number(), row.tail.number()) {
            self.set_previous(head, Slot::none());
            self.set_next(tail, Slot::none());
        }
    }

    // Whether the region is there in which the node at a place is deep.
    fn is_deep(&self, place: &Place) -> bool {
        let Some(region) = place.deep.number() else {
            return false;
        };
        match self.rows.items.get(region as usize) {
            Some(row) => row.birth.is(place.birth),
            None => false,
        }
    }

    /// The first node that is not deep in a stretch of a row, from a node on to the end of the stretch.
    pub fn shallow(&self, first: Slot, end: Slot) -> Shallow {
        let mut here = first;
        for passed in 0..self.places.items.len() {
            let Some(node) = here.number() else {
                return Shallow { node: here, passed };
            };
            let Some(place) = self.places.items.get(node as usize) else {
                break;
            };
            if !self.is_deep(place) {
                let passed = passed.wrapping_add(1);
                return Shallow { node: here, passed };
            }
            here = if end == here {
                Slot::none()
            } else {
                place.next
            };
        }
        Shallow {
            node: Slot::none(),
            passed: self.places.items.len(),
        }
    }

    /// The node behind another in a stretch of a row.
    pub fn behind(&self, node: u32, end: Slot) -> Slot {
        match self.places.items.get(node as usize) {
            Some(place) if !end.is(node) => place.next,
            _ => Slot::none(),
        }
    }

    /// Notes that all neighbours of a node lie in a region.
    pub fn set_deep(&mut self, node: u32, region: u32) {
        let birth = self.row(region).birth.number();
        if (node as usize) < self.places.items.len() {
            self.places.items[node as usize].deep = match birth {
                Some(_) => Slot::of(region),
                None => Slot::none(),
            };
            self.places.items[node as usize].birth = birth.unwrap_or(0);
        }
    }

    /// The number of a region among all that were born, if there is one of this name.
    pub fn birth(&self, name: u32) -> Slot {
        self.row(name).birth
    }

    /// A region leaves all nodes that it took itself; `close` has to follow.
    pub fn uncover(&mut self, name: u32) {
        let mut last = self.row(name).last;
        for _ in 0..self.taken.items.len() {
            let Some(node) = last.number() else {
                break;
            };
            last = self.before(node);
            set_entry(&mut self.taken.items, node, bare());
        }
    }

    /// No node is covered, and there is no region. Cost: linear in the regions and in the nodes that they have.
    pub fn clear(&mut self) {
        if self.rows.items.len() < self.taken.items.len() / MANY {
            for name in 0..number(self.rows.items.len()) {
                self.uncover(name);
            }
        } else {
            self.taken.items.fill(bare());
        }
        self.rows.items.clear();
        self.births = 0;
    }

    /// Makes all as it is in another cover.
    pub fn restore(&mut self, base: &Cover) {
        self.taken.copy(&base.taken.items);
        self.places.copy(&base.places.items);
        self.rows.copy(&base.rows.items);
        self.births = base.births;
    }

    /// Notes that a neighbour of a node was left.
    pub fn unset_deep(&mut self, node: u32) {
        if (node as usize) < self.places.items.len() {
            self.places.items[node as usize].deep = Slot::none();
        }
    }
}
