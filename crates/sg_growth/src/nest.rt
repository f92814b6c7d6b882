// The finished regions: which region took each node and when, how they lie in one another, and the
// pairs of terminals.
//
// Regions have names from 0 on. Name `t` below the number of terminals is the region of terminal `t`,
// at its node `seed(t)`; all others are blossoms, and a name of none of them has no parent, no nodes,
// no parts and radius 0, and does not stand in `order`. Each call takes the same time for any nest.
use sg_slots::{Slot, Store, entry, number, set_entry};
use std::alloc::Global;
use std::mem::swap;

/// Two terminals that are mates, by the names of their regions (`Nest::seed` has their nodes), and the
/// least region that has both; none where they lie in two tops.
#[derive(Clone, Copy)]
pub struct Pair {
    pub one: u32,
    pub other: u32,
    pub base: Option<u32>,
}

/// A node: the lowest region that has it, the node that this region took before, and its radius then.
#[derive(Clone, Copy)]
pub struct Taken {
    pub region: Slot,
    pub before: Slot,
    pub radius: i64,
}

// A region: what it is a part of, its terminal's node, the node that it took last, where its parts
// are in the list of all parts, the largest of them, and its radius.
#[derive(Clone, Copy)]
struct Finished {
    parent: Slot,
    seed: Slot,
    last: Slot,
    heaviest: Slot,
    first: u32,
    behind: u32,
    radius: i64,
}

/// The finished regions.
#[derive(Drop)]
pub struct Nest {
    taken: Store<Taken>,
    regions: Store<Finished>,
    // The parts of all regions, region by region; the regions behind their parts.
    parts: Store<u32>,
    order: Store<u32>,
}

impl Nest {
    /// The number of nodes.
    pub fn nodes(&self) -> u32 {
        number(self.taken.items.len())
    }

    /// How each node was taken.
    pub fn taken(&self) -> &[Taken] {
        &self.taken.items
    }

    /// The radius of that region when it took the node.
    pub fn taken_at(&self, node: u32) -> i64 {
        match self.taken.items.get(node as usize) {
            Some(taken) => taken.radius,
            None => 0,
        }
    }

    /// The node that the same region took before this one.
    pub fn before(&self, node: u32) -> Option<u32> {
        entry(&self.taken.items, node)?.before.number()
    }

    /// The number of names.
    pub fn regions(&self) -> u32 {
        number(self.regions.items.len())
    }

    /// The node that the region took last, its parts aside.
    pub fn last(&self, region: u32) -> Option<u32> {
        entry(&self.regions.items, region)?.last.number()
    }

    /// The region that it is a part of.
    pub fn parent(&self, region: u32) -> Option<u32> {
        entry(&self.regions.items, region)?.parent.number()
    }

    /// How far the region has grown, its parts aside.
    pub fn radius(&self, region: u32) -> i64 {
        match self.regions.items.get(region as usize) {
            Some(finished) => finished.radius,
            None => 0,
        }
    }

    /// The node of the terminal, where the region is that of one.
    pub fn seed(&self, region: u32) -> Option<u32> {
        entry(&self.regions.items, region)?.seed.number()
    }

    /// The regions that a blossom was made of, in the order of its cycle.
    pub fn parts(&self, region: u32) -> &[u32] {
        parts_of(&self.regions.items, &self.parts.items, region)
    }

    /// The part with the most nodes, a node for each region in it counted beside; none before `weigh`.
    pub fn heaviest(&self, region: u32) -> Option<u32> {
        entry(&self.regions.items, region)?.heaviest.number()
    }

    /// All regions that there are, once each, parts before what they are parts of.
    pub fn order(&self) -> &[u32] {
        &self.order.items
    }

    /// Nodes that no region has, and names of no region.
    pub fn new(alloc: Global, nodes: usize, names: usize) -> Nest {
        let taken = Taken {
            region: Slot::none(),
            before: Slot::none(),
            radius: 0,
        };
        Nest {
            taken: Store::filled(alloc, taken, nodes),
            regions: Store::filled(alloc, no_region(), names),
            parts: Store::with_room(alloc, names),
            order: Store::with_room(alloc, names),
        }
    }

    /// Whether a list found no memory.
    pub fn is_short(&self) -> bool {
        let are_regions = self.regions.is_short() | self.parts.is_short() | self.order.is_short();
        are_regions | self.taken.is_short()
    }

    /// Adds a node that a region took itself.
    pub fn add_node(&mut self, node: u32, region: u32, radius: i64, before: Slot) {
        let taken = Taken {
            region: Slot::of(region),
            before,
            radius,
        };
        set_entry(&mut self.taken.items, node, taken);
    }

    /// Adds a region, as yet without parts.
    pub fn add_region(&mut self, name: u32, parent: Slot, seed: Slot, last: Slot, radius: i64) {
        let first = number(self.parts.items.len());
        let region = Finished {
            parent,
            seed,
            last,
            radius,
            first,
            behind: first,
            ..no_region()
        };
        set_entry(&mut self.regions.items, name, region);
        if parent.is_none() {
            self.order.push(name);
        }
    }

    /// Adds a part to the region that was added last.
    pub fn add_part(&mut self, name: u32, part: u32) {
        self.parts.push(part);
        if (name as usize) < self.regions.items.len() {
            self.regions.items[name as usize].behind = number(self.parts.items.len());
        }
    }

    /// Puts the regions into their order, once all are added: what lies in one top is near.
    pub fn close(&mut self, alloc: Global) {
        let mut open = Store::with_room(alloc, self.order.items.len());
        swap(&mut open, &mut self.order);
        for _ in 0..self.regions.items.len() {
            let Some(name) = open.items.pop() else {
                break;
            };
            self.order.push(name);
            open.extend(parts_of(&self.regions.items, &self.parts.items, name));
        }
        self.order.items.reverse();
        self.order.note(&open);
    }

    /// Finds the largest part of each region, once they are in their order.
    pub fn weigh(&mut self, alloc: Global) {
        let mut sizes = Store::filled(alloc, 1u32, self.regions.items.len());
        count_nodes(&self.taken.items, &mut sizes.items);
        self.weigh_parts(&mut sizes.items);
        self.order.note(&sizes);
    }

    // Finds the largest part of each region, by the sizes without those of parts.
    fn weigh_parts(&mut self, sizes: &mut [u32]) {
        for name in self.order.items.as_slice() {
            let parts = parts_of(&self.regions.items, &self.parts.items, *name);
            let heaviest = heaviest_of(parts, sizes);
            let size = size_of_all(parts, sizes);
            add_at(sizes, *name, size);
            if (*name as usize) < self.regions.items.len() {
                self.regions.items[*name as usize].heaviest = heaviest;
            }
        }
    }
}

// A name of no region.
fn no_region() -> Finished {
    Finished {
        parent: Slot::none(),
        seed: Slot::none(),
        last: Slot::none(),
        heaviest: Slot::none(),
        first: 0,
        behind: 0,
        radius: 0,
    }
}

// The parts of a region, in the list of all parts.
fn parts_of<'a>(regions: &[Finished], parts: &'a [u32], name: u32) -> &'a [u32] {
    let Some(finished) = regions.get(name as usize) else {
        return &[];
    };
    let first = finished.first as usize;
    let behind = finished.behind as usize;
    if first > behind || behind > parts.len() {
        return &[];
    }
    &parts[first..behind]
}

// The size at a place.
fn size_at(sizes: &[u32], place: u32) -> u32 {
    entry(sizes, place).unwrap_or(0)
}

// Adds to the size at a place.
fn add_at(sizes: &mut [u32], place: u32, more: u32) {
    let size = size_at(sizes, place).wrapping_add(more);
    set_entry(sizes, place, size);
}

// Adds one to the size of each node's region.
fn count_nodes(taken: &[Taken], sizes: &mut [u32]) {
    for node in taken {
        if let Some(region) = node.region.number() {
            add_at(sizes, region, 1);
        }
    }
}

// The part of the greatest size.
fn heaviest_of(parts: &[u32], sizes: &[u32]) -> Slot {
    let mut heaviest = Slot::none();
    let mut most = 0u32;
    for part in parts {
        let size = size_at(sizes, *part);
        if size > most {
            most = size;
            heaviest = Slot::of(*part);
        }
    }
    heaviest
}

// The sizes of all parts together.
fn size_of_all(parts: &[u32], sizes: &[u32]) -> u32 {
    let mut sum = 0u32;
    for part in parts {
        sum = sum.wrapping_add(size_at(sizes, *part));
    }
    sum
}
