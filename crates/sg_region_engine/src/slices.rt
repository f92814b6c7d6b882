// Trees that grow batch by batch, in slices of time.
//
// If all trees of a large graph grow at once, the next event may be anywhere, and its data are in no cache. So
// there the trees grow in batches, in the order of their terminals' numbers. A batch grows until its trees reach
// a given age, while all other trees rest: a tree at rest is dissolved except for its root, and a tree that
// reaches that root is paired with it. Then the next batch grows to the same age. After a slice all trees have the
// same age, so the result is close to that of trees that all grow at once. Each slice is half as long again as
// the one before, since fewer and fewer trees are left. The last batch grows to the end. If the terminals are sparse,
// the last trees are large and far apart; few of them grow at one time, in shorter slices, so that they fit the cache.
//
// This is exact: before and after each batch the state is one of the method, in which some trees do not grow.
use super::Engine;
use sg_growth::{Adjacency, NEVER, first_dart};
use sg_slots::{Store, entry, number, set_entry};
use sg_work::batch_of;
use std::alloc::Global;
use std::mem::swap;

// Terminals are sparse if there are so many nodes for each.
const SPARSE: usize = 4;

// As many trees grow at one time if they are sparse and fewer than `LATE` are left.
const FEW: usize = 16;

const LATE: usize = 12_000;

// More slices are not needed, since each age is at least a sixth more than the one before.
const SLICES: usize = 128;

/// The trees that wait for their batch, by the names of their terminals, and for each tree whether it has a mate.
#[derive(Drop)]
pub struct Batches {
    waiting: Store<u32>,
    has_mate: Store<bool>,
}

impl Batches {
    /// No trees.
    pub fn new(alloc: Global) -> Batches {
        Batches {
            waiting: Store::new(alloc),
            has_mate: Store::new(alloc),
        }
    }

    // Whether a list found no memory.
    pub(super) fn is_short(&self) -> bool {
        self.waiting.is_short() | self.has_mate.is_short()
    }

    // Adds a tree without a mate.
    fn add(&mut self, name: u32) {
        self.waiting.push(name);
        if name as usize >= self.has_mate.items.len() {
            self.has_mate.resize(name as usize + 1, true);
        }
        set_entry(&mut self.has_mate.items, name, false);
    }

    // A tree has a mate.
    pub(super) fn end(&mut self, tree: Option<u32>) {
        if let Some(tree) = tree {
            set_entry(&mut self.has_mate.items, tree, true);
        }
    }

    // Whether a tree has no mate yet.
    pub(super) fn is_left(&self, tree: u32) -> bool {
        entry(&self.has_mate.items, tree) == Some(false)
    }
}

// How many of the trees that are left grow at one time, if so many did so at first.
fn count_at(first: usize, left: usize, is_sparse: bool) -> usize {
    if is_sparse && left < LATE {
        FEW.min(first)
    } else {
        first
    }
}

// How old the trees are at the end of the first slice: half of how long edges are on average.
fn first_age(arcs: &Adjacency) -> i64 {
    let mut sum = 0i64;
    let edges = number(arcs.darts() / 2);
    for edge in 0..edges {
        sum = sum.wrapping_add(arcs.arc(first_dart(edge)).length);
    }
    let mean = if edges > 0 { sum / i64::from(edges) } else { 0 };
    (mean / 2).max(1)
}

// How old they are at the end of the next slice, where so many grow at one time: with few, slices are shorter.
fn next_age(age: i64, count: usize) -> i64 {
    let part = if count > FEW { 2i64 } else { 6 };
    age.saturating_add((age / part).max(1))
}

impl<'a> Engine<'a> {
    // Grows all trees batch by batch. False if some tree is left when the work allowed is done.
    pub(super) fn run_slices(&mut self) -> bool {
        self.plant_all();
        self.start_ahead();
        let mut from = 0i64;
        let mut until = first_age(self.arcs);
        let (terminals, nodes) = (self.terminals.len(), self.arcs.nodes());
        let first = batch_of(terminals, nodes);
        let is_sparse = terminals.saturating_mul(SPARSE) <= nodes;
        for _ in 0..SLICES {
            let count = count_at(first, self.batches.waiting.items.len(), is_sparse);
            if self.batches.waiting.items.len() <= count || self.work.left() == 0 {
                break;
            }
            self.run_slice(from, until, count);
            from = until;
            until = next_age(until, count);
        }
        let names = self.take_waiting();
        self.run_batch(&names, from, NEVER)
    }

    // Each terminal takes its node and is a tree that waits, unless the node is an open hub.
    fn plant_all(&mut self) {
        for node in self.terminals {
            if self.is_open_hub(*node) {
                self.plant_at_hub(*node);
            } else {
                self.plant_to_wait(*node);
            }
        }
    }

    // The next terminal takes its node, and is a tree that waits.
    fn plant_to_wait(&mut self, node: u32) {
        let name = self.forest.reserve();
        self.cover.open(name);
        self.take(name, node, name);
        self.unpaired = self.unpaired.saturating_add(1);
        self.wait(name)
    }

    // A tree whose regions are all free waits, its root at rest.
    fn wait(&mut self, tree: u32) {
        self.forest.stand(self.forest.top(tree), tree);
        self.rests = self.rests.saturating_add(1);
        self.batches.add(tree)
    }

    // The trees that wait, which are on no list any more.
    fn take_waiting(&mut self) -> Vec<u32> {
        let mut names = Vec::new(self.alloc);
        swap(&mut names, &mut self.batches.waiting.items);
        names
    }

    // Grows the trees that wait from one age to another, so many at one time.
    fn run_slice(&mut self, from: i64, until: i64, count: usize) {
        let names = self.take_waiting();
        for batch in names.chunks(count.max(1)) {
            self.run_batch(batch, from, until);
            self.halt_batch(batch, until);
        }
    }

    // Grows those of these trees that are left from one age to another. Whether none of them is left then.
    fn run_batch(&mut self, names: &[u32], from: i64, until: i64) -> bool {
        self.clock.set(from, until);
        for name in names {
            if self.batches.is_left(*name) {
                self.rests = self.rests.saturating_sub(1);
                self.forest.make_root(self.forest.top(*name), *name, from);
            }
        }
        for name in names {
            if self.batches.is_left(*name) {
                let root = self.forest.top(*name);
                self.wake_region(root, root);
            }
        }
        self.go_on_until(until)
    }

    // Stops those of these trees that are left: their regions are free, and they wait, their roots at rest.
    fn halt_batch(&mut self, names: &[u32], now: i64) {
        self.clock.set(now, now);
        for name in names {
            if self.batches.is_left(*name) {
                self.free_members(*name);
                self.inner.items.clear();
                self.wait(*name);
            }
        }
    }
}
