// What `sg_repairs` may do to an engine at rest: read its regions, put finished ones back, take some of them
// apart, and let what is left over grow on. Nobody else calls this.
use super::{Engine, Exit, Lists};
use crate::NoMemory;
use sg_forest::{Contact, Forest};
use sg_growth::{Adjacency, Cover};
use sg_slots::number;
use sg_work::Work;
use std::alloc::Global;

/// An engine without its arcs and terminals.
#[derive(Drop)]
pub struct Parts {
    // No hub is open.
    pub(super) lists: Lists,
    pub(super) forest: Forest,
}

impl Parts {
    /// What of an engine outlives its arcs.
    pub fn of<'a>(engine: Engine<'a>) -> Parts {
        engine.into_parts()
    }

    /// An engine of these parts, over the same arcs and terminals, in which no hub is open. It may do no work
    /// before it has roots.
    pub fn engine<'a>(
        self,
        alloc: Global,
        arcs: &'a Adjacency,
        terminals: &'a [u32],
    ) -> Engine<'a> {
        let Parts { lists, forest } = self;
        lists.engine(alloc, arcs, terminals, forest, Work::new(0))
    }
}

impl<'a> Engine<'a> {
    /// The allocator of all lists.
    pub fn alloc(&self) -> Global {
        self.alloc
    }

    /// The arcs between the nodes.
    pub fn arcs(&self) -> &'a Adjacency {
        self.arcs
    }

    /// The nodes that are terminals.
    pub fn terminals(&self) -> &'a [u32] {
        self.terminals
    }

    /// Which region took each node, and at which radius.
    pub fn cover(&self) -> &Cover {
        &self.cover
    }

    /// The regions, and what they are parts of.
    pub fn forest(&self) -> &Forest {
        &self.forest
    }

    /// The time at which it rests.
    pub fn now(&self) -> i64 {
        self.clock.now()
    }

    /// Puts finished regions back, at time 0.
    pub fn put_back(&mut self, cover: &Cover, forest: &Forest) {
        self.cover.restore(cover);
        self.forest.restore(forest);
        self.hubs.forget();
        self.clock.restart();
        self.unpaired = 0;
    }

    /// Keeps the name of the next terminal, which is none for now.
    pub fn reserve(&mut self) {
        let name = self.forest.reserve();
        self.cover.open(name);
        self.cover.close(name);
    }

    /// Forgets which regions were met.
    pub fn meet_none(&mut self) {
        self.forest.meet_none();
    }

    /// Meets a region; whether it had been met before.
    pub fn meet_again(&mut self, name: u32) -> bool {
        self.forest.meet_again(name)
    }

    /// Takes all its nodes from a region, which is closed.
    pub fn uncover(&mut self, name: u32) {
        self.cover.uncover(name);
        self.cut_rows(name);
        self.cover.close(name);
    }

    /// The parts of an uncovered blossom are tops; its name is free.
    pub fn open_blossom(&mut self, name: u32) {
        let now = self.clock.now();
        self.forest.expand(name, now, &mut self.work);
        self.forest.free_name(name)
    }

    /// Pairs the two tops of a contact.
    pub fn pair_by(&mut self, contact: Contact) {
        self.forest.pair_by(contact);
    }

    /// A terminal at a node that nothing covers, ungrown.
    pub fn plant_as(&mut self, terminal: u32, node: u32) {
        self.forest.plant_as(terminal, self.clock.now());
        self.cover.open(terminal);
        self.take(terminal, node, terminal);
    }

    /// Each of these tops is the root of a tree with so much work, and all of them grow until no tree is left.
    /// False if that did not come about within the work.
    pub fn grow_from(&mut self, roots: &[Exit], work: Work) -> Result<bool, NoMemory> {
        self.unpaired = number(roots.len());
        self.work = work;
        self.make_roots(roots);
        let is_done = self.go_on();
        self.unless_short(is_done)
    }

    // Each of these tops becomes the root of a tree.
    pub(super) fn make_roots(&mut self, roots: &[Exit]) {
        let now = self.clock.now();
        for root in roots {
            self.forest.make_root(root.region, root.terminal, now);
        }
        self.wake_roots(roots)
    }

    // Enters the first events of these roots.
    fn wake_roots(&mut self, roots: &[Exit]) {
        for root in roots {
            self.wake_region(root.region, root.region);
        }
    }
}
