// Reading the finished regions off: the nest, and the mates of all terminals.
use super::Engine;
use crate::NoMemory;
use sg_forest::End;
use sg_growth::{Clock, Nest, Pair};
use sg_slots::{Slot, Store, number};
use std::alloc::AllocError;

/// A region, and its terminal that is paired with one outside.
#[derive(Clone, Copy)]
pub struct Exit {
    pub region: u32,
    pub terminal: u32,
}

impl<'a> Engine<'a> {
    /// Gives back the memory that is not needed once all regions are free and their pairs are known: only the nest
    /// is read off then.
    pub fn end(&mut self) {
        self.clock = Clock::new(self.alloc, 0, 0);
        self.forest.end(self.alloc)
    }

    /// The finished regions. The only error is running out of memory.
    pub fn nest(&self) -> Result<Nest, NoMemory> {
        let mut nest = Nest::new(self.alloc, self.arcs.nodes(), self.forest.len());
        self.note_all(&mut nest);
        if nest.is_short() || self.is_short() {
            return Err(AllocError);
        }
        Ok(nest)
    }

    // Notes all regions.
    fn note_all(&self, nest: &mut Nest) {
        for name in 0..number(self.forest.len()) {
            if self.cover.is_open(name) {
                self.note_region(name, nest);
            }
        }
        nest.close(self.alloc)
    }

    // Notes a region, its parts and the nodes that it took itself.
    fn note_region(&self, name: u32, nest: &mut Nest) {
        let cycles = self.forest.cycles();
        let seed = match self.seed(name) {
            Some(node) => Slot::of(node),
            None => Slot::none(),
        };
        let last = match self.cover.last(name) {
            Some(node) => Slot::of(node),
            None => Slot::none(),
        };
        let radius = self.forest.radius(name, self.clock.now());
        nest.add_region(name, cycles.parent(name), seed, last, radius);
        let mut part = cycles.first(name);
        for _ in 0..cycles.size(name) {
            nest.add_part(name, part);
            part = cycles.next(part);
        }
        self.note_nodes(name, nest);
    }

    // Notes the nodes that a region took itself.
    fn note_nodes(&self, name: u32, nest: &mut Nest) {
        let mut last = self.cover.last(name);
        for _ in 0..self.arcs.nodes() {
            let Some(node) = last else {
                break;
            };
            let before = self.cover.before(node);
            nest.add_node(node, name, self.cover.radius_at(node), before);
            last = before.number();
        }
    }

    /// The pairs of all terminals: those of the tops, and down in the blossoms those along their cycles.
    pub fn pairs(&self) -> Result<Vec<Pair>, NoMemory> {
        let mut pairs = Store::new(self.alloc);
        let mut open = Store::new(self.alloc);
        for name in 0..number(self.forest.len()) {
            if self.cover.is_open(name) && self.forest.cycles().parent(name).is_none() {
                self.pair_top(name, &mut pairs, &mut open);
                self.pair_within(&mut pairs, &mut open);
            }
        }
        pairs.note(&open);
        pairs.finish()
    }

    /// Lists the pair of a top, once for both, and the top with its terminal that is paired.
    pub fn pair_top(&self, name: u32, pairs: &mut Store<Pair>, open: &mut Store<Exit>) {
        let Some(pair) = self.forest.pair(name) else {
            return;
        };
        let one = pair.own.terminal;
        let other = pair.other.terminal;
        if one < other {
            pairs.push(Pair {
                one,
                other,
                base: None,
            });
        }
        open.push(Exit {
            region: name,
            terminal: one,
        });
    }

    /// Lists the pairs in the regions of a list, which is empty then.
    pub fn pair_within(&self, pairs: &mut Store<Pair>, open: &mut Store<Exit>) {
        for _ in 0..self.forest.len() {
            let Some(exit) = open.items.pop() else {
                break;
            };
            self.pair_cycle(exit, pairs, open);
        }
    }

    // The region in the cycle of a blossom that holds a terminal.
    fn part_with(&self, blossom: u32, terminal: u32) -> u32 {
        let mut here = terminal;
        for _ in 0..self.forest.len() {
            match self.forest.cycles().parent(here).number() {
                Some(parent) if parent != blossom => here = parent,
                _ => break,
            }
        }
        here
    }

    // Pairs the regions of a cycle along it, but for the one whose terminal is paired outside.
    fn pair_cycle(&self, exit: Exit, pairs: &mut Store<Pair>, open: &mut Store<Exit>) {
        let cycles = self.forest.cycles();
        let size = cycles.size(exit.region);
        if size == 0 {
            return;
        }
        let first = self.part_with(exit.region, exit.terminal);
        open.push(Exit {
            region: first,
            terminal: exit.terminal,
        });
        let mut part = cycles.next(first);
        for _ in 0..size / 2 {
            let contact = cycles.link(part).contact;
            let other = cycles.next(part);
            pairs.push(pair_in(exit.region, contact.own, contact.other));
            open.push(Exit {
                region: part,
                terminal: contact.own.terminal,
            });
            open.push(Exit {
                region: other,
                terminal: contact.other.terminal,
            });
            part = cycles.next(other);
        }
    }
}

// Two mates in a blossom.
fn pair_in(base: u32, own: End, other: End) -> Pair {
    Pair {
        one: own.terminal,
        other: other.terminal,
        base: Some(base),
    }
}
