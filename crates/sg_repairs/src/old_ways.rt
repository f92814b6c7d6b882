// The ways between the mates of finished regions, before any repair.
use super::changes::Changes;
use super::order::length_of;
use super::repairs::Query;
use sg_graph::EdgeList;
use sg_growth::Pair;
use sg_region_engine::Engine;
use sg_slots::{Slot, Store, count_at, entry, number, set_entry, sum_up};
use std::alloc::Global;

// A stretch of a list.
#[derive(Clone, Copy)]
struct Stretch {
    first: u32,
    behind: u32,
}

const EMPTY: Stretch = Stretch {
    first: 0,
    behind: 0,
};

// Of each terminal its mate. The way between two mates is kept for the one of less name.
pub struct OldWays {
    mates: Store<Slot>,
    // Where the edges of the way of each terminal are in the list of all.
    stretches: Store<Stretch>,
    edges: Store<u32>,
    // The terminals whose ways go over edge `k` stand from place `starts[k]` to `starts[k + 1]`.
    starts: Store<u32>,
    over: Store<u32>,
    // The edges that lie on an odd number of the ways, also as marks, and how long they are together.
    join: EdgeList,
    is_in_join: Store<bool>,
    length: i64,
}

// Explicit for the same reason as that of `Repairs`.
impl Drop for OldWays {
    fn drop(self) {
        let OldWays {
            mates: _mates,
            stretches: _stretches,
            edges: _edges,
            starts: _starts,
            over: _over,
            join: _join,
            is_in_join: _is_in_join,
            length: _,
        } = self;
    }
}

// The items of a list between two places.
fn between(list: &[u32], first: u32, behind: u32) -> &[u32] {
    let first = first as usize;
    let behind = behind as usize;
    if first > behind || behind > list.len() {
        return &[];
    }
    &list[first..behind]
}

impl OldWays {
    // The ways between all mates, over so many edges; nothing where one is not found. If a list finds no memory,
    // `changes` is short.
    pub fn new(
        alloc: Global,
        engine: &Engine,
        changes: &mut Changes,
        pairs: &[Pair],
        edges: usize,
    ) -> Option<OldWays> {
        let mut ways = OldWays::empty(alloc, engine.terminals().len(), edges);
        if !ways.add_all(engine, changes, pairs) {
            return None;
        }
        ways.turn_round();
        ways.join_all(engine, changes);
        changes.note(ways.is_short());
        Some(ways)
    }

    // No ways, of so many terminals over so many edges.
    fn empty(alloc: Global, terminals: usize, edges: usize) -> OldWays {
        OldWays {
            mates: Store::filled(alloc, Slot::none(), terminals),
            stretches: Store::filled(alloc, EMPTY, terminals),
            edges: Store::new(alloc),
            starts: Store::filled(alloc, 0, edges.saturating_add(2)),
            over: Store::new(alloc),
            join: EdgeList::new(alloc),
            is_in_join: Store::filled(alloc, false, edges),
            length: 0,
        }
    }

    // Whether a list found no memory.
    fn is_short(&self) -> bool {
        let are_ways = self.mates.is_short() | self.stretches.is_short() | self.edges.is_short();
        let are_over = self.starts.is_short() | self.over.is_short();
        are_ways | are_over | self.is_in_join.is_short()
    }

    // Adds the ways of all pairs, and says whether each was found.
    fn add_all(&mut self, engine: &Engine, changes: &mut Changes, pairs: &[Pair]) -> bool {
        for pair in pairs {
            let Some(way) = changes.way(engine, *pair) else {
                return false;
            };
            self.add(*pair, way.as_slice());
        }
        true
    }

    // Adds the way between two mates.
    fn add(&mut self, pair: Pair, way: &[u32]) {
        let first = number(self.edges.items.len());
        self.edges.extend(way);
        let stretch = Stretch {
            first,
            behind: number(self.edges.items.len()),
        };
        set_entry(&mut self.mates.items, pair.one, Slot::of(pair.other));
        set_entry(&mut self.mates.items, pair.other, Slot::of(pair.one));
        set_entry(&mut self.stretches.items, pair.one.min(pair.other), stretch);
    }

    // Lists for each edge the ways that go over it.
    fn turn_round(&mut self) {
        let starts = &mut self.starts.items;
        for edge in &self.edges.items {
            count_at(starts, edge.wrapping_add(2));
        }
        sum_up(starts);
        self.over.resize(self.edges.items.len(), 0);
        for (name, stretch) in self.stretches.items.iter().enumerate() {
            for edge in between(&self.edges.items, stretch.first, stretch.behind) {
                let place = count_at(starts, edge.wrapping_add(1));
                set_entry(&mut self.over.items, place, number(name));
            }
        }
    }

    // The mate of a terminal.
    fn mate(&self, terminal: u32) -> Option<u32> {
        let mate = entry(&self.mates.items, terminal).unwrap_or(Slot::none());
        mate.number()
    }

    // The terminal of a pair that the way is kept for.
    pub fn first(&self, terminal: u32) -> Option<u32> {
        match self.mate(terminal) {
            Some(mate) => Some(terminal.min(mate)),
            None => None,
        }
    }

    // The edges of the way that is kept for a terminal.
    pub fn way(&self, first: u32) -> &[u32] {
        let stretch = entry(&self.stretches.items, first).unwrap_or(EMPTY);
        between(&self.edges.items, stretch.first, stretch.behind)
    }

    // The pair of a terminal.
    pub fn pair(&self, terminal: u32) -> Option<Pair> {
        match self.mate(terminal) {
            Some(mate) => Some(Pair {
                one: terminal,
                other: mate,
                base: None,
            }),
            None => None,
        }
    }

    // Whether two terminals were mates.
    pub fn are_mates(&self, pair: Pair) -> bool {
        self.mate(pair.one) == Some(pair.other)
    }

    // The terminals whose ways go over an edge.
    pub fn over(&self, edge: u32) -> &[u32] {
        let starts = &self.starts.items;
        let first = entry(starts, edge).unwrap_or(0);
        let behind = entry(starts, edge.wrapping_add(1)).unwrap_or(0);
        between(&self.over.items, first, behind)
    }

    // Joins all ways.
    fn join_all(&mut self, engine: &Engine, changes: &mut Changes) {
        self.join = changes.odd(&self.edges.items);
        for edge in self.join.as_slice() {
            set_entry(&mut self.is_in_join.items, *edge, true);
            self.length = self.length.wrapping_add(length_of(engine, *edge));
        }
    }

    // The edges that lie on an odd number of the ways, rising.
    pub fn join(&self) -> &EdgeList {
        &self.join
    }

    // Whether an edge is in the T-join.
    pub fn has(&self, edge: u32) -> bool {
        entry(&self.is_in_join.items, edge).unwrap_or(false)
    }

    // The length of the T-join where a walk changes it, without the edge that is taken out.
    pub fn turned_length(&self, engine: &Engine, walk: &[u32], query: Query) -> i64 {
        let mut sum = self.length;
        for edge in walk {
            let length = length_of(engine, *edge);
            if *edge == query.edge {
                continue;
            }
            sum = if self.has(*edge) {
                sum.wrapping_sub(length)
            } else {
                sum.wrapping_add(length)
            };
        }
        if query.is_in_join {
            sum.wrapping_sub(query.length)
        } else {
            sum
        }
    }
}
