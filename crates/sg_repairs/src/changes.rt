// What a repair changes: the walk, and the nest.
use super::NoMemory;
use super::old_ways::OldWays;
use super::order::{Order, common, height_of, list_order, places_of, regions_of, turn_way};
use super::repairs::{Query, Turn};
use sg_graph::EdgeList;
use sg_growth::Pair;
use sg_nest::{Nest, Places, Region, Regions};
use sg_region_engine::Engine;
use sg_region_ways::Ways;
use sg_slots::{Marks, Store, entry, number, set_entry};
use std::alloc::{AllocError, Global};

// Lists that are used from repair to repair.
pub struct Changes {
    alloc: Global,
    marks: Marks,
    order: Order,
    ways: Ways,
    // The number of this repair; for each terminal, the last repair that reversed its old way, and the
    // last that reversed a new one.
    repair: u32,
    turned: Store<u32>,
    walked: Store<u32>,
    // Whether a list that is gone found no memory.
    was_short: bool,
}

// Explicit for the same reason as that of `Repairs`.
impl Drop for Changes {
    fn drop(self) {
        let Changes {
            alloc: _,
            marks: _marks,
            order: _order,
            ways: _ways,
            repair: _,
            turned: _turned,
            walked: _walked,
            was_short: _,
        } = self;
    }
}

impl Changes {
    // Over so many edges and terminals.
    pub fn new(alloc: Global, engine: &Engine, edges: usize, terminals: usize) -> Changes {
        let mut changes = Changes {
            alloc,
            marks: Marks::new(alloc, edges),
            order: Order::new(alloc),
            ways: Ways::new(alloc, engine.arcs().nodes()),
            repair: 0,
            turned: Store::filled(alloc, 0, terminals),
            walked: Store::filled(alloc, 0, terminals),
            was_short: false,
        };
        changes.find_heights(engine);
        changes
    }

    // Whether a list found no memory. Then something is missing, also of what was read off.
    pub fn is_short(&self) -> bool {
        let are_own = self.turned.is_short() | self.walked.is_short() | self.was_short;
        are_own | self.order.is_short() | self.ways.is_short()
    }

    // Is short too where something is that was made beside it.
    pub fn note(&mut self, is_short: bool) {
        self.was_short |= is_short;
    }

    // Puts the finished regions into their order, and finds how high each and each node is.
    fn find_heights(&mut self, engine: &Engine) {
        list_order(engine, &mut self.order);
        self.ways.clear_heights();
        for node in 0..number(engine.arcs().nodes()) {
            self.ways.add_height(height_of(engine, node, &self.order));
        }
    }

    // The finished regions in their order.
    pub fn nest(&mut self, engine: &Engine) -> Nest {
        let regions = regions_of(engine, &self.order);
        let places = places_of(engine, &self.order);
        self.note(regions.is_short() || places.is_short());
        Nest {
            regions: Regions::from_vec(regions.items),
            places: Places::from_vec(places.items),
        }
    }

    // The edges of a shortest way between two mates, if it is found.
    pub fn way(&mut self, engine: &Engine, pair: Pair) -> Option<EdgeList> {
        self.marks.clear();
        if self.turn_new(engine, pair) {
            Some(self.turned_edges())
        } else {
            None
        }
    }

    // The edges that stand in a list an odd number of times, rising.
    pub fn odd(&mut self, list: &[u32]) -> EdgeList {
        self.marks.clear();
        for edge in list {
            self.marks.turn(*edge);
        }
        self.turned_edges()
    }

    // The edges that were turned an odd number of times, rising.
    fn turned_edges(&mut self) -> EdgeList {
        let edges = self.marks.listed(self.alloc);
        self.note(edges.is_short());
        EdgeList::from_vec(edges.items)
    }

    // Turns a shortest way between two mates, and says whether there is one.
    fn turn_new(&mut self, engine: &Engine, pair: Pair) -> bool {
        turn_way(engine, pair, &self.order, &mut self.ways, &mut self.marks)
    }

    // Turns the way that a terminal and its mate had, once.
    fn turn_old(&mut self, old: &OldWays, terminal: u32) {
        let Some(first) = old.first(terminal) else {
            return;
        };
        if entry(&self.turned.items, first) == Some(self.repair) {
            return;
        }
        set_entry(&mut self.turned.items, first, self.repair);
        for edge in old.way(first) {
            self.marks.turn(*edge);
        }
    }

    // Turns the way of two mates, if they were none before, and the ways that they had. Says whether all
    // were found.
    fn turn_pair(&mut self, engine: &Engine, old: &OldWays, pair: Pair) -> bool {
        let first = pair.one.min(pair.other);
        if old.are_mates(pair) || entry(&self.walked.items, first) == Some(self.repair) {
            return true;
        }
        set_entry(&mut self.walked.items, first, self.repair);
        self.turn_old(old, pair.one);
        self.turn_old(old, pair.other);
        self.turn_new(engine, pair)
    }

    // Turns the ways of mates that are mates still but went over an edge that is gone.
    fn turn_over(&mut self, engine: &Engine, old: &OldWays, edge: u32) -> bool {
        for first in old.over(edge) {
            if entry(&self.turned.items, *first) != Some(self.repair) {
                self.turn_old(old, *first);
                let Some(pair) = old.pair(*first) else {
                    return false;
                };
                let base = common(engine, pair.one, pair.other, &self.order);
                if !self.turn_new(engine, Pair { base, ..pair }) {
                    return false;
                }
            }
        }
        true
    }

    // Turns all ways that change. Says whether all were found.
    fn turn_all(&mut self, engine: &Engine, old: &OldWays, pairs: &[Pair], query: Query) -> bool {
        for end in query.ends {
            if let Some(terminal) = end.gone {
                self.turn_old(old, terminal);
            }
        }
        for pair in pairs {
            if !self.turn_pair(engine, old, *pair) {
                return false;
            }
        }
        self.turn_over(engine, old, query.edge)
    }

    // The edges by which the T-join differs, the one that is taken out among them; nothing where a way
    // is not found.
    fn walk(
        &mut self,
        engine: &Engine,
        old: &OldWays,
        pairs: &[Pair],
        query: Query,
    ) -> Option<EdgeList> {
        self.repair = self.repair.wrapping_add(1);
        self.marks.clear();
        if !self.turn_all(engine, old, pairs, query) {
            return None;
        }
        if !query.is_in_join {
            self.marks.turn(query.edge);
        }
        Some(self.turned_edges())
    }

    // What has changed in finished regions where an edge is taken out, by the pairs that may be new.
    // Nothing where a way is not found, or the radii do not sum to the length of the T-join: so edges
    // of length 0 can make it that lay on the only tight way between two regions but in neither.
    pub fn turn(
        &mut self,
        engine: &Engine,
        old: &OldWays,
        pairs: &[Pair],
        query: Query,
    ) -> Result<Option<Turn>, NoMemory> {
        let found = self.found_turn(engine, old, pairs, query);
        if self.is_short() {
            return Err(AllocError);
        }
        Ok(found)
    }

    // The same, but it may be that a list is short.
    fn found_turn(
        &mut self,
        engine: &Engine,
        old: &OldWays,
        pairs: &[Pair],
        query: Query,
    ) -> Option<Turn> {
        self.find_heights(engine);
        let Some(walk) = self.walk(engine, old, pairs, query) else {
            return None;
        };
        let nest = self.nest(engine);
        if total_radius(nest.regions.as_slice())
            != old.turned_length(engine, walk.as_slice(), query)
        {
            return None;
        }
        Some(Turn { walk, nest })
    }
}

// All radii together.
fn total_radius(regions: &[Region]) -> i64 {
    let mut sum = 0u64;
    for region in regions {
        sum = sum.wrapping_add(region.radius);
    }
    sum.cast_signed()
}
