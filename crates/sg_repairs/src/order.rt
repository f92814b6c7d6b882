// The finished regions in their order, and what a repair has changed of their pairs.
use super::NoMemory;
use super::parts::Base;
use sg_growth::{Pair, first_dart};
use sg_nest::{Place, Region};
use sg_region_engine::Engine;
use sg_region_ways::{Mates, Ways};
use sg_slots::{Marks, Store, entry, number, set_entry};
use std::alloc::Global;

// The finished regions in an order, each before its parts; for each region its place counted from the
// end, and the radii of it and of all that it is a part of.
#[derive(Drop)]
pub struct Order {
    names: Store<u32>,
    places: Store<u32>,
    heights: Store<i64>,
}

impl Order {
    // Of no regions.
    pub fn new(alloc: Global) -> Order {
        Order {
            names: Store::new(alloc),
            places: Store::new(alloc),
            heights: Store::new(alloc),
        }
    }

    // Whether a list found no memory.
    pub fn is_short(&self) -> bool {
        self.names.is_short() | self.places.is_short() | self.heights.is_short()
    }

    // The place of a region, counted from the end.
    fn place(&self, name: u32) -> u32 {
        entry(&self.places.items, name).unwrap_or(0)
    }
}

// The radii of a region and of all that it is a part of.
fn height_over(heights: &[i64], region: Option<u32>) -> i64 {
    match region {
        Some(region) => entry(heights, region).unwrap_or(0),
        None => 0,
    }
}

// The pairs of all terminals in tops that are not as they were.
pub fn changed_pairs(engine: &Engine, base: &Base) -> Result<Vec<Pair>, NoMemory> {
    let mut pairs = Store::new(engine.alloc());
    let mut open = Store::new(engine.alloc());
    for name in 0..number(engine.forest().len()) {
        if is_top(engine, name) && !is_paired_as_before(engine, name, base) {
            engine.pair_top(name, &mut pairs, &mut open);
            engine.pair_within(&mut pairs, &mut open);
        }
    }
    pairs.note(&open);
    pairs.finish()
}

// Whether there is a region of this name that is a part of none.
fn is_top(engine: &Engine, name: u32) -> bool {
    engine.cover().is_open(name) && engine.forest().cycles().parent(name).is_none()
}

// Whether a top was one in the base, paired by the same terminals.
fn is_paired_as_before(engine: &Engine, name: u32, base: &Base) -> bool {
    if !base.has(name, engine.cover()) || !base.forest.cycles().parent(name).is_none() {
        return false;
    }
    match (engine.forest().pair(name), base.forest.pair(name)) {
        (Some(pair), Some(before)) => {
            pair.own.terminal == before.own.terminal && pair.other.terminal == before.other.terminal
        }
        (None, None) => true,
        _ => false,
    }
}

// Puts the regions into their order.
pub fn list_order(engine: &Engine, order: &mut Order) {
    let cycles = engine.forest().cycles();
    let count = number(cycles.len());
    order.names.items.clear();
    for name in 0..count {
        if is_top(engine, name) {
            order.names.push(name);
        }
    }
    for place in 0..count {
        let Some(name) = entry(&order.names.items, place) else {
            break;
        };
        cycles.add_parts(name, &mut order.names);
    }
    sum_heights(engine, order);
}

// Notes the place of each region and how high it is.
fn sum_heights(engine: &Engine, order: &mut Order) {
    let forest = engine.forest();
    order.places.resize(forest.len(), 0);
    order.heights.resize(forest.len(), 0);
    let places = &mut order.places.items;
    let heights = &mut order.heights.items;
    let mut behind = number(order.names.items.len());
    for name in &order.names.items {
        behind = behind.wrapping_sub(1);
        set_entry(places, *name, behind);
        let over = height_over(heights, forest.cycles().parent(*name).number());
        let radius = forest.radius(*name, engine.now());
        set_entry(heights, *name, over.wrapping_add(radius));
    }
}

// The regions, parts before what they are parts of.
pub fn regions_of(engine: &Engine, order: &Order) -> Store<Region> {
    let forest = engine.forest();
    let mut regions = Store::with_room(engine.alloc(), order.names.items.len());
    for name in order.names.items.iter().rev() {
        let parent = match forest.cycles().parent(*name).number() {
            Some(parent) => Some(order.place(parent)),
            None => None,
        };
        let radius = forest.radius(*name, engine.now());
        regions.push(Region {
            parent,
            radius: radius.unsigned_abs(),
        });
    }
    regions
}

// Which region took each node, and at which radius.
pub fn places_of(engine: &Engine, order: &Order) -> Store<Option<Place>> {
    let mut places = Store::with_room(engine.alloc(), engine.arcs().nodes());
    for node in 0..number(engine.arcs().nodes()) {
        places.push(place_of(engine, node, order));
    }
    places
}

// Which region took a node, and at which radius.
fn place_of(engine: &Engine, node: u32, order: &Order) -> Option<Place> {
    match engine.cover().held(node) {
        Some(held) => Some(Place {
            region: order.place(held.region),
            at: held.radius.unsigned_abs(),
        }),
        None => None,
    }
}

// How far all regions over a node reach beyond it.
pub fn height_of(engine: &Engine, node: u32, order: &Order) -> i64 {
    match engine.cover().held(node) {
        Some(held) => {
            let over = height_over(&order.heights.items, Some(held.region));
            over.wrapping_sub(held.radius)
        }
        None => 0,
    }
}

// The length of an edge.
pub fn length_of(engine: &Engine, edge: u32) -> i64 {
    engine.arcs().arc(first_dart(edge)).length
}

// Turns the edges of a shortest way between two mates, and says whether there is one.
pub fn turn_way(
    engine: &Engine,
    pair: Pair,
    order: &Order,
    ways: &mut Ways,
    marks: &mut Marks,
) -> bool {
    let (Some(one), Some(other)) = (engine.seed(pair.one), engine.seed(pair.other)) else {
        return false;
    };
    let floor = height_over(&order.heights.items, pair.base);
    ways.turn_way(engine.arcs(), Mates { one, other, floor }, marks)
}

// The least region that has two others, if there is one.
pub fn common(engine: &Engine, one: u32, other: u32, order: &Order) -> Option<u32> {
    let cycles = engine.forest().cycles();
    let mut low = Some(one);
    let mut high = Some(other);
    for _ in 0..order.names.items.len().saturating_mul(2) {
        let (Some(first), Some(second)) = (low, high) else {
            return None;
        };
        if first == second {
            return low;
        }
        if order.place(first) < order.place(second) {
            low = cycles.parent(first).number();
        } else {
            high = cycles.parent(second).number();
        }
    }
    None
}
