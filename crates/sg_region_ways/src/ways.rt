// The T-join: a shortest way between each two mates, by what the finished regions know.
use super::NoMemory;
use sg_graph::EdgeList;
use sg_growth::{Adjacency, Nest, Pair};
use sg_slots::{Marks, Store, entry, set_entry};
use std::alloc::{AllocError, Global};
use std::mem::swap;

// A node with more darts is a hub: it is searched after all others.
const HUB: usize = 128;

fn is_hub(adjacency: &Adjacency, node: u32) -> bool {
    adjacency.exits_of(node).len() > HUB
}

// The radii of a region and of all that it is a part of.
fn height_over(regions: &[i64], region: Option<u32>) -> i64 {
    match region {
        Some(region) => entry(regions, region).unwrap_or(0),
        None => 0,
    }
}

// Lists the radii of each region and of all that it is a part of, in place of what the list had.
fn list_heights(nest: &Nest, list: &mut Store<i64>) {
    list.items.clear();
    list.resize(nest.regions() as usize, 0);
    let heights = &mut list.items;
    for region in nest.order().iter().rev() {
        let over = height_over(heights, nest.parent(*region));
        set_entry(heights, *region, over.wrapping_add(nest.radius(*region)));
    }
}

/// Two nodes that are mates, and what both have in common: the radii of all regions over both.
#[derive(Clone, Copy)]
pub struct Mates {
    pub one: u32,
    pub other: u32,
    pub floor: i64,
}

// The mates of a pair, by the radii of each region and of all that it is a part of.
fn mates_of(nest: &Nest, regions: &[i64], pair: Pair) -> Option<Mates> {
    Some(Mates {
        one: nest.seed(pair.one)?,
        other: nest.seed(pair.other)?,
        floor: height_over(regions, pair.base),
    })
}

// A search from one of two mates.
#[derive(Drop)]
struct Search {
    // The node of the mate, and its height.
    start: u32,
    height: i64,
    // The nodes that were reached, also as marks, and the dart over which each was.
    reached: Store<u32>,
    is_reached: Store<bool>,
    darts: Store<u32>,
    // The nodes from which was not searched yet.
    waiting: Store<u32>,
    hubs: Store<u32>,
}

impl Search {
    fn new(alloc: Global, nodes: usize) -> Search {
        Search {
            start: 0,
            height: 0,
            reached: Store::new(alloc),
            is_reached: Store::filled(alloc, false, nodes),
            darts: Store::filled(alloc, 0, nodes),
            waiting: Store::new(alloc),
            hubs: Store::new(alloc),
        }
    }

    // Whether a list found no memory.
    fn is_short(&self) -> bool {
        let are_marks = self.is_reached.is_short() | self.darts.is_short();
        let is_open = self.waiting.is_short() | self.hubs.is_short();
        are_marks | is_open | self.reached.is_short()
    }

    // Forgets all that was reached.
    fn clear(&mut self) {
        for node in &self.reached.items {
            set_entry(&mut self.is_reached.items, *node, false);
        }
        self.reached.items.clear();
        self.waiting.items.clear();
        self.hubs.items.clear();
    }

    // Whether a node was reached.
    fn has(&self, node: u32) -> bool {
        entry(&self.is_reached.items, node).unwrap_or(false)
    }

    // Keeps a node that is reached over a dart.
    fn reach(&mut self, node: u32, dart: u32, is_hub: bool) {
        set_entry(&mut self.is_reached.items, node, true);
        set_entry(&mut self.darts.items, node, dart);
        self.reached.push(node);
        if is_hub {
            self.hubs.push(node);
        } else {
            self.waiting.push(node);
        }
    }

    // Begins anew at a node.
    fn begin(&mut self, start: u32, height: i64, is_hub: bool) {
        self.clear();
        self.start = start;
        self.height = height;
        self.reach(start, 0, is_hub);
    }

    // Turns the marks of the edges from the mate to a node.
    fn turn_back(&self, adjacency: &Adjacency, from: u32, join: &mut Marks) {
        let mut here = from;
        for _ in 0..self.reached.items.len() {
            if here == self.start {
                break;
            }
            let dart = entry(&self.darts.items, here).unwrap_or(0);
            join.turn(dart / 2);
            here = adjacency.start(dart);
        }
    }
}

/// Searches between mates, one after another.
pub struct Ways {
    // How far all regions over a node reach beyond it. Along a shortest way from a mate this falls by as
    // much as the way is long, until it comes to what both mates have in common.
    heights: Store<i64>,
    // The search that goes on next, and the other one.
    near: Search,
    far: Search,
}

// Explicit for the same reason as that of `Joining`.
impl Drop for Ways {
    fn drop(self) {
        let Ways {
            heights: _heights,
            near: _near,
            far: _far,
        } = self;
    }
}

// Where two searches met: over an arc from a node of the one to a node of the other.
#[derive(Clone, Copy)]
struct Meeting {
    near: u32,
    far: u32,
    dart: u32,
}

impl Ways {
    /// Over so many nodes, none of which has a height yet.
    pub fn new(alloc: Global, nodes: usize) -> Ways {
        Ways {
            heights: Store::with_room(alloc, nodes),
            near: Search::new(alloc, nodes),
            far: Search::new(alloc, nodes),
        }
    }

    /// Whether a list found no memory. Then ways may be missing.
    pub fn is_short(&self) -> bool {
        self.heights.is_short() | self.near.is_short() | self.far.is_short()
    }

    /// No node has a height.
    pub fn clear_heights(&mut self) {
        self.heights.items.clear();
    }

    /// Gives the next node its height.
    pub fn add_height(&mut self, height: i64) {
        self.heights.push(height);
    }

    fn height(&self, node: u32) -> i64 {
        entry(&self.heights.items, node).unwrap_or(0)
    }

    // The node from which is searched next, of either side: hubs only where nothing else is left.
    fn next(&mut self) -> Option<u32> {
        if self.near.waiting.items.is_empty() && !self.far.waiting.items.is_empty() {
            swap(&mut self.near, &mut self.far);
        }
        if let Some(node) = self.near.waiting.items.pop() {
            return Some(node);
        }
        if self.near.hubs.items.is_empty() {
            swap(&mut self.near, &mut self.far);
        }
        self.near.hubs.items.pop()
    }

    // Goes from a node over all its arcs that may be on the way, which has a length and comes down to a
    // height. Gives where it meets the other side.
    fn spread(
        &mut self,
        adjacency: &Adjacency,
        node: u32,
        floor: i64,
        length: i64,
    ) -> Option<Meeting> {
        let gone = self.near.height.wrapping_sub(self.height(node));
        for exit in adjacency.exits_of(node) {
            let arc = adjacency.arc_by(exit);
            let there = gone.wrapping_add(arc.length);
            let height = self.height(arc.to);
            if self.far.has(arc.to) {
                let rest = self.far.height.wrapping_sub(height);
                if there.wrapping_add(rest) == length {
                    return Some(Meeting {
                        near: node,
                        far: arc.to,
                        dart: arc.dart,
                    });
                }
            }
            let left = self.near.height.wrapping_sub(there);
            if left == height && left >= floor && !self.near.has(arc.to) {
                self.near.reach(arc.to, arc.dart, is_hub(adjacency, arc.to));
            }
        }
        None
    }

    // Searches from both mates until both searches meet.
    fn meeting(&mut self, adjacency: &Adjacency, floor: i64, length: i64) -> Option<Meeting> {
        for _ in 0..adjacency.nodes().saturating_mul(2) {
            let Some(node) = self.next() else {
                break;
            };
            let found = self.spread(adjacency, node, floor, length);
            if found.is_some() {
                return found;
            }
            swap(&mut self.near, &mut self.far);
        }
        None
    }

    /// Turns the marks of the edges of a shortest way between two mates, and says whether there is one.
    /// Where a list is short, one may be missing.
    ///
    /// Cost: linear in the arcs of the nodes that are on shortest ways.
    pub fn turn_way(&mut self, adjacency: &Adjacency, mates: Mates, join: &mut Marks) -> bool {
        let first = self.height(mates.one);
        let second = self.height(mates.other);
        let length = first
            .wrapping_sub(mates.floor)
            .wrapping_add(second.wrapping_sub(mates.floor));
        if let Some(edge) = edge_between(adjacency, mates, length) {
            join.turn(edge);
            return true;
        }
        self.near
            .begin(mates.one, first, is_hub(adjacency, mates.one));
        self.far
            .begin(mates.other, second, is_hub(adjacency, mates.other));
        let Some(meeting) = self.meeting(adjacency, mates.floor, length) else {
            return false;
        };
        join.turn(meeting.dart / 2);
        self.near.turn_back(adjacency, meeting.near, join);
        self.far.turn_back(adjacency, meeting.far, join);
        true
    }
}

// An edge between two mates, if one is as long as the shortest way between them. A hub is not searched for it.
fn edge_between(adjacency: &Adjacency, mates: Mates, length: i64) -> Option<u32> {
    if is_hub(adjacency, mates.one) {
        return None;
    }
    for exit in adjacency.exits_of(mates.one) {
        if exit.to == mates.other && adjacency.arc_by(exit).length == length {
            return Some(exit.dart / 2);
        }
    }
    None
}

// Gives each node of a nest its height.
fn add_heights(nest: &Nest, regions: &[i64], ways: &mut Ways) {
    ways.clear_heights();
    for taken in nest.taken() {
        let over = height_over(regions, taken.region.number());
        ways.add_height(over.wrapping_sub(taken.radius));
    }
}

/// The edges that lie on an odd number of the ways between mates, rising, or nothing where a way is not
/// found. The only error is running out of memory.
pub fn join_of(
    alloc: Global,
    adjacency: &Adjacency,
    nest: &Nest,
    pairs: &[Pair],
    edges: usize,
) -> Result<Option<EdgeList>, NoMemory> {
    Joining::new(alloc, adjacency.nodes(), edges).join_of(alloc, adjacency, nest, pairs)
}

/// What finds the edges between the mates of one nest after another on a graph: lists that are used again.
pub struct Joining {
    marks: Marks,
    // The radii of each region and of all that it is a part of.
    heights: Store<i64>,
    ways: Ways,
}

// An explicit `Drop`: otherwise every early return of an owner drops each field, and the prover pays for each.
impl Drop for Joining {
    fn drop(self) {
        let Joining {
            marks: _marks,
            heights: _heights,
            ways: _ways,
        } = self;
    }
}

impl Joining {
    /// For a graph of so many nodes and edges.
    pub fn new(alloc: Global, nodes: usize, edges: usize) -> Joining {
        Joining {
            marks: Marks::new(alloc, edges),
            heights: Store::new(alloc),
            ways: Ways::new(alloc, nodes),
        }
    }

    /// The edges of [`join_of`], on this graph. A way is searched from both mates, through such nodes only whose
    /// height tells that they are on a shortest one.
    pub fn join_of(
        &mut self,
        alloc: Global,
        adjacency: &Adjacency,
        nest: &Nest,
        pairs: &[Pair],
    ) -> Result<Option<EdgeList>, NoMemory> {
        self.marks.clear();
        list_heights(nest, &mut self.heights);
        add_heights(nest, &self.heights.items, &mut self.ways);
        let is_found = self.turn_ways(adjacency, nest, pairs);
        let edges = self.marks.listed(alloc);
        if self.heights.is_short() || self.ways.is_short() {
            return Err(AllocError);
        }
        let edges = EdgeList::from_vec(edges.finish()?);
        Ok(if is_found { Some(edges) } else { None })
    }

    // Turns the marks of the edges of a shortest way between the mates of each pair, and says whether all ways are
    // found.
    fn turn_ways(&mut self, adjacency: &Adjacency, nest: &Nest, pairs: &[Pair]) -> bool {
        for pair in pairs {
            let Some(mates) = mates_of(nest, &self.heights.items, *pair) else {
                return false;
            };
            if !self.ways.turn_way(adjacency, mates, &mut self.marks) {
                return false;
            }
        }
        true
    }
}
