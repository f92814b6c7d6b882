// The ground state of a window in which the open bonds are weakened.
use super::NoMemory;
use super::chains::Chains;
use super::lists::entry_or;
use super::reduced::{Reduced, Turning};
use super::sheet::{first_dart, second_dart};
use sg_graph::EdgeList;
use sg_growth::{Adjacency, Edge};
use sg_region_engine::{Engine, Method};
use sg_region_ways::join_of;
use sg_slots::{Slot, Store, number, set_entry};
use sg_work::Allowance;
use std::alloc::Global;

// Numbers for the nodes of a window.
#[derive(Drop)]
pub struct NodeNames {
    names: Store<Slot>,
    nodes: Store<u32>,
}

impl NodeNames {
    /// No node has a number.
    pub fn new(alloc: Global, nodes: usize) -> NodeNames {
        NodeNames {
            names: Store::filled(alloc, Slot::none(), nodes),
            nodes: Store::new(alloc),
        }
    }

    /// Whether a list found no memory.
    pub fn is_short(&self) -> bool {
        self.names.is_short() | self.nodes.is_short()
    }

    // The number of a node, a new one if it has none.
    fn of(&mut self, node: u32) -> u32 {
        let known = entry_or(&self.names.items, node, Slot::none());
        if let Some(name) = known.number() {
            return name;
        }
        let name = number(self.nodes.items.len());
        set_entry(&mut self.names.items, node, Slot::of(name));
        self.nodes.push(node);
        name
    }

    // Takes all numbers back.
    fn clear(&mut self) {
        for node in &self.nodes.items {
            set_entry(&mut self.names.items, *node, Slot::none());
        }
        self.nodes.items.clear();
    }
}

// An edge of a window: what it weighs, and whether the state has it.
#[derive(Clone, Copy)]
struct Weight {
    weight: i64,
    has: bool,
}

// An edge that costs less than nothing counts as one that the state has, and weighs as much as it gives.
fn weakened(turning: Turning, scale: i64) -> Weight {
    let amount = i64::from(turning.open);
    let cost = turning.cost.wrapping_mul(scale).wrapping_sub(amount);
    Weight {
        weight: cost.wrapping_abs(),
        has: cost < 0,
    }
}

/// A part of the dual.
#[derive(Drop)]
pub struct Window {
    // Chains of the whole, and what is in series among them.
    list: Store<u32>,
    chains: Chains,
}

impl Window {
    /// The window of these chains of the whole.
    pub fn new(alloc: Global, whole: &Reduced, names: &mut NodeNames, list: &[u32]) -> Window {
        let mut sides = Store::with_room(alloc, list.len().saturating_mul(2));
        for chain in list {
            sides.push(names.of(whole.side(first_dart(*chain))));
            sides.push(names.of(whole.side(second_dart(*chain))));
        }
        let nodes = names.nodes.items.len();
        names.clear();
        let mut window = Window {
            list: Store::new(alloc),
            chains: Chains::new(alloc, nodes, &sides),
        };
        window.list.extend(list);
        window
    }

    /// Whether a list found no memory.
    pub fn is_short(&self) -> bool {
        self.list.is_short() | self.chains.is_short()
    }

    // What it costs to turn an edge of the window.
    fn turning(&self, whole: &Reduced, edge: u32) -> Turning {
        let mut all = Turning::none();
        for place in self.chains.at(edge) {
            let chain = entry_or(&self.list.items, *place, 0);
            all = all.and(whole.turning(chain));
        }
        all
    }

    /// The chains that turn if the open bonds are weakened: none if that costs something, or if no open bond turns.
    pub fn turned(&self, alloc: Global, whole: &Reduced, scale: i64) -> Result<Vec<u32>, NoMemory> {
        let turnings = self.turnings(alloc, whole);
        let turns = self.turns(alloc, &turnings, scale)?;
        let mut list = Store::new(alloc);
        list.note(&turns);
        if is_free(&turnings.items, &turns.items) {
            self.add_all(&turns.items, &mut list);
        }
        list.finish()
    }

    // What it costs to turn each edge of the window.
    fn turnings(&self, alloc: Global, whole: &Reduced) -> Store<Turning> {
        let mut turnings = Store::with_room(alloc, self.chains.len());
        for edge in 0..number(self.chains.len()) {
            turnings.push(self.turning(whole, edge));
        }
        turnings
    }

    // For each edge whether it turns: of none where no join is proposed.
    fn turns(
        &self,
        alloc: Global,
        turnings: &Store<Turning>,
        scale: i64,
    ) -> Result<Store<bool>, NoMemory> {
        let mut edges = Store::with_room(alloc, turnings.items.len());
        let mut turns = Store::with_room(alloc, turnings.items.len());
        for (place, turning) in turnings.items.iter().enumerate() {
            let edge = weakened(*turning, scale);
            edges.push(self.edge(number(place), edge.weight));
            turns.push(edge.has);
        }
        let terminals = self.odd_nodes(alloc, &turns.items);
        turns.note(turnings);
        turns.note(&terminals);
        match self.grown(alloc, edges, &terminals.items)? {
            Some(join) => turn_all(&mut turns.items, join.as_slice()),
            None => turns.items.clear(),
        }
        Ok(turns)
    }

    // An edge of this weight, twice as long.
    fn edge(&self, place: u32, weight: i64) -> Edge {
        let sides = &self.chains.sides.items;
        Edge {
            first: entry_or(sides, first_dart(place), 0),
            second: entry_or(sides, second_dart(place), 0),
            length: weight.wrapping_mul(2),
        }
    }

    // A minimum T-join that is proposed over these edges.
    fn grown(
        &self,
        alloc: Global,
        edges: Store<Edge>,
        terminals: &[u32],
    ) -> Result<Option<EdgeList>, NoMemory> {
        let arcs = Adjacency::new(alloc, self.chains.nodes, edges.finish()?)?;
        join_over(alloc, &arcs, terminals)
    }

    // The nodes that edges meet oddly.
    fn odd_nodes(&self, alloc: Global, has: &[bool]) -> Store<u32> {
        let sides = &self.chains.sides.items;
        let mut marks = Store::filled(alloc, false, self.chains.nodes as usize);
        for (edge, has) in has.iter().enumerate() {
            if *has {
                let dart = first_dart(number(edge));
                turn(&mut marks.items, entry_or(sides, dart, 0));
                turn(&mut marks.items, entry_or(sides, dart.wrapping_add(1), 0));
            }
        }
        marked(alloc, &marks)
    }

    // Adds the chains of the whole in the edges that are marked.
    fn add_all(&self, marks: &[bool], list: &mut Store<u32>) {
        for (edge, mark) in marks.iter().enumerate() {
            if *mark {
                self.add_chains(number(edge), list);
            }
        }
    }

    // Adds the chains of the whole in an edge.
    fn add_chains(&self, edge: u32, list: &mut Store<u32>) {
        for place in self.chains.at(edge) {
            list.push(entry_or(&self.list.items, *place, 0));
        }
    }
}

// A minimum T-join that is proposed over these arcs.
fn join_over(
    alloc: Global,
    arcs: &Adjacency,
    terminals: &[u32],
) -> Result<Option<EdgeList>, NoMemory> {
    let places = (arcs.nodes() as u64).saturating_add(arcs.darts() as u64);
    let allowed = Allowance::brief(terminals.len(), places);
    let mut engine = Engine::new(alloc, arcs, terminals, Method::AtOnce, allowed)?;
    join_by(alloc, arcs, &mut engine)
}

// The same by an engine that has not run yet.
fn join_by(
    alloc: Global,
    arcs: &Adjacency,
    engine: &mut Engine,
) -> Result<Option<EdgeList>, NoMemory> {
    if !engine.run()? {
        return Ok(None);
    }
    let pairs = engine.pairs()?;
    let nest = engine.nest()?;
    join_of(alloc, arcs, &nest, &pairs, arcs.edges())
}

// Toggles a mark.
fn turn(marks: &mut [bool], place: u32) {
    let before = entry_or(marks, place, false);
    set_entry(marks, place, !before);
}

// Toggles the marks at these places.
fn turn_all(marks: &mut [bool], places: &[u32]) {
    for place in places {
        turn(marks, *place);
    }
}

// The nodes that are marked.
fn marked(alloc: Global, marks: &Store<bool>) -> Store<u32> {
    let mut list = Store::new(alloc);
    list.note(marks);
    for (node, mark) in marks.items.iter().enumerate() {
        if *mark {
            list.push(number(node));
        }
    }
    list
}

// Whether it costs nothing to turn the edges that are marked, and a bond of them is open.
fn is_free(turnings: &[Turning], marks: &[bool]) -> bool {
    let mut all = Turning::none();
    for (edge, turning) in turnings.iter().enumerate() {
        if entry_or(marks, number(edge), false) {
            all = all.and(*turning);
        }
    }
    all.cost == 0 && all.open > 0
}
