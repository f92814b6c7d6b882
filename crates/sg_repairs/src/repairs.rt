use super::NoMemory;
use super::apart::{Ending, repair};
use super::changes::Changes;
use super::old_ways::OldWays;
use super::order::changed_pairs;
use super::parts::{Base, SPARE, first_spare, places_of, run_from};
use sg_graph::{EdgeList, Terminals, Web};
use sg_growth::{Adjacency, first_dart, second_dart};
use sg_nest::Nest;
use sg_region_engine::{Engine, Method, Parts};
use sg_regions::arcs_of;
use sg_slots::{Slot, Store, entry, number, set_entry};
use std::alloc::{AllocError, Global};

// The ends of no edge.
const NO_END: [Ending; 2] = [
    Ending {
        node: 0,
        gone: None,
        new: None,
    },
    Ending {
        node: 0,
        gone: None,
        new: None,
    },
];

/// What changes if an edge is removed.
///
/// `walk` has the edges by which a minimum T-join then differs, rising; `nest` proves that join,
/// with radii where arcs are four times as long as edges weigh.
#[derive(Drop)]
pub struct Turn {
    pub walk: EdgeList,
    pub nest: Nest,
}

/// The finished regions of a graph and its terminals, with the minimum T-join that they prove, to be
/// repaired for one edge after another.
///
/// Nothing is promised of what it gives: a caller has it judged by `sg_nest::proves`. Memory is linear
/// in the graph and in the ways between mates.
pub struct Repairs {
    alloc: Global,
    arcs: Adjacency,
    // The nodes of the terminals, and those of the two that an edge adds.
    terminals: Vec<u32>,
    // For each node its terminal.
    at: Vec<Slot>,
    finished: Finished,
    // The engine that was run last.
    parts: Option<Parts>,
    changes: Changes,
}

// Regions that grew until each terminal had a mate: as they are put back, with the ways between mates,
// and in their order.
struct Finished {
    base: Base,
    ways: OldWays,
    nest: Nest,
}

// An explicit `Drop`: otherwise every early return of an owner drops each field, and the prover pays for
// each.
impl Drop for Repairs {
    fn drop(self) {
        let Repairs {
            alloc: _,
            arcs: _arcs,
            terminals: _terminals,
            at: _at,
            finished: _finished,
            parts: _parts,
            changes: _changes,
        } = self;
    }
}

// Explicit for the same reason as that of `Repairs`.
impl Drop for Finished {
    fn drop(self) {
        let Finished {
            base: _base,
            ways: _ways,
            nest: _nest,
        } = self;
    }
}

// An edge that is taken out, with its two ends as they are then.
#[derive(Clone, Copy)]
pub struct Query {
    pub edge: u32,
    pub length: i64,
    pub is_in_join: bool,
    pub ends: [Ending; 2],
}

impl Repairs {
    /// Grows regions from the terminals until each has a mate, or gives nothing if that fails. The
    /// only error is running out of memory.
    pub fn new(
        alloc: Global,
        web: &Web,
        terminals: &Terminals,
    ) -> Result<Option<Repairs>, NoMemory> {
        let arcs = arcs_of(alloc, web, 4)?;
        let at = terminals_at(alloc, web.nodes(), terminals.as_slice());
        let terminals = with_spares(alloc, terminals.as_slice());
        if at.is_short() || terminals.is_short() {
            return Err(AllocError);
        }
        let Some(grown) = grow_all(alloc, &arcs, &terminals.items, web.edges().len())? else {
            return Ok(None);
        };
        Ok(Some(Repairs {
            alloc,
            arcs,
            terminals: terminals.items,
            at: at.items,
            finished: grown.finished,
            parts: Some(grown.parts),
            changes: grown.changes,
        }))
    }

    /// The T-join that the finished regions prove: its edges, rising.
    pub fn join(&self) -> &EdgeList {
        self.finished.ways.join()
    }

    /// The finished regions themselves, with radii where arcs are four times as long as edges weigh.
    pub fn nest(&self) -> &Nest {
        &self.finished.nest
    }

    /// What changes if an edge is removed from the graph and, if it is not in the T-join, the terminals
    /// are toggled at its two ends: the walk has the edge itself, and all edges that are in exactly one
    /// of the two T-joins. Nothing where no repair was found, and for an edge of one node. The only
    /// error is running out of memory.
    ///
    /// Any call gives the same for the same edge; where one ran out of memory, later ones may do so too.
    /// Cost: time linear in the graph, and that of growing the two to six regions that are left over where
    /// those at the edge are taken apart.
    pub fn turn(&mut self, edge: u32) -> Result<Option<Turn>, NoMemory> {
        let one = self.arcs.start(first_dart(edge));
        let other = self.arcs.start(second_dart(edge));
        if one == other {
            return Ok(None);
        }
        let Some(parts) = self.parts.take() else {
            return Ok(None);
        };
        let query = self.query(edge, one, other);
        self.arcs.take_out(edge);
        let mut engine = parts.engine(self.alloc, &self.arcs, &self.terminals);
        let found = repaired(&mut engine, &self.finished, &mut self.changes, query);
        self.parts = Some(Parts::of(engine));
        let found = match found {
            Ok(None) => self.regrown(query),
            found => found,
        };
        self.arcs.put_back(edge, query.length);
        found
    }

    // The same by regions that grow from nothing.
    fn regrown(&mut self, query: Query) -> Result<Option<Turn>, NoMemory> {
        let method = Method::InHalves;
        let mut engine = engine_by(self.alloc, &self.arcs, &self.terminals, method)?;
        grown_anew(&mut engine, &self.finished, &mut self.changes, query)
    }

    // The ends of an edge that is taken out.
    fn query(&mut self, edge: u32, one: u32, other: u32) -> Query {
        let is_in_join = self.finished.ways.has(edge);
        let spare = first_spare(&self.terminals);
        let first = self.ending(one, is_in_join, spare);
        let second = self.ending(other, is_in_join, spare.wrapping_add(1));
        Query {
            edge,
            length: self.arcs.arc(first_dart(edge)).length,
            is_in_join,
            ends: [first, second],
        }
    }

    // The end of an edge. If the edge is not in the T-join, the terminal there is gone, or a spare one
    // is new.
    fn ending(&mut self, node: u32, is_in_join: bool, spare: u32) -> Ending {
        let gone = terminal_at(&self.at, node);
        if is_in_join {
            return Ending {
                node,
                gone: None,
                new: None,
            };
        }
        if gone.is_some() {
            return Ending {
                node,
                gone,
                new: None,
            };
        }
        set_entry(&mut self.terminals, spare, node);
        Ending {
            node,
            gone: None,
            new: Some(spare),
        }
    }
}

// What regions leave that grew until each terminal had a mate.
#[derive(Drop)]
struct Grown {
    finished: Finished,
    parts: Parts,
    changes: Changes,
}

// The nodes of the terminals, with room for those that an edge may add.
fn with_spares(alloc: Global, nodes: &[u32]) -> Store<u32> {
    let count = nodes.len().saturating_add(SPARE);
    let mut terminals = Store::with_room(alloc, count);
    terminals.extend(nodes);
    terminals.resize(count, u32::MAX);
    terminals
}

// Grows regions from the terminals, but for the spare ones, over so many edges.
fn grow_all(
    alloc: Global,
    arcs: &Adjacency,
    terminals: &[u32],
    edges: usize,
) -> Result<Option<Grown>, NoMemory> {
    match grow_by(alloc, arcs, terminals, edges, Method::AtOnce)? {
        None => grow_by(alloc, arcs, terminals, edges, Method::InHalves),
        found => Ok(found),
    }
}

// The same by one method.
fn grow_by(
    alloc: Global,
    arcs: &Adjacency,
    terminals: &[u32],
    edges: usize,
    method: Method,
) -> Result<Option<Grown>, NoMemory> {
    let mut engine = engine_by(alloc, arcs, terminals, method)?;
    let found = found_by(alloc, &mut engine, edges);
    let parts = Parts::of(engine);
    match found {
        Ok(Some(found)) => Ok(Some(Grown {
            finished: found.finished,
            parts,
            changes: found.changes,
        })),
        Ok(None) => Ok(None),
        Err(none_left) => Err(none_left),
    }
}

// An engine for one run.
fn engine_by<'a>(
    alloc: Global,
    arcs: &'a Adjacency,
    terminals: &'a [u32],
    method: Method,
) -> Result<Engine<'a>, NoMemory> {
    let allowed = method.allowance(terminals.len(), places_of(arcs));
    Engine::new(alloc, arcs, terminals, method, allowed)
}

// What is kept of regions beside the engine that grew them.
#[derive(Drop)]
struct Found {
    finished: Finished,
    changes: Changes,
}

// Runs an engine over so many edges, and reads off what is kept.
fn found_by(alloc: Global, engine: &mut Engine, edges: usize) -> Result<Option<Found>, NoMemory> {
    if !run_from(engine, NO_END)? {
        return Ok(None);
    }
    let mut changes = Changes::new(alloc, engine, edges, engine.terminals().len());
    let finished = kept(alloc, engine, &mut changes, edges)?;
    if changes.is_short() {
        return Err(AllocError);
    }
    match finished {
        Some(finished) => Ok(Some(Found { finished, changes })),
        None => Ok(None),
    }
}

// What is kept of an engine that ran to its end; nothing where a way is not found. Where `changes` is short then,
// something is missing.
fn kept(
    alloc: Global,
    engine: &Engine,
    changes: &mut Changes,
    edges: usize,
) -> Result<Option<Finished>, NoMemory> {
    let pairs = engine.pairs()?;
    let Some(ways) = OldWays::new(alloc, engine, changes, &pairs, edges) else {
        return Ok(None);
    };
    let nest = changes.nest(engine);
    let base = Base::of(engine)?;
    Ok(Some(Finished { base, ways, nest }))
}

// The repair for one edge.
fn repaired(
    engine: &mut Engine,
    finished: &Finished,
    changes: &mut Changes,
    query: Query,
) -> Result<Option<Turn>, NoMemory> {
    finished.base.put_back(engine);
    if !repair(engine, query.ends)? {
        return Ok(None);
    }
    let pairs = changed_pairs(engine, &finished.base)?;
    changes.turn(engine, &finished.ways, &pairs, query)
}

// The same by regions that grow from nothing.
fn grown_anew(
    engine: &mut Engine,
    finished: &Finished,
    changes: &mut Changes,
    query: Query,
) -> Result<Option<Turn>, NoMemory> {
    if !run_from(engine, query.ends)? {
        return Ok(None);
    }
    let pairs = engine.pairs()?;
    changes.turn(engine, &finished.ways, &pairs, query)
}

// The terminal of a node.
fn terminal_at(at: &[Slot], node: u32) -> Option<u32> {
    entry(at, node).unwrap_or(Slot::none()).number()
}

// For each node its terminal.
fn terminals_at(alloc: Global, nodes: u32, terminals: &[u32]) -> Store<Slot> {
    let mut at = Store::filled(alloc, Slot::none(), nodes as usize);
    for (name, node) in terminals.iter().enumerate() {
        set_entry(&mut at.items, *node, Slot::of(number(name)));
    }
    at
}
