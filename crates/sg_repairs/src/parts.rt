// The finished regions to which an engine is put back, and runs from some of the terminals.
use super::NoMemory;
use super::apart::{Ending, is_gone};
use sg_forest::Forest;
use sg_growth::{Adjacency, Cover};
use sg_region_engine::{Engine, Exit};
use sg_slots::number;
use sg_work::{Allowance, Work};
use std::alloc::AllocError;

// How many terminals an edge may add to those of the graph.
pub const SPARE: usize = 2;

// Finished regions, none of them in a tree.
pub struct Base {
    pub cover: Cover,
    pub forest: Forest,
}

// Explicit for the same reason as that of `Repairs`.
impl Drop for Base {
    fn drop(self) {
        let Base {
            cover: _cover,
            forest: _forest,
        } = self;
    }
}

impl Base {
    // A copy of the finished regions.
    pub fn of(engine: &Engine) -> Result<Base, NoMemory> {
        let mut forest = Forest::new(engine.alloc(), 0, 0, 0)?;
        let mut cover = Cover::new(engine.alloc(), 0, 0);
        forest.restore(engine.forest());
        cover.restore(engine.cover());
        if forest.is_short() || cover.is_short() {
            return Err(AllocError);
        }
        Ok(Base { cover, forest })
    }

    // Puts the finished regions back, at time 0.
    pub fn put_back(&self, engine: &mut Engine) {
        engine.put_back(&self.cover, &self.forest);
    }

    // Whether a region is the same as in the base, with all its parts.
    pub fn has(&self, name: u32, cover: &Cover) -> bool {
        let birth = self.cover.birth(name);
        !birth.is_none() && birth == cover.birth(name)
    }
}

// The work that is allowed for so many trees.
pub fn work_for(roots: &[Exit], arcs: &Adjacency) -> Work {
    let allowed = Allowance::long(roots.len(), places_of(arcs));
    Work::new(allowed.work)
}

// The nodes and darts together.
pub fn places_of(arcs: &Adjacency) -> u64 {
    (arcs.nodes() as u64).saturating_add(arcs.darts() as u64)
}

// The first of the terminals that an edge may add.
pub fn first_spare(terminals: &[u32]) -> u32 {
    number(terminals.len().saturating_sub(SPARE))
}

// Whether a terminal is there when the ends of an edge are these, of which the spare ones begin with this.
fn is_there(name: u32, spare: u32, ends: [Ending; 2]) -> bool {
    if name < spare {
        return !is_gone(name, ends);
    }
    let [one, other] = ends;
    one.new == Some(name) || other.new == Some(name)
}

// Plants each terminal that is there. The names of the others are kept.
fn plant(engine: &mut Engine, ends: [Ending; 2]) {
    let terminals = engine.terminals();
    let spare = first_spare(terminals);
    for (name, node) in terminals.iter().enumerate() {
        if is_there(number(name), spare, ends) {
            engine.plant(*node);
        } else {
            engine.reserve();
        }
    }
}

// Wakes the nodes of these terminals.
fn wake(engine: &mut Engine, ends: [Ending; 2]) {
    let terminals = engine.terminals();
    let spare = first_spare(terminals);
    for (name, node) in terminals.iter().enumerate() {
        if is_there(number(name), spare, ends) {
            engine.wake(*node);
        }
    }
}

// Runs from the terminals that are there when the ends of an edge are these. False if not each of them has a mate in
// the end.
pub fn run_from(engine: &mut Engine, ends: [Ending; 2]) -> Result<bool, NoMemory> {
    plant(engine, ends);
    wake(engine, ends);
    engine.run_by_method(2)
}
