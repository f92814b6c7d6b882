//! Regions that grow from terminals over a graph until each terminal has a mate: the method.
//!
//! The method is Edmonds' (1965) with all alternating trees at once, on the graph itself. Each
//! *terminal* is the seed of a *region*, a moat in the words of Jünger and Pulleyblank (1993). An arc
//! between two nodes is twice as long as the weight of its edge, and all regions grow at one speed. When
//! regions meet, alternating trees arise: *outer* regions grow on, *inner* ones shrink, and an odd cycle
//! of regions grows on as one, a *blossom*. When two trees meet, both roots are paired. The method needs
//! no distances between terminals.
//!
//! For the next engineer: nothing is promised of what it finds, since callers have it judged. Each
//! function must only be safe and terminate. What there is no memory for is left out of a list, and the
//! end of a run tells so. The parts of the state have rules of their own: the forest
//! of the regions (`sg_forest`), and the cover of the nodes, the clock and the hubs' heaps
//! (`sg_growth`). The one rule between them: if an outer region approaches something over an arc, an
//! event waits at this arc or at its reverse, no later than the contact. The event of a hub is that of
//! its soonest arc, and the soonest of the arcs from one region to a hub stands for all. Its
//! fields are the engine's own. `apart` has what `sg_repairs` may do to an engine at rest, which takes
//! finished regions apart and lets what is left grow on.
//!
//! `wake` enters events, `steps` has the steps of the method, `rests` those of the first half of a run,
//! `open_hubs` those at nodes of high degree until no tree is left, `slices` the choice of the trees that grow
//! at one time, `start` the pairs that need no event, `bare` the steps at nodes without a region, `events` the
//! effect of each event, `finish` reads off the nest and the pairs, and `lists` hands the lists of one engine on
//! to the next.
#![tactic(auto)]

ghost use Rattle.std.specs.Prelude.{◌≡◌, ◌+◌, ◌≤◌};
ghost use Rattle.sg_work.specs.Counts.{event_limit, growth_limit};

mod apart;
mod bare;
mod events;
mod finish;
mod lists;
mod open_hubs;
mod rests;
mod slices;
mod start;
mod steps;
mod wake;

pub use apart::Parts;
pub use finish::Exit;
pub use lists::Lists;
use sg_forest::{Forest, Link, Reach, Role};
use sg_growth::{Adjacency, Arc, Clock, Cover, Held, Hubs, NEVER, reverse};
use sg_slots::Store;
use sg_work::{Allowance, Growth, Work};
use slices::Batches;
pub use start::HeadStart;
use std::alloc::{AllocError, Global};

/// The allocator had no memory left.
pub type NoMemory = AllocError;

/// What becomes of odd cycles, and which trees grow at one time.
#[derive(Clone, Copy)]
pub enum Method {
    /// Cycles grow on as blossoms at once, and trees grow batch by batch, in slices of time, for the caches' sake.
    /// This is for large graphs in which neighbours have near numbers.
    InSlices,
    /// They grow on as blossoms at once. On the duals of drawn lattices that is as fast as the other, and
    /// its blossoms are smaller; but only a few steps are allowed for each node.
    AtOnce,
    /// They rest until no tree is left.
    InHalves,
    /// The same, and no hub is ever open: a reserve that shares with the others as little as it can.
    InClosedHalves,
}

impl Method {
    /// What a run by this method may do, from so many terminals, over so many nodes and darts together.
    pub fn allowance(self, terminals: usize, places: u64) -> Allowance
        ensures blossoms { result.blossoms ≤ growth_limit terminals }
        ensures work { result.work ≤ event_limit terminals places }
    {
        match self {
            Method::InSlices => Allowance::sliced(terminals, places),
            Method::AtOnce => Allowance::brief(terminals, places),
            Method::InHalves | Method::InClosedHalves => Allowance::long(terminals, places),
        }
    }
}

// What an outer region sees over an arc: when it gets to the end or meets the region there, and
// whether it lies there itself.
#[derive(Clone, Copy)]
struct Sight {
    time: i64,
    is_own: bool,
}

/// The regions at a time, over the nodes that they have taken.
///
/// A region has a name: below the number of terminals that of its terminal, all others are blossoms.
pub struct Engine<'a> {
    // The allocator of all lists.
    alloc: Global,
    // The arcs between the nodes, each edge with two darts.
    arcs: &'a Adjacency,
    // The nodes that are terminals; region `t` is that of terminal `t`.
    terminals: &'a [u32],
    // Which region took each node, and at which radius.
    cover: Cover,
    // The regions, what they are parts of, their radii, and the trees.
    forest: Forest,
    // The arcs at nodes of high degree, by their times.
    hubs: Hubs,
    // The time, and the events that wait.
    clock: Clock,
    // What was done, against what is allowed.
    work: Work,
    // Whether a tree ends with its first odd cycle.
    is_first: bool,
    // Whether hubs are open: no region covers one, and a tree that comes to one ends there.
    is_open: bool,
    // How terminals grow before events are entered. Not at all at first.
    head_start: HeadStart,
    // Whether trees grow in slices of time.
    is_sliced: bool,
    // The trees that wait for their batch.
    batches: Batches,
    // How many cycles of the first half, or trees that wait for their batch, are at rest.
    rests: u32,
    // How many trees there are, with what is at rest. Where hubs are open, what is paired with one is not among
    // them.
    unpaired: u32,
    // A cycle: a list that is used again.
    cycle: Store<Link>,
    // Regions that were inner: a list that is used again.
    inner: Store<u32>,
    // Whether a list that is gone found no memory.
    was_short: bool,
}

// An explicit `Drop`: otherwise every exit of an owner drops each list, and the prover pays for each.
impl<'a> Drop for Engine<'a> {
    fn drop(self) {
        let _parts = self.into_parts();
    }
}

// How many regions there is room for at first.
fn room_for(terminals: &[u32]) -> usize {
    terminals.len().saturating_add(terminals.len() / 2)
}

impl<'a> Engine<'a> {
    /// A region for each terminal, none grown yet, and what may be done to them. The only error is running
    /// out of memory.
    ///
    /// Cost: linear in the nodes and arcs.
    pub fn new(
        alloc: Global,
        arcs: &'a Adjacency,
        terminals: &'a [u32],
        method: Method,
        allowed: Allowance,
    ) -> Result<Engine<'a>, NoMemory> {
        let lists = Lists::new(alloc, arcs, room_for(terminals));
        Engine::over(alloc, lists, arcs, terminals, method, allowed)
    }

    /// The same over lists for these arcs. Cost: linear in the terminals.
    pub fn over(
        alloc: Global,
        lists: Lists,
        arcs: &'a Adjacency,
        terminals: &'a [u32],
        method: Method,
        allowed: Allowance,
    ) -> Result<Engine<'a>, NoMemory> {
        let room = room_for(terminals);
        let forest = Forest::new(alloc, terminals.len(), room, allowed.blossoms)?;
        let work = Work::new(allowed.work);
        let mut engine = lists.engine(alloc, arcs, terminals, forest, work);
        match method {
            Method::InSlices => engine.is_sliced = true,
            Method::AtOnce => {}
            Method::InHalves => engine.is_first = true,
            Method::InClosedHalves => {
                engine.is_first = true;
                engine.is_open = false;
            }
        }
        Ok(engine)
    }

    // What outlives its arcs.
    fn into_parts(self) -> Parts {
        let Engine {
            alloc: _,
            arcs: _,
            terminals: _,
            cover,
            forest,
            hubs,
            clock,
            work: _work,
            is_first: _,
            is_open: _,
            head_start: _,
            is_sliced: _,
            batches: _batches,
            rests: _,
            unpaired: _,
            cycle,
            inner,
            was_short: _,
        } = self;
        let lists = Lists {
            cover,
            hubs,
            clock,
            cycle,
            inner,
            has_hub: false,
        };
        Parts { lists, forest }
    }

    /// How terminals grow before events are entered. Not at all where this is not called before a run.
    pub fn set_head_start(&mut self, head_start: HeadStart) {
        self.head_start = head_start;
    }

    /// The steps that were taken since the engine was made.
    pub fn growth(&self) -> Growth
        ensures blossoms { result.blossoms ≡ self.now.forest.cycles.blossoms.made + self.now.forest.cycles.blossoms.expanded }
        ensures events { result.events ≡ self.now.work.events }
    {
        Growth {
            blossoms: self.forest.steps(),
            events: self.work.events(),
        }
    }

    /// Whether a list found no memory. Then something is missing, and nothing may be read off.
    pub fn is_short(&self) -> bool {
        let are_own = self.cycle.is_short() | self.inner.is_short() | self.was_short;
        let are_times = self.hubs.is_short() | self.clock.is_short() | self.batches.is_short();
        are_own | are_times | self.cover.is_short() | self.forest.is_short()
    }

    // Whether a run was done, unless it found no memory.
    fn unless_short(&self, is_done: bool) -> Result<bool, NoMemory> {
        if self.is_short() {
            return Err(AllocError);
        }
        Ok(is_done)
    }

    // The top over a covered node, and how far it reaches beyond: the radii from the region that took
    // the node up to the top, less the radius at which it was taken.
    #[inline(always)]
    fn reach(&self, held: &Held) -> Reach {
        let here = self.forest.reach(held.region, self.clock.now());
        Reach {
            by: here.by.wrapping_sub(held.radius),
            ..here
        }
    }

    // The reach of the region over a node, if one covers it.
    #[inline(always)]
    fn reach_at(&self, node: u32) -> Option<Reach> {
        match self.cover.held(node) {
            Some(held) => Some(self.reach(&held)),
            None => None,
        }
    }

    // The reach of the region over a node, if it is outer.
    #[inline(always)]
    fn outer_reach(&self, node: u32) -> Option<Reach> {
        match self.reach_at(node) {
            Some(here) if here.role == Role::Outer => Some(here),
            _ => None,
        }
    }

    // What an outer region, which reaches so far beyond the start of an arc, sees over it.
    #[inline(always)]
    fn sight(&self, here: Reach, arc: &Arc) -> Sight {
        self.sight_of(here, arc.length, self.reach_at(arc.to))
    }

    // The same for an arc of a length, where the region over its end reaches so far, if one covers that.
    #[inline(always)]
    fn sight_of(&self, here: Reach, length: i64, there: Option<Reach>) -> Sight {
        let now = self.clock.now();
        let left = length.wrapping_sub(here.by);
        let Some(there) = there else {
            return Sight {
                time: now.wrapping_add(left),
                is_own: false,
            };
        };
        if there.top == here.top {
            return Sight {
                time: NEVER,
                is_own: true,
            };
        }
        let slack = left.wrapping_sub(there.by);
        let time = match there.role {
            Role::Outer => now.wrapping_add(slack / 2),
            Role::Free => now.wrapping_add(slack),
            Role::Inner | Role::Part => NEVER,
        };
        Sight {
            time,
            is_own: false,
        }
    }
}
