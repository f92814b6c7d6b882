// The lists of an engine that are as long as its graph, to be used by one engine after another.
//
// What a run has written is cleared in time linear in its regions, in the nodes that they have and in the events
// that wait, and not in the graph.
use super::open_hubs::has_hub;
use super::slices::Batches;
use super::{Engine, HeadStart, Parts};
use sg_forest::{Forest, Link};
use sg_growth::{Adjacency, Clock, Cover, Hubs, NEVER};
use sg_slots::Store;
use sg_work::Work;
use std::alloc::Global;

/// The lists of an engine about the nodes and arcs of a graph, before a run.
pub struct Lists {
    pub(super) cover: Cover,
    pub(super) hubs: Hubs,
    pub(super) clock: Clock,
    pub(super) cycle: Store<Link>,
    pub(super) inner: Store<u32>,
    // Whether any node is a hub.
    pub(super) has_hub: bool,
}

// Explicit for the same reason as that of `Engine`.
impl Drop for Lists {
    fn drop(self) {
        let Lists {
            cover: _cover,
            hubs: _hubs,
            clock: _clock,
            cycle: _cycle,
            inner: _inner,
            has_hub: _,
        } = self;
    }
}

impl Lists {
    /// The lists for a graph with these arcs, with room for so many regions. Cost: linear in the nodes and
    /// arcs.
    pub fn new(alloc: Global, arcs: &Adjacency, room: usize) -> Lists {
        let hubs = Hubs::new(alloc, arcs);
        let clock = Clock::new(alloc, arcs.edges(), hubs.len());
        Lists {
            cover: Cover::new(alloc, arcs.nodes(), room),
            hubs,
            clock,
            cycle: Store::new(alloc),
            inner: Store::new(alloc),
            has_hub: has_hub(arcs),
        }
    }

    /// Whether any node has many arcs.
    pub fn has_hub(&self) -> bool {
        self.has_hub
    }

    /// The lists of an engine whose run has come to its end, as they were before.
    pub fn of<'a>(engine: Engine<'a>, has_hub: bool) -> Lists {
        let Parts {
            mut lists,
            forest: _forest,
        } = engine.into_parts();
        lists.has_hub = has_hub;
        lists.cover.clear();
        lists.hubs.forget();
        lists.clock.set(0, NEVER);
        lists
    }

    // An engine over these lists, with these regions, that may do so much work. Hubs are open.
    pub(super) fn engine<'a>(
        self,
        alloc: Global,
        arcs: &'a Adjacency,
        terminals: &'a [u32],
        forest: Forest,
        work: Work,
    ) -> Engine<'a> {
        let Lists {
            cover,
            hubs,
            clock,
            cycle,
            inner,
            has_hub,
        } = self;
        Engine {
            alloc,
            arcs,
            terminals,
            cover,
            forest,
            hubs,
            clock,
            work,
            is_first: false,
            is_open: has_hub,
            head_start: HeadStart::None,
            is_sliced: false,
            batches: Batches::new(alloc),
            rests: 0,
            unpaired: 0,
            cycle,
            inner,
            was_short: false,
        }
    }
}
