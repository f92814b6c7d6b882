// What growing regions need of a graph alone.
use super::NoMemory;
use super::proposal::arcs_of;
use sg_graph::{EdgeList, Web};
use sg_growth::{Adjacency, Nest, Pair, first_dart};
use sg_region_engine::{HeadStart, Lists, Method};
use sg_region_ways::Joining;
use sg_slots::number;
use std::alloc::Global;

// Lengths are uneven where the longest is more than so many times the mean.
const EVEN: i64 = 8;

// Lengths are fine from this mean on.
const FINE: i64 = 8;

// Many arcs are the shortest where at least this part of all are.
const MANY: u32 = 8;

// The arcs of a graph, how long they are, and the lists of the last proposal, if they are kept for the next one.
pub struct Layout {
    pub arcs: Adjacency,
    pub lengths: Lengths,
    keeps: bool,
    lists: Option<Lists>,
    joining: Option<Joining>,
}

impl Drop for Layout {
    fn drop(self) {
        let Layout {
            arcs: _arcs,
            lengths: _,
            keeps: _,
            lists: _lists,
            joining: _joining,
        } = self;
    }
}

impl Layout {
    // For one proposal: each run takes lists of its own.
    pub fn once(arcs: Adjacency) -> Layout {
        Layout {
            lengths: Lengths::of(&arcs),
            arcs,
            keeps: false,
            lists: None,
            joining: None,
        }
    }

    // For one proposal after another: lists are kept.
    pub fn kept(alloc: Global, web: &Web) -> Result<Layout, NoMemory> {
        let mut layout = Layout::once(arcs_of(alloc, web, 2)?);
        layout.keeps = true;
        Ok(layout)
    }

    // How terminals grow at first. The method that is the reserve shares with the others as little as it can.
    pub fn head_start(&self, method: Method) -> HeadStart {
        match method {
            Method::InClosedHalves => HeadStart::None,
            Method::InSlices => HeadStart::Each,
            Method::AtOnce | Method::InHalves => self.lengths.head_start(),
        }
    }

    // Whether lists are kept.
    pub fn keeps(&self) -> bool {
        self.keeps
    }

    // The lists of the last run, or new ones with room for so many regions.
    pub fn take_lists(&mut self, alloc: Global, room: usize) -> Lists {
        match self.lists.take() {
            Some(lists) => lists,
            None => Lists::new(alloc, &self.arcs, room),
        }
    }

    // Keeps the lists of a run, if there are any.
    pub fn keep(&mut self, lists: Option<Lists>) {
        self.lists = lists;
    }

    // The edges between the mates of finished regions, if all ways are found.
    pub fn join_of(
        &mut self,
        alloc: Global,
        nest: &Nest,
        pairs: &[Pair],
    ) -> Result<Option<EdgeList>, NoMemory> {
        let mut joining = match self.joining.take() {
            Some(joining) => joining,
            None => Joining::new(alloc, self.arcs.nodes(), self.arcs.darts() / 2),
        };
        let edges = joining.join_of(alloc, &self.arcs, nest, pairs)?;
        if self.keeps {
            self.joining = Some(joining);
        }
        Ok(edges)
    }
}

// How long edges are: on average, at most and at least, and how many are the shortest.
#[derive(Clone, Copy)]
pub struct Lengths {
    edges: u32,
    mean: i64,
    longest: i64,
    shortest: i64,
    shortest_count: u32,
}

impl Lengths {
    // The lengths of all edges.
    fn of(arcs: &Adjacency) -> Lengths {
        let mut sum = 0i64;
        let mut longest = 0i64;
        let mut shortest = i64::MAX;
        let mut shortest_count = 0u32;
        let edges = number(arcs.darts() / 2);
        for edge in 0..edges {
            let length = arcs.arc(first_dart(edge)).length;
            sum = sum.wrapping_add(length);
            longest = longest.max(length);
            if length < shortest {
                shortest = length;
                shortest_count = 0;
            }
            shortest_count = shortest_count.wrapping_add(u32::from(length == shortest));
        }
        let mean = if edges > 0 { sum / i64::from(edges) } else { 0 };
        Lengths {
            edges,
            mean,
            longest,
            shortest,
            shortest_count,
        }
    }

    // How terminals grow at first: to half of the shortest edge, where many of them meet then.
    pub fn head_start(self) -> HeadStart {
        if self.shortest_count < self.edges / MANY {
            return HeadStart::Each;
        }
        HeadStart::Alike(self.shortest / 2)
    }

    // Whether edges are of very different lengths.
    pub fn are_uneven(self) -> bool {
        self.longest / EVEN > self.mean
    }

    // Whether few events come at one time. Events at one time come in the order in which they were entered, so
    // many of them cause few cache misses anyway.
    pub fn are_fine(self) -> bool {
        self.mean >= FINE
    }
}
