//! The postman's tour: a closed walk of least weight over every edge of a connected weighted graph (Guan
//! 1960), with the odd cuts that prove it (Edmonds and Johnson 1973).
//!
//! For routing and inspection of networks: a street to be swept, a pipe to be inspected or a track to be
//! tested is an edge, and it weighs what it costs to go along it once, in whole units of your choice.
//! [`tour`] gives the order in which to go, from node 0 back to it. It goes along each edge once or
//! twice: those that it takes twice are a minimum set of edges that makes all degrees even. The cuts
//! show without trust in the search that no round could cost less: each consists of all edges out of
//! some part of the network with an odd number of odd nodes, where a round goes twice.
//!
//! For the next engineer: `degrees` finds the nodes of odd degree, `sg_tjoin` a minimum T-join of them,
//! `doubling` says how often each edge is used, and `hierholzer` goes along all these copies (Hierholzer
//! 1873), in time linear in them. The proof that no closed walk weighs less ([`closed_walks_weigh`])
//! decomposes no walk: the edges that a closed walk uses an even number of times are a T-join of the
//! nodes of odd degree, and it uses each of them at least twice.
#![tactic(auto)]

mod degrees;
mod doubling;
mod hierholzer;
mod law;
mod steps;

ghost use Rattle.std.specs.Prelude.{◌≤◌, IfOk};
ghost use Rattle.sg_graph.specs.Walk.{IsConnectedWeb};
ghost use Rattle.sg_graph.specs.Web.{total_weight};
ghost use Rattle.sg_base.specs.Limits.{forced_limit};
ghost use Rattle.sg_postman.specs.Tour.{IsLeastTour};

use degrees::odd_nodes;
use doubling::{all_weight, copies};
use hierholzer::trace;
pub use law::closed_walks_weigh;
use sg_graph::Web;
use sg_tjoin::least_join;
use std::alloc::{AllocError, Global};
pub use steps::{Step, TourAnswer, TourSteps};

/// The allocator had no memory left.
pub type NoMemory = AllocError;

/// A closed walk from node 0 over every edge than which none weighs less, its weight, and the odd cuts
/// that prove it.
///
/// It uses each edge once or twice. The cuts are a packing for the nodes of odd degree, and weigh
/// twice as much as the edges that it uses twice. A graph without edges has a tour without steps.
///
/// Cost: that of `sg_tjoin::least_join` for the nodes of odd degree, and time and memory linear in
/// nodes and edges beside it.
pub fn tour(alloc: Global, web: &Web) -> Result<TourAnswer, NoMemory>
    requires connected { IsConnectedWeb web.now }
    requires light { total_weight web.now ≤ forced_limit }
    ensures { IfOk result (λ t. IsLeastTour web.now t.weight t.steps t.cuts) }
{
    let edges = web.edges().as_slice();
    let terminals = odd_nodes(alloc, web)?;
    let join = least_join(alloc, web, &terminals)?;
    let mut left = copies(alloc, edges.len(), join.edges.as_slice())?;
    let steps = trace(alloc, web, &mut left)?;
    Ok(TourAnswer {
        weight: all_weight(edges) + join.weight,
        steps: TourSteps::from_vec(steps),
        cuts: join.cuts,
    })
}
