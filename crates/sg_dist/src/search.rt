ghost use Rattle.std.specs.Prelude.{◌≡◌, ◌+◌, ◌<◌, ◌≤◌, [], IfOk, OnOk};
ghost use Rattle.std.specs.BinaryHeap.{KeepsHeap, heap_items, heap_len};
ghost use Rattle.sg_graph.specs.Web.{edge_count};
ghost use Rattle.sg_graph.specs.Incidence.{AreIncident};
ghost use Rattle.sg_graph.specs.Table.{IsTableOf, length_to};
ghost use Rattle.sg_dist.specs.Order.{nearest_last};
ghost use Rattle.sg_dist.specs.Search.{Searches, Spreads, candidates};

use super::NoMemory;
use super::candidate::Candidate;
use sg_graph::{Incidence, Table, Web};
use std::alloc::Global;
use std::cmp::Reverse;
use std::collections::BinaryHeap;

/// The distances of all nodes from the source (Dijkstra 1959).
///
/// Cost: `(n + m) log m` in time for `n` nodes and `m` edges, and memory for `m` candidates and the
/// incidence lists beside the table. For several sources see [`distances_over`].
pub fn distances(alloc: Global, web: &Web, source: u32) -> Result<Table, NoMemory>
    requires { source < web.now.nodes }
    ensures table { IfOk result (IsTableOf web.now) }
    ensures source { IfOk result (λ t. t.source ≡ source) }
{
    let incidence = Incidence::new(alloc, web)?;
    distances_over(alloc, web, &incidence, source)
}

/// The same over the incidence lists of the graph, so that searches from many sources share them.
///
/// Each edge out of the nodes found gives a candidate. The least candidate is taken from the heap
/// again and again; one whose node was found meanwhile is dropped.
///
/// Cost: as [`distances`], but for the incidence lists.
pub fn distances_over(
    alloc: Global,
    web: &Web,
    incidence: &Incidence,
    source: u32,
) -> Result<Table, NoMemory>
    requires source { source < web.now.nodes }
    requires incidence { AreIncident web.now incidence.now }
    ensures table { IfOk result (IsTableOf web.now) }
    ensures source { IfOk result (λ t. t.source ≡ source) }
{
    let mut table = Table::new(alloc, web.nodes(), source)?;
    let mut heap = BinaryHeap::new(alloc);
    spread(web, incidence, &table, source, 0, &mut heap)?;
    while let Some(Reverse(candidate)) = heap.pop() {
        let Candidate {
            distance,
            node,
            edge,
        } = candidate;
        if !table.reached(node) {
            table.set(node, distance as i64, edge);
            spread(web, incidence, &table, node, distance, &mut heap)?;
        }
    }
    Ok(table)
}

// Gives a candidate for each edge at the latest node that leads to a node not found yet.
fn spread(
    web: &Web,
    incidence: &Incidence,
    table: &Table,
    node: u32,
    distance: u64,
    heap: &mut BinaryHeap<Reverse<Candidate>>,
) -> Result<(), NoMemory>
    requires incident { AreIncident web.now incidence.now }
    requires distance { distance ≡ length_to table.now node }
    requires latest { Spreads web.now table.now (candidates (heap_items heap.old)) node [] }
    ensures spread { OnOk result (Searches web.now table.now (candidates (heap_items heap.new))) }
    ensures order { OnOk result (KeepsHeap nearest_last (heap_items heap.old) (heap_items heap.new)) }
    ensures few { OnOk result (heap_len heap.new ≤ heap_len heap.old + edge_count web.now) }
{
    let edges = web.edges().as_slice();
    let edges_here = incidence.at(node);
    for k in edges_here {
        let edge = edges[*k as usize];
        let other = edge.other(node);
        if !table.reached(other) {
            heap.push(Reverse(Candidate {
                distance: distance + edge.w.unsigned_abs(),
                node: other,
                edge: *k,
            }))?;
        }
    }
    Ok(())
}
