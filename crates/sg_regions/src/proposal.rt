ghost use Rattle.std.specs.Prelude.{◌≡◌, ◌+◌, ◌<◌, ◌≤◌, length, IfOk, IfSome, IsTrue};
ghost use Rattle.sg_work.specs.Counts.{KeepsTo};
ghost use Rattle.sg_regions.specs.Places.{place_count};
ghost use Rattle.sg_regions.specs.Steps.{GrowthAccounts};

use super::grow::{Finished, grow, grow_again};
use super::layout::Layout;
use super::{Grown, Growth, NoMemory};
use sg_graph::{Terminals, Web};
use sg_growth::{Adjacency, Edge};
use sg_join_check::Proposal;
use sg_region_ways::{chains_of, join_of};
use std::alloc::{AllocError, Global};

/// Proposes a minimum T-join of the terminals with odd cuts that prove it, or nothing.
///
/// Nothing is promised of the proposal but the number of steps: a caller has it judged by
/// `sg_join_check::proves_least`. The only error is running out of memory.
///
/// Cost: that of growing the regions, and then time linear in the graph, in the cuts, and in the
/// degrees of the nodes that change sides from cut to cut. Memory is linear in the graph and in the
/// cuts.
pub fn propose(
    alloc: Global,
    web: &Web,
    terminals: &Terminals,
) -> Result<Grown<Option<Proposal>>, NoMemory>
    ensures within { IfOk result (λ g. KeepsTo 2 (length terminals.now) (place_count web.now) g.growth) }
    ensures counted { IfOk result (λ g. IfSome g.found (λ _. GrowthAccounts (length terminals.now) 0 g.growth)) }
{
    let mut layout = Layout::once(arcs_of(alloc, web, 2)?);
    let grown = grow(alloc, &mut layout, terminals.as_slice(), places(web))?;
    let found = proposal(alloc, &layout.arcs, grown.found, web.edges().len())?;
    Ok(Grown {
        found: if accounts(grown.growth, terminals.len(), 0) {
            found
        } else {
            None
        },
        growth: grown.growth,
    })
}

/// Proposes again, for a caller whose first proposal was rejected: events of one time are taken in the
/// reverse order, and the regions grow in two halves from the start.
///
/// Nothing more is promised of it either. Cost: at most what [`propose`] takes.
pub fn propose_again(
    alloc: Global,
    web: &Web,
    terminals: &Terminals,
) -> Result<Grown<Option<Proposal>>, NoMemory>
    ensures within { IfOk result (λ g. KeepsTo 1 (length terminals.now) (place_count web.now) g.growth) }
    ensures counted { IfOk result (λ g. IfSome g.found (λ _. GrowthAccounts (length terminals.now) 0 g.growth)) }
{
    let mut layout = Layout::once(reversed_arcs(alloc, web)?);
    let seeds = reversed(alloc, terminals.as_slice())?;
    let grown = grow_again(alloc, &mut layout, &seeds, places(web))?;
    let found = proposal(alloc, &layout.arcs, grown.found, web.edges().len())?;
    Ok(Grown {
        found: if accounts(grown.growth, terminals.len(), 0) {
            found
        } else {
            None
        },
        growth: grown.growth,
    })
}

// The nodes and the ends of edges, counted together.
pub fn places(web: &Web) -> u64
    ensures { result ≡ place_count web.now }
{
    u64::from(web.nodes()) + 2 * (web.edges().len() as u64)
}

// Whether the least that so many regions from so many terminals take was counted. It always was.
pub fn accounts(growth: Growth, terminals: usize, regions: usize) -> bool
    ensures { IsTrue result → GrowthAccounts terminals regions growth }
{
    regions as u64 <= (terminals as u64).saturating_add(growth.blossoms)
        && (terminals == 0 || growth.events > 0)
}

// What finished regions over so many edges propose.
fn proposal(
    alloc: Global,
    arcs: &Adjacency,
    finished: Option<Finished>,
    count: usize,
) -> Result<Option<Proposal>, NoMemory> {
    let Some(Finished { mut nest, pairs }) = finished else {
        return Ok(None);
    };
    let Some(edges) = join_of(alloc, arcs, &nest, pairs.as_slice(), count)? else {
        return Ok(None);
    };
    nest.weigh(alloc);
    if nest.is_short() {
        return Err(AllocError);
    }
    let chains = chains_of(alloc, arcs, &nest, count)?;
    Ok(Some(Proposal {
        edges,
        cuts: chains.cuts,
        growths: chains.growths,
        nodes: chains.nodes,
    }))
}

// The terminals, the last one first.
pub fn reversed(alloc: Global, terminals: &[u32]) -> Result<Vec<u32>, NoMemory>
    ensures { IfOk result (λ seeds. length seeds.items ≡ length terminals.now) }
{
    let mut seeds = Vec::from_slice(alloc, terminals)?;
    seeds.reverse();
    Ok(seeds)
}

// The arcs, twice as long as edges weigh, those that leave a node in the opposite order.
pub fn reversed_arcs(alloc: Global, web: &Web) -> Result<Adjacency, NoMemory> {
    let mut arcs = arcs_of(alloc, web, 2)?;
    arcs.reverse_arcs();
    Ok(arcs)
}

/// The arcs between the nodes, each so many times as long as its edge weighs. An edge to itself has
/// none. The only error is running out of memory.
pub fn arcs_of(alloc: Global, web: &Web, times: i64) -> Result<Adjacency, NoMemory> {
    let edges = web.edges().as_slice();
    let mut list = Vec::with_capacity(alloc, edges.len())?;
    for edge in edges {
        list.push(Edge {
            first: edge.a,
            second: edge.b,
            length: edge.w.wrapping_mul(times),
        })?;
    }
    Adjacency::new(alloc, web.nodes(), list)
}
