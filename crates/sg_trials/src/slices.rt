// Trees that grow in slices of time, beside trees that all grow at once.

ghost use Rattle.sg_graph.specs.Join.{AreTerminals};
ghost use Rattle.sg_graph_text.specs.Network.{IsNetwork};

use super::facts::expect;
use super::graphs::{Family, drawn};
use rand_pcg::Pcg32;
use sg_graph::{EdgeList, Terminals, Web};
use sg_graph_text::Network;
use sg_growth::Adjacency;
use sg_nest::proves;
use sg_region_engine::{Engine, Method};
use sg_region_ways::join_of;
use sg_regions::{arcs_of, propose_nest};
use sg_work::Allowance;
use std::alloc::{AllocError, Global};
use std::process::Abort;
use std::test::Fail;

// With no more terminals all trees grow at once.
const BATCH: usize = 1024;

// The T-join of the regions of an engine, which is run.
fn run(
    alloc: Global,
    arcs: &Adjacency,
    engine: &mut Engine,
) -> Result<Option<EdgeList>, AllocError> {
    if !engine.run()? {
        return Ok(None);
    }
    let pairs = engine.pairs()?;
    let nest = engine.nest()?;
    join_of(alloc, arcs, &nest, pairs.as_slice(), arcs.edges())
}

// The T-join of regions that grow in slices of time.
fn sliced(alloc: Global, web: &Web, terminals: &Terminals) -> Result<Option<EdgeList>, AllocError> {
    let arcs = arcs_of(alloc, web, 2)?;
    let places = (arcs.nodes() as u64).saturating_add(arcs.darts() as u64);
    let allowed = Allowance::sliced(terminals.len(), places);
    let seeds = terminals.as_slice();
    let mut engine = Engine::new(alloc, &arcs, seeds, Method::InSlices, allowed)?;
    run(alloc, &arcs, &mut engine)
}

// Whether there is a proposal, and its nest of regions that grew at once proves the T-join minimum.
fn is_least(
    alloc: Global,
    web: &Web,
    terminals: &Terminals,
    edges: &EdgeList,
) -> Result<bool, AllocError>
    requires { AreTerminals web.now terminals.now }
{
    match propose_nest(alloc, web, terminals)?.found {
        Some(proposal) => proves(alloc, web, terminals, edges, &proposal.nest),
        None => Ok(false),
    }
}

// Whether there is a T-join of regions that grow in slices of time, and it is minimum.
fn has_least(alloc: Global, network: &Network) -> Result<bool, AllocError>
    requires { IsNetwork network.now.web network.now.terminals }
{
    let (web, terminals) = (&network.web, &network.terminals);
    match sliced(alloc, web, terminals)? {
        Some(edges) => is_least(alloc, web, terminals, &edges),
        None => Ok(false),
    }
}

// There is such a T-join of a drawn grid. Whether there were slices.
fn assert_sliced(
    rt: &impl Abort,
    alloc: Global,
    rows: u32,
    law: u32,
    draws: &mut Pcg32,
) -> Result<bool, AllocError> {
    let grid = Family::Grid { rows, cols: 45 };
    let network = drawn(rt, alloc, grid, law, draws)?;
    let is_least = has_least(alloc, &network)?;
    expect(rt, "a minimum T-join", is_least);
    Ok(network.terminals.len() > BATCH)
}

#[test]
fn slices(rt: HostRuntime) -> Result<(), Fail> {
    let mut draws = Pcg32::new(55, 54);
    let mut count = 0u32;
    for trial in 0..12u32 {
        if assert_sliced(&rt, rt.alloc(), 33 + trial, trial % 4 + 1, &mut draws)? {
            count = count.saturating_add(1);
        }
    }
    expect(&rt, "number of runs with slices", count >= 3);
    Ok(())
}
