// Regions that grow until each terminal has a mate.
ghost use Rattle.std.specs.Prelude.{◌≡◌, ◌≤◌, length, IfOk};
ghost use Rattle.sg_work.specs.Counts.{KeepsTo, event_limit, growth_limit};

use super::layout::Layout;
use super::{Grown, NoMemory};
use sg_growth::{Adjacency, Nest, Pair, first_dart};
use sg_region_engine::{Engine, Lists, Method};
use sg_slots::number;
use sg_work::{Allowance, Growth};
use std::alloc::Global;

// With more terminals, trees may grow in slices.
const MOST_AT_ONCE: usize = 16384;

// Two numbers are near if they differ by at most this part of all. At most this part of the edges may be far.
const NEAR: u32 = 64;

const FAR: u32 = 16;

/// The finished regions, and the pairs of mates.
#[derive(Drop)]
pub struct Finished {
    pub nest: Nest,
    pub pairs: Vec<Pair>,
}

// The regions that have grown from the terminals until each has a mate, with the pairs; none where the
// work ran out, or something is met that should not be.
#[tactic(auto, using(crate::proofs::Runs::keeps_to_and))]
pub fn grow(
    alloc: Global,
    layout: &mut Layout,
    terminals: &[u32],
    places: u64,
) -> Result<Grown<Option<Finished>>, NoMemory>
    ensures { IfOk result (λ g. KeepsTo 2 (length terminals.now) places g.growth) }
{
    let brief = Allowance::brief(terminals.len(), places);
    let first = grow_by(alloc, layout, terminals, places, Method::AtOnce, brief)?;
    if first.found.is_some() {
        return Ok(first);
    }
    let long = Allowance::long(terminals.len(), places);
    let second = grow_by(alloc, layout, terminals, places, Method::InHalves, long)?;
    Ok(Grown {
        found: second.found,
        growth: first.growth.and(second.growth),
    })
}

// The same for callers that need no cuts.
//
// Where lengths are uneven, trees are large before the long edges come into play, and most blossoms would be made
// only to be taken apart again. In two halves most of them are never made; but blossoms come late there, so cuts are
// larger. On a large graph in which neighbours have near numbers, slices of time save cache misses.
#[tactic(auto, using(crate::proofs::Runs::keeps_to_more, crate::proofs::Runs::keeps_to_and))]
pub fn grow_without_cuts(
    alloc: Global,
    layout: &mut Layout,
    terminals: &[u32],
    places: u64,
) -> Result<Grown<Option<Finished>>, NoMemory>
    ensures { IfOk result (λ g. KeepsTo 3 (length terminals.now) places g.growth) }
{
    let first = grow_first(alloc, layout, terminals, places)?;
    if first.found.is_some() {
        return Ok(first);
    }
    let others = grow(alloc, layout, terminals, places)?;
    Ok(Grown {
        found: others.found,
        growth: first.growth.and(others.growth),
    })
}

// The regions grown again, with terminals and arcs in the reverse order, in two halves from the
// start and with closed hubs, so that the retry differs in more than its ties.
pub fn grow_again(
    alloc: Global,
    layout: &mut Layout,
    terminals: &[u32],
    places: u64,
) -> Result<Grown<Option<Finished>>, NoMemory>
    ensures { IfOk result (λ g. KeepsTo 1 (length terminals.now) places g.growth) }
{
    let long = Allowance::long(terminals.len(), places);
    grow_by(
        alloc,
        layout,
        terminals,
        places,
        Method::InClosedHalves,
        long,
    )
}

// A run by a method that suits the graph better than all trees at once, if there is one.
fn grow_first(
    alloc: Global,
    layout: &mut Layout,
    terminals: &[u32],
    places: u64,
) -> Result<Grown<Option<Finished>>, NoMemory>
    ensures { IfOk result (λ g. KeepsTo 1 (length terminals.now) places g.growth) }
{
    let lengths = layout.lengths;
    if lengths.are_uneven() {
        let brief = Allowance::brief(terminals.len(), places);
        return grow_by(alloc, layout, terminals, places, Method::InHalves, brief);
    }
    if terminals.len() > MOST_AT_ONCE && lengths.are_fine() && are_near(&layout.arcs) {
        let sliced = Allowance::sliced(terminals.len(), places);
        return grow_by(alloc, layout, terminals, places, Method::InSlices, sliced);
    }
    Ok(Grown::ungrown(None))
}

// Whether most edges join nodes of near numbers, as those of a lattice do.
fn are_near(arcs: &Adjacency) -> bool {
    let apart = number(arcs.nodes()) / NEAR;
    let edges = number(arcs.darts() / 2);
    let mut far = 0u32;
    for edge in 0..edges {
        let dart = first_dart(edge);
        if arcs.start(dart).abs_diff(arcs.arc(dart).to) > apart {
            far = far.wrapping_add(1);
        }
    }
    far <= edges / FAR
}

// The same in one run, by a method and with what is allowed.
fn grow_by(
    alloc: Global,
    layout: &mut Layout,
    terminals: &[u32],
    places: u64,
    method: Method,
    allowed: Allowance,
) -> Result<Grown<Option<Finished>>, NoMemory>
    requires blossoms { allowed.blossoms ≤ growth_limit (length terminals.now) }
    requires events { allowed.work ≤ event_limit (length terminals.now) places }
    ensures { IfOk result (λ g. KeepsTo 1 (length terminals.now) places g.growth) }
{
    let lists = layout.take_lists(alloc, terminals.len());
    let ran = run_over(alloc, layout, lists, terminals, method, allowed)?;
    layout.keep(ran.lists);
    Ok(ran.grown)
}

// What has grown in a run, and its lists, if they are kept.
#[derive(Drop)]
struct Ran {
    grown: Grown<Option<Finished>>,
    lists: Option<Lists>,
}

// The same over these lists.
fn run_over(
    alloc: Global,
    layout: &Layout,
    lists: Lists,
    terminals: &[u32],
    method: Method,
    allowed: Allowance,
) -> Result<Ran, NoMemory>
    ensures blossoms { IfOk result (λ r. r.grown.growth.blossoms ≤ allowed.blossoms) }
    ensures events { IfOk result (λ r. r.grown.growth.events ≤ allowed.work) }
{
    let has_hub = lists.has_hub();
    let keeps = layout.keeps();
    let arcs = &layout.arcs;
    let mut engine = Engine::over(alloc, lists, arcs, terminals, method, allowed)?;
    engine.set_head_start(layout.head_start(method));
    let found = run_to_end(&mut engine, keeps)?;
    let grown = settled(found, engine.growth(), allowed);
    let lists = lists_of(engine, has_hub, keeps && grown.found.is_some());
    Ok(Ran { grown, lists })
}

// What was found, and what was done for it. The engine counts, so it never does more than is allowed. A run that did
// would have found nothing, and would count as all that is allowed.
fn settled(found: Option<Finished>, growth: Growth, allowed: Allowance) -> Grown<Option<Finished>>
    ensures blossoms { result.growth.blossoms ≤ allowed.blossoms }
    ensures events { result.growth.events ≤ allowed.work }
    ensures kept { (growth.blossoms ≤ allowed.blossoms) × (growth.events ≤ allowed.work) → result.growth ≡ growth }
{
    if growth.is_within(allowed) {
        return Grown { found, growth };
    }
    let all = Growth {
        blossoms: allowed.blossoms,
        events: allowed.work,
    };
    Grown {
        found: None,
        growth: all,
    }
}

// The lists of an engine, if they are kept.
fn lists_of(engine: Engine, has_hub: bool, keeps: bool) -> Option<Lists> {
    if !keeps {
        return None;
    }
    Some(Lists::of(engine, has_hub))
}

// What has grown at the end of a run, if it comes to its end. Waiting events and trees are dropped before the nest
// is made, unless lists are kept: all regions are free then, so the time no longer matters.
fn run_to_end(engine: &mut Engine, keeps: bool) -> Result<Option<Finished>, NoMemory> {
    if !engine.run()? {
        return Ok(None);
    }
    let pairs = engine.pairs()?;
    if !keeps {
        engine.end();
    }
    let nest = engine.nest()?;
    Ok(Some(Finished { nest, pairs }))
}
