// Proposals without cuts: a T-join, and the finished regions as they are.
ghost use Rattle.std.specs.Prelude.{◌≡◌, length, IfOk, IfSome};
ghost use Rattle.sg_work.specs.Counts.{KeepsTo};
ghost use Rattle.sg_regions.specs.Places.{place_count};
ghost use Rattle.sg_regions.specs.Steps.{GrowthAccounts};

use super::grow::{Finished, grow_again, grow_without_cuts};
use super::layout::Layout;
use super::proposal::{accounts, arcs_of, places, reversed, reversed_arcs};
use super::{Grown, Growth, NoMemory};
use sg_graph::{EdgeList, Terminals, Web};
use sg_growth::{Nest, Taken};
use sg_nest::{Place, Places, Region, Regions};
use sg_slots::{Store, entry, number, set_entry};
use std::alloc::Global;

/// Edges that may be a minimum T-join, and a nest of regions that may prove it.
#[derive(Drop)]
pub struct NestProposal {
    pub edges: EdgeList,
    pub nest: sg_nest::Nest,
}

/// Proposes a minimum T-join of the terminals with a nest of regions that proves it, or nothing.
///
/// Nothing is promised of the proposal but the number of steps: a caller has it judged by `sg_nest::proves`.
/// The only error is running out of memory. Without terminals there are no edges and no regions.
///
/// Cost: that of growing the regions, and then time linear in the graph and in the regions. Memory
/// is linear in the graph.
pub fn propose_nest(
    alloc: Global,
    web: &Web,
    terminals: &Terminals,
) -> Result<Grown<Option<NestProposal>>, NoMemory>
    ensures within { IfOk result (λ g. KeepsTo 3 (length terminals.now) (place_count web.now) g.growth) }
    ensures counted { IfOk result (λ g. IfSome g.found
        (λ p. GrowthAccounts (length terminals.now) (length p.nest.regions) g.growth)) }
{
    if terminals.is_empty() {
        return Ok(Grown::ungrown(Some(bare(alloc, web.nodes())?)));
    }
    let mut layout = Layout::once(arcs_of(alloc, web, 2)?);
    propose_over(alloc, web, terminals, &mut layout)
}

// The same of some terminals over the layout of the graph.
pub fn propose_over(
    alloc: Global,
    web: &Web,
    terminals: &Terminals,
    layout: &mut Layout,
) -> Result<Grown<Option<NestProposal>>, NoMemory>
    ensures within { IfOk result (λ g. KeepsTo 3 (length terminals.now) (place_count web.now) g.growth) }
    ensures counted { IfOk result (λ g. IfSome g.found
        (λ p. GrowthAccounts (length terminals.now) (length p.nest.regions) g.growth)) }
{
    let grown = grow_without_cuts(alloc, layout, terminals.as_slice(), places(web))?;
    let found = nest_proposal(alloc, layout, grown.found)?;
    Ok(Grown {
        found: counted(found, grown.growth, terminals.len()),
        growth: grown.growth,
    })
}

/// Proposes again, for a caller whose first proposal was rejected: events of one time are taken in the
/// reverse order, and the regions grow in two halves from the start.
///
/// Nothing more is promised of it either. Cost: at most what [`propose_nest`] takes.
pub fn propose_nest_again(
    alloc: Global,
    web: &Web,
    terminals: &Terminals,
) -> Result<Grown<Option<NestProposal>>, NoMemory>
    ensures within { IfOk result (λ g. KeepsTo 1 (length terminals.now) (place_count web.now) g.growth) }
    ensures counted { IfOk result (λ g. IfSome g.found
        (λ p. GrowthAccounts (length terminals.now) (length p.nest.regions) g.growth)) }
{
    let mut layout = Layout::once(reversed_arcs(alloc, web)?);
    let seeds = reversed(alloc, terminals.as_slice())?;
    let grown = grow_again(alloc, &mut layout, &seeds, places(web))?;
    let found = nest_proposal(alloc, &mut layout, grown.found)?;
    Ok(Grown {
        found: counted(found, grown.growth, terminals.len()),
        growth: grown.growth,
    })
}

// No edges, and no regions over so many nodes.
fn bare(alloc: Global, nodes: u32) -> Result<NestProposal, NoMemory>
    ensures { IfOk result (λ p. length p.nest.regions ≡ 0) }
{
    let places = vec![in alloc; None; nodes as usize]?;
    Ok(NestProposal {
        edges: EdgeList::new(alloc),
        nest: sg_nest::Nest {
            regions: Regions::new(alloc),
            places: Places::from_vec(places),
        },
    })
}

// A proposal from so many terminals whose regions were counted. They always were.
fn counted(found: Option<NestProposal>, growth: Growth, terminals: usize) -> Option<NestProposal>
    ensures { IfSome result (λ p. GrowthAccounts terminals (length p.nest.regions) growth) }
{
    let proposal = found?;
    if !accounts(growth, terminals, proposal.nest.regions.len()) {
        return None;
    }
    Some(proposal)
}

// What finished regions propose.
fn nest_proposal(
    alloc: Global,
    layout: &mut Layout,
    finished: Option<Finished>,
) -> Result<Option<NestProposal>, NoMemory> {
    let Some(Finished { nest, pairs }) = finished else {
        return Ok(None);
    };
    let Some(edges) = layout.join_of(alloc, &nest, pairs.as_slice())? else {
        return Ok(None);
    };
    let nest = handed(alloc, &nest)?;
    Ok(Some(NestProposal { edges, nest }))
}

// A radius where arcs are twice as long as edges weigh, as one where they are four times as long.
fn doubled(radius: i64) -> u64 {
    radius.unsigned_abs().wrapping_mul(2)
}

// The finished regions in their order.
fn handed(alloc: Global, nest: &Nest) -> Result<sg_nest::Nest, NoMemory> {
    let names = names_of(alloc, nest);
    let mut regions = regions_of(alloc, nest, &names.items);
    regions.note(&names);
    let places = places_of(alloc, nest, &names.items);
    Ok(sg_nest::Nest {
        regions: Regions::from_vec(regions.finish()?),
        places: Places::from_vec(places.finish()?),
    })
}

// For each region its number in the order.
fn names_of(alloc: Global, nest: &Nest) -> Store<u32> {
    let mut names = Store::filled(alloc, 0u32, nest.regions() as usize);
    for (place, region) in nest.order().iter().enumerate() {
        set_entry(&mut names.items, *region, number(place));
    }
    names
}

// The number of a region, if there is one.
fn name_in(names: &[u32], region: Option<u32>) -> Option<u32> {
    entry(names, region?)
}

// The regions, parts before what they are parts of.
fn regions_of(alloc: Global, nest: &Nest, names: &[u32]) -> Store<Region> {
    let mut regions = Store::with_room(alloc, nest.order().len());
    for region in nest.order() {
        regions.push(Region {
            parent: name_in(names, nest.parent(*region)),
            radius: doubled(nest.radius(*region)),
        });
    }
    regions
}

// Which region took each node, and at which radius.
fn places_of(alloc: Global, nest: &Nest, names: &[u32]) -> Store<Option<Place>> {
    let mut places = Store::with_room(alloc, nest.nodes() as usize);
    for taken in nest.taken() {
        places.push(place_of(names, taken));
    }
    places
}

// Which region took a node, and at which radius.
fn place_of(names: &[u32], taken: &Taken) -> Option<Place> {
    let region = name_in(names, taken.region.number())?;
    let at = doubled(taken.radius);
    Some(Place { region, at })
}
