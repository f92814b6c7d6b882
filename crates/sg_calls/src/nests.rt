// Nests of regions as four lists of numbers.
ghost use Rattle.std.specs.Prelude.{◌≡◌, length, map, None, IfOk, IfErr, OnOk};
ghost use Rattle.sg_calls.specs.Proofs.{AreRowsOf, lists_fault, nest_given, nest_lists, nest_said, parent_number, place_numbered, place_radius, place_region, places_said, region_numbered, regions_said};

use sg_draft::{Member, bad_member};
use sg_model::Refusal;
use sg_nest::{Nest, Place, Places, Region, Regions};
use std::alloc::{AllocError, Global};

// The number that means no region.
const NONE: u32 = u32::MAX;

/// For each region its parent and its radius, for each face its region and the radius at which that
/// took it.
#[derive(Drop)]
pub struct NestRows {
    pub parents: Vec<u32>,
    pub radii: Vec<u64>,
    pub regions: Vec<u32>,
    pub at_radii: Vec<u64>,
}

/// The same as a caller gives it.
#[derive(Drop)]
pub struct GivenNest<'a> {
    pub parents: &'a [u32],
    pub radii: &'a [u64],
    pub regions: &'a [u32],
    pub at_radii: &'a [u64],
}

/// The nest that there may be as rows, none where there is none.
pub fn rows_of_nest(alloc: Global, nest: &Option<Nest>) -> Result<NestRows, AllocError>
    ensures { IfOk result (λ rows. AreRowsOf (nest_lists rows.parents.items rows.radii.items rows.regions.items rows.at_radii.items) nest.now) }
{
    match nest {
        Some(nest) => nest_rows(alloc, nest.regions.as_slice(), nest.places.as_slice()),
        None => nest_rows(alloc, &[], &[]),
    }
}

// The regions and the places of a nest as rows.
fn nest_rows(
    alloc: Global,
    regions: &[Region],
    places: &[Option<Place>],
) -> Result<NestRows, AllocError>
    ensures parents { IfOk result (λ rows. rows.parents.items ≡ map parent_number regions.now) }
    ensures radii { IfOk result (λ rows. rows.radii.items ≡ map (λ region. region.radius) regions.now) }
    ensures regions { IfOk result (λ rows. rows.regions.items ≡ map place_region places.now) }
    ensures at_radii { IfOk result (λ rows. rows.at_radii.items ≡ map place_radius places.now) }
{
    Ok(NestRows {
        parents: parents_of(alloc, regions)?,
        radii: radii_of(alloc, regions)?,
        regions: regions_of(alloc, places)?,
        at_radii: at_radii_of(alloc, places)?,
    })
}

// The parents of regions.
fn parents_of(alloc: Global, regions: &[Region]) -> Result<Vec<u32>, AllocError>
    ensures { IfOk result (λ list. list.items ≡ map parent_number regions.now) }
{
    regions
        .iter()
        .map(|region| region.parent.unwrap_or(NONE))
        .collect(alloc)
}

// The radii of regions.
fn radii_of(alloc: Global, regions: &[Region]) -> Result<Vec<u64>, AllocError>
    ensures { IfOk result (λ list. list.items ≡ map (λ region. region.radius) regions.now) }
{
    regions.iter().map(|region| region.radius).collect(alloc)
}

// The regions of places.
fn regions_of(alloc: Global, places: &[Option<Place>]) -> Result<Vec<u32>, AllocError>
    ensures { IfOk result (λ list. list.items ≡ map place_region places.now) }
{
    places
        .iter()
        .map(|place| place.map_or(NONE, |p| p.region))
        .collect(alloc)
}

// The radii at which places were taken.
fn at_radii_of(alloc: Global, places: &[Option<Place>]) -> Result<Vec<u64>, AllocError>
    ensures { IfOk result (λ list. list.items ≡ map place_radius places.now) }
{
    places
        .iter()
        .map(|place| place.map_or(0, |p| p.at))
        .collect(alloc)
}

/// The nest of these lists. Whether it is one is not asked.
pub fn nest_by(alloc: Global, given: &GivenNest) -> Result<Nest, AllocError>
    requires radii { length given.now.radii.now ≡ length given.now.parents.now }
    requires at_radii { length given.now.at_radii.now ≡ length given.now.regions.now }
    ensures { IfOk result (λ nest. nest ≡ nest_said (nest_given given.now)) }
{
    Ok(Nest {
        regions: regions_by(alloc, given.parents, given.radii)?,
        places: places_by(alloc, given.regions, given.at_radii)?,
    })
}

// The regions with these parents and radii.
fn regions_by(alloc: Global, parents: &[u32], radii: &[u64]) -> Result<Regions, AllocError>
    requires { length radii.now ≡ length parents.now }
    ensures { IfOk result (λ list. list ≡ regions_said parents.now radii.now) }
{
    let mut list = Regions::new(alloc);
    for r in 0..parents.len() {
        list.push(region_by(parents[r], radii[r]))?;
    }
    Ok(list)
}

// The region with this parent and this radius.
fn region_by(parent: u32, radius: u64) -> Region
    ensures { result ≡ region_numbered parent radius }
{
    let parent = if parent == NONE { None } else { Some(parent) };
    Region { parent, radius }
}

// The places in these regions at these radii.
fn places_by(alloc: Global, regions: &[u32], at_radii: &[u64]) -> Result<Places, AllocError>
    requires { length at_radii.now ≡ length regions.now }
    ensures { IfOk result (λ list. list ≡ places_said regions.now at_radii.now) }
{
    let mut list = Places::new(alloc);
    for x in 0..regions.len() {
        list.push(place_by(regions[x], at_radii[x]))?;
    }
    Ok(list)
}

// The place in this region at this radius; none where the number stands for none, and the radius is 0.
fn place_by(region: u32, at: u64) -> Option<Place>
    ensures { result ≡ place_numbered region at }
{
    if region == NONE && at == 0 {
        None
    } else {
        Some(Place { region, at })
    }
}

/// The tests of the lists.
///
/// # Errors
/// `BadMember` for the first of them that has not an entry for each region or for each face.
pub fn check_lists(given: &GivenNest) -> Result<(), Refusal>
    ensures passes { OnOk result (lists_fault (nest_given given.now) ≡ None) }
    ensures radii { OnOk result (length given.now.radii.now ≡ length given.now.parents.now) }
    ensures at_radii { OnOk result (length given.now.at_radii.now ≡ length given.now.regions.now) }
    ensures refuses { IfErr result (λ e. lists_fault (nest_given given.now) ≡ Some e) }
{
    if given.radii.len() != given.parents.len() {
        return Err(bad_member(Member::Radii));
    }
    if given.at_radii.len() != given.regions.len() {
        return Err(bad_member(Member::FaceRadii));
    }
    Ok(())
}
