// The bonds that a nest shows to be rigid, by the room that it leaves at them.
use super::NoMemory;
use super::lists::entry_or;
use super::sheet::{Sheet, first_dart, second_dart};
use sg_model::Instance;
use sg_nest::{Nest, Place, Region};
use sg_planar::names;
use sg_slots::{Store, entry, number, set_entry};
use std::alloc::Global;

// The radii of each region and of all that it is a part of.
fn heights_of(alloc: Global, regions: &[Region]) -> Store<u64> {
    let mut heights = Store::filled(alloc, 0u64, regions.len());
    for back in 0..regions.len() {
        let place = number(regions.len().saturating_sub(back).saturating_sub(1));
        if let Some(region) = entry(regions, place) {
            let over = height_over(&heights.items, region.parent);
            set_entry(&mut heights.items, place, over.wrapping_add(region.radius));
        }
    }
    heights
}

// The height of a region, if there is one.
fn height_over(heights: &[u64], region: Option<u32>) -> u64 {
    match region {
        Some(region) => entry_or(heights, region, 0),
        None => 0,
    }
}

// The region that a region is a part of.
fn parent_of(regions: &[Region], region: u32) -> Option<u32> {
    match entry(regions, region) {
        Some(found) => found.parent,
        None => None,
    }
}

// The least region that has both of two regions as parts, if there is one. A part stands before what it is a part
// of.
fn common(regions: &[Region], one: u32, other: u32) -> Option<u32> {
    let mut low = one.min(other);
    let mut high = one.max(other);
    for _ in 0..regions.len().saturating_mul(2) {
        if low == high {
            return Some(low);
        }
        let Some(up) = parent_of(regions, low) else {
            return None;
        };
        low = up.min(high);
        high = up.max(high);
    }
    None
}

// The height over a node.
fn height_at(heights: &[u64], place: Option<Place>) -> u64 {
    match place {
        Some(place) => height_over(heights, Some(place.region)).wrapping_sub(place.at),
        None => 0,
    }
}

// What two nodes have in common: the radii over both.
fn shared(regions: &[Region], heights: &[u64], one: Option<Place>, other: Option<Place>) -> u64 {
    match (one, other) {
        (Some(one), Some(other)) => shared_by(regions, heights, one, other),
        _ => 0,
    }
}

// The same of two nodes that regions took.
fn shared_by(regions: &[Region], heights: &[u64], one: Place, other: Place) -> u64 {
    let Some(region) = common(regions, one.region, other.region) else {
        return 0;
    };
    let lacking = lack(one, region).max(lack(other, region));
    height_over(heights, Some(region)).wrapping_sub(lacking)
}

// What a region had grown before it took the node.
fn lack(place: Place, region: u32) -> u64 {
    if place.region == region { place.at } else { 0 }
}

// The place of a node.
fn place_at(places: &[Option<Place>], node: u32) -> Option<Place> {
    entry_or(places, node, None)
}

/// For each spin the least spin of those that it is joined to by bonds that nothing breaks and at which the nest leaves
/// room.
pub fn names_by_room(
    alloc: Global,
    inst: &Instance,
    sheet: &Sheet,
    broken: &Store<bool>,
    nest: &Nest,
) -> Result<Vec<u32>, NoMemory> {
    let set = bonds_with_room(alloc, sheet, broken, nest).finish()?;
    if set.len() != inst.bonds().len() {
        return Ok(Vec::new(alloc));
    }
    names(alloc, inst, &set)
}

// For each bond whether nothing breaks it and the nest leaves room at it.
fn bonds_with_room(alloc: Global, sheet: &Sheet, broken: &Store<bool>, nest: &Nest) -> Store<bool> {
    let heights = heights_of(alloc, nest.regions.as_slice());
    let mut set = Store::new(alloc);
    set.note(broken);
    set.note(&heights);
    for bond in 0..number(sheet.bonds()) {
        let size = sheet.coupling(bond).unsigned_abs();
        let is_broken = entry_or(&broken.items, bond, true);
        let load = load_of(sheet, nest, &heights.items, bond);
        set.push(!is_broken && load < size.wrapping_mul(4));
    }
    set
}

// How much of a bond the nest takes.
fn load_of(sheet: &Sheet, nest: &Nest, heights: &[u64], bond: u32) -> u64 {
    let places = nest.places.as_slice();
    let one = place_at(places, sheet.side(first_dart(bond)));
    let other = place_at(places, sheet.side(second_dart(bond)));
    let over = height_at(heights, one).wrapping_add(height_at(heights, other));
    let both = shared(nest.regions.as_slice(), heights, one, other);
    over.wrapping_sub(both.wrapping_mul(2))
}

/// For each bond whether its ends have the same name.
pub fn joined(alloc: Global, sheet: &Sheet, names: &[u32]) -> Store<bool> {
    let mut joined = Store::with_room(alloc, sheet.bonds());
    for bond in 0..number(sheet.bonds()) {
        let one = entry(names, sheet.end(first_dart(bond)));
        let other = entry(names, sheet.end(second_dart(bond)));
        joined.push(one == other);
    }
    joined
}
