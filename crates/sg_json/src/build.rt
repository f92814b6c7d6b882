ghost use Rattle.std.specs.Prelude.{◌≡◌, codes, map, option_map, IfOk};
ghost use Rattle.serde_json.specs.Find.{get};
ghost use Rattle.serde_json.specs.View.{view};
ghost use Rattle.sg_json.specs.Members.{value_index, value_indices, item_at, value_bond, value_number};

use super::NoMemory;
use super::value::{index_or_zero, items, number_or_zero};
use serde_json::Value;
use sg_model::{Bond, BondList, Bonds, Couplings, Rotation};
use std::alloc::Global;

/// The couplings of a lattice.
pub(crate) fn couplings(alloc: Global, items: &[Value]) -> Result<Couplings, NoMemory>
    ensures { IfOk result (λ l. l ≡ map (λ v. value_number (view v)) items.now) }
{
    let list = items.iter().map(number_or_zero).collect(alloc)?;
    Ok(Couplings::from_vec(list))
}

// The indices of a list: the bonds of a seam, or the darts of a spin.
fn indices(alloc: Global, value: &Value) -> Result<BondList, NoMemory>
    ensures { IfOk result (λ l. l ≡ value_indices (view value.now)) }
{
    let list = items(value).iter().map(index_or_zero).collect(alloc)?;
    Ok(BondList::from_vec(list))
}

/// The bonds of the seam, if it is given.
pub(crate) fn seam(alloc: Global, value: &Value) -> Result<Option<BondList>, NoMemory>
    ensures { IfOk result (λ o. o ≡ option_map value_indices (get (codes "seam") (view value.now))) }
{
    match value.get("seam") {
        Some(list) => Ok(Some(indices(alloc, list)?)),
        None => Ok(None),
    }
}

// The index at a place of a list, and 0 past its end.
fn index_at(numbers: &[Value], i: usize) -> u32
    ensures { result ≡ value_index (item_at (map view numbers.now) i) }
{
    numbers.get(i).map_or(0, index_or_zero)
}

// The number at a place of a list, and 0 past its end.
fn number_at(numbers: &[Value], i: usize) -> i64
    ensures { result ≡ value_number (item_at (map view numbers.now) i) }
{
    numbers.get(i).map_or(0, number_or_zero)
}

/// The bond of a list of three numbers.
pub(crate) fn bond(value: &Value) -> Bond
    ensures { result ≡ value_bond (view value.now) }
{
    let numbers = items(value);
    Bond {
        u: index_at(numbers, 0),
        v: index_at(numbers, 1),
        j: number_at(numbers, 2),
    }
}

/// The bonds of a general instance.
pub(crate) fn bonds(alloc: Global, items: &[Value]) -> Result<Bonds, NoMemory>
    ensures { IfOk result (λ l. l ≡ map (λ v. value_bond (view v)) items.now) }
{
    let mut list = Bonds::new(alloc);
    for item in items {
        list.push(bond(item))?;
    }
    Ok(list)
}

/// The darts of each spin.
pub(crate) fn rotation(alloc: Global, lists: &[Value]) -> Result<Rotation, NoMemory>
    ensures { IfOk result (λ l. l ≡ map (λ v. value_indices (view v)) lists.now) }
{
    let mut rotation = Rotation::new(alloc);
    for list in lists {
        let own = indices(alloc, list)?;
        rotation.push(own.as_slice())?;
    }
    Ok(rotation)
}
