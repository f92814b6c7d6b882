ghost use Rattle.std.specs.Prelude.{◌≡◌, codes, map, option_map};
ghost use Rattle.serde_json.specs.Find.{get};
ghost use Rattle.serde_json.specs.View.{view};
ghost use Rattle.sg_json.specs.Members.{are_indices as are_indices_in_data, first_wrong, index_number as index_in_data, is_entry, is_triple as is_triple_of_data, list_in, wrong_list as wrong_list_in_data, wrong_rotation as wrong_rotation_in_data, wrong_seam as wrong_seam_in_data};

use super::build::bond;
use super::value::{index, items, list_items, number_or_zero};
use serde_json::Value;
use sg_draft::{is_among, is_coupling};

/// What each entry of a list must be.
#[derive(Clone, Copy)]
pub(crate) enum Entry {
    /// A whole number that is a coupling.
    Coupling,
    /// A list of two spins below `n` and a coupling.
    Bond { n: u64 },
    /// A list of indices.
    Darts,
    /// A whole number from 0 to 4294967295.
    Index,
}

// Whether a list is one of two indices and a whole number.
fn is_triple(numbers: &[Value]) -> bool
    ensures { result ≡ is_triple_of_data (map view numbers.now) }
{
    if numbers.len() != 3 {
        return false;
    }
    index(&numbers[0]).is_some() && index(&numbers[1]).is_some() && numbers[2].as_i64().is_some()
}

// Whether a value is a list of indices.
fn is_index_list(value: &Value) -> bool
    ensures { result ≡ are_indices_in_data (list_in (view value.now)) }
{
    match list_items(value) {
        Some(items) => items.iter().all(|item| index(item).is_some()),
        None => false,
    }
}

impl Entry {
    // Whether a value may appear in the list.
    fn fits(self, value: &Value) -> bool
        ensures { result ≡ is_entry self (view value.now) }
    {
        match self {
            Entry::Coupling => value.as_i64().is_some() && is_coupling(number_or_zero(value)),
            Entry::Bond { n } => is_triple(items(value)) && is_among(n, bond(value)),
            Entry::Darts => is_index_list(value),
            Entry::Index => index(value).is_some(),
        }
    }
}

// The first item that may not appear in the list.
fn first_misfit(items: &[Value], what: Entry) -> Option<usize>
    ensures { result ≡ first_wrong what (map view items.now) }
{
    items.iter().position(|item| !what.fits(item))
}

/// The entry at which a list is wrong, if one is, and 0 where there is no list.
pub(crate) fn wrong_list(list: Option<&[Value]>, what: Entry) -> Option<usize>
    ensures { result ≡ wrong_list_in_data what (option_map (λ s. map view s.now) list.entry) }
{
    list.map_or(Some(0), |items| first_misfit(items, what))
}

/// The entry at which the rotation of `n` spins is wrong, if one is, and 0 where it is another number of
/// lists or none.
pub(crate) fn wrong_rotation(list: Option<&[Value]>, n: u64) -> Option<usize>
    ensures { result ≡ wrong_rotation_in_data n (option_map (λ s. map view s.now) list.entry) }
{
    match list {
        Some(lists) if lists.len() as u64 == n => first_misfit(lists, Entry::Darts),
        _ => Some(0),
    }
}

/// The entry at which the seam is wrong, if it is given and an entry is wrong.
pub(crate) fn wrong_seam(value: &Value) -> Option<usize>
    ensures { result ≡ wrong_seam_in_data (get (codes "seam") (view value.now)) }
{
    wrong_list(list_items(value.get("seam")?), Entry::Index)
}
