ghost use Rattle.std.specs.Prelude.{◌≡◌, ◌<◌, ◌^◌, map, option_map, IfSome};
ghost use Rattle.serde_json.specs.View.{view};
ghost use Rattle.sg_json.specs.Members.{index_number as index_in_data, value_index, items_at as items_in_member, items_in, list_in, member_list, natural_number as natural_in_data, size_at, value_number};

use serde_json::Value;

// The whole number of a value, from 0 on.
fn natural(value: &Value) -> Option<u64>
    ensures value { result ≡ natural_in_data (view value.now) }
    ensures bound { IfSome result (λ n. n < 2 ^ 63) }
{
    let found = value.as_i64()?;
    if found >= 0 { Some(found as u64) } else { None }
}

/// The whole number of a value, from 0 to 4294967295.
pub(crate) fn index(value: &Value) -> Option<u32>
    ensures { result ≡ index_in_data (view value.now) }
{
    let n = natural(value)?;
    if n < 1 << 32 { Some(n as u32) } else { None }
}

/// The whole number of a value, and 0 where it has none.
pub(crate) fn number_or_zero(value: &Value) -> i64
    ensures { result ≡ value_number (view value.now) }
{
    value.as_i64().unwrap_or(0)
}

/// The index of a value, and 0 where it has none.
pub(crate) fn index_or_zero(value: &Value) -> u32
    ensures { result ≡ value_index (view value.now) }
{
    index(value).unwrap_or(0)
}

/// The items of a value, if it is a list.
pub(crate) fn list_items(value: &Value) -> Option<&[Value]>
    ensures { option_map (λ s. map view s.now) result ≡ list_in (view value.now) }
{
    Some(value.as_array()?.as_slice())
}

/// The items of a list, and none where the value is no list.
pub(crate) fn items(value: &Value) -> &[Value]
    ensures { map view result.now ≡ items_in (view value.now) }
{
    list_items(value).unwrap_or(&[])
}

/// The items of the list in a member, if there is one.
pub(crate) fn list_member<'a>(value: &'a Value, name: &str) -> Option<&'a [Value]>
    ensures { option_map (λ s. map view s.now) result ≡ member_list name.now (view value.now) }
{
    list_items(value.get(name)?)
}

/// The items of the list in a member, and none where there is none.
pub(crate) fn items_at<'a>(value: &'a Value, name: &str) -> &'a [Value]
    ensures { map view result.now ≡ items_in_member name.now (view value.now) }
{
    list_member(value, name).unwrap_or(&[])
}

/// The whole number in a member, from 0 on.
pub(crate) fn size_member(value: &Value, name: &str) -> Option<u64>
    ensures value { result ≡ size_at name.now (view value.now) }
    ensures bound { IfSome result (λ n. n < 2 ^ 63) }
{
    natural(value.get(name)?)
}
