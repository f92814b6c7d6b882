use super::facts::expect;
use sg_base::{Lists, Numbers, Records};
use std::alloc::{AllocError, Global};
use std::test::Fail;

// A list of 7 and 9.
fn two_numbers(alloc: Global) -> Result<Numbers<u32>, AllocError> {
    let mut list = Numbers::new(alloc);
    list.reserve(2)?;
    list.push(7u32)?;
    list.push(9)?;
    Ok(list)
}

// Whether a list is 7 and 9.
fn is_two(list: &Numbers<u32>) -> bool {
    list.len() == 2 && list.at(1) == 9 && list.as_slice() == [7, 9].as_slice()
}

// Whether a list with room for two is empty.
fn is_new_empty(alloc: Global) -> Result<bool, AllocError> {
    let mut list = Numbers::<u32>::new(alloc);
    list.reserve(2)?;
    Ok(list.is_empty())
}

// Whether both the list and a list of its items are 7 and 9.
fn are_two(alloc: Global) -> Result<bool, AllocError> {
    let list = two_numbers(alloc)?;
    let same = Numbers::from_vec(Vec::from_slice(alloc, list.as_slice())?);
    Ok(is_two(&list) && is_two(&same))
}

// A list of that list alone.
fn one_record(alloc: Global) -> Result<Records<Numbers<u32>>, AllocError> {
    let mut rows = Records::new(alloc);
    rows.reserve(1)?;
    rows.push(two_numbers(alloc)?)?;
    Ok(rows)
}

fn is_one(rows: &Records<Numbers<u32>>) -> bool {
    rows.len() == 1 && !rows.is_empty() && is_two(rows.at(0)) && rows.as_slice().len() == 1
}

// Whether it has one record, also as a vector.
fn is_one_record(alloc: Global) -> Result<bool, AllocError> {
    let rows = one_record(alloc)?;
    let is_wanted = is_one(&rows);
    let count = rows.into_vec().len();
    Ok(is_wanted && count == 1)
}

#[test]
fn both_lists_keep_their_items_in_order(rt: HostRuntime) -> Result<(), Fail> {
    let is_empty = is_new_empty(rt.alloc())?;
    expect(&rt, "a new list", is_empty);
    let is_wanted = are_two(rt.alloc())?;
    expect(&rt, "numbers", is_wanted);
    let is_wanted = is_one_record(rt.alloc())?;
    expect(&rt, "records", is_wanted);
    Ok(())
}

// Whether lists with room for three are empty.
fn are_new_empty(alloc: Global) -> Result<bool, AllocError> {
    let mut lists = Lists::<u32>::new(alloc);
    lists.reserve(3, 3)?;
    Ok(lists.is_empty())
}

// The lists 7 and 9, none, and 4.
fn three_lists(alloc: Global) -> Result<Lists<u32>, AllocError> {
    let mut lists = Lists::new(alloc);
    lists.reserve(3, 3)?;
    lists.push([7u32, 9].as_slice())?;
    lists.open()?;
    lists.open()?;
    lists.push_item(4)?;
    Ok(lists)
}

fn are_three(lists: &Lists<u32>) -> bool {
    lists.len() == 3
        && lists.at(0) == [7, 9].as_slice()
        && lists.at(1).is_empty()
        && lists.at(2) == [4].as_slice()
}

// Whether both the lists and a copy of them are these three.
fn are_copied(alloc: Global) -> Result<bool, AllocError> {
    let lists = three_lists(alloc)?;
    let same = lists.clone()?;
    Ok(are_three(&lists) && are_three(&same))
}

#[test]
fn flat_lists_keep_their_items_apart(rt: HostRuntime) -> Result<(), Fail> {
    let are_empty = are_new_empty(rt.alloc())?;
    expect(&rt, "new lists", are_empty);
    let are_wanted = are_copied(rt.alloc())?;
    expect(&rt, "three lists", are_wanted);
    Ok(())
}
