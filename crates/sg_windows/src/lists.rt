// Lists that are read beyond their end, and lists that stand one behind another in one.
use sg_slots::entry;

/// What is there, or something else if there is no such place.
pub fn entry_or<T: Copy>(list: &[T], place: u32, other: T) -> T {
    match entry(list, place) {
        Some(item) => item,
        None => other,
    }
}

/// The items from a place to another.
pub fn between<T>(items: &[T], first: u32, behind: u32) -> &[T] {
    let first = first as usize;
    let behind = behind as usize;
    if first > behind || behind > items.len() {
        return &[];
    }
    &items[first..behind]
}

/// The items of list `one`, which stand from place `starts[one]` to `starts[one + 1]`.
pub fn piece<'a, T>(items: &'a [T], starts: &[u32], one: u32) -> &'a [T] {
    let first = entry_or(starts, one, 0);
    let behind = entry_or(starts, one.wrapping_add(1), 0);
    between(items, first, behind)
}
