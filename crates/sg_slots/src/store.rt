// A list that remembers whether it ever found no memory.
use super::NoMemory;
use super::lists::set_entry;
use std::alloc::{AllocError, Global};

/// A list that remembers whether it ever found no memory: what finds none is left out, and it is short from then on.
/// So whoever adds to many lists asks each of them once, in the end.
#[derive(Drop)]
pub struct Store<T> {
    pub items: Vec<T>,
    is_short: bool,
}

impl<T: Drop> Store<T> {
    /// No items.
    pub fn new(alloc: Global) -> Store<T> {
        Store::of(Vec::new(alloc))
    }

    /// The items of a list.
    pub fn of(items: Vec<T>) -> Store<T> {
        Store {
            items,
            is_short: false,
        }
    }

    /// No items, with room for so many.
    pub fn with_room(alloc: Global, room: usize) -> Store<T> {
        let mut store = Store::new(alloc);
        store.is_short = store.items.reserve(room).is_err();
        store
    }

    /// Adds an item.
    pub fn push(&mut self, item: T) {
        self.is_short |= self.items.push(item).is_err();
    }

    /// Is short too where another list is, from which it was made.
    pub fn note<U>(&mut self, other: &Store<U>) {
        self.is_short |= other.is_short;
    }

    /// Whether it ever found no memory.
    pub fn is_short(&self) -> bool {
        self.is_short
    }

    /// The list, unless it is short.
    pub fn finish(self) -> Result<Vec<T>, NoMemory> {
        let Store { items, is_short } = self;
        if is_short {
            return Err(AllocError);
        }
        Ok(items)
    }
}

impl<T: Copy> Store<T> {
    /// So many equal items.
    pub fn filled(alloc: Global, item: T, count: usize) -> Store<T> {
        match vec![in alloc; item; count] {
            Ok(items) => Store::of(items),
            Err(_) => Store {
                items: Vec::new(alloc),
                is_short: true,
            },
        }
    }

    /// Has so many items, of which those behind the last are equal.
    pub fn resize(&mut self, count: usize, item: T) {
        self.is_short |= self.items.resize(count, item).is_err();
    }

    /// Writes there, or behind the last item if that is the place.
    pub fn put(&mut self, place: u32, item: T) {
        if place as usize == self.items.len() {
            self.push(item);
        } else {
            set_entry(&mut self.items, place, item);
        }
    }

    /// Adds some items.
    pub fn extend(&mut self, items: &[T]) {
        self.is_short |= self.items.extend_from_slice(items).is_err();
    }

    /// Becomes what a list is.
    pub fn copy(&mut self, items: &[T]) {
        self.items.clear();
        self.extend(items);
    }
}
