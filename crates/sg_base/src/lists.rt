ghost use Rattle.std.specs.Prelude.{◌≡◌, ◌==◌, [], ◌∷◌, ◌++◌, ◌<◌, length, OnOk, OnErr, slice_get, slice_index_or};
ghost use Rattle.sg_base.specs.Pieces.{with_more};

use super::NoMemory;
use std::alloc::{AllocError, Global};
use std::marker::Model;

/// A list of lists of items that are copied, as the darts of each spin. The lists lie one behind
/// another in one flat list, with no allocation of its own.
#[derive(Drop)]
pub struct Lists<T: Copy> {
    items: Vec<T>,
    starts: Vec<usize>,
}

impl<T: Copy> Model for Lists<T> {
    ghost use Rattle.std.specs.Prelude.{List};
    ghost use Rattle.sg_base.specs.Pieces.{AreStarts, pieces};

    ghost Value = { List (List T) };

    ghost view = { λ l. pieces l.items.items l.starts.items };

    ghost invariant = { λ l. AreStarts l.items.items l.starts.items };
}

impl<T: Copy> Lists<T> {
    /// No lists. It does not allocate until the first is added.
    pub fn new(alloc: Global) -> Self
        ensures { result ≡ [] }
    {
        Lists {
            items: Vec::new(alloc),
            starts: Vec::new(alloc),
        }
    }

    /// Makes room for so many lists more, and so many items in them, which are then added without being
    /// moved. The lists are as they were.
    pub fn reserve(&mut self, lists: usize, items: usize) -> Result<(), NoMemory>
        ensures { self.new ≡ self.old }
    {
        self.starts.reserve(lists)?;
        self.items.reserve(items)?;
        Ok(())
    }

    /// Adds an empty list at the end. If the allocation fails, the lists are unchanged.
    pub fn open(&mut self) -> Result<(), NoMemory>
        ensures ok { OnOk result (self.new ≡ self.old ++ [] ∷ []) }
        ensures err { OnErr result (self.new ≡ self.old) }
    {
        self.starts.push(self.items.len())?;
        Ok(())
    }

    /// Adds one item at the end of the last list. If the allocation fails, the lists are unchanged.
    pub fn push_item(&mut self, item: T) -> Result<(), NoMemory>
        requires { 0 < length self.old }
        ensures ok { OnOk result (self.new ≡ with_more self.old (item ∷ [])) }
        ensures err { OnErr result (self.new ≡ self.old) }
    {
        self.items.push(item)?;
        Ok(())
    }

    /// Adds a list with these items at the end. If the allocation fails, the lists are unchanged.
    pub fn push(&mut self, list: &[T]) -> Result<(), NoMemory>
        ensures ok { OnOk result (self.new ≡ self.old ++ list.now ∷ []) }
        ensures err { OnErr result (self.new ≡ self.old) }
    {
        self.starts.reserve(1)?;
        let start = self.items.len();
        self.items.extend_from_slice(list)?;
        self.starts.push_reserved(start);
        Ok(())
    }

    /// The number of lists.
    pub fn len(&self) -> usize
        ensures { result ≡ length self.now }
    {
        self.starts.len()
    }

    /// Whether there is no list.
    pub fn is_empty(&self) -> bool
        ensures { result ≡ (length self.now == 0) }
    {
        self.starts.is_empty()
    }

    /// The list at place `i`, counted from 0.
    pub fn at(&self, i: usize) -> &[T]
        requires { i < length self.now }
        ensures { slice_get self.now i ≡ Some result.now }
    {
        let start = start_at(&self.starts, i, self.items.len());
        let end = start_at(&self.starts, i + 1, self.items.len());
        &self.items[start..end]
    }
}

// The start at place `i`, and past the last start the end of the items.
fn start_at(starts: &[usize], i: usize, end: usize) -> usize
    ensures { result ≡ slice_index_or starts.now i end }
{
    match starts.get(i) {
        Some(start) => *start,
        None => end,
    }
}

impl<T: Copy> Clone for Lists<T> {
    ghost use Rattle.std.specs.Prelude.{◌≡◌};

    ghost is_clone = { λ lists copy. copy ≡ lists };

    fn clone(&self) -> Result<Lists<T>, AllocError> {
        let items = Vec::from_slice(*self.items.allocator(), self.items.as_slice())?;
        let starts = Vec::from_slice(*self.starts.allocator(), self.starts.as_slice())?;
        Ok(Lists { items, starts })
    }
}
