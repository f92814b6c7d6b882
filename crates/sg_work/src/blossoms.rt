// What blossoms are made of, and how many were made and taken apart.
//
// The list of all regions and the counts stand in one value, whose invariant says that the blossoms there are
// and those that were taken apart are those that were made, and that all these are no more than may be. So
// none comes or goes uncounted.
ghost use Rattle.std.specs.Prelude.{◌≡◌, ◌+◌, ◌≤◌, IfErr, IfOk, IsFalse, IsTrue};

use super::NoMemory;
use std::alloc::Global;
use std::marker::Model;

/// The first region of a blossom's cycle, and their number; the number of regions in it, with itself;
/// and its largest part. The region of a terminal has no parts.
#[derive(Clone, Copy)]
pub struct Whole {
    pub first: u32,
    pub size: u32,
    pub count: u32,
    pub largest: u32,
}

/// A region without parts.
pub fn no_whole() -> Whole
    ensures { result.size ≡ 0 }
{
    Whole {
        first: 0,
        size: 0,
        count: 1,
        largest: 0,
    }
}

/// What each region is made of.
#[derive(Drop)]
pub struct Blossoms {
    wholes: Vec<Whole>,
    // How many blossoms were made, how many were taken apart, and how many may be.
    made: u64,
    expanded: u64,
    most: u64,
}

impl Model for Blossoms {
    ghost use Rattle.sg_work.specs.Counts.{Counts, IsCounted};

    ghost Value = { Counts };

    ghost view = { λ b. record { made = b.made; expanded = b.expanded; most = b.most } };

    ghost invariant = { λ b. IsCounted b.wholes.items b.made b.expanded b.most };
}

impl Blossoms {
    /// Of no region, with room for so many; so many may be made and taken apart.
    pub fn new(alloc: Global, room: usize, most: u64) -> Result<Blossoms, NoMemory>
        ensures made { IfOk result (λ b. b.made ≡ 0) }
        ensures expanded { IfOk result (λ b. b.expanded ≡ 0) }
        ensures most { IfOk result (λ b. b.most ≡ most) }
    {
        Ok(Blossoms {
            wholes: Vec::with_capacity(alloc, room)?,
            made: 0,
            expanded: 0,
            most,
        })
    }

    /// What a region is made of.
    pub fn whole(&self, name: u32) -> Whole {
        match self.wholes.get(name as usize) {
            Some(whole) => *whole,
            None => no_whole(),
        }
    }

    /// How many blossoms were made and taken apart.
    pub fn steps(&self) -> u64
        ensures counted { result ≡ self.now.made + self.now.expanded }
        ensures within { result ≤ self.now.most }
    {
        let _most = self.most;
        self.made + self.expanded
    }

    /// A new region, or a name that is used again, without parts. If memory runs out, all stays.
    pub fn open(&mut self, name: u32) -> Result<(), NoMemory>
        ensures made { self.new.made ≡ self.old.made }
        ensures expanded { self.new.expanded ≤ self.old.expanded + 1 }
        ensures kept { self.old.expanded ≤ self.new.expanded }
        ensures most { self.new.most ≡ self.old.most }
        ensures stays { IfErr result (λ _. self.new ≡ self.old) }
    {
        if name as usize == self.wholes.len() {
            self.wholes.push(no_whole())?;
        } else {
            self.empty(name);
        }
        Ok(())
    }

    /// A region without parts becomes a blossom. False, and all stays, where it is none, where the blossom has
    /// no parts, and past the limit.
    pub fn make(&mut self, name: u32, whole: Whole) -> bool
        ensures made { IsTrue result → self.new.made ≡ self.old.made + 1 }
        ensures expanded { self.new.expanded ≡ self.old.expanded }
        ensures most { self.new.most ≡ self.old.most }
        ensures stays { IsFalse result → self.new ≡ self.old }
    {
        let is_free = (name as usize) < self.wholes.len() && self.wholes[name as usize].size == 0;
        if !is_free || whole.size == 0 || self.made + self.expanded >= self.most {
            return false;
        }
        self.wholes[name as usize] = whole;
        self.made += 1;
        true
    }

    /// A blossom has no parts any more. False, and all stays, where it is none, and past the limit.
    pub fn empty(&mut self, name: u32) -> bool
        ensures made { self.new.made ≡ self.old.made }
        ensures expanded { IsTrue result → self.new.expanded ≡ self.old.expanded + 1 }
        ensures most { self.new.most ≡ self.old.most }
        ensures stays { IsFalse result → self.new ≡ self.old }
    {
        let is_blossom = (name as usize) < self.wholes.len()
            && self.wholes[name as usize].size != 0;
        if !is_blossom || self.made + self.expanded >= self.most {
            return false;
        }
        self.wholes[name as usize] = no_whole();
        self.expanded += 1;
        true
    }

    /// Makes all as it is in others, the counts too.
    pub fn restore(&mut self, base: &Blossoms) -> Result<(), NoMemory>
        ensures { IfOk result (λ _. self.new ≡ base.now) }
    {
        self.wholes.clear();
        self.made = 0;
        self.expanded = 0;
        self.most = base.most;
        self.wholes.extend_from_slice(&base.wholes)?;
        self.made = base.made;
        self.expanded = base.expanded;
        Ok(())
    }
}
