// The families of regions: what the regions of one top have in common.
//
// A top with its largest part, the largest part of that, and so on down, has one record, its family:
// the top, and a base. A region belongs to the family of the largest part of its top, and keeps by how
// much the radii over it differ from the base (`radii`). So the top over a region is found in two
// looks however deep a blossom is, and a change of the top is one write.
use sg_slots::{Store, number, set_entry};
use std::alloc::Global;

/// The top of a family, and the base that its regions count from.
#[derive(Clone, Copy)]
pub struct Family {
    pub top: u32,
    pub base: i64,
}

/// The families, and the names of those that are gone, to be used again.
#[derive(Drop)]
pub struct Families {
    families: Store<Family>,
    free: Store<u32>,
}

impl Families {
    /// No families, with room for so many.
    pub fn new(alloc: Global, room: usize) -> Families {
        Families {
            families: Store::with_room(alloc, room),
            free: Store::new(alloc),
        }
    }

    /// Whether a list found no memory.
    pub fn is_short(&self) -> bool {
        self.families.is_short() | self.free.is_short()
    }

    /// A new family of a top, with base 0.
    pub fn found(&mut self, top: u32) -> u32 {
        let family = match self.free.items.pop() {
            Some(family) => family,
            None => number(self.families.items.len()),
        };
        self.families.put(family, Family { top, base: 0 });
        family
    }

    /// A family goes, but is there to be read until its name is used again.
    pub fn free(&mut self, family: u32) {
        self.free.push(family);
    }

    /// A family by its name.
    pub fn family(&self, name: u32) -> Family {
        match self.families.items.get(name as usize) {
            Some(family) => *family,
            None => Family { top: 0, base: 0 },
        }
    }

    /// Makes all as it is in others.
    pub fn restore(&mut self, base: &Families) {
        self.families.copy(&base.families.items);
        self.free.copy(&base.free.items);
    }

    /// A family has another top, and so much more of a base.
    pub fn rise(&mut self, name: u32, top: u32, more: i64) {
        let base = self.family(name).base.wrapping_add(more);
        set_entry(&mut self.families.items, name, Family { top, base });
    }
}
