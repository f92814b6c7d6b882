// How far each region has grown, with all over it, and the part that it plays.
//
// The radii over a part, up to its top, its own with them and without the top's, are the base of its family
// and what the part differs from it. Where a blossom is made or taken apart, the regions in all of
// its parts but the largest are moved to another family: while blossoms are only made, each is moved
// at most as often as its top doubles. All else takes the same time for any blossoms.
use super::families::Families;
use sg_slots::{Store, entry, set_entry};
use std::alloc::Global;

/// The part that a region plays: an outer one grows, an inner one gives way, and a free one, which
/// is in no tree, stays as it is. A part of a blossom plays none, and stays as it is too.
#[derive(Clone, Copy, PartialEq, Eq)]
pub enum Role {
    Outer,
    Free,
    Inner,
    Part,
}

/// The top over a region, its role, and how far the two reach with all between.
#[derive(Clone, Copy)]
pub struct Reach {
    pub top: u32,
    pub role: Role,
    pub by: i64,
}

// The part that a region plays, its family, and a value. Of a top that is its radius: of one that grows or gives way
// what the radius would be at time 0, had it always done so. Of a part it is by how much the radii over the region,
// its own with them, differ from the base of the family. A scan of an arc reads one such record, so it has what is
// read there and no more.
#[derive(Clone, Copy)]
struct Growth {
    role: Role,
    family: u32,
    value: i64,
}

impl Growth {
    // A top of a radius at a time.
    fn top(role: Role, family: u32, radius: i64, now: i64) -> Growth {
        let value = match role {
            Role::Outer => radius.wrapping_sub(now),
            Role::Free | Role::Part => radius,
            Role::Inner => radius.wrapping_add(now),
        };
        Growth {
            role,
            family,
            value,
        }
    }

    // The radius of a top at a time.
    #[inline(always)]
    fn at(&self, now: i64) -> i64 {
        match self.role {
            Role::Outer => self.value.wrapping_add(now),
            Role::Free | Role::Part => self.value,
            Role::Inner => self.value.wrapping_sub(now),
        }
    }
}

/// The radius and the role of each region.
#[derive(Drop)]
pub struct Radii {
    growths: Store<Growth>,
    // For each region its radius when it last became a part.
    parts: Store<i64>,
    families: Families,
}

impl Radii {
    /// Of no region, with room for so many.
    pub fn new(alloc: Global, room: usize) -> Radii {
        Radii {
            growths: Store::with_room(alloc, room),
            parts: Store::with_room(alloc, room),
            families: Families::new(alloc, room),
        }
    }

    /// Whether a list found no memory.
    pub fn is_short(&self) -> bool {
        self.growths.is_short() | self.parts.is_short() | self.families.is_short()
    }

    #[inline(always)]
    fn growth(&self, name: u32) -> Growth {
        match self.growths.items.get(name as usize) {
            Some(growth) => *growth,
            None => Growth::top(Role::Outer, u32::MAX, 0, 0),
        }
    }

    /// What a region does.
    pub fn role(&self, name: u32) -> Role {
        self.growth(name).role
    }

    /// The radius of a region at a time.
    pub fn radius(&self, name: u32, now: i64) -> i64 {
        let here = self.growth(name);
        if here.role == Role::Part {
            entry(&self.parts.items, name).unwrap_or(0)
        } else {
            here.at(now)
        }
    }

    /// The top over a region, and how far the two reach at a time with all between. A region that is a
    /// top itself takes one look.
    #[inline(always)]
    pub fn reach(&self, name: u32, now: i64) -> Reach {
        let here = self.growth(name);
        if here.role != Role::Part {
            return Reach {
                top: name,
                role: here.role,
                by: here.at(now),
            };
        }
        let family = self.families.family(here.family);
        let top = self.growth(family.top);
        let between = family.base.wrapping_add(here.value);
        Reach {
            top: family.top,
            role: top.role,
            by: between.wrapping_add(top.at(now)),
        }
    }

    /// The top over a region.
    pub fn top(&self, name: u32) -> u32 {
        let here = self.growth(name);
        if here.role == Role::Part {
            self.families.family(here.family).top
        } else {
            name
        }
    }

    /// Gives a top another role.
    pub fn set_role(&mut self, name: u32, role: Role, now: i64) {
        let family = self.growth(name).family;
        self.set_top(name, role, family, now);
    }

    /// A top has another radius, at a time.
    pub fn set_radius(&mut self, name: u32, radius: i64, now: i64) {
        let here = self.growth(name);
        let growth = Growth::top(here.role, here.family, radius, now);
        set_entry(&mut self.growths.items, name, growth);
    }

    // A region is a top of a role and of a family.
    fn set_top(&mut self, name: u32, role: Role, family: u32, now: i64) {
        let growth = Growth::top(role, family, self.radius(name, now), now);
        set_entry(&mut self.growths.items, name, growth);
    }

    // A top becomes a part, as yet with nothing over it.
    fn set_part(&mut self, name: u32, now: i64) {
        let growth = self.growth(name);
        set_entry(&mut self.parts.items, name, growth.at(now));
        let base = self.families.family(growth.family).base;
        let part = Growth {
            role: Role::Part,
            family: growth.family,
            value: 0i64.wrapping_sub(base),
        };
        set_entry(&mut self.growths.items, name, part);
    }

    // A new outer top of radius 0.
    fn put_top(&mut self, name: u32, family: u32, now: i64) {
        self.parts.put(name, 0);
        self.growths
            .put(name, Growth::top(Role::Outer, family, 0, now));
    }

    /// A new outer top without parts, of a family of its own.
    pub fn plant(&mut self, name: u32, now: i64) {
        let family = self.families.found(name);
        self.put_top(name, family, now);
    }

    /// Makes all as it is in others.
    pub fn restore(&mut self, base: &Radii) {
        self.growths.copy(&base.growths.items);
        self.parts.copy(&base.parts.items);
        self.families.restore(&base.families);
    }

    /// A new outer blossom over a top, its largest part, of whose family it is.
    pub fn crown(&mut self, blossom: u32, largest: u32, now: i64) {
        let below = self.growth(largest);
        self.set_part(largest, now);
        self.families.rise(below.family, blossom, below.at(now));
        self.put_top(blossom, below.family, now);
    }

    /// The opposite: the largest part is a top again, and the blossom is gone.
    pub fn uncrown(&mut self, blossom: u32, largest: u32, now: i64) {
        let family = self.growth(largest).family;
        let less = 0i64.wrapping_sub(self.radius(largest, now));
        self.families.rise(family, largest, less);
        self.set_role(largest, Role::Free, now);
        self.set_role(blossom, Role::Free, now);
    }

    /// A top, given with all regions in it, becomes a part of a blossom; its own family goes.
    pub fn join(&mut self, regions: &[u32], blossom: u32, now: i64) {
        let Some(top) = regions.first() else {
            return;
        };
        let own = self.growth(*top);
        self.families.free(own.family);
        self.set_part(*top, now);
        let family = self.growth(blossom).family;
        self.move_all(regions, family, own.at(now));
    }

    /// A part, given with all regions in it, becomes a free top with a family of its own.
    pub fn part(&mut self, regions: &[u32], now: i64) {
        let Some(top) = regions.first() else {
            return;
        };
        let radius = self.radius(*top, now);
        let family = self.families.found(*top);
        self.move_all(regions, family, 0i64.wrapping_sub(radius));
        self.set_top(*top, Role::Free, family, now);
    }

    // Moves parts into a family, with so much more over them.
    fn move_all(&mut self, regions: &[u32], family: u32, more: i64) {
        let base = self.families.family(family).base.wrapping_sub(more);
        for name in regions {
            if let Some(growth) = entry(&self.growths.items, *name) {
                let over = self.families.family(growth.family).base;
                let moved = Growth {
                    family,
                    value: growth.value.wrapping_add(over).wrapping_sub(base),
                    ..growth
                };
                set_entry(&mut self.growths.items, *name, moved);
            }
        }
    }
}
