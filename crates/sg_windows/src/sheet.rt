// An instance as plain lists.
ghost use Rattle.sg_faces.specs.Faces.{IsFaceLabels};

use super::lists::{entry_or, piece};
use sg_faces::Faces;
use sg_model::{Bond, Instance, Spins};
use sg_slots::{Store, entry, number};
use std::alloc::Global;

/// The bonds of an instance, and the darts of its spins.
#[derive(Drop)]
pub struct Sheet {
    // The spin that each dart leaves, and the face on its side.
    ends: Store<u32>,
    sides: Store<u32>,
    couplings: Store<i64>,
    // The darts that leave spin `i` stand from place `starts[i]` to `starts[i + 1]`.
    starts: Store<u32>,
    darts: Store<u32>,
    faces: u32,
}

impl Sheet {
    /// The lists of an instance.
    pub fn new(alloc: Global, inst: &Instance, faces: &Faces) -> Sheet
        requires { IsFaceLabels inst.now faces.now }
    {
        let mut sheet = Sheet {
            ends: Store::new(alloc),
            sides: sides_of(alloc, inst, faces),
            couplings: Store::new(alloc),
            starts: Store::new(alloc),
            darts: Store::new(alloc),
            faces: faces.count(),
        };
        sheet.add_bonds(inst);
        sheet.add_darts(inst);
        sheet
    }

    /// Whether a list found no memory.
    pub fn is_short(&self) -> bool {
        let are_bonds = self.ends.is_short() | self.sides.is_short() | self.couplings.is_short();
        are_bonds | self.starts.is_short() | self.darts.is_short()
    }

    // Adds the bonds.
    fn add_bonds(&mut self, inst: &Instance) {
        for bond in inst.bonds().as_slice() {
            self.ends.push(bond.u);
            self.ends.push(bond.v);
            self.couplings.push(bond.j);
        }
    }

    // Adds the darts of each spin.
    fn add_darts(&mut self, inst: &Instance) {
        for spin in 0..inst.rotation().len() {
            self.starts.push(number(self.darts.items.len()));
            self.darts.extend(inst.rotation().at(spin));
        }
        self.starts.push(number(self.darts.items.len()));
    }

    /// The number of spins.
    pub fn spins(&self) -> usize {
        self.starts.items.len().saturating_sub(1)
    }

    /// The number of bonds.
    pub fn bonds(&self) -> usize {
        self.couplings.items.len()
    }

    /// The number of faces.
    pub fn faces(&self) -> usize {
        self.faces as usize
    }

    /// The coupling of a bond.
    pub fn coupling(&self, bond: u32) -> i64 {
        entry_or(&self.couplings.items, bond, 0)
    }

    /// The spin that a dart leaves.
    pub fn end(&self, dart: u32) -> u32 {
        entry_or(&self.ends.items, dart, 0)
    }

    /// The face on the side of a dart.
    pub fn side(&self, dart: u32) -> u32 {
        entry_or(&self.sides.items, dart, 0)
    }

    /// The darts that leave a spin.
    pub fn darts_of(&self, spin: u32) -> &[u32] {
        piece(&self.darts.items, &self.starts.items, spin)
    }

    /// For each bond whether spins break it.
    pub fn broken_by(&self, alloc: Global, spins: &Spins) -> Store<bool> {
        let mut broken = Store::new(alloc);
        for bond in 0..number(self.bonds()) {
            let one = entry(spins.as_slice(), self.end(first_dart(bond)));
            let other = entry(spins.as_slice(), self.end(second_dart(bond)));
            broken.push((self.coupling(bond) < 0) == (one == other));
        }
        broken
    }
}

/// The first dart of a bond.
pub fn first_dart(bond: u32) -> u32 {
    bond.wrapping_mul(2)
}

/// The second dart of a bond.
pub fn second_dart(bond: u32) -> u32 {
    first_dart(bond).wrapping_add(1)
}

// The face on the side of each dart.
fn sides_of(alloc: Global, inst: &Instance, faces: &Faces) -> Store<u32>
    requires { IsFaceLabels inst.now faces.now }
{
    let bonds = inst.bonds().as_slice();
    let mut sides = Store::new(alloc);
    for dart in 0..2 * bonds.len() {
        sides.push(faces.of(dart as u32));
    }
    sides
}
