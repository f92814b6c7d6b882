ghost use Rattle.std.specs.Prelude.{◌≡◌, ◌<◌, ◌≤◌, ◌+◌, ◌-◌, ◌*◌, ◌/◌, ◌%◌, ◌^◌, [], ◌∷◌, ◌++◌, if◌then◌else◌, List, pos, map, length, slice_index_or, OnOk, IfOk, All, unsigned_abs};
ghost use Rattle.std.specs.List.{range_with_len};
ghost use Rattle.sg_base.specs.Pieces.{with_more};
ghost use Rattle.sg_lattice.specs.declared.kind.Ends.{Ends};
ghost use Rattle.sg_lattice.specs.Tables.{IsSize, bond_total, bonds_between, coupled_bond, darts, ends_from, ends_of, own_dart, has_bond, reverse_dart, lattice, north, north_west, seam_of, bond_origins, west};

use super::NoMemory;
use super::kind::{Ends, Kind, Step};
use super::shape::Shape;
use sg_model::{Bond, BondList, Bonds, Couplings, Instance, Rotation};
use std::alloc::Global;

/// The number of bonds of a lattice. It does not allocate.
pub fn bond_count(kind: Kind, rows: u32, cols: u32) -> u32
    requires { IsSize kind rows cols }
    ensures { result ≡ bond_total kind rows cols }
{
    Shape::new(kind, rows, cols).bond_total()
}

/// The lattice with these couplings, which follow the order of the bonds, in time linear in the
/// spins. Its seam is that of the cylinder, and empty otherwise.
///
/// # Errors
/// Only running out of memory; the couplings are then dropped.
pub fn build(
    alloc: Global,
    kind: Kind,
    rows: u32,
    cols: u32,
    j: Couplings,
) -> Result<Instance, NoMemory>
    requires size { IsSize kind rows cols }
    requires count { length j ≡ bond_total kind rows cols }
    requires sizes { All (λ z. unsigned_abs z < 2 ^ 63) j }
    ensures { IfOk result (λ inst. inst ≡ lattice kind rows cols j) }
{
    Shape::new(kind, rows, cols).lattice(alloc, &j)
}

// The coupling of bond `k`, and 0 past the last.
fn coupling_at(j: &[i64], k: usize) -> i64
    ensures { result ≡ slice_index_or j.now k (pos 0) }
{
    match j.get(k) {
        Some(coupling) => *coupling,
        None => 0,
    }
}

// The bond between two ends, with its coupling.
fn bond_between(ends: Ends, j: i64) -> Bond
    ensures { result ≡ coupled_bond ends j }
{
    Bond {
        u: ends.u,
        v: ends.v,
        j,
    }
}

impl Shape {
    // The whole instance. Its parts are a rotation and a seam, so that nothing is to be tested.
    fn lattice(self, alloc: Global, j: &Couplings) -> Result<Instance, NoMemory>
        requires count { length j.now ≡ bond_total self.kind self.rows self.cols }
        requires sizes { All (λ z. unsigned_abs z < 2 ^ 63) j.now }
        ensures { IfOk result (λ inst. inst ≡ lattice self.kind self.rows self.cols j.now) }
    {
        let bonds = self.bonds(alloc, j)?;
        let rotation = self.rotation(alloc)?;
        let seam = self.seam(alloc)?;
        Ok(Instance::of_parts(self.spins(), bonds, rotation, seam))
    }

    // The bonds of the table, with these couplings.
    fn bonds(self, alloc: Global, j: &Couplings) -> Result<Bonds, NoMemory>
        ensures { IfOk result (λ bonds. bonds ≡ bonds_between (ends_of self.kind self.rows self.cols) j.now) }
    {
        let mut bonds = Bonds::new(alloc);
        self.push_all(j, &mut bonds)?;
        Ok(bonds)
    }

    // Adds the bonds of all steps to an empty list.
    fn push_all(self, j: &Couplings, bonds: &mut Bonds) -> Result<(), NoMemory>
        requires { bonds.old ≡ [] }
        ensures { OnOk result (bonds.new ≡ bonds_between (ends_of self.kind self.rows self.cols) j.now) }
    {
        bonds.reserve(j.len())?;
        self.push_bonds(Step::East, j, bonds)?;
        self.push_bonds(Step::South, j, bonds)?;
        self.push_bonds(Step::SouthEast, j, bonds)?;
        Ok(())
    }

    // Adds the bonds of one step, behind those between some ends.
    fn push_bonds(self, step: Step, j: &Couplings, bonds: &mut Bonds) -> Result<(), NoMemory>
        ensures { OnOk result ((ends : List Ends) → bonds.old ≡ bonds_between ends j.now → bonds.new ≡ bonds_between (ends
            ++ map (ends_from self.kind step self.rows self.cols) (bond_origins self.kind step self.rows self.cols)) j.now) }
    {
        for i in 0..self.spins() {
            self.push_bond(step, i, j, bonds)?;
        }
        Ok(())
    }

    // Adds the bond of this step that runs from spin `i`, if there is one.
    fn push_bond(self, step: Step, i: u32, j: &Couplings, bonds: &mut Bonds) -> Result<(), NoMemory>
        requires { i < self.rows * self.cols }
        ensures { OnOk result ((ends : List Ends) → bonds.old ≡ bonds_between ends j.now → bonds.new ≡ bonds_between (ends
            ++ (if has_bond self.kind step self.rows self.cols (i / self.cols) (i % self.cols)
            then ends_from self.kind step self.rows self.cols i ∷ [] else [])) j.now) }
    {
        let r = i / self.cols;
        let c = i % self.cols;
        if !self.has_bond(step, r, c) {
            return Ok(());
        }
        let ends = Ends {
            u: i,
            v: self.neighbour(step, r, c),
        };
        let coupling = coupling_at(j.as_slice(), bonds.len());
        bonds.push(bond_between(ends, coupling))?;
        Ok(())
    }

    // The darts of each spin.
    fn rotation(self, alloc: Global) -> Result<Rotation, NoMemory>
        ensures { IfOk result (λ rotation. rotation ≡
            map (λ i. darts self.kind self.rows self.cols (i / self.cols) (i % self.cols)) (range_with_len 0 (self.rows * self.cols))) }
    {
        let mut rotation = Rotation::new(alloc);
        rotation.reserve(self.spins() as usize, 2 * self.bond_total() as usize)?;
        for i in 0..self.spins() {
            self.push_spin(&mut rotation, i / self.cols, i % self.cols)?;
        }
        Ok(rotation)
    }

    // Adds the list of one spin.
    fn push_spin(self, rotation: &mut Rotation, r: u32, c: u32) -> Result<(), NoMemory>
        requires row { r < self.rows }
        requires col { c < self.cols }
        ensures { OnOk result (rotation.new ≡ rotation.old ++ darts self.kind self.rows self.cols r c ∷ []) }
    {
        rotation.open()?;
        self.push_forth(rotation, Step::East, r, c)?;
        self.push_north(rotation, r, c)?;
        self.push_north_west(rotation, r, c)?;
        self.push_west(rotation, r, c)?;
        self.push_forth(rotation, Step::South, r, c)?;
        self.push_forth(rotation, Step::SouthEast, r, c)?;
        Ok(())
    }

    // What follows adds darts to the last list.
    #[tactic(auto, using(sg_base::proofs::LastLists::with_more_none))]
    fn push_forth(self, rotation: &mut Rotation, step: Step, r: u32, c: u32) -> Result<(), NoMemory>
        requires some { 0 < length rotation.old }
        requires row { r < self.rows }
        requires col { c < self.cols }
        ensures { OnOk result (rotation.new ≡ with_more rotation.old (own_dart self.kind step self.rows self.cols r c)) }
    {
        if self.has_bond(step, r, c) {
            rotation.push_item(2 * self.bond_number(step, r, c))?;
        }
        Ok(())
    }

    #[tactic(auto, using(sg_base::proofs::LastLists::with_more_none))]
    fn push_back(self, rotation: &mut Rotation, step: Step, r: u32, c: u32) -> Result<(), NoMemory>
        requires some { 0 < length rotation.old }
        requires row { r < self.rows }
        requires col { c < self.cols }
        ensures { OnOk result (rotation.new ≡ with_more rotation.old (reverse_dart self.kind step self.rows self.cols r c)) }
    {
        if self.has_bond(step, r, c) {
            rotation.push_item(2 * self.bond_number(step, r, c) + 1)?;
        }
        Ok(())
    }

    #[tactic(auto, using(sg_base::proofs::LastLists::with_more_none))]
    fn push_north(self, rotation: &mut Rotation, r: u32, c: u32) -> Result<(), NoMemory>
        requires some { 0 < length rotation.old }
        requires row { r < self.rows }
        requires col { c < self.cols }
        ensures { OnOk result (rotation.new ≡ with_more rotation.old (north self.kind self.rows self.cols r c)) }
    {
        if r >= 1 {
            self.push_back(rotation, Step::South, r - 1, c)?;
        }
        Ok(())
    }

    #[tactic(auto, using(sg_base::proofs::LastLists::with_more_none))]
    fn push_north_west(self, rotation: &mut Rotation, r: u32, c: u32) -> Result<(), NoMemory>
        requires some { 0 < length rotation.old }
        requires row { r < self.rows }
        requires col { c < self.cols }
        ensures { OnOk result (rotation.new ≡ with_more rotation.old (north_west self.kind self.rows self.cols r c)) }
    {
        if r >= 1 && c >= 1 {
            self.push_back(rotation, Step::SouthEast, r - 1, c - 1)?;
        }
        Ok(())
    }

    #[tactic(auto, using(sg_base::proofs::LastLists::with_more_none))]
    fn push_west(self, rotation: &mut Rotation, r: u32, c: u32) -> Result<(), NoMemory>
        requires some { 0 < length rotation.old }
        requires row { r < self.rows }
        requires col { c < self.cols }
        ensures { OnOk result (rotation.new ≡ with_more rotation.old (west self.kind self.rows self.cols r c)) }
    {
        if c >= 1 {
            return self.push_back(rotation, Step::East, r, c - 1);
        }
        match self.kind {
            Kind::Cylinder => self.push_back(rotation, Step::East, r, self.cols - 1),
            Kind::Square | Kind::Triangular | Kind::Hexagonal => Ok(()),
        }
    }

    // The bonds from the last column to the first.
    fn seam(self, alloc: Global) -> Result<BondList, NoMemory>
        ensures { IfOk result (λ seam. seam ≡ seam_of self.kind self.rows self.cols) }
    {
        match self.kind {
            Kind::Cylinder => self.round_seam(alloc),
            Kind::Square | Kind::Triangular | Kind::Hexagonal => Ok(BondList::new(alloc)),
        }
    }

    fn round_seam(self, alloc: Global) -> Result<BondList, NoMemory>
        ensures { IfOk result (λ seam. seam ≡
            map (λ r. r * self.cols + (self.cols - 1)) (range_with_len 0 self.rows)) }
    {
        let mut seam = BondList::new(alloc);
        for r in 0..self.rows {
            seam.push(self.area(r, self.cols) + (self.cols - 1))?;
        }
        Ok(seam)
    }
}
