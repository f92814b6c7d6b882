ghost use Rattle.std.specs.Prelude.{◌≡◌, ◌≤◌, ◌<◌, ◌*◌, ◌^◌, ◌+ℤ◌, ◌*ℤ◌, ℕ, pos, if◌then◌else◌, fold, length, map, All, IfOk, IfErr, vec_len, unsigned_abs};
ghost use Rattle.std.specs.List.{range_with_len};
ghost use Rattle.sg_model.specs.Ising.{IsBond, bond_count};
ghost use Rattle.sg_model.specs.WellFormed.{IsInstance};
ghost use Rattle.sg_model.specs.Faults.{IsRefusalOf, OrNoMemory};
ghost use Rattle.sg_base.specs.Sets.{holds, is_marked};
ghost use Rattle.sg_model.specs.Changes.{HasSameEnds, coupled_bonds, flipped_at, negated, opposite, recoupled, with_bonds, with_coupling, with_couplings, with_seam, with_seam_flipped};
ghost use Rattle.sg_model.specs.Energy.{energy, product, weight as weight_of};

use super::draft::Draft;
use super::{Bond, BondList, Bonds, Couplings, Fault, NoMemory, Rotation, Spins};
use std::alloc::Global;
use std::marker::Model;

/// An instance: at least one spin and at most 2^24 spins and bonds, each bond between two
/// different spins, no coupling the least i64; for each spin the cyclic order of its darts; and a
/// seam of different bonds.
pub struct Instance {
    n: u32,
    bonds: Bonds,
    rotation: Rotation,
    seam: BondList,
}

// An explicit `Drop`: otherwise every early return of an owner drops each list, and the prover pays for each.
impl Drop for Instance {
    fn drop(self) {
        let Instance {
            n: _,
            bonds: _bonds,
            rotation: _rotation,
            seam: _seam,
        } = self;
    }
}

impl Model for Instance {
    ghost use Rattle.sg_model.specs.Ising.{Ising};
    ghost use Rattle.sg_model.specs.WellFormed.{IsInstance};

    ghost Value = { Ising };

    ghost view = { λ i. record { n = i.n; bonds = i.bonds; rotation = i.rotation; seam = i.seam } };

    ghost invariant = { λ i.
        IsInstance (record { n = i.n; bonds = i.bonds; rotation = i.rotation; seam = i.seam }) };
}

impl Instance {
    /// An instance of its parts, tested in time linear in the bonds and darts. The rotation has one
    /// list for each spin.
    ///
    /// # Errors
    /// `BadRotation` where a list is not the darts of its spin, each once, with the least such spin
    /// and the dart that shows it; then `BadSeam` with the first entry of the seam that is not a bond
    /// or is listed earlier. The parts are then dropped.
    pub fn new(
        alloc: Global,
        n: u32,
        bonds: Bonds,
        rotation: Rotation,
        seam: BondList,
    ) -> Result<Self, Fault>
        requires has_spin { 1 ≤ n }
        requires few_spins { n ≤ 2 ^ 24 }
        requires few_bonds { length bonds ≤ 2 ^ 24 }
        requires joined { All (IsBond n) bonds }
        requires lists { length rotation ≡ n }
        ensures ok { IfOk result
            (λ inst. inst ≡ record { n = n; bonds = bonds; rotation = rotation; seam = seam }) }
        ensures well_formed { IfOk result IsInstance }
        ensures refused { IfErr result
            (OrNoMemory (IsRefusalOf (record { n = n; bonds = bonds; rotation = rotation; seam = seam }))) }
    {
        let draft = Draft {
            n,
            bonds,
            rotation,
            seam,
        };
        draft.judge(alloc)?;
        let Draft {
            n,
            bonds,
            rotation,
            seam,
        } = draft;
        Ok(Instance {
            n,
            bonds,
            rotation,
            seam,
        })
    }

    /// The instance of these parts, which the caller knows to make one. Nothing is tested, and no memory
    /// is taken.
    pub fn of_parts(n: u32, bonds: Bonds, rotation: Rotation, seam: BondList) -> Self
        requires { IsInstance (record { n = n; bonds = bonds; rotation = rotation; seam = seam }) }
        ensures { result ≡ record { n = n; bonds = bonds; rotation = rotation; seam = seam } }
    {
        Instance {
            n,
            bonds,
            rotation,
            seam,
        }
    }

    /// The number of spins.
    pub fn n(&self) -> u32
        ensures value { result ≡ self.now.n }
        ensures instance { IsInstance self.now }
    {
        self.n
    }

    /// The bonds, in their order.
    pub fn bonds(&self) -> &Bonds
        ensures value { result.now ≡ self.now.bonds }
        ensures instance { IsInstance self.now }
    {
        &self.bonds
    }

    /// For each spin its darts, in their cyclic order.
    pub fn rotation(&self) -> &Rotation
        ensures value { result.now ≡ self.now.rotation }
        ensures instance { IsInstance self.now }
    {
        &self.rotation
    }

    /// The bonds of the seam, in the order in which they were given.
    pub fn seam(&self) -> &BondList
        ensures value { result.now ≡ self.now.seam }
        ensures instance { IsInstance self.now }
    {
        &self.seam
    }

    /// The energy of an assignment, `- sum of J s(u) s(v)`, in time linear in the bonds. It does
    /// not allocate.
    pub fn energy(&self, s: &Spins) -> i128
        requires { length s.now ≡ self.now.n }
        ensures { result ≡ energy self.now s.now }
    {
        -alignment(self.bonds.as_slice(), s)
    }

    /// The sum of the couplings' sizes, in time linear in the bonds. It does not allocate.
    pub fn weight(&self) -> i128
        ensures { result ≡ pos (weight_of self.now) }
    {
        let mut total: i128 = 0;
        for bond in self.bonds.as_slice() {
            total += i128::from(bond.j.unsigned_abs());
        }
        total
    }

    /// A copy in which the sign of the coupling is changed on each bond of the seam, in time linear
    /// in the bonds and darts.
    pub fn flip_seam(&self) -> Result<Instance, NoMemory>
        ensures { IfOk result (λ copy. copy ≡ with_seam_flipped self.now) }
    {
        let bonds = self.flipped_bonds()?;
        self.with_bonds(bonds)
    }

    /// The same instance with these couplings, in the order of the bonds, in time linear in the bonds.
    /// It does not allocate: the rotation is moved, and not copied.
    pub fn with_couplings(self, couplings: &Couplings) -> Instance
        requires count { length couplings.now ≡ bond_count self }
        requires sizes { All (λ j. unsigned_abs j < 2 ^ 63) couplings.now }
        ensures { result ≡ with_couplings self couplings.now }
    {
        let Instance {
            n,
            mut bonds,
            rotation,
            seam,
        } = self;
        recouple(&mut bonds, couplings.as_slice());
        Instance {
            n,
            bonds,
            rotation,
            seam,
        }
    }

    /// A copy in which the sign of every coupling is changed, in time linear in the bonds and darts.
    pub fn negated(&self) -> Result<Instance, NoMemory>
        ensures { IfOk result (λ copy. copy ≡ negated self.now) }
    {
        let mut bonds = Bonds::new(self.bonds.allocator());
        bonds.reserve(self.bonds.len())?;
        for bond in self.bonds.as_slice() {
            bonds.push(flipped_if(*bond, true))?;
        }
        self.with_bonds(bonds)
    }

    /// A copy in which one bond has the coupling `j`, in time linear in the bonds and darts.
    pub fn with_coupling(&self, bond: u32, j: i64) -> Result<Instance, NoMemory>
        requires bond_in { bond < bond_count self.now }
        requires size { unsigned_abs j < 2 ^ 63 }
        ensures { IfOk result (λ copy. copy ≡ with_coupling self.now bond j) }
    {
        let mut bonds = Bonds::new(self.bonds.allocator());
        bonds.reserve(self.bonds.len())?;
        for (k, old) in self.bonds.as_slice().iter().enumerate() {
            bonds.push(recoupled_if(*old, k == bond as usize, j))?;
        }
        self.with_bonds(bonds)
    }

    /// The same instance with another seam, in time linear in the bonds and darts.
    ///
    /// # Errors
    /// `BadSeam` with the first entry that is not a bond or is listed earlier.
    pub fn with_seam(self, seam: BondList) -> Result<Instance, Fault>
        ensures ok { IfOk result (λ copy. copy ≡ with_seam self seam) }
        ensures well_formed { IfOk result IsInstance }
        ensures refused { IfErr result (OrNoMemory (IsRefusalOf (with_seam self seam))) }
    {
        let alloc = self.bonds.allocator();
        let Instance {
            n,
            bonds,
            rotation,
            seam: _,
        } = self;
        Instance::new(alloc, n, bonds, rotation, seam)
    }

    // The bonds, with the sign of the coupling changed on each bond of the seam.
    fn flipped_bonds(&self) -> Result<Bonds, NoMemory>
        ensures bonds { IfOk result (λ bonds. bonds ≡ map (flipped_at self.now) (range_with_len 0 (bond_count self.now))) }
        ensures instance { IsInstance self.now }
    {
        let mut bonds = Bonds::new(self.bonds.allocator());
        bonds.reserve(self.bonds.len())?;
        let on_seam = self.on_seam()?;
        for (k, bond) in self.bonds.as_slice().iter().enumerate() {
            bonds.push(flipped_if(*bond, on_seam[k]))?;
        }
        Ok(bonds)
    }

    // For each bond whether it is on the seam.
    fn on_seam(&self) -> Result<Vec<bool>, NoMemory>
        ensures len { IfOk result (λ marked. vec_len marked ≡ bond_count self.now) }
        ensures marks { IfOk result
            (λ marked. (k : ℕ) → k < bond_count self.now → is_marked marked.items k ≡ holds self.now.seam k) }
    {
        let mut marked = vec![in self.bonds.allocator(); false; self.bonds.len()]?;
        for bond in self.seam.as_slice() {
            marked[*bond as usize] = true;
        }
        Ok(marked)
    }

    // A copy with these bonds, which join the same spins.
    fn with_bonds(&self, bonds: Bonds) -> Result<Instance, NoMemory>
        requires { HasSameEnds self.now bonds }
        ensures { IfOk result (λ copy. copy ≡ with_bonds self.now bonds) }
    {
        let rotation = self.rotation.clone()?;
        let seam = self.seam.clone()?;
        Ok(Instance {
            n: self.n,
            bonds,
            rotation,
            seam,
        })
    }
}

// The bond, with the sign of its coupling changed if so asked.
fn flipped_if(bond: Bond, flips: bool) -> Bond
    requires { unsigned_abs bond.j < 2 ^ 63 }
    ensures { result ≡ (if flips then opposite bond else bond) }
{
    if flips {
        Bond {
            u: bond.u,
            v: bond.v,
            j: -bond.j,
        }
    } else {
        bond
    }
}

// The bond, with the coupling `j` if so asked.
fn recoupled_if(bond: Bond, changes: bool, j: i64) -> Bond
    ensures { result ≡ (if changes then recoupled bond j else bond) }
{
    if changes {
        Bond {
            u: bond.u,
            v: bond.v,
            j,
        }
    } else {
        bond
    }
}

// Gives each bond its coupling.
fn recouple(bonds: &mut Bonds, couplings: &[i64])
    requires { length couplings.now ≡ length bonds.old }
    ensures { bonds.new ≡ coupled_bonds bonds.old couplings.now }
{
    for (k, j) in couplings.iter().enumerate() {
        let bond = recoupled_if(*bonds.at(k), true, *j);
        bonds.set(k, bond);
    }
}

// The coupling times the product of the two spins.
fn coupled_product(bond: Bond, s: &Spins) -> i128
    requires { IsBond (length s.now) bond }
    ensures value { result ≡ bond.j *ℤ product s.now bond }
    ensures size { unsigned_abs result < 2 ^ 63 }
{
    let j = i128::from(bond.j);
    if s.at(bond.u as usize) == s.at(bond.v as usize) {
        j
    } else {
        -j
    }
}

// The sum over the bonds of the coupling times the product of the two spins.
fn alignment(bonds: &[Bond], s: &Spins) -> i128
    requires few { length bonds.now ≤ 2 ^ 24 }
    requires joined { All (IsBond (length s.now)) bonds.now }
    ensures value { result ≡ fold (λ total b. total +ℤ (b.j *ℤ product s.now b)) (pos 0) bonds.now }
    ensures size { unsigned_abs result ≤ 2 ^ 24 * 2 ^ 63 }
{
    let mut total: i128 = 0;
    for bond in bonds {
        total += coupled_product(*bond, s);
    }
    total
}
