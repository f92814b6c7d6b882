ghost use Rattle.std.specs.Prelude.{◌≡◌, ◌⊎◌, ◌<◌, ◌≤◌, ℕ, true, false, length, IfSome, IfNone, IfOk, IfErr, MatchOption};
ghost use Rattle.sg_model.specs.Ising.{bond_count};
ghost use Rattle.sg_model.specs.Rotation.{dart_count, tail, is_dart_of, darts_of, IsRotation};
ghost use Rattle.sg_model.specs.Misplaced.{IsInPlace, IsFirstMisplaced};
ghost use Rattle.sg_model.specs.BadRotation.{IsBadRotation};
ghost use Rattle.sg_model.specs.BadSeam.{is_bond, IsBadSeam};
ghost use Rattle.sg_base.specs.Sets.{is_marked};
ghost use Rattle.sg_model.specs.Marks.{AllMarked, MarksList, MarksSpins, IsLeastUnmarked};
ghost use Rattle.sg_model.specs.Seam.{IsSeam};
ghost use Rattle.sg_model.specs.WellFormed.{IsDraft};
ghost use Rattle.sg_model.specs.Faults.{IsRefusalOf, OrNoMemory};

use super::{BondList, Bonds, Fault, NoMemory, Refusal, Rotation};
use std::alloc::Global;
use std::marker::Model;

/// The parts of an instance before its rotation and its seam are tested.
#[derive(Drop)]
pub(crate) struct Draft {
    pub(crate) n: u32,
    pub(crate) bonds: Bonds,
    pub(crate) rotation: Rotation,
    pub(crate) seam: BondList,
}

impl Model for Draft {
    ghost use Rattle.sg_model.specs.Ising.{Ising};
    ghost use Rattle.sg_model.specs.WellFormed.{IsDraft};

    ghost Value = { Ising };

    ghost view = { λ i. record { n = i.n; bonds = i.bonds; rotation = i.rotation; seam = i.seam } };

    ghost invariant = { λ i.
        IsDraft (record { n = i.n; bonds = i.bonds; rotation = i.rotation; seam = i.seam }) };
}

/// A dart that shows a fault of the list of a spin.
#[derive(Clone, Copy)]
pub(crate) struct WrongDart {
    pub(crate) spin: u32,
    pub(crate) dart: u32,
}

impl Draft {
    // The number of darts.
    fn dart_count(&self) -> u32
        ensures value { result ≡ dart_count self.now }
        ensures draft { IsDraft self.now }
    {
        2 * self.bonds.len() as u32
    }

    // The spin that a dart leaves.
    fn tail(&self, dart: u32) -> u32
        requires { dart < dart_count self.now }
        ensures { result ≡ tail self.now dart }
    {
        let bond = self.bonds.at(dart as usize / 2);
        if dart % 2 == 0 { bond.u } else { bond.v }
    }

    fn is_dart_of(&self, spin: u32, dart: u32) -> bool
        ensures { result ≡ is_dart_of self.now spin dart }
    {
        dart < self.dart_count() && self.tail(dart) == spin
    }

    // Marks the darts of a spin that its list holds, up to the first misplaced entry.
    fn mark_list(&self, spin: u32, marked: &mut [bool]) -> Option<u32>
        requires spin_in { spin < self.now.n }
        requires room { length marked.old ≡ dart_count self.now }
        requires fresh { (d : ℕ) → is_dart_of self.now spin d ≡ true → is_marked marked.old d ≡ false }
        ensures none { IfNone result (IsInPlace (is_dart_of self.now spin) (darts_of self.now spin)
            × MarksList (is_dart_of self.now spin) marked.new (darts_of self.now spin)) }
        ensures misplaced { IfSome result (IsFirstMisplaced (is_dart_of self.now spin) (darts_of self.now spin)) }
        ensures others { (d : ℕ) → is_dart_of self.now spin d ≡ false → is_marked marked.new d ≡ is_marked marked.old d }
    {
        for dart in self.rotation.at(spin as usize) {
            if !self.is_dart_of(spin, *dart) || marked[*dart as usize] {
                return Some(*dart);
            }
            marked[*dart as usize] = true;
        }
        None
    }

    // Marks list after list, up to the first misplaced entry. Where there is none, the spin of the
    // answer is `n`.
    fn mark_lists(&self, marked: &mut [bool]) -> WrongDart
        requires room { length marked.old ≡ dart_count self.now }
        requires fresh { (d : ℕ) → is_marked marked.old d ≡ false }
        ensures stop { result.spin ≤ self.now.n }
        ensures marks { MarksSpins self.now marked.new result.spin }
        ensures misplaced { result.spin < self.now.n →
            IsFirstMisplaced (is_dart_of self.now result.spin) (darts_of self.now result.spin) result.dart }
    {
        for spin in 0..self.n {
            if let Some(dart) = self.mark_list(spin, marked) {
                return WrongDart { spin, dart };
            }
        }
        WrongDart {
            spin: self.n,
            dart: 0,
        }
    }

    // The least unmarked dart of the least spin before that of `first`; `first` where there is none.
    fn least_unmarked(&self, marked: &[bool], first: WrongDart) -> WrongDart
        requires room { length marked.now ≡ dart_count self.now }
        ensures earlier { AllMarked self.now marked.now result.spin }
        ensures least { ((result.spin ≡ first.spin) × (result.dart ≡ first.dart))
            ⊎ IsLeastUnmarked self.now marked.now first.spin result.spin result.dart }
    {
        let mut least = first;
        for dart in 0..self.dart_count() {
            let spin = self.tail(dart);
            if spin < least.spin && !marked[dart as usize] {
                least = WrongDart { spin, dart };
            }
        }
        least
    }

    // The first fault, with the spin `n` where there is none, over marks that are all unset.
    fn first_wrong(&self, marked: &mut [bool]) -> WrongDart
        requires lists { length self.now.rotation ≡ self.now.n }
        requires room { length marked.old ≡ dart_count self.now }
        requires fresh { (d : ℕ) → is_marked marked.old d ≡ false }
        ensures none { self.now.n ≤ result.spin → IsRotation self.now }
        ensures fault { result.spin < self.now.n → IsBadRotation self.now result.spin result.dart }
    {
        let first = self.mark_lists(marked);
        self.least_unmarked(marked, first)
    }

    /// The first fault of the rotation, in time linear in the darts. The only error is running out
    /// of memory.
    pub(crate) fn wrong_dart(&self, alloc: Global) -> Result<Option<WrongDart>, NoMemory>
        ensures { IfOk result (λ found. MatchOption found (IsRotation self.now)
            (λ wrong. IsBadRotation self.now wrong.spin wrong.dart)) }
    {
        let mut marked = vec![in alloc; false; self.dart_count() as usize]?;
        let wrong = self.first_wrong(&mut marked);
        if wrong.spin < self.n {
            Ok(Some(wrong))
        } else {
            Ok(None)
        }
    }

    // Marks the bonds of the seam, up to the first misplaced entry.
    fn mark_seam(&self, marked: &mut [bool]) -> Option<u32>
        requires room { length marked.old ≡ bond_count self.now }
        requires fresh { (k : ℕ) → is_marked marked.old k ≡ false }
        ensures none { IfNone result (IsInPlace (is_bond self.now) self.now.seam) }
        ensures misplaced { IfSome result (IsBadSeam self.now) }
    {
        for bond in self.seam.as_slice() {
            if *bond as usize >= self.bonds.len() || marked[*bond as usize] {
                return Some(*bond);
            }
            marked[*bond as usize] = true;
        }
        None
    }

    /// The first fault of the seam, in time linear in the bonds. The only error is running out of
    /// memory.
    pub(crate) fn wrong_bond(&self, alloc: Global) -> Result<Option<u32>, NoMemory>
        ensures { IfOk result (λ found. MatchOption found (IsSeam self.now) (IsBadSeam self.now)) }
    {
        let mut marked = vec![in alloc; false; self.bonds.len()]?;
        Ok(self.mark_seam(&mut marked))
    }

    /// Tests the rotation, and then the seam.
    pub(crate) fn judge(&self, alloc: Global) -> Result<(), Fault>
        ensures rotation { IfOk result (λ _. IsRotation self.now) }
        ensures seam { IfOk result (λ _. IsSeam self.now) }
        ensures refused { IfErr result (OrNoMemory (IsRefusalOf self.now)) }
    {
        if let Some(wrong) = self.wrong_dart(alloc)? {
            return Err(Fault::Refused(Refusal::BadRotation {
                spin: wrong.spin,
                dart: wrong.dart,
            }));
        }
        if let Some(bond) = self.wrong_bond(alloc)? {
            return Err(Fault::Refused(Refusal::BadSeam { bond }));
        }
        Ok(())
    }
}
