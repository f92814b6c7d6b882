ghost use Rattle.std.specs.Prelude.{◌≡◌, ◌↔◌, ◌<◌, ◌^◌, length, IfOk};

use super::judge::{judge_energy, judge_loops};
use super::{NoMemory, ResultText, Verdict};
use sg_model::Instance;
use std::alloc::Global;
use std::marker::Model;

/// A checker of proofs for one instance. It keeps what its tests need between calls, and its
/// contracts see the instance alone.
#[derive(Drop)]
pub struct Checker<'a> {
    instance: &'a Instance,
    marks: Vec<bool>,
    loads: Vec<u128>,
}

impl<'a> Model for Checker<'a> {
    ghost use Rattle.std.specs.Prelude.{◌≡◌, false, replicate};
    ghost use Rattle.sg_model.specs.Ising.{Ising, bond_count};

    ghost Value = { Ising };

    ghost view = { λ c. c.instance.now };

    ghost invariant = { λ c. (c.marks.items ≡ replicate c.instance.now.n false)
        × (c.loads.items ≡ replicate (bond_count c.instance.now) 0) };
}

impl<'a> Checker<'a> {
    ghost use Rattle.sg_model.specs.Energy.{IsGroundState, IsLeastEnergy};
    ghost use Rattle.sg_check.specs.Packing.{Proves};
    ghost use Rattle.sg_check.specs.Verdict.{IsVerdict};

    /// A checker for this instance. It takes all memory that checking needs.
    pub fn open(alloc: Global, inst: &'a Instance) -> Result<Self, NoMemory>
        ensures { IfOk result (λ checker. checker ≡ inst.now) }
    {
        let marks = vec![in alloc; false; inst.n() as usize]?;
        let loads = vec![in alloc; 0u128; inst.bonds().len()]?;
        Ok(Checker {
            instance: inst,
            marks,
            loads,
        })
    }

    /// Judges a proof: Yes, or the first test that fails.
    ///
    /// Each test is made over all loops or bonds before the next, and the least that fails is named.
    /// Earlier calls change no verdict. It does not allocate, and takes time linear in the spins, the
    /// bonds and the bonds of all loops. Sums are exact. After Yes no assignment has less energy.
    pub fn check(&mut self, text: &ResultText) -> Verdict
        requires few_spins { length text.now.spins < 2 ^ 32 }
        requires few_loops { length text.now.loops < 2 ^ 32 }
        ensures verdict { IsVerdict self.old text.now result }
        ensures yes { (result ≡ Verdict.Yes)
            ↔ Proves self.old text.now.spins text.now.energy text.now.loops }

        // What a yes means: the law of packings, for the stated spins and energy.
        ensures ground_state { result ≡ Verdict.Yes → IsGroundState self.old text.now.spins }
        ensures least_energy { result ≡ Verdict.Yes → IsLeastEnergy self.old text.now.energy }
        ensures instance { self.new ≡ self.old }
    {
        let inst = self.instance;
        if let Some(verdict) = judge_energy(inst, text) {
            return verdict;
        }
        judge_loops(inst, text, &mut self.marks, &mut self.loads)
    }
}
