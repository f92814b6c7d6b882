// The tests of the weights: the load of each bond, and the sum of all.

ghost use Rattle.std.specs.Prelude.{◌≡◌, ℕ, ◌<◌, ◌≤◌, ◌+◌, ◌*◌, ◌^◌, if◌then◌else◌, length, replicate, slice_index, All, IfNone, IfSome, unsigned_abs};
ghost use Rattle.sg_model.specs.Ising.{bond_at, bond_count};
ghost use Rattle.sg_check.specs.Packing.{IsWithin, load, packed_weight};
ghost use Rattle.sg_check.specs.Verdict.{HasShape, IsFirstFailure};

use super::Loop;
use sg_base::add_weight;
use sg_model::Instance;

// A bond and the weights of the loops through it.
#[derive(Clone, Copy)]
pub struct Overload {
    pub bond: u32,
    pub load: u128,
}

// Adds the weight of each loop at its bonds.
fn add_loops(inst: &Instance, loops: &[Loop], loads: &mut [u128])
    requires few { length loops.now < 2 ^ 32 }
    requires shaped { All (HasShape inst.now) loops.now }
    requires no_loads { loads.old ≡ replicate (bond_count inst.now) 0 }
    ensures value { (k : ℕ) → k < bond_count inst.now → slice_index loads.new k ≡ load loops.now k }
    ensures size { (k : ℕ) → k < bond_count inst.now → slice_index loads.new k < 2 ^ 127 }
{
    for entry in loops {
        add_weight(loads, entry.bonds.as_slice(), entry.y.unsigned_abs());
    }
}

// The first bond with more on it than twice the size of its coupling.
fn first_above(inst: &Instance, loads: &[u128]) -> Option<Overload>
    requires { length loads.now ≡ bond_count inst.now }
    ensures none { IfNone result ((k : ℕ) → k < bond_count inst.now →
        slice_index loads.now k ≤ 2 * unsigned_abs (bond_at inst.now k).j) }
    ensures bond { IfSome result (λ over. IsFirstFailure
        (λ k. slice_index loads.now k ≤ 2 * unsigned_abs (bond_at inst.now k).j)
        (bond_count inst.now) over.bond) }
    ensures load { IfSome result (λ over. over.load ≡ slice_index loads.now over.bond) }
{
    for (k, bond) in inst.bonds().as_slice().iter().enumerate() {
        if loads[k] > 2 * u128::from(bond.j.unsigned_abs()) {
            return Some(Overload {
                bond: k as u32,
                load: loads[k],
            });
        }
    }
    None
}

// The first bond that the loops through it overload.
pub fn first_overload(inst: &Instance, loops: &[Loop], loads: &mut [u128]) -> Option<Overload>
    requires few { length loops.now < 2 ^ 32 }
    requires shaped { All (HasShape inst.now) loops.now }
    requires no_loads { loads.old ≡ replicate (bond_count inst.now) 0 }
    ensures none { IfNone result ((k : ℕ) → k < bond_count inst.now → IsWithin inst.now loops.now k) }
    ensures bond { IfSome result (λ over.
        IsFirstFailure (IsWithin inst.now loops.now) (bond_count inst.now) over.bond) }
    ensures load { IfSome result (λ over. over.load ≡ load loops.now over.bond) }
    ensures size { IfSome result (λ over. over.load < 2 ^ 127) }
    ensures loads { loads.new ≡ loads.old }
{
    add_loops(inst, loops, loads);
    let over = first_above(inst, loads);
    loads.fill(0);
    over
}

// The weights of all loops.
pub fn sum_of_weights(loops: &[Loop]) -> u128
    requires { length loops.now < 2 ^ 32 }
    ensures value { result ≡ packed_weight loops.now }
    ensures size { result < 2 ^ 96 }
{
    let mut total: u128 = 0;
    for entry in loops {
        total += u128::from(entry.y.unsigned_abs());
    }
    total
}
