// The tests of a loop at the spins that it meets, in time linear in the loop: the marks at the ends
// of its bonds are toggled, the least marked end is found, and the marks are toggled back.

ghost use Rattle.std.specs.Prelude.{◌≡◌, ℕ, true, false, ◌<◌, ◌≤◌, ◌⊎◌, length, replicate, All, IfNone, IfSome, IsSomeAnd};
ghost use Rattle.std.specs.List.{list_any};
ghost use Rattle.sg_base.specs.Parity.{xor, parity_by};
ghost use Rattle.sg_base.specs.Sets.{is_marked};
ghost use Rattle.sg_model.specs.Ising.{IsBond, bond_at, bond_count};
ghost use Rattle.sg_check.specs.Loop.{is_end_of, IsEven, IsEvenAt};
ghost use Rattle.sg_check.specs.Verdict.{IsFirstFailure};

use sg_base::flip;
use sg_model::{Bond, Instance};

// Bond `k` of the instance.
pub fn bond_of(inst: &Instance, k: u32) -> Bond
    requires { k < bond_count inst.now }
    ensures value { result ≡ bond_at inst.now k }
    ensures bond { IsBond inst.now.n result }
{
    *inst.bonds().at(k as usize)
}

// Turns the marks at both ends of each bond of the list.
fn flip_ends(inst: &Instance, list: &[u32], marks: &mut [bool])
    requires below { All (λ k. k < bond_count inst.now) list.now }
    requires lengths { length marks.old ≡ inst.now.n }
    ensures { (i : ℕ) → i < inst.now.n → is_marked marks.new i
        ≡ xor (is_marked marks.old i) (parity_by (λ k. is_end_of (bond_at inst.now k) i) list.now) }
{
    for k in list {
        let bond = bond_of(inst, *k);
        flip(marks, &[bond.u, bond.v]);
    }
}

// The less of `least` and of this spin, where it is marked.
fn lesser_marked(least: u32, spin: u32, marks: &[bool]) -> u32
    requires { spin < length marks.now }
    ensures lower { result ≤ least }
    ensures marked { is_marked marks.now spin ≡ true → result ≤ spin }
    ensures either { (result ≡ least) ⊎ ((result ≡ spin) × (is_marked marks.now spin ≡ true)) }
{
    if marks[spin as usize] && spin < least {
        spin
    } else {
        least
    }
}

// The least marked end of the bonds of the list.
fn least_marked_end(inst: &Instance, list: &[u32], marks: &[bool]) -> Option<u32>
    requires below { All (λ k. k < bond_count inst.now) list.now }
    requires lengths { length marks.now ≡ inst.now.n }
    ensures found { IfSome result (λ i. (i < inst.now.n) × (is_marked marks.now i ≡ true)) }
    ensures least { (i : ℕ) → i < inst.now.n → is_marked marks.now i ≡ true →
        list_any (λ k. is_end_of (bond_at inst.now k) i) list.now ≡ true →
        IsSomeAnd result (λ x. x ≤ i) }
{
    let count = inst.n();
    let mut least = count;
    for k in list {
        let bond = bond_of(inst, *k);
        least = lesser_marked(least, bond.u, marks);
        least = lesser_marked(least, bond.v, marks);
    }
    if least < count { Some(least) } else { None }
}

// The least spin at which an odd number of the bonds in the list end.
pub fn least_odd_spin(inst: &Instance, list: &[u32], marks: &mut [bool]) -> Option<u32>
    requires below { All (λ k. k < bond_count inst.now) list.now }
    requires no_marks { marks.old ≡ replicate inst.now.n false }
    ensures none { IfNone result (IsEven inst.now list.now) }
    ensures some { IfSome result (IsFirstFailure (IsEvenAt inst.now list.now) inst.now.n) }
    ensures marks { marks.new ≡ marks.old }
{
    flip_ends(inst, list, marks);
    let spin = least_marked_end(inst, list, marks);
    flip_ends(inst, list, marks);
    spin
}
