// The tests of the loops, each made over all of them, with the first that fails.

ghost use Rattle.std.specs.Prelude.{◌≡◌, ℕ, false, ◌<◌, ◌+◌, ◌^◌, ◌↔◌, IsTrue, length, replicate, slice_index, All, IfNone, IfSome};
ghost use Rattle.sg_model.specs.Ising.{bond_count};
ghost use Rattle.sg_check.specs.Loop.{IsEven, IsEvenAt, IsOddlyNegative};
ghost use Rattle.sg_check.specs.Verdict.{HasShape, IsFirstBadLoop, IsFirstFailure, loop_at};

use super::Loop;
use super::spins::{bond_of, least_odd_spin};
use sg_base::{all_below, is_rising};
use sg_model::Instance;

// A loop and the least spin at which an odd number of its bonds end.
#[derive(Clone, Copy)]
pub struct OddSpin {
    pub index: u32,
    pub spin: u32,
}

fn has_shape(inst: &Instance, entry: &Loop) -> bool
    ensures { IsTrue result ↔ HasShape inst.now entry.now }
{
    let bonds = entry.bonds.as_slice();
    entry.y >= 1 && !bonds.is_empty() && is_rising(bonds) && all_below(bonds, inst.bonds().len())
}

fn is_oddly_negative(inst: &Instance, list: &[u32]) -> bool
    requires { All (λ k. k < bond_count inst.now) list.now }
    ensures { IsTrue result ↔ IsOddlyNegative inst.now list.now }
{
    let mut odd = false;
    for k in list {
        if bond_of(inst, *k).j < 0 {
            odd = !odd;
        }
    }
    odd
}

// The first loop without the shape of one.
pub fn first_misshapen(inst: &Instance, loops: &[Loop]) -> Option<u32>
    requires { length loops.now < 2 ^ 32 }
    ensures none { IfNone result (All (HasShape inst.now) loops.now) }
    ensures some { IfSome result (IsFirstBadLoop (HasShape inst.now) loops.now) }
{
    for (i, entry) in loops.iter().enumerate() {
        if !has_shape(inst, entry) {
            return Some(i as u32);
        }
    }
    None
}

// The first loop that is odd at a spin, and the least such spin.
pub fn first_uneven(inst: &Instance, loops: &[Loop], marks: &mut [bool]) -> Option<OddSpin>
    requires few { length loops.now < 2 ^ 32 }
    requires shaped { All (HasShape inst.now) loops.now }
    requires no_marks { marks.old ≡ replicate inst.now.n false }
    ensures none { IfNone result (All (λ l. IsEven inst.now l.bonds) loops.now) }
    ensures first_loop { IfSome result (λ odd.
        IsFirstBadLoop (λ l. IsEven inst.now l.bonds) loops.now odd.index) }
    ensures first_spin { IfSome result (λ odd. IsFirstFailure
        (IsEvenAt inst.now (loop_at loops.now odd.index).bonds) inst.now.n odd.spin) }
    ensures marks { marks.new ≡ marks.old }
{
    for (i, entry) in loops.iter().enumerate() {
        if let Some(spin) = least_odd_spin(inst, entry.bonds.as_slice(), marks) {
            return Some(OddSpin {
                index: i as u32,
                spin,
            });
        }
    }
    None
}

// The first loop with an even number of negative bonds.
pub fn first_unfrustrated(inst: &Instance, loops: &[Loop]) -> Option<u32>
    requires few { length loops.now < 2 ^ 32 }
    requires shaped { All (HasShape inst.now) loops.now }
    ensures none { IfNone result (All (λ l. IsOddlyNegative inst.now l.bonds) loops.now) }
    ensures some { IfSome result (IsFirstBadLoop (λ l. IsOddlyNegative inst.now l.bonds) loops.now) }
{
    for (i, entry) in loops.iter().enumerate() {
        if !is_oddly_negative(inst, entry.bonds.as_slice()) {
            return Some(i as u32);
        }
    }
    None
}
