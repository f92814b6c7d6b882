// Instances of the trials: worked ones, and lattices and triangles with drawn couplings.
ghost use Rattle.std.specs.Prelude.{◌≡◌, ◌<◌, ◌^◌, length, All, IfOk, unsigned_abs};
ghost use Rattle.sg_draft.specs.Bonds.{IsCoupling};

use super::texts::instance;
use rand_core::utils::NextWord;
use rand_pcg::Pcg32;
use sg_draft::{Limits, check_lattice_size, is_coupling};
use sg_lattice::{Kind, bond_count, build};
use sg_model::{Couplings, Fault};
use sg_planar::Planar;
use std::alloc::{AllocError, Global};

/// Instances that are worked by hand, or that are the least of their kind. `tools/lib/rows/least.py` has them too.
pub static WORKED: [&str; 14] = [
    "square,1,1\nend\n",
    "square,2,2\n3,4\n2,-5\nend\n",
    "triangular,2,2\n-1,-1,-1,-1,-1\nend\n",
    "hexagonal,2,3\n4,5,6,7\n3,-8\nend\n",
    "general,2\nbond,0,1,3\nbond,0,1,-2\nbond,0,1,1\nrot,0,0,2,4\nrot,1,1,5,3\nend\n",
    "general,2\nbond,0,1,3\nbond,0,1,-2\nbond,0,1,3\nbond,0,1,-7\nrot,0,0,2,4,6\nrot,1,1,7,5,3\nend\n",
    "square,1,2\n17592186044416\nend\n",
    "general,4\nbond,0,1,2\nbond,1,2,-3\nbond,1,3,4\nrot,0,0\nrot,1,1,2,4\nrot,2,3\nrot,3,5\nend\n",
    "general,7\nbond,0,1,1\nbond,0,2,1\nbond,0,3,1\nbond,0,4,1\nbond,0,5,1\nbond,0,6,1\nbond,1,2,-1\nbond,2,3,-1\nbond,3,4,-1\nbond,4,5,-1\nbond,5,6,-1\nbond,6,1,-1\nrot,0,0,2,4,6,8,10\nrot,1,1,23,12\nrot,2,3,13,14\nrot,3,5,15,16\nrot,4,7,17,18\nrot,5,9,19,20\nrot,6,11,21,22\nend\n",
    "square,4,4\n1,1,1,1,-1,1,1,1,1,1,1,1,1,1,1,1,1,1,1,1,1,1,1,1\nend\n",
    "cylinder,1,3\n5,7,-2\nend\n",
    "general,3\nend\n",
    "general,4\nbond,0,1,2\nbond,2,3,-5\nrot,0,0\nrot,1,1\nrot,2,2\nrot,3,3\nend\n",
    "general,6\nbond,0,2,3\nbond,2,4,-5\nbond,4,0,2\nbond,1,3,-7\nbond,3,5,1\nbond,5,1,4\nrot,0,0,5\nrot,1,6,11\nrot,2,1,2\nrot,3,7,8\nrot,4,3,4\nrot,5,9,10\nend\n",
];

/// A lattice: its kind, its rows and its columns.
pub type Shape = (Kind, u32, u32);

// Four triangles, whose spins alternate.
const TRIANGLES: &str =
    "general,12\nbond,0,4,0\nbond,4,8,0\nbond,8,0,0\nbond,1,5,0\nbond,5,9,0\nbond,9,1,0\nbond,2,6,0\nbond,6,10,0\nbond,10,2,0\nbond,3,7,0\nbond,7,11,0\nbond,11,3,0\nrot,0,0,5\nrot,4,1,2\nrot,8,3,4\nrot,1,6,11\nrot,5,7,8\nrot,9,9,10\nrot,2,12,17\nrot,6,13,14\nrot,10,15,16\nrot,3,18,23\nrot,7,19,20\nrot,11,21,22\nend\n";

// A coupling of one size, of one size or none, of few sizes with zeros, -1 alone, or of many sizes.
fn level(law: u32, word: u32) -> i64 {
    match law {
        0 => 2 * i64::from(word % 2) - 1,
        1 => i64::from(word % 3) - 1,
        2 => i64::from(word % 9) - 4,
        3 => -1,
        _ => i64::from(word) - 2147483648,
    }
}

// The number, which is a coupling as it is so small.
fn coupling(number: i64) -> i64
    ensures { IsCoupling result }
{
    if is_coupling(number) { number } else { 0 }
}

// So many couplings of a law.
fn couplings(
    alloc: Global,
    count: usize,
    law: u32,
    draws: &mut Pcg32,
) -> Result<Couplings, AllocError>
    ensures count { IfOk result (λ list. length list ≡ count) }
    ensures sizes { IfOk result (All (λ j. unsigned_abs j < 2 ^ 63)) }
{
    let mut list = Couplings::new(alloc);
    for _ in 0..count {
        list.push(coupling(level(law, draws.next_word())))?;
    }
    Ok(list)
}

/// A lattice with drawn couplings.
pub fn lattice(alloc: Global, shape: Shape, law: u32, draws: &mut Pcg32) -> Result<Planar, Fault> {
    let (kind, rows, cols) = shape;
    let size = check_lattice_size(
        Limits::of_program(),
        kind,
        Some(u64::from(rows)),
        Some(u64::from(cols)),
    )?;
    let count = bond_count(kind, size.rows, size.cols);
    let list = couplings(alloc, count as usize, law, draws)?;
    let inst = build(alloc, kind, size.rows, size.cols, list)?;
    Planar::test(alloc, inst)
}

/// Four triangles with drawn couplings.
pub fn triangles(alloc: Global, law: u32, draws: &mut Pcg32) -> Result<Planar, Fault> {
    let bare = instance(alloc, TRIANGLES)?;
    let list = couplings(alloc, bare.bonds().len(), law, draws)?;
    Planar::test(alloc, bare.with_couplings(&list))
}
