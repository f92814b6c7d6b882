// Ground states by trying all assignments, and other couplings.
use super::facts::expect;
use super::texts::{instance, planar};
use sg_model::{Fault, Instance, least_plain};
use std::alloc::Global;
use std::test::Fail;

// Whether an instance of few spins has this least energy, and these spins have it.
fn is_least(alloc: Global, inst: &Instance, energy: i128, wanted: &[i8]) -> Result<bool, Fault> {
    if inst.n() > 16 {
        return Ok(false);
    }
    let (spins, least) = least_plain(alloc, inst)?;
    Ok(least == energy && spins.as_slice() == wanted)
}

// The same of the instance of a text.
fn is_least_of(alloc: Global, text: &str, energy: i128, wanted: &[i8]) -> Result<bool, Fault> {
    let inst = instance(alloc, text)?;
    is_least(alloc, &inst, energy, wanted)
}

static ROWS: [(&str, i128, &[i8]); 2] = [
    ("square,1,1\nend\n", 0, &[1]),
    ("square,2,2\n3,4,2,-5\nend\n", -10, &[1, 1, -1, -1]),
];

#[test]
fn the_weakest_bond_breaks(rt: HostRuntime) -> Result<(), Fail> {
    for (text, energy, wanted) in &ROWS {
        let is_wanted = is_least_of(rt.alloc(), text, *energy, wanted)?;
        expect(&rt, text, is_wanted);
    }
    Ok(())
}

// Whether these are the couplings, in the order of the bonds.
fn has_couplings(inst: &Instance, wanted: &[i64]) -> bool {
    let bonds = inst.bonds().as_slice();
    if bonds.len() != wanted.len() {
        return false;
    }
    for k in 0..wanted.len() {
        if bonds[k].j != wanted[k] {
            return false;
        }
    }
    true
}

// A ring of three spins.
const RING: &str = "cylinder,1,3\n5,7,2\nend\n";

// Whether the sign on the seam of the ring is changed.
fn is_flipped(alloc: Global) -> Result<bool, Fault> {
    let ring = instance(alloc, RING)?;
    let flipped = ring.flip_seam()?;
    Ok(has_couplings(&flipped, &[5, 7, -2]))
}

// Whether the ring has the coupling 9 on its first bond then.
fn has_nine(alloc: Global) -> Result<bool, Fault> {
    let ring = instance(alloc, RING)?;
    if ring.bonds().is_empty() {
        return Ok(false);
    }
    let changed = ring.with_coupling(0, 9)?;
    Ok(has_couplings(&changed, &[9, 7, 2]))
}

// Whether every sign of a square is changed.
fn is_negated(alloc: Global) -> Result<bool, Fault> {
    let square = planar(alloc, "square,2,2\n3,4\n2,-5\nend\n")?;
    let opposite = square.negated()?;
    Ok(has_couplings(opposite.instance(), &[-3, -4, -2, 5]))
}

#[test]
fn couplings_are_changed_on_a_copy(rt: HostRuntime) -> Result<(), Fail> {
    let is_seam = is_flipped(rt.alloc())?;
    expect(&rt, "the seam", is_seam);
    let is_bond = has_nine(rt.alloc())?;
    expect(&rt, "one bond", is_bond);
    let is_all = is_negated(rt.alloc())?;
    expect(&rt, "every sign", is_all);
    Ok(())
}
