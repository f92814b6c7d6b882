// The parts of small instances: one for each component.
use super::facts::expect;
use super::texts::planar;
use sg_model::{Bond, Fault};
use sg_planar::{Part, parts};
use std::alloc::Global;
use std::test::Fail;

// The ends and the coupling of a bond.
type BondRow = (u32, u32, i64);

// The spins and the bonds of a part, and each bond as the part numbers its ends.
type PartRow<'a> = (&'a [u32], &'a [u32], &'a [BondRow]);

fn is_bond(bond: &Bond, row: &BondRow) -> bool {
    bond.u == row.0 && bond.v == row.1 && bond.j == row.2
}

fn are_bonds(bonds: &[Bond], rows: &[BondRow]) -> bool {
    if bonds.len() != rows.len() {
        return false;
    }
    for k in 0..rows.len() {
        if !is_bond(&bonds[k], &rows[k]) {
            return false;
        }
    }
    true
}

fn is_part(part: &Part, row: &PartRow) -> bool {
    let (spins, bonds, numbered) = *row;
    part.spins.as_slice() == spins
        && part.bonds.as_slice() == bonds
        && are_bonds(part.planar.instance().bonds().as_slice(), numbered)
}

fn are_parts(list: &[Part], rows: &[PartRow]) -> bool {
    if list.len() != rows.len() {
        return false;
    }
    for k in 0..rows.len() {
        if !is_part(&list[k], &rows[k]) {
            return false;
        }
    }
    true
}

// Whether the instance of a text has these parts.
fn has_parts(alloc: Global, text: &str, rows: &[PartRow]) -> Result<bool, Fault> {
    let planar = planar(alloc, text)?;
    let list = parts(alloc, &planar)?;
    Ok(are_parts(list.as_slice(), rows))
}

static ROWS: [(&str, &[PartRow]); 3] = [
    (
        "general,4\nbond,0,1,2\nbond,2,3,-5\nrot,0,0\nrot,1,1\nrot,2,2\nrot,3,3\nend\n",
        &[
            (&[0, 1], &[0], &[(0, 1, 2)]),
            (&[2, 3], &[1], &[(0, 1, -5)]),
        ],
    ),
    (
        "general,5\nbond,4,1,3\nbond,2,0,-7\nbond,1,3,4\nrot,0,3\nrot,1,1,4\nrot,2,2\nrot,3,5\nrot,4,0\nend\n",
        &[
            (&[0, 2], &[1], &[(1, 0, -7)]),
            (&[1, 3, 4], &[0, 2], &[(2, 0, 3), (0, 1, 4)]),
        ],
    ),
    ("general,2\nend\n", &[(&[0], &[], &[]), (&[1], &[], &[])]),
];

#[test]
fn each_component_is_a_part(rt: HostRuntime) -> Result<(), Fail> {
    for (text, rows) in &ROWS {
        let is_wanted = has_parts(rt.alloc(), text, rows)?;
        expect(&rt, text, is_wanted);
    }
    Ok(())
}
