// The darts round each spin of small lattices, drawn by hand.
use super::facts::expect;
use super::texts::instance;
use sg_model::{Fault, Rotation};
use std::alloc::Global;
use std::test::Fail;

fn are_lists(lists: &Rotation, rows: &[&[u32]]) -> bool {
    if lists.len() != rows.len() {
        return false;
    }
    for spin in 0..rows.len() {
        if lists.at(spin) != rows[spin] {
            return false;
        }
    }
    true
}

// Whether the instance of a text has these darts round each spin, and this seam.
fn is_laid_out(alloc: Global, text: &str, rows: &[&[u32]], seam: &[u32]) -> Result<bool, Fault> {
    let inst = instance(alloc, text)?;
    Ok(are_lists(inst.rotation(), rows) && inst.seam().as_slice() == seam)
}

static ROWS: [(&str, &[&[u32]], &[u32]); 4] = [
    (
        "square,2,2\n3,4,2,-5\nend\n",
        &[&[0, 4], &[1, 6], &[2, 5], &[7, 3]],
        &[],
    ),
    (
        "triangular,2,2\n-1,-1,-1,-1,-1\nend\n",
        &[&[0, 4, 8], &[1, 6], &[2, 5], &[7, 9, 3]],
        &[],
    ),
    (
        "hexagonal,2,3\n4,5,6,7,3,-8\nend\n",
        &[&[0, 8], &[2, 1], &[3, 10], &[4, 9], &[6, 5], &[11, 7]],
        &[],
    ),
    (
        "cylinder,2,3\n1,2,3,4,5,6,7,8,9\nend\n",
        &[
            &[0, 5, 12],
            &[2, 1, 14],
            &[4, 3, 16],
            &[6, 13, 11],
            &[8, 15, 7],
            &[10, 17, 9],
        ],
        &[2, 5],
    ),
];

#[test]
fn lattices_are_laid_out_row_by_row(rt: HostRuntime) -> Result<(), Fail> {
    for (text, rows, seam) in &ROWS {
        let is_wanted = is_laid_out(rt.alloc(), text, rows, seam)?;
        expect(&rt, text, is_wanted);
    }
    Ok(())
}
