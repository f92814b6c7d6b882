// The faces of small drawings, traced by hand.
use super::facts::expect;
use super::texts::instance;
use sg_faces::trace;
use sg_model::{Fault, Instance};
use std::alloc::Global;
use std::test::Fail;

// Whether the drawing has so many faces, and each dart this label.
fn has_faces(alloc: Global, inst: &Instance, count: u32, labels: &[u32]) -> Result<bool, Fault> {
    let faces = trace(alloc, inst)?.clone()?;
    for dart in 0..2 * inst.bonds().len() {
        if dart >= labels.len() || faces.of(dart as u32) != labels[dart] {
            return Ok(false);
        }
    }
    Ok(faces.count() == count && labels.len() == 2 * inst.bonds().len())
}

// The same of the instance of a text.
fn is_traced(alloc: Global, text: &str, count: u32, labels: &[u32]) -> Result<bool, Fault> {
    let inst = instance(alloc, text)?;
    has_faces(alloc, &inst, count, labels)
}

static ROWS: [(&str, u32, &[u32]); 7] = [
    ("square,1,1\nend\n", 1, &[]),
    ("general,2\nend\n", 2, &[]),
    (
        "# a bond beside a spin alone\ngeneral,3\nbond,0,2,1\nrot,0,0\nrot,2,1\nend\n",
        2,
        &[0, 0],
    ),
    ("square,2,2\n3,4,2,-5\nend\n", 2, &[0, 1, 1, 0, 1, 0, 0, 1]),
    (
        "# a tree: one face, on both sides of each bond\ngeneral,4\nbond,0,1,1\nbond,0,2,1\nbond,0,3,1\nrot,0,0,2,4\nrot,1,1\nrot,2,3\nrot,3,5\nend\n",
        1,
        &[0, 0, 0, 0, 0, 0],
    ),
    (
        "general,2\nbond,0,1,1\nbond,0,1,1\nbond,0,1,1\nrot,0,0,2,4\nrot,1,1,5,3\nend\n",
        3,
        &[0, 1, 1, 2, 2, 0],
    ),
    (
        "# in the same order at both ends the bonds lie on a torus\ngeneral,2\nbond,0,1,1\nbond,0,1,1\nbond,0,1,1\nrot,0,0,2,4\nrot,1,1,3,5\nend\n",
        1,
        &[0, 0, 0, 0, 0, 0],
    ),
];

#[test]
fn faces_are_labelled_by_their_least_darts(rt: HostRuntime) -> Result<(), Fail> {
    for (text, count, labels) in &ROWS {
        let is_wanted = is_traced(rt.alloc(), text, *count, labels)?;
        expect(&rt, text, is_wanted);
    }
    Ok(())
}
