// The assignments of small connected instances that break given bonds, found by a walk.
ghost use Rattle.std.specs.Prelude.{◌<◌, All, IsTrue};
ghost use Rattle.std.specs.List.Sorted.{IsStrictlyIncreasing};
ghost use Rattle.sg_model.specs.Connected.{IsConnected};

use super::facts::expect;
use super::texts::planar;
use sg_model::{BondList, Fault};
use sg_planar::{Part, fits_faces, parts, spin_walk};
use std::alloc::{AllocError, Global};
use std::process::Abort;
use std::test::Fail;

// Whether the numbers rise, and are below a bound.
fn rise_below(list: &[u32], bound: usize) -> bool
    ensures { IsTrue result → (IsStrictlyIncreasing list.now) × All (λ x. x < bound) list.now }
{
    for k in 0..list.len() {
        if list[k] as usize >= bound {
            return false;
        }
        if k > 0 && list[k - 1] >= list[k] {
            return false;
        }
    }
    true
}

// Whether these are the spins of a part that break these of its bonds and no others.
fn is_walked(
    rt: &impl Abort,
    alloc: Global,
    part: &Part,
    broken: &[u32],
    wanted: &[i8],
) -> Result<bool, AllocError>
    requires { IsConnected part.now.planar.instance }
{
    let planar = &part.planar;
    expect(
        rt,
        "bonds that rise",
        rise_below(broken, planar.instance().bonds().len()),
    );
    let list = BondList::from_vec(Vec::from_slice(alloc, broken)?);
    if !fits_faces(alloc, planar, &list)? {
        return Ok(false);
    }
    Ok(spin_walk(alloc, planar, &list)?.as_slice() == wanted)
}

// The same for a connected instance that is read from a text.
fn is_walked_in(
    rt: &impl Abort,
    alloc: Global,
    text: &str,
    broken: &[u32],
    wanted: &[i8],
) -> Result<bool, Fault> {
    let planar = planar(alloc, text)?;
    let list = parts(alloc, &planar)?;
    let all = list.as_slice();
    expect(rt, "one part", all.len() == 1);
    Ok(is_walked(rt, alloc, &all[0], broken, wanted)?)
}

static ROWS: [(&str, &[u32], &[i8]); 2] = [
    ("square,1,2\n-3\nend\n", &[], &[1, -1]),
    ("square,2,2\n3,4,2,-5\nend\n", &[2], &[1, 1, -1, -1]),
];

#[test]
fn a_walk_breaks_the_bonds_of_the_list(rt: HostRuntime) -> Result<(), Fail> {
    for (text, broken, wanted) in &ROWS {
        let is_wanted = is_walked_in(&rt, rt.alloc(), text, broken, wanted)?;
        expect(&rt, text, is_wanted);
    }
    Ok(())
}
