// Worked instances, lattices and triangles: what is proposed and what is repaired in each component.

use super::instances::{Shape, WORKED, lattice, triangles};
use super::proposals::assert_proposed;
use super::states::assert_repaired;
use super::texts::planar;
use rand_pcg::Pcg32;
use sg_lattice::Kind;
use sg_model::Fault;
use sg_planar::{Part, Planar, parts};
use std::alloc::{AllocError, Global};
use std::process::Abort;
use std::test::Fail;

// What is tested of a component.
#[derive(Clone, Copy)]
enum Wanted {
    /// What is proposed for its dual is good.
    Proposals,
    /// Repairs prove the states at its first bond and each so many bonds on.
    Repairs { step: usize },
}

fn assert_part(
    rt: &impl Abort,
    alloc: Global,
    planar: &Planar,
    wanted: Wanted,
    about: &str,
) -> Result<(), AllocError> {
    match wanted {
        Wanted::Proposals => assert_proposed(rt, alloc, planar, about),
        Wanted::Repairs { step } => assert_repaired(rt, alloc, planar, step, about),
    }
}

fn assert_parts(
    rt: &impl Abort,
    alloc: Global,
    parts: &[Part],
    wanted: Wanted,
    about: &str,
) -> Result<(), Fault> {
    for part in parts {
        assert_part(rt, alloc, &part.planar, wanted, about)?;
    }
    Ok(())
}

// Each component of an instance passes the test.
fn assert_instance(
    rt: &impl Abort,
    alloc: Global,
    planar: &Planar,
    wanted: Wanted,
    about: &str,
) -> Result<(), Fault> {
    let list = parts(alloc, planar)?;
    assert_parts(rt, alloc, list.as_slice(), wanted, about)
}

fn assert_text(rt: &impl Abort, alloc: Global, text: &str, wanted: Wanted) -> Result<(), Fault> {
    let planar = planar(alloc, text)?;
    assert_instance(rt, alloc, &planar, wanted, text)
}

#[test]
fn worked_instances(rt: HostRuntime) -> Result<(), Fail> {
    for text in &WORKED {
        for wanted in [Wanted::Proposals, Wanted::Repairs { step: 1 }] {
            assert_text(&rt, rt.alloc(), text, wanted)?;
        }
    }
    Ok(())
}

fn assert_lattice(
    rt: &impl Abort,
    alloc: Global,
    shape: Shape,
    law: u32,
    draws: &mut Pcg32,
    wanted: Wanted,
) -> Result<(), Fault> {
    let planar = lattice(alloc, shape, law, draws)?;
    assert_instance(rt, alloc, &planar, wanted, "a lattice")
}

// Drawn lattices: so many of each shape and law, and what is wanted of each.
#[derive(Clone, Copy)]
struct Lattices<'a> {
    seed: u64,
    shapes: &'a [Shape],
    rounds: u32,
    laws: &'a [u32],
    wanted: Wanted,
}

fn assert_lattices(rt: &impl Abort, alloc: Global, drawn: Lattices) -> Result<(), Fault> {
    let mut draws = Pcg32::new(drawn.seed, 54);
    for shape in drawn.shapes {
        for _ in 0..drawn.rounds {
            for law in drawn.laws {
                assert_lattice(rt, alloc, *shape, *law, &mut draws, drawn.wanted)?;
            }
        }
    }
    Ok(())
}

// All laws, and those of one size and of many sizes.
static LAWS: [u32; 5] = [0, 1, 2, 3, 4];

static ENDS: [u32; 2] = [0, 4];

// Small lattices.
static SMALL: [Shape; 10] = [
    (Kind::Square, 1, 12),
    (Kind::Square, 2, 6),
    (Kind::Square, 3, 4),
    (Kind::Triangular, 2, 6),
    (Kind::Triangular, 3, 4),
    (Kind::Hexagonal, 2, 6),
    (Kind::Hexagonal, 3, 4),
    (Kind::Cylinder, 1, 9),
    (Kind::Cylinder, 2, 5),
    (Kind::Cylinder, 3, 4),
];

const ROUNDS: u32 = 4;

#[test]
fn drawn_lattices(rt: HostRuntime) -> Result<(), Fail> {
    let drawn = Lattices {
        seed: 42,
        shapes: &SMALL,
        rounds: ROUNDS,
        laws: &LAWS,
        wanted: Wanted::Proposals,
    };
    Ok(assert_lattices(&rt, rt.alloc(), drawn)?)
}

#[test]
fn drawn_lattices_are_repaired(rt: HostRuntime) -> Result<(), Fail> {
    let drawn = Lattices {
        seed: 47,
        shapes: &SMALL,
        rounds: ROUNDS,
        laws: &LAWS,
        wanted: Wanted::Repairs { step: 1 },
    };
    Ok(assert_lattices(&rt, rt.alloc(), drawn)?)
}

// Lattices of some 120 to 260 bonds.
static LARGER: [Shape; 5] = [
    (Kind::Square, 12, 12),
    (Kind::Square, 2, 40),
    (Kind::Triangular, 9, 9),
    (Kind::Hexagonal, 10, 10),
    (Kind::Cylinder, 8, 9),
];

#[test]
fn larger_lattices_are_repaired(rt: HostRuntime) -> Result<(), Fail> {
    let drawn = Lattices {
        seed: 48,
        shapes: &LARGER,
        rounds: 1,
        laws: &LAWS,
        wanted: Wanted::Repairs { step: 1 },
    };
    Ok(assert_lattices(&rt, rt.alloc(), drawn)?)
}

static LARGE: [Shape; 2] = [(Kind::Square, 32, 32), (Kind::Triangular, 24, 24)];

#[test]
fn large_lattices(rt: HostRuntime) -> Result<(), Fail> {
    let drawn = Lattices {
        seed: 7,
        shapes: &LARGE,
        rounds: 1,
        laws: &ENDS,
        wanted: Wanted::Proposals,
    };
    Ok(assert_lattices(&rt, rt.alloc(), drawn)?)
}

// Lattices of more than 129 faces or with a hub: some of their bonds.
static HUBS: [Shape; 2] = [(Kind::Square, 2, 90), (Kind::Square, 20, 20)];

#[test]
fn large_lattices_are_repaired(rt: HostRuntime) -> Result<(), Fail> {
    let drawn = Lattices {
        seed: 52,
        shapes: &HUBS,
        rounds: 1,
        laws: &ENDS,
        wanted: Wanted::Repairs { step: 16 },
    };
    Ok(assert_lattices(&rt, rt.alloc(), drawn)?)
}

// A cylinder whose two outer faces are hubs, with couplings of one size and -1 alone: then both are frustrated.
static LONG: [Shape; 1] = [(Kind::Cylinder, 3, 141)];

#[test]
fn long_cylinders(rt: HostRuntime) -> Result<(), Fail> {
    let drawn = Lattices {
        seed: 8,
        shapes: &LONG,
        rounds: 1,
        laws: &[0, 3],
        wanted: Wanted::Proposals,
    };
    Ok(assert_lattices(&rt, rt.alloc(), drawn)?)
}

fn assert_triangles(
    rt: &impl Abort,
    alloc: Global,
    law: u32,
    draws: &mut Pcg32,
) -> Result<(), Fault> {
    let planar = triangles(alloc, law, draws)?;
    assert_instance(rt, alloc, &planar, Wanted::Proposals, "triangles")
}

#[test]
fn drawn_components(rt: HostRuntime) -> Result<(), Fail> {
    let mut draws = Pcg32::new(43, 54);
    for trial in 0..20 {
        assert_triangles(&rt, rt.alloc(), trial % 5, &mut draws)?;
    }
    Ok(())
}
