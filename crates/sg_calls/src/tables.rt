// The tables of a lattice, by which it is a general graph.
ghost use Rattle.std.specs.Prelude.{◌≡◌, ◌∷◌, [], flat_map, IfErr, IfOk};
ghost use Rattle.sg_calls.specs.Crossing.{IsJoined};
ghost use Rattle.sg_calls.specs.Graphs.{Finds};
ghost use Rattle.sg_calls.specs.Lattices.{AreTables, IsLattice, IsLatticeFault, limits_of, table_lists};

use super::held::Held;
use super::lattices::lattice_of;
use sg_base::{LARGE_BOND_LIMIT, LARGE_SPIN_LIMIT};
use sg_draft::Limits;
use sg_model::{BondList, Bonds, Fault, Rotation};
use std::alloc::{AllocError, Global};

/// How many entries each table has.
#[repr(C)]
#[derive(Clone, Copy)]
pub struct TableNumbers {
    pub ends: usize,
    pub starts: usize,
    pub darts: usize,
    pub seam: usize,
}

/// Two ends for each bond, the darts of each spin from its start on, and the bonds of the seam.
#[derive(Drop)]
pub struct Tables {
    pub ends: Vec<u32>,
    pub starts: Vec<usize>,
    pub darts: Vec<u32>,
    pub seam: BondList,
}

/// The tables of the lattice of these numbers, where it has at most so many spins.
pub fn tables_of(
    alloc: Global,
    kind: u8,
    rows: u32,
    cols: u32,
    couplings: &[i64],
    most_spins: u32,
) -> Result<Tables, Fault>
    ensures gives { IfOk result (λ found. Finds (IsLattice (limits_of most_spins) kind rows cols couplings.now)
        (AreTables (table_lists found.ends.items found.starts.items found.darts.items found.seam) couplings.now)) }
    ensures refuses { IfErr result (IsLatticeFault (limits_of most_spins) kind rows cols couplings.now) }
{
    let most = Limits {
        spins: most_spins.min(LARGE_SPIN_LIMIT),
        bonds: LARGE_BOND_LIMIT,
    };
    let instance = lattice_of(alloc, most, kind, rows, cols, couplings)?;
    let instance = Held { value: instance };
    let ends = ends_of(alloc, instance.value.bonds())?;
    let (starts, darts) = joined(alloc, instance.value.rotation())?;
    let seam = instance.value.seam().clone()?;
    Ok(Tables {
        ends,
        starts,
        darts,
        seam,
    })
}

// Two ends for each bond.
fn ends_of(alloc: Global, bonds: &Bonds) -> Result<Vec<u32>, AllocError>
    ensures { IfOk result (λ ends. ends.items ≡ flat_map (λ b. b.u ∷ b.v ∷ []) bonds.now) }
{
    let mut ends = Vec::new(alloc);
    for bond in bonds.as_slice() {
        ends.push(bond.u)?;
        ends.push(bond.v)?;
    }
    Ok(ends)
}

/// The starts of the darts of each spin, and the darts; and so of other lists of numbers.
pub fn joined(alloc: Global, rotation: &Rotation) -> Result<(Vec<usize>, Vec<u32>), AllocError>
    ensures { IfOk result (λ made. IsJoined (λ list. list) rotation.now made.0.items made.1.items) }
{
    let mut starts = Vec::new(alloc);
    let mut darts = Vec::new(alloc);
    starts.push(0)?;
    for spin in 0..rotation.len() {
        darts.extend_from_slice(rotation.at(spin))?;
        starts.push(darts.len())?;
    }
    Ok((starts, darts))
}
