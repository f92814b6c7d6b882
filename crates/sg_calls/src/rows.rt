// Loops as three lists of numbers.
ghost use Rattle.std.specs.Prelude.{◌≡◌, map, IfOk};
ghost use Rattle.sg_calls.specs.Proofs.{AreRows, loop_lists};

use sg_check::Loop;
use std::alloc::{AllocError, Global};

/// The weights of loops, for each loop the place of its first bond with the number of all behind
/// them, and the bonds of all loops.
#[derive(Drop)]
pub struct Rows {
    pub weights: Vec<i64>,
    pub starts: Vec<usize>,
    pub bonds: Vec<u32>,
}

/// The loops as rows.
pub fn rows_of(alloc: Global, loops: &[Loop]) -> Result<Rows, AllocError>
    ensures { IfOk result (λ rows. AreRows (loop_lists rows.weights.items rows.starts.items rows.bonds.items) loops.now) }
{
    let weights = weights_of(alloc, loops)?;
    let mut starts = Vec::new(alloc);
    let mut bonds = Vec::new(alloc);
    starts.push(0)?;
    for each in loops {
        bonds.extend_from_slice(each.bonds.as_slice())?;
        starts.push(bonds.len())?;
    }
    Ok(Rows {
        weights,
        starts,
        bonds,
    })
}

// The weights of all loops.
fn weights_of(alloc: Global, loops: &[Loop]) -> Result<Vec<i64>, AllocError>
    ensures { IfOk result (λ weights. weights.items ≡ map (λ each. each.y) loops.now) }
{
    loops.iter().map(|each| each.y).collect(alloc)
}
