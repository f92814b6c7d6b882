ghost use Rattle.std.specs.Prelude.{◌≡◌, ◌≢◌, ◌==◌, ℕ, ◌<◌, ◌≤◌, if◌then◌else◌, length, slice_index, All, IfOk};
ghost use Rattle.sg_model.specs.Rotation.{following, rev};
ghost use Rattle.sg_base.specs.Sets.{DifferByCount};
ghost use Rattle.sg_model.specs.WellFormed.{IsInstance};
ghost use Rattle.sg_faces.specs.Faces.{bare_count};
ghost use Rattle.sg_faces.specs.Tables.{IsPhiTable};

use super::NoMemory;
use sg_model::Instance;
use std::alloc::Global;

// The other dart of the same bond.
#[tactic(auto, unfolding(sg_model::specs::Rotation::rev))]
fn reverse(dart: u32) -> u32
    ensures { result ≡ rev dart }
{
    let second = dart % 2;
    (dart - second) + (1 - second)
}

// Enters, at the reverse of each dart of a spin, the dart that follows it round the spin.
fn link(darts: &[u32], table: &mut [u32])
    requires distinct { DifferByCount darts.now }
    requires below { All (λ d. rev d < length table.old) darts.now }
    ensures follows { All (λ d. slice_index table.new (rev d) ≡ following darts.now d) darts.now }
    ensures kept { (x : ℕ) → All (λ d. rev d ≢ x) darts.now →
        slice_index table.new x ≡ slice_index table.old x }
{
    for (place, dart) in darts.iter().enumerate() {
        let after = if place + 1 < darts.len() {
            place + 1
        } else {
            0
        };
        table[reverse(*dart) as usize] = darts[after];
    }
}

// 1 for a spin without a dart, and else 0.
fn is_bare(darts: &[u32]) -> u32
    ensures value { result ≡ (if length darts.now == 0 then 1 else 0) }
    ensures few { result ≤ 1 }
{
    if darts.is_empty() { 1 } else { 0 }
}

/// The steps along the faces, with the spins that no step leads round.
#[derive(Drop)]
pub(crate) struct FaceSteps {
    /// For each dart the dart behind it along its face.
    pub(crate) table: Vec<u32>,
    /// The number of spins without a bond.
    pub(crate) bare: u32,
}

/// For each dart the dart behind it along its face, and the number of spins without a bond.
pub(crate) fn phi_table(alloc: Global, inst: &Instance) -> Result<FaceSteps, NoMemory>
    ensures table { IfOk result (λ steps. IsPhiTable inst.now steps.table.items) }
    ensures bare { IfOk result (λ steps. steps.bare ≡ bare_count inst.now) }
    ensures instance { IsInstance inst.now }
{
    let mut table = vec![in alloc; 0u32; 2 * inst.bonds().len()]?;
    let mut bare = 0;
    for spin in 0..inst.n() {
        let darts = inst.rotation().at(spin as usize);
        link(darts, &mut table);
        bare += is_bare(darts);
    }
    Ok(FaceSteps { table, bare })
}
