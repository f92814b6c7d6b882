ghost use Rattle.std.specs.Prelude.{◌≡◌, ◌↔◌, ℕ, ◌<◌, ◌≤◌, ◌*◌, ◌^◌, true, false, length, slice_index, vec_len, All, IfOk};
ghost use Rattle.std.specs.List.Sorted.{IsStrictlyIncreasing};
ghost use Rattle.sg_base.specs.Parity.{parity_below};
ghost use Rattle.sg_base.specs.Sets.{is_marked};
ghost use Rattle.sg_model.specs.Ising.{bond_count};
ghost use Rattle.sg_planar.specs.BrokenLists.{FitsFaces};
ghost use Rattle.sg_planar.specs.Sides.{is_marked_side};

use super::assignment::unlike_bonds;
use super::{NoMemory, Planar};
use sg_faces::Faces;
use sg_model::BondList;
use std::alloc::Global;

/// Whether the list can be that of the broken bonds of an assignment, as `spin_walk` asks for it: on
/// each face as many darts of its bonds as darts of negative bonds, up to an even number. The time is
/// linear in the bonds. It is for a caller whose list comes from outside: a T-join is known to fit.
pub fn fits_faces(alloc: Global, planar: &Planar, broken: &BondList) -> Result<bool, NoMemory>
    requires rising { IsStrictlyIncreasing broken.now }
    requires below { All (λ k. k < bond_count planar.now.instance) broken.now }
    ensures { IfOk result
        (λ fits. (fits ≡ true) ↔ FitsFaces planar.now.instance planar.now.faces broken.now) }
{
    let unlike = unlike_bonds(alloc, planar.instance(), broken)?;
    let odd = odd_faces(alloc, planar.faces(), &unlike)?;
    Ok(all_unmarked(&odd))
}

// For each face whether an odd number of its darts belong to marked bonds.
fn odd_faces(alloc: Global, faces: &Faces, marks: &[bool]) -> Result<Vec<bool>, NoMemory>
    requires darts { length faces.now.labels ≡ 2 * length marks.now }
    requires few { length marks.now ≤ 2 ^ 24 }
    requires below { (d : ℕ) → d < 2 * length marks.now →
        slice_index faces.now.labels d < faces.now.count }
    ensures lengths { IfOk result (λ odd. vec_len odd ≡ faces.now.count) }
    ensures marks { IfOk result (λ odd. (f : ℕ) → f < faces.now.count →
        is_marked odd.items f ≡ parity_below (is_marked_side faces.now marks.now f) (2 * length marks.now)) }
{
    let mut odd = vec![in alloc; false; faces.count() as usize]?;
    for dart in 0..2 * marks.len() {
        if marks[dart / 2] {
            let face = faces.of(dart as u32) as usize;
            odd[face] = !odd[face];
        }
    }
    Ok(odd)
}

// Whether no mark is set.
fn all_unmarked(marks: &[bool]) -> bool
    ensures { (result ≡ true) ↔ ((i : ℕ) → i < length marks.now → is_marked marks.now i ≡ false) }
{
    for mark in marks {
        if *mark {
            return false;
        }
    }
    true
}
