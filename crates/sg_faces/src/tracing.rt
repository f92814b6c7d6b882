ghost use Rattle.std.specs.Prelude.{◌≡◌, ℕ, ◌<◌, ◌≤◌, ◌↔◌, true, IfOk};
ghost use Rattle.sg_model.specs.Rotation.{dart_count};
ghost use Rattle.sg_faces.specs.Faces.{IsFaceLabels, SameFace, is_least};

use super::labels::label_orbits;
use super::table::phi_table;
use super::{Faces, NoMemory};
use sg_model::Instance;
use std::alloc::Global;

/// Labels the faces of an instance by walking along each of them, in time linear in the spins and
/// bonds.
///
/// Two darts have one label exactly where steps of `phi`, over the bond and on to the next dart
/// round the spin there, lead from the first to the second. The labels follow the order of the
/// faces' least darts. A spin without a bond has a face of its own, which has no dart and no label.
pub fn trace(alloc: Global, inst: &Instance) -> Result<Faces, NoMemory>
    ensures labels { IfOk result (IsFaceLabels inst.now) }
    // That a dart is the least of its face is tested over as many steps as there are darts, and
    // means any number of steps.
    ensures least { (d : ℕ) → d < dart_count inst.now →
        (is_least inst.now d ≡ true) ↔ ((e : ℕ) → SameFace inst.now d e → d ≤ e) }
{
    let steps = phi_table(alloc, inst)?;
    let orbits = label_orbits(alloc, &steps.table)?;
    Ok(orbits.with_more(steps.bare))
}
