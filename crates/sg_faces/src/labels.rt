ghost use Rattle.std.specs.Prelude.{◌≡◌, ℕ, ◌<◌, ◌+◌, ◌^◌, ◌≤◌, length, slice_index, IfOk};
ghost use Rattle.sg_faces.specs.Tables.{IsMove, IsOrbitLabels, LabelsOrbits, least_before, unlabelled};

use super::{Faces, NoMemory};
use std::alloc::Global;

const UNLABELLED: u32 = u32::MAX;

// Walks along the orbit of `start` and gives it a label.
fn label_orbit(table: &[u32], labels: &mut [u32], start: usize, label: u32)
    requires is_move { IsMove table.now }
    requires labelled { LabelsOrbits table.now labels.old start }
    requires start_in { start < length table.now }
    requires unlabelled_start { slice_index labels.old start ≡ unlabelled }
    requires room { label < unlabelled }
    requires rank { label ≡ least_before table.now start }
    ensures { LabelsOrbits table.now labels.new (start + 1) }
{
    let mut at = start;
    while labels[at] == UNLABELLED {
        labels[at] = label;
        at = table[at] as usize;
    }
}

/// Labels the orbits of a permutation, in the order of their least places, and counts them.
pub(crate) fn label_orbits(alloc: Global, table: &[u32]) -> Result<Faces, NoMemory>
    requires is_move { IsMove table.now }
    requires room { length table.now < 2 ^ 31 }
    ensures { IfOk result (λ f. IsOrbitLabels table.now f.labels f.count) }
{
    let mut labels = vec![in alloc; UNLABELLED; table.len()]?;
    let mut count: u32 = 0;
    for start in 0..table.len() {
        if labels[start] == UNLABELLED {
            label_orbit(table, &mut labels, start, count);
            count += 1;
        }
    }
    Ok(Faces::new(labels, count))
}
