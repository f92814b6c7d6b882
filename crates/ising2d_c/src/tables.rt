// The tables of a lattice, as a caller gets them.
ghost use Rattle.std.specs.Prelude.{◌≡◌, ◌≢◌, ◌⊎◌};
ghost use Rattle.sg_calls.specs.Crossing.{TellsRefusal};
ghost use Rattle.sg_calls.specs.Graphs.{Finds};
ghost use Rattle.sg_calls.specs.Lattices.{HandsTables, IsLattice, IsLatticeFault, limits_of, table_lists};

use sg_calls::{TableNumbers, fill, refuse, tables_of};
use sg_cli::Status;
use std::alloc::Global;

/// Writes the tables of a lattice, by which the other calls take it, where it has at most so many spins.
#[unsafe(no_mangle)]
pub extern "C" fn ising2d_c_lattice(
    alloc: Global,
    kind: u8,
    rows: u32,
    cols: u32,
    couplings: &[i64],
    most_spins: u32,
    counts: &mut TableNumbers,
    ends: &mut [u32],
    dart_starts: &mut [usize],
    darts: &mut [u32],
    seam: &mut [u32],
    line: &mut [u8],
    line_written: &mut usize,
) -> u8
    ensures found { result ≡ 0 → Finds (IsLattice (limits_of most_spins) kind rows cols couplings.now)
        (HandsTables couplings.now (table_lists ends.old dart_starts.old darts.old seam.old) (table_lists ends.new dart_starts.new darts.new seam.new) counts.new) }
    ensures refused { result ≡ 1 → TellsRefusal (IsLatticeFault (limits_of most_spins) kind rows cols couplings.now) line.old line.new line_written.new }
    ensures codes { (result ≡ 0) ⊎ ((result ≡ 1) ⊎ (result ≡ 6)) }
    ensures kept { result ≢ 0 → (counts.new ≡ counts.old) × (ends.new ≡ ends.old) × (dart_starts.new ≡ dart_starts.old)
        × (darts.new ≡ darts.old) × (seam.new ≡ seam.old) }
    ensures kept_line { result ≢ 1 → (line.new ≡ line.old) × (line_written.new ≡ line_written.old) }
{
    match tables_of(alloc, kind, rows, cols, couplings, most_spins) {
        Ok(found) => {
            *counts = TableNumbers {
                ends: found.ends.len(),
                starts: found.starts.len(),
                darts: found.darts.len(),
                seam: found.seam.len(),
            };
            fill(found.ends.as_slice(), ends);
            fill(found.starts.as_slice(), dart_starts);
            fill(found.darts.as_slice(), darts);
            fill(found.seam.as_slice(), seam);
            Status::Done.exit_code()
        }
        Err(fault) => refuse(alloc, &fault, line, line_written),
    }
}
