// The costs of chosen bonds, by bounds that the caller keeps from call to call.
ghost use Rattle.std.specs.Prelude.{◌≡◌, ◌≢◌, ◌⊎◌, ◌<◌, length};
ghost use Rattle.sg_base.specs.Limits.{bond_limit, spin_limit, table_limit};
ghost use Rattle.sg_draft.specs.Limits.{large_limits};
ghost use Rattle.sg_bonds.specs.Bounds.{ForcedTablesExceed};
ghost use Rattle.sg_calls.specs.BondCosts.{FindsCosts, IsBoundsFault, bound_lists};
ghost use Rattle.sg_calls.specs.Crossing.{TellsRefusal};
ghost use Rattle.sg_calls.specs.Graphs.{Finds, IsFitGraph, numbers};

use sg_calls::{Given, NO_PROOF, Unanswered, bond_costs, refuse, write_bounds};
use sg_cli::Status;
use std::alloc::Global;

/// Finds the costs of the asked bonds of a graph, and narrows the bounds of the others on the way.
#[unsafe(no_mangle)]
pub extern "C" fn ising2d_c_bond_costs(
    alloc: Global,
    n: u32,
    ends: &[u32],
    couplings: &[i64],
    dart_starts: &[usize],
    darts: &[u32],
    seam: &[u32],
    asked: &[u32],
    low: &mut [i64],
    high: &mut [i64],
    line: &mut [u8],
    line_written: &mut usize,
) -> u8
    ensures found { result ≡ 0 → Finds (IsFitGraph large_limits (numbers n ends.now couplings.now dart_starts.now darts.now seam.now))
        (FindsCosts asked.now (bound_lists low.old high.old) (bound_lists low.new high.new)) }
    ensures refused { result ≡ 1 → TellsRefusal (IsBoundsFault large_limits (numbers n ends.now couplings.now dart_starts.now darts.now seam.now) asked.now (bound_lists low.old high.old)) line.old line.new line_written.new }
    ensures too_large { result ≡ 5 → Finds (IsFitGraph large_limits (numbers n ends.now couplings.now dart_starts.now darts.now seam.now)) (ForcedTablesExceed table_limit) }
    ensures large { result ≡ 5 → (spin_limit < n) ⊎ (bond_limit < length couplings.now) }
    ensures codes { (result ≡ 0) ⊎ ((result ≡ 1) ⊎ ((result ≡ 5) ⊎ (result ≡ 6))) }
    ensures kept { result ≢ 0 → (low.new ≡ low.old) × (high.new ≡ high.old) }
    ensures kept_line { result ≢ 1 → (line.new ≡ line.old) × (line_written.new ≡ line_written.old) }
{
    let given = Given {
        n,
        ends,
        couplings,
        starts: dart_starts,
        darts,
        seam,
    };
    match bond_costs(alloc, &given, asked, low, high) {
        Ok(found) => {
            write_bounds(found.as_slice(), low, high);
            Status::Done.exit_code()
        }
        Err(Unanswered::Fault(fault)) => refuse(alloc, &fault, line, line_written),
        Err(Unanswered::TablesTooLarge) => NO_PROOF,
    }
}
