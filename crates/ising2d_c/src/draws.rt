// The draws of a law, as a caller gets them.
ghost use Rattle.std.specs.Prelude.{◌≡◌, ◌≢◌, ◌⊎◌, None};
ghost use Rattle.sg_model.specs.Faults.{OrNoMemory};
ghost use Rattle.sg_draft.specs.Tests.{Refuses};
ghost use Rattle.sg_calls.specs.Crossing.{Shows, TellsRefusal};
ghost use Rattle.sg_calls.specs.Draws.{draws_by, draws_fault};

use sg_calls::{draws_of, fill, refuse};
use sg_cli::Status;
use std::alloc::Global;

/// Writes the first draws of a law after a seed.
#[unsafe(no_mangle)]
pub extern "C" fn ising2d_c_draws(
    alloc: Global,
    law: u8,
    seed: u64,
    count: usize,
    couplings: &mut [i64],
    line: &mut [u8],
    line_written: &mut usize,
) -> u8
    ensures found { result ≡ 0 → (draws_fault law count ≡ None) × Shows (draws_by law seed count) couplings.old couplings.new }
    ensures refused { result ≡ 1 → TellsRefusal (OrNoMemory (Refuses (draws_fault law count))) line.old line.new line_written.new }
    ensures codes { (result ≡ 0) ⊎ ((result ≡ 1) ⊎ (result ≡ 6)) }
    ensures kept { result ≢ 0 → couplings.new ≡ couplings.old }
    ensures kept_line { result ≢ 1 → (line.new ≡ line.old) × (line_written.new ≡ line_written.old) }
{
    match draws_of(alloc, law, seed, count) {
        Ok(found) => {
            fill(found.as_slice(), couplings);
            Status::Done.exit_code()
        }
        Err(fault) => refuse(alloc, &fault, line, line_written),
    }
}
