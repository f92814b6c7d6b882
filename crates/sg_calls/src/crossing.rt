// What crosses to a caller.
ghost use Rattle.std.specs.Prelude.{◌≡◌, ◌⊎◌};
ghost use Rattle.sg_calls.specs.Crossing.{Fills, IsToldFault};

use sg_cli::Status;
use sg_model::Fault;
use sg_report::refusal_text;
use std::alloc::Global;

/// The status of a call for which no proof was found within the memory that is allowed.
pub const NO_PROOF: u8 = 5;

/// Copies the front of a list into a place, as much of it as fits, and answers how much that is.
pub fn fill<T: Copy>(list: &[T], place: &mut [T]) -> usize
    ensures { Fills list.now place.old place.new result }
{
    let count = list.len().min(place.len());
    place[..count].copy_from_slice(&list[..count]);
    count
}

/// Writes the line of a refusal as far as there is room, and answers the status.
pub fn refuse(alloc: Global, fault: &Fault, line: &mut [u8], written: &mut usize) -> u8
    ensures told { result ≡ 1 → IsToldFault fault.now line.old line.new written.new }
    ensures kept { result ≡ 6 → (line.new ≡ line.old) × (written.new ≡ written.old) }
    ensures codes { (result ≡ 1) ⊎ (result ≡ 6) }
{
    if let Fault::Refused(refusal) = fault {
        if let Ok(text) = refusal_text(alloc, refusal) {
            *written = fill(text.as_slice(), line);
            return Status::Refused.exit_code();
        }
    }
    Status::NoMemory.exit_code()
}
