// Reading a source to its end.
ghost use Rattle.std.specs.Prelude.{◌≡◌, ◌+◌, ◌<◌, ◌≤◌, [], length, true, IfErr, IfOk, OnOk};
ghost use Rattle.sg_base.specs.Limits.{text_limit};
ghost use Rattle.sg_io.specs.Devices.{AgreesWith};
ghost use Rattle.sg_io.specs.Reading.{Empties, end_faults, IsTooLong, Stops};

use super::{Source, Took};
use std::alloc::{AllocError, Global};

/// Why a source was not read to its end.
#[derive(Clone, Copy, Debug, PartialEq, Eq)]
pub enum ReadEnd {
    /// A read failed.
    ReadFault,
    /// There are more bytes than the limit.
    TooLong,
    /// The allocator had no memory left.
    NoMemory,
}

impl From<AllocError> for ReadEnd {
    ghost use Rattle.std.specs.Prelude.{◌≡◌};
    ghost use Rattle.sg_io.specs.declared.reading.ReadEnd.TheVariants.{NoMemory};

    ghost from_gives = { λ _ e. e ≡ NoMemory };

    fn from(_: AllocError) -> ReadEnd {
        ReadEnd::NoMemory
    }
}

// The most bytes that one read is asked for.
const PIECE: usize = 65536;

/// Reads a source to its end, which is to come within `limit` bytes.
///
/// Takes at most `limit + 1` bytes in all: one past the limit shows that there are too many. After
/// `TooLong` exactly these are gone from the source. After `ReadFault` or `NoMemory` no more than
/// `limit` bytes are gone, from the front. The memory grows with what is read.
pub fn read_all<S: Source>(alloc: Global, source: &mut S, limit: usize) -> Result<Vec<u8>, ReadEnd>
    requires { limit < text_limit }
    ensures whole { IfOk result (λ bytes. Empties bytes.items (S.left source.old) (S.left source.new)) }
    ensures within { IfOk result (λ bytes. length bytes.items ≤ limit) }

    // Too many bytes is said only where there are too many.
    ensures too_long { IfErr result (λ end. IsTooLong end limit (S.left source.old)) }
    ensures stopped { IfErr result (λ end. Stops end limit (S.left source.old) (S.left source.new)) }

    // A read fault is answered exactly where a read failed, and that was the last one.
    ensures faultless { OnOk result (S.faults source.new ≡ S.faults source.old) }
    ensures fault { IfErr result (λ end. S.faults source.new ≡ end_faults end (S.faults source.old)) }
    ensures last { result ≡ Err ReadEnd.ReadFault → S.failed source.new ≡ true }
{
    let mut piece = vec![in alloc; 0u8; PIECE]?;
    let mut bytes = Vec::new(alloc);
    gather(source, limit, &mut piece, &mut bytes)?;
    Ok(bytes)
}

// `read_all`, with the buffer for one read and the list that grows.
fn gather<S: Source>(
    source: &mut S,
    limit: usize,
    piece: &mut [u8],
    bytes: &mut Vec<u8>,
) -> Result<(), ReadEnd>
    requires limit { limit < text_limit }
    requires piece { 0 < length piece.old }
    requires empty { bytes.old.items ≡ [] }
    ensures whole { OnOk result (Empties bytes.new.items (S.left source.old) (S.left source.new)) }
    ensures within { OnOk result (length bytes.new.items ≤ limit) }
    ensures stopped { IfErr result (λ end. Stops end limit (S.left source.old) (S.left source.new)) }
    ensures too_long { IfErr result (λ end. IsTooLong end limit (S.left source.old)) }
    ensures faultless { OnOk result (S.faults source.new ≡ S.faults source.old) }
    ensures fault { IfErr result (λ end. S.faults source.new ≡ end_faults end (S.faults source.old)) }
    ensures last { result ≡ Err ReadEnd.ReadFault → S.failed source.new ≡ true }
{
    loop {
        let room = piece.len().min(limit + 1 - bytes.len());
        match source.read(&mut piece[..room]) {
            Took::Got(count) => {
                if bytes.len() + count > limit {
                    return Err(ReadEnd::TooLong);
                }
                bytes.extend_from_slice(&piece[..count])?;
            }
            Took::End => return Ok(()),
            Took::Failed => return Err(ReadEnd::ReadFault),
        }
    }
}
