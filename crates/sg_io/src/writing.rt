// Writing a whole text to a sink.
ghost use Rattle.std.specs.Prelude.{◌≡◌, true, OnOk, OnErr};
ghost use Rattle.sg_io.specs.Devices.{FaultShown, Grows};
ghost use Rattle.sg_io.specs.Writing.{GrowsByPrefix};

use super::{Gave, Sink};

/// A write failed before all was written.
#[derive(Clone, Copy, Debug, PartialEq, Eq)]
pub struct WriteFault;

/// Writes all of the bytes, in order. It does not allocate.
///
/// Each write offers all the bytes that are left, and continues after those that were taken. A
/// write that fails is the last one. After `WriteFault` the sink has a prefix of the bytes.
pub fn put<K: Sink>(sink: &mut K, bytes: &[u8]) -> Result<(), WriteFault>
    ensures whole { OnOk result (Grows bytes.now (K.written sink.old) (K.written sink.new)) }
    ensures prefix { OnErr result (GrowsByPrefix bytes.now (K.written sink.old) (K.written sink.new)) }

    // A fault is answered exactly where a write failed, and that was the last one.
    ensures faultless { OnOk result (K.faults sink.new ≡ K.faults sink.old) }
    ensures fault { OnErr result (FaultShown (K.faults sink.old) (K.faults sink.new)) }
    ensures last { OnErr result (K.failed sink.new ≡ true) }
{
    let mut at = 0;
    while at < bytes.len() {
        match sink.write(&bytes[at..]) {
            Gave::Took(count) => at += count,
            Gave::Failed => return Err(WriteFault),
        }
    }
    Ok(())
}
