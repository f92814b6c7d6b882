// A run with the laws of the program.
ghost use Rattle.std.specs.Prelude.{◌≡◌, ◌≢◌, true, false, IsSome, IfOk, IfErr, map, string_bytes};
ghost use Rattle.sg_io.specs.Devices.{FaultShown};
ghost use Rattle.sg_words.specs.Command.{command_of};
ghost use Rattle.sg_cli.specs.Laws.{Sends, WithAllLaws};
ghost use Rattle.sg_report.specs.Exit.{IsReply};
ghost use Rattle.sg_cli.specs.Promises.{SourceAfter, reads, sink_faults, source_faults};

use super::serve::run;
use sg_io::{Sink, Source};
use sg_laws::{Alternate, Disorder, One, PlusMinus, Uniform};
use sg_report::Status;
use std::alloc::{AllocError, Global};

/// Answers the words as [`run`] does, with the four laws to draw from: `one`, `alternate`, `pm` and
/// `uniform`.
///
/// # Errors
/// Out of memory before the run: nothing has been read or written.
pub fn run_with_all_laws<S: Source, K: Sink>(
    alloc: Global,
    words: &[String],
    source: &mut S,
    sink: &mut K,
) -> Result<Status, AllocError>
    // The sink has grown by exactly a text that the words answer to the input with this status, and
    // after a write fault by a prefix of such a text.
    ensures answer { IfOk result (λ status. WithAllLaws (λ laws.
        Sends (map string_bytes words.now) laws status (S.left source.old) (K.written sink.old) (K.written sink.new))) }

    // After a fault the last call of the device failed; after a read fault nothing is written.
    ensures read_fault { IfOk result (λ status. status ≡ Status.ReadFault →
        (reads (map string_bytes words.now) ≡ true) × (S.failed source.new ≡ true) × (sink.new ≡ sink.old)) }
    ensures write_fault { IfOk result (λ status. status ≡ Status.WriteFault → K.failed sink.new ≡ true) }

    // The status names the device that failed: one call of it failed, and no call of another.
    ensures source_faults { IfOk result (λ status. S.faults source.new ≡ source_faults status (S.faults source.old)) }
    ensures sink_faults { IfOk result (λ status. K.faults sink.new ≡ sink_faults status (K.faults sink.old)) }

    // Words of no known shape are refused without allocating. If an allocation fails in the run,
    // nothing is written; if one fails before it, nothing is read either.
    ensures memory { IfOk result (λ status. status ≡ Status.NoMemory → IsSome (command_of (map string_bytes words.now)) × (sink.new ≡ sink.old)) }
    ensures untouched { IfErr result (λ _. (source.new ≡ source.old) × (sink.new ≡ sink.old)) }

    // Without a fault of a device and with memory enough, there is an answer.
    ensures completeness { IfOk result (λ status. ¬ FaultShown (S.faults source.old) (S.faults source.new) →
        ¬ FaultShown (K.faults sink.old) (K.faults sink.new) → status ≢ Status.NoMemory → IsReply status) }

    // What is left of the source; a command that does not read leaves it as it was.
    ensures taken { IfOk result (λ status. reads (map string_bytes words.now) ≡ true → SourceAfter status (S.left source.old) (S.left source.new)) }
    ensures unread { IfOk result (λ _. reads (map string_bytes words.now) ≡ false → source.new ≡ source.old) }
{
    let mut laws: Vec<Box<dyn Disorder>> = Vec::new(alloc);
    laws.push(Box::new(alloc, One::new())?)?;
    laws.push(Box::new(alloc, Alternate::new())?)?;
    laws.push(Box::new(alloc, PlusMinus::new())?)?;
    laws.push(Box::new(alloc, Uniform::new())?)?;
    Ok(run(alloc, words, source, sink, laws))
}
