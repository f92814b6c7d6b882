ghost use Rattle.std.specs.Prelude.{◌≡◌, ◌≢◌, ◌⊎◌, ◌↔◌, ◌+◌, true, false, IsSome, IfOk, IfErr, OnOk, OnErr, map, string_bytes};
ghost use Rattle.sg_base.specs.Limits.{input_limit};
ghost use Rattle.sg_io.specs.Devices.{FaultShown, Grows};
ghost use Rattle.sg_io.specs.Reading.{DropsAtMost};
ghost use Rattle.sg_io.specs.Writing.{GrowsByPrefix};
ghost use Rattle.sg_words.specs.Command.{command_of};
ghost use Rattle.sg_report.specs.Exit.{IsReply};
ghost use Rattle.sg_cli.specs.Promises.{AnswersInPart, AnswersSource, AnswersWhole, SourceAfter, reads, sink_faults, source_faults, stop_faults, TakesInput};

use super::answering::input_reply;
use sg_base::INPUT_LIMIT;
use sg_draws::draw_reply;
use sg_io::{ReadEnd, Sink, Source, WriteFault, put, read_all};
use sg_laws::Disorder;
use sg_model::Refusal;
use sg_report::{NoMemory, Reply, Status, refuse};
use sg_words::{Command, Reading, law_word, parse_command};
use std::alloc::{AllocError, Global};

/// Answers the words after the program's name: reads the source to its end if the command needs it,
/// or draws from the first of the laws that has the name in the words, and writes one whole text.
///
/// The words are tested first, then the input is read, then it is judged, then the answer is found
/// and its whole text is built, and only then is anything written. Memory in use: the input and the
/// text, and what the reading keeps of the instance. The laws are dropped at the end.
pub fn run<S: Source, K: Sink>(
    alloc: Global,
    words: &[String],
    source: &mut S,
    sink: &mut K,
    laws: Vec<Box<dyn Disorder>>,
) -> Status
    // The sink has grown by exactly a text that the words answer to the input with this status.
    ensures answer { let known = map (λ law. record { title = title law; stream = seeded law }) laws.items in
        IsReply result →
        AnswersWhole (map string_bytes words.now) known result (S.left source.old) (K.written sink.old) (K.written sink.new) }

    // After a read fault the last read failed, and nothing is written.
    ensures read_fault { result ≡ Status.ReadFault →
        (reads (map string_bytes words.now) ≡ true) × (S.failed source.new ≡ true) × (sink.new ≡ sink.old) }

    // After a write fault the last write failed, and the sink has grown by a prefix of such a text.
    ensures write_fault { let known = map (λ law. record { title = title law; stream = seeded law }) laws.items in
        result ≡ Status.WriteFault → (K.failed sink.new ≡ true) ×
        AnswersInPart (map string_bytes words.now) known (S.left source.old) (K.written sink.old) (K.written sink.new) }

    // The status names the device that failed: one call of it failed, and no call of another.
    ensures source_faults { S.faults source.new ≡ source_faults result (S.faults source.old) }
    ensures sink_faults { K.faults sink.new ≡ sink_faults result (K.faults sink.old) }

    // Words of no known shape are refused without allocating. If an allocation fails, nothing is
    // written.
    ensures memory { result ≡ Status.NoMemory → IsSome (command_of (map string_bytes words.now)) × (sink.new ≡ sink.old) }

    // Without a fault of a device and with memory enough, there is an answer.
    ensures completeness { ¬ FaultShown (S.faults source.old) (S.faults source.new) →
        ¬ FaultShown (K.faults sink.old) (K.faults sink.new) → result ≢ Status.NoMemory → IsReply result }

    // What is left of the source; a command that does not read leaves it as it was.
    ensures taken { reads (map string_bytes words.now) ≡ true → SourceAfter result (S.left source.old) (S.left source.new) }
    ensures unread { reads (map string_bytes words.now) ≡ false → source.new ≡ source.old }
{
    match parse_command(words) {
        None => send(sink, b"usage\n", Status::Usage),
        Some(Command::Read(reading)) => match serve(alloc, reading, source) {
            Ok(reply) => send(sink, reply.text.as_slice(), reply.status),
            Err(stop) => stop.status(),
        },
        Some(Command::Draw(drawing)) => match draw_reply(alloc, drawing, law_word(words), laws) {
            Ok(reply) => send(sink, reply.text.as_slice(), reply.status),
            Err(_) => Status::NoMemory,
        },
    }
}

/// Why there is no reply: the source failed, or the memory.
#[derive(Clone, Copy)]
enum Stop {
    ReadFault,
    NoMemory,
}

impl Stop {
    fn status(self) -> Status
        ensures read_fault { self ≡ Stop.ReadFault ↔ (result ≡ Status.ReadFault) }
        ensures memory { self ≡ Stop.NoMemory ↔ (result ≡ Status.NoMemory) }
    {
        match self {
            Stop::ReadFault => Status::ReadFault,
            Stop::NoMemory => Status::NoMemory,
        }
    }
}

impl From<AllocError> for Stop {
    ghost use Rattle.std.specs.Prelude.{◌≡◌};
    ghost use Rattle.sg_cli.specs.declared.serve.Stop.TheVariants.{NoMemory as OutOfMemory};

    ghost from_gives = { λ _ e. e ≡ OutOfMemory };

    fn from(_: AllocError) -> Self {
        Stop::NoMemory
    }
}

/// Reads the source to its end, and answers what was read.
fn serve<S: Source>(alloc: Global, reading: Reading, source: &mut S) -> Result<Reply, Stop>
    ensures served { IfOk result (λ reply. AnswersSource reading (S.left source.old) reply.text.items reply.status) }
    ensures replied { IfOk result (λ reply. IsReply reply.status) }
    ensures taken { OnOk result (TakesInput (S.left source.old) (S.left source.new)) }
    ensures stopped { OnErr result (DropsAtMost (input_limit + 1) (S.left source.old) (S.left source.new)) }
    ensures faultless { OnOk result (S.faults source.new ≡ S.faults source.old) }
    ensures fault { IfErr result (λ stop. S.faults source.new ≡ stop_faults stop (S.faults source.old)) }
    ensures last { result ≡ Err Stop.ReadFault → S.failed source.new ≡ true }
{
    match read_all(alloc, source, INPUT_LIMIT) {
        Ok(bytes) => Ok(input_reply(alloc, reading, bytes.as_slice())?),
        Err(ReadEnd::TooLong) => Ok(refuse(
            alloc,
            &Refusal::TooLong {
                limit: INPUT_LIMIT as u64,
            },
        )?),
        Err(ReadEnd::ReadFault) => Err(Stop::ReadFault),
        Err(ReadEnd::NoMemory) => Err(Stop::NoMemory),
    }
}

/// Writes a whole text, and ends with the status, or with the fault of the sink in its place.
fn send<K: Sink>(sink: &mut K, text: &[u8], status: Status) -> Status
    requires { IsReply status }
    ensures sent { IsReply result → (result ≡ status) × Grows text.now (K.written sink.old) (K.written sink.new) }
    ensures fault { result ≡ Status.WriteFault → (K.failed sink.new ≡ true) × GrowsByPrefix text.now (K.written sink.old) (K.written sink.new) }
    ensures faults { K.faults sink.new ≡ sink_faults result (K.faults sink.old) }
    ensures ends { IsReply result ⊎ (result ≡ Status.WriteFault) }
{
    match put(sink, text) {
        Ok(()) => status,
        Err(WriteFault) => Status::WriteFault,
    }
}
