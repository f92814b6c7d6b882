// The reply to words and an input: the claim of the project, from bytes to bytes.
ghost use Rattle.std.specs.Prelude.{◌≡◌, ◌≤◌, ◌<◌, ℕ, length, Some, IfOk, map, string_bytes};
ghost use Rattle.sg_base.specs.Limits.{input_limit, text_limit};
ghost use Rattle.sg_model.specs.Ising.{Ising};
ghost use Rattle.sg_input.specs.Input.{GivesFit, RefusesText};
ghost use Rattle.sg_words.specs.Command.{IsAllowed, command_of};
ghost use Rattle.sg_words.specs.declared.command.Study.{Study};
ghost use Rattle.sg_report.specs.Exit.{IsReply};
ghost use Rattle.sg_report.specs.Refused.{IsRefused};
ghost use Rattle.sg_cli.specs.Laws.{WithAllLaws};
ghost use Rattle.sg_cli.specs.Served.{AnswersFit, AnswersInput, AnswersText, Served, ServedBy, usage_text};
ghost use Rattle.sg_cli.specs.Settled.{CanBeStudied, SettlesInput};

use super::check::check_reply;
use super::graph::graph_reply;
use super::study::study_reply;
use sg_base::INPUT_LIMIT;
use sg_draws::draw_reply;
use sg_laws::{Alternate, Disorder, One, PlusMinus, Uniform};
use sg_model::Refusal;
use sg_report::{NoMemory, Reply, Status, refuse};
use sg_words::{Command, Reading, law_word, parse_command};
use std::alloc::Global;

/// The reply to the words and an input of any length: a status, and the whole text. Commands that draw take
/// the first of the laws that has the name in the words, and leave the input alone.
///
/// What the program promises of its answers is promised here; [`run`](super::run) reads the input from a
/// source and writes the text to a sink.
///
/// # Errors
/// `NoMemory` where an allocation failed, and no other.
pub fn answer(
    alloc: Global,
    words: &[String],
    bytes: &[u8],
    laws: Vec<Box<dyn Disorder>>,
) -> Result<Reply, NoMemory>
    // The status and the text are what the words answer to the bytes.
    ensures served { let known = map (λ law. record { title = title law; stream = seeded law }) laws.items in
        IfOk result (λ reply. Served (map string_bytes words.now) known bytes.now reply.text.items reply.status) }
    ensures replied { IfOk result (λ reply. IsReply reply.status) }

    // If the input gives a fit instance, a study replies with its answer to this instance, and is done.
    ensures fit { IfOk result (λ reply. (study : Study) (inst : Ising) →
        command_of (map string_bytes words.now) ≡ Some (Command.Read (Reading.Study study)) →
        length bytes.now ≤ input_limit → GivesFit bytes.now inst →
        AnswersFit study inst reply.text.items reply.status) }
    ensures done { IfOk result (λ reply. (study : Study) (inst : Ising) →
        command_of (map string_bytes words.now) ≡ Some (Command.Read (Reading.Study study)) →
        length bytes.now ≤ input_limit → GivesFit bytes.now inst → CanBeStudied study inst →
        reply.status ≡ Status.Done) }

    // If a test of the input fails, a study replies with the line of this refusal.
    ensures refused { IfOk result (λ reply. (study : Study) (refusal : Refusal) →
        command_of (map string_bytes words.now) ≡ Some (Command.Read (Reading.Study study)) →
        length bytes.now ≤ input_limit → RefusesText bytes.now refusal →
        IsRefused refusal reply.text.items reply.status) }

    // The same for every command that reads: studies, `check`, and the tasks on graphs.
    ensures settled { IfOk result (λ reply. (reading : Reading) →
        command_of (map string_bytes words.now) ≡ Some (Command.Read reading) →
        SettlesInput reading bytes.now reply.text.items reply.status) }
{
    match parse_command(words) {
        Some(command) => command_reply(alloc, command, law_word(words), bytes, laws),
        None => usage_reply(alloc),
    }
}

/// The reply to the words and an input, as [`answer`] gives it, with the four laws to draw from.
///
/// # Errors
/// `NoMemory` where an allocation failed, and no other.
pub fn answer_with_all_laws(
    alloc: Global,
    words: &[String],
    bytes: &[u8],
) -> Result<Reply, NoMemory>
    ensures served { IfOk result (λ reply. WithAllLaws (λ laws.
        Served (map string_bytes words.now) laws bytes.now reply.text.items reply.status)) }
    ensures replied { IfOk result (λ reply. IsReply reply.status) }
    ensures settled { IfOk result (λ reply. (reading : Reading) →
        command_of (map string_bytes words.now) ≡ Some (Command.Read reading) →
        SettlesInput reading bytes.now reply.text.items reply.status) }
{
    let mut laws: Vec<Box<dyn Disorder>> = Vec::new(alloc);
    laws.push(Box::new(alloc, One::new())?)?;
    laws.push(Box::new(alloc, Alternate::new())?)?;
    laws.push(Box::new(alloc, PlusMinus::new())?)?;
    laws.push(Box::new(alloc, Uniform::new())?)?;
    answer(alloc, words, bytes, laws)
}

// The reply to words that name no command.
fn usage_reply(alloc: Global) -> Result<Reply, NoMemory>
    ensures served { IfOk result (λ reply. (reply.status ≡ Status.Usage) × (reply.text.items ≡ usage_text)) }
    ensures replied { IfOk result (λ reply. IsReply reply.status) }
{
    let mut text = Vec::new(alloc);
    text.extend_from_slice(b"usage\n")?;
    Ok(Reply {
        status: Status::Usage,
        text,
    })
}

/// The reply of a command to an input; one that draws takes the first of the laws that has the name.
pub fn command_reply(
    alloc: Global,
    command: Command,
    name: &str,
    bytes: &[u8],
    laws: Vec<Box<dyn Disorder>>,
) -> Result<Reply, NoMemory>
    requires { IsAllowed command }
    ensures served { let known = map (λ law. record { title = title law; stream = seeded law }) laws.items in
        IfOk result (λ reply. ServedBy (Some command) name.now known bytes.now reply.text.items reply.status) }
    ensures replied { IfOk result (λ reply. IsReply reply.status) }
{
    match command {
        Command::Read(reading) => input_reply(alloc, reading, bytes),
        Command::Draw(drawing) => draw_reply(alloc, drawing, name, laws),
    }
}

/// The reply of a command that reads to an input of any length.
pub fn input_reply(alloc: Global, reading: Reading, bytes: &[u8]) -> Result<Reply, NoMemory>
    ensures served { IfOk result (λ reply. AnswersInput reading bytes.now reply.text.items reply.status) }
    ensures replied { IfOk result (λ reply. IsReply reply.status) }
{
    if bytes.len() > INPUT_LIMIT {
        return refuse(
            alloc,
            &Refusal::TooLong {
                limit: INPUT_LIMIT as u64,
            },
        );
    }
    text_reply(alloc, reading, bytes)
}

// The reply of a command that reads to a text within the limit of bytes.
fn text_reply(alloc: Global, reading: Reading, bytes: &[u8]) -> Result<Reply, NoMemory>
    requires { length bytes.now < text_limit }
    ensures served { IfOk result (λ reply. AnswersText reading bytes.now reply.text.items reply.status) }
    ensures replied { IfOk result (λ reply. IsReply reply.status) }
{
    match reading {
        Reading::Study(study) => study_reply(alloc, study, bytes),
        Reading::Check => check_reply(alloc, bytes),
        Reading::Graph(task) => graph_reply(alloc, task, bytes),
    }
}
