// A reply, and the ways in which one is made everywhere: a refusal, and a text that answers.
ghost use Rattle.std.specs.Prelude.{◌≡◌, IfOk};
ghost use Rattle.sg_report.specs.Exit.{IsReply};
ghost use Rattle.sg_report.specs.Refused.{IsRefused, NamesFault};

use super::NoMemory;
use super::faults::refusal_text;
use super::status::Status;
use sg_model::{Fault, Refusal};
use std::alloc::{AllocError, Global};

/// A status that answers the words, and its whole text.
#[derive(Drop)]
pub struct Reply {
    pub status: Status,
    pub text: Vec<u8>,
}

/// The line of a refusal, and its status.
pub fn refuse(alloc: Global, refusal: &Refusal) -> Result<Reply, NoMemory>
    ensures refused { IfOk result (λ reply. IsRefused refusal.now reply.text.items reply.status) }
    ensures replied { IfOk result (λ reply. IsReply reply.status) }
{
    let text = refusal_text(alloc, refusal)?;
    Ok(Reply {
        status: Status::Refused,
        text,
    })
}

/// The line of a fault that refuses the input, and its status. Running out of memory is passed on.
pub fn refuse_fault(alloc: Global, fault: &Fault) -> Result<Reply, NoMemory>
    ensures named { IfOk result (λ reply. NamesFault fault.now reply.text.items reply.status) }
    ensures replied { IfOk result (λ reply. IsReply reply.status) }
{
    match fault {
        Fault::Refused(refusal) => refuse(alloc, refusal),
        Fault::NoMemory => Err(AllocError),
    }
}

/// A text that answers the command.
pub fn done(text: Vec<u8>) -> Reply
    ensures status { result.status ≡ Status.Done }
    ensures text { result.text ≡ text }
{
    Reply {
        status: Status::Done,
        text,
    }
}
