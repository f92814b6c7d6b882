// A sink in memory.
ghost use Rattle.std.specs.Prelude.{◌≡◌, ◌<◌, ◌≤◌, [], false, Some, IfOk, length};
ghost use Rattle.sg_io.specs.Devices.{write_failed, write_faults, Writes, WritesWithin};
ghost use Rattle.sg_io.specs.Memory.{sink_after, write_answer};

use super::{CallList, Gave, NoMemory, Sink};
use std::alloc::Global;
use std::marker::Model;

/// A sink in memory: it keeps what is written, takes bytes in pieces, and fails at chosen calls and
/// where its room is used up.
///
/// Its calls are numbered from 0. Clauses see it as the bytes written, the room that is left, the
/// piece, the numbers of the calls that fail, the numbers of calls and of failed calls so far, and
/// whether the last call failed. The two numbers stay at `u64::MAX` once they are there.
#[derive(Drop)]
pub struct MemSink {
    bytes: Vec<u8>,
    room: usize,
    piece: usize,
    fails: CallList,
    calls: u64,
    faults: u64,
    failed: bool,
}

impl Model for MemSink {
    ghost use Rattle.std.specs.Prelude.{length, ◌+◌, ◌≤◌};
    ghost use Rattle.std.specs.Vec.{vec_capacity};
    ghost use Rattle.sg_io.specs.Devices.{last_count};
    ghost use Rattle.sg_io.specs.Memory.{SinkState};

    ghost Value = { SinkState };

    ghost view = { λ s. record { written = s.bytes.items; room = s.room; piece = s.piece; fails = s.fails; calls = s.calls; faults = s.faults; failed = s.failed } };

    ghost invariant = { λ s. record {
      reserved : length s.bytes.items + s.room ≤ vec_capacity s.bytes;
      piece : 1 ≤ s.piece;
      calls : s.calls ≤ last_count;
      faults : s.faults ≤ last_count;
    } };
}

impl MemSink {
    /// The sink with room for `room` bytes, which are reserved now. It takes at most `piece` bytes in
    /// one write. Exactly the calls whose numbers are in `fails`, and those without room, fail.
    pub fn new(alloc: Global, room: usize, piece: usize, fails: CallList) -> Result<Self, NoMemory>
        requires { 1 ≤ piece }
        ensures { IfOk result (λ sink. sink ≡ record { written = []; room = room; piece = piece; fails = fails; calls = 0; faults = 0; failed = false }) }
    {
        Ok(MemSink {
            bytes: Vec::with_capacity(alloc, room)?,
            room,
            piece,
            fails,
            calls: 0,
            faults: 0,
            failed: false,
        })
    }

    /// The bytes written so far.
    pub fn bytes(&self) -> &[u8]
        ensures { result.now ≡ self.now.written }
    {
        self.bytes.as_slice()
    }
}

impl Sink for MemSink {
    ghost written = { λ s. Some s.written };

    ghost faults = { λ s. s.faults };

    ghost failed = { λ s. s.failed };

    /// Takes the least of the piece, the room that is left and the bytes offered. It does not
    /// allocate.
    fn write(&mut self, bytes: &[u8]) -> Gave
        requires { 0 < length bytes.now }
        ensures count { WritesWithin result bytes.now }
        ensures bytes { Writes result bytes.now (Some self.old.written) (Some self.new.written) }
        ensures counted { self.new.faults ≡ write_faults result self.old.faults }
        ensures last { self.new.failed ≡ write_failed result }

        // Which calls fail, how many bytes a write takes, and all that a call changes.
        ensures answer { result ≡ write_answer self.old (length bytes.now) }
        ensures after { self.new ≡ sink_after result bytes.now self.old }
    {
        let fails = self.fails.as_slice().contains(&self.calls) || self.room == 0;
        self.calls = self.calls.saturating_add(1);
        self.failed = fails;
        if fails {
            self.faults = self.faults.saturating_add(1);
            return Gave::Failed;
        }
        let count = self.piece.min(self.room).min(bytes.len());
        match self.bytes.extend_from_slice(&bytes[..count]) {
            Ok(()) => {
                self.room -= count;
                Gave::Took(count)
            }
            Err(_) => unreachable!(),
        }
    }
}
