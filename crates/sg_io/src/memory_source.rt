// A source in memory.
ghost use Rattle.std.specs.Prelude.{◌≡◌, ◌<◌, ◌≤◌, false, Some, length};
ghost use Rattle.sg_io.specs.Devices.{read_failed, read_faults, Reads, ReadsWithin};
ghost use Rattle.sg_io.specs.Memory.{source_after, read_answer};

use super::{CallList, Source, Took};
use std::marker::Model;

/// A source in memory: it gives the bytes that it was made with, in pieces, and fails at chosen
/// calls.
///
/// Its calls are numbered from 0. Clauses see it as the bytes still to come, the piece, the numbers
/// of the calls that fail, the numbers of calls and of failed calls so far, and whether the last call
/// failed. The two numbers stay at `u64::MAX` once they are there.
#[derive(Drop)]
pub struct MemSource {
    bytes: Vec<u8>,
    at: usize,
    piece: usize,
    fails: CallList,
    calls: u64,
    faults: u64,
    failed: bool,
}

impl Model for MemSource {
    ghost use Rattle.std.specs.Prelude.{drop, length, ◌≤◌};
    ghost use Rattle.sg_io.specs.Devices.{last_count};
    ghost use Rattle.sg_io.specs.Memory.{SourceState};

    ghost Value = { SourceState };

    ghost view = { λ s. record { left = drop s.at s.bytes.items; piece = s.piece; fails = s.fails; calls = s.calls; faults = s.faults; failed = s.failed } };

    ghost invariant = { λ s. record {
      within : s.at ≤ length s.bytes.items;
      piece : 1 ≤ s.piece;
      calls : s.calls ≤ last_count;
      faults : s.faults ≤ last_count;
    } };
}

impl MemSource {
    /// The source that gives these bytes, at most `piece` in one read. Exactly the calls whose
    /// numbers are in `fails` fail. It does not allocate.
    pub fn new(bytes: Vec<u8>, piece: usize, fails: CallList) -> Self
        requires { 1 ≤ piece }
        ensures { result ≡ record { left = bytes.items; piece = piece; fails = fails; calls = 0; faults = 0; failed = false } }
    {
        MemSource {
            bytes,
            at: 0,
            piece,
            fails,
            calls: 0,
            faults: 0,
            failed: false,
        }
    }
}

impl Source for MemSource {
    ghost left = { λ s. Some s.left };

    ghost faults = { λ s. s.faults };

    ghost failed = { λ s. s.failed };

    /// Gives the least of the piece, the buffer and the bytes that are left. It does not allocate.
    fn read(&mut self, into: &mut [u8]) -> Took
        requires { 0 < length into.old }
        ensures count { ReadsWithin result into.new }
        ensures bytes { Reads result into.new (Some self.old.left) (Some self.new.left) }
        ensures counted { self.new.faults ≡ read_faults result self.old.faults }
        ensures last { self.new.failed ≡ read_failed result }

        // Which calls fail, how many bytes a read gives, and all that a call changes.
        ensures answer { result ≡ read_answer self.old (length into.old) }
        ensures after { self.new ≡ source_after result self.old }
    {
        let fails = self.fails.as_slice().contains(&self.calls);
        self.calls = self.calls.saturating_add(1);
        self.failed = fails;
        if fails {
            self.faults = self.faults.saturating_add(1);
            return Took::Failed;
        }
        let left = &self.bytes[self.at..];
        if left.is_empty() {
            return Took::End;
        }
        let count = self.piece.min(into.len()).min(left.len());
        into[..count].copy_from_slice(&left[..count]);
        self.at += count;
        Took::Got(count)
    }
}
