// Std's readers and writers as devices.
ghost use Rattle.std.specs.Prelude.{◌≡◌, false, None, ◌<◌, length};
ghost use Rattle.sg_io.specs.Adapters.{faults_after, gave_by, PassesRead, PassesWrite, took_by};
ghost use Rattle.sg_io.specs.Devices.{read_failed, read_faults, Reads, ReadsWithin, write_failed, write_faults, Writes, WritesWithin};

use super::{Gave, Sink, Source, Took};
use std::io;
use std::io::{Read, Write};
use std::marker::Model;

/// A reader of std as a source.
///
/// A read of 0 bytes is the end, and each `Err` is a failure and counts. Clauses see the reader, the
/// failed reads so far, and whether the last one failed. As a source it tells nothing of bytes: what
/// a file, a pipe or a terminal gives is trusted.
#[derive(Drop)]
pub struct ReadSource<R> {
    inner: R,
    faults: u64,
    failed: bool,
}

impl<R> Model for ReadSource<R> {
    ghost use Rattle.std.specs.Prelude.{◌≤◌};
    ghost use Rattle.sg_io.specs.Adapters.{Adapter};
    ghost use Rattle.sg_io.specs.Devices.{last_count};

    ghost Value = { Adapter R };

    ghost view = { λ s. record { inner = s.inner; faults = s.faults; failed = s.failed } };

    ghost invariant = { λ s. s.faults ≤ last_count };
}

impl<R: Read> ReadSource<R> {
    /// The source that reads from this reader. No read has failed yet.
    pub fn new(inner: R) -> Self
        ensures { result ≡ record { inner = inner; faults = 0; failed = false } }
    {
        ReadSource {
            inner,
            faults: 0,
            failed: false,
        }
    }
}

// What the answer of a reader means.
fn took(answer: io::Result<usize>) -> Took
    ensures { result ≡ took_by answer }
{
    match answer {
        Ok(0) => Took::End,
        Ok(count) => Took::Got(count),
        Err(_) => Took::Failed,
    }
}

// The count of faults behind a call.
fn counted(faults: u64, failed: bool) -> u64
    ensures { result ≡ faults_after faults failed }
{
    if failed {
        faults.saturating_add(1)
    } else {
        faults
    }
}

impl<R: Read> Source for ReadSource<R> {
    ghost left = { λ _. None };

    ghost faults = { λ s. s.faults };

    ghost failed = { λ s. s.failed };

    fn read(&mut self, into: &mut [u8]) -> Took
        requires { 0 < length into.old }
        ensures count { ReadsWithin result into.new }
        ensures bytes { Reads result into.new None None }
        ensures counted { self.new.faults ≡ read_faults result self.old.faults }
        ensures last { self.new.failed ≡ read_failed result }

        // What std knows of the reader's bytes.
        ensures passed { PassesRead result into.new (R.remaining self.old.inner) (R.remaining self.new.inner) }
    {
        let answer = took(self.inner.read(into));
        self.failed = matches!(answer, Took::Failed);
        self.faults = counted(self.faults, self.failed);
        answer
    }
}

/// A writer of std as a sink.
///
/// A write of 0 bytes and each `Err` is a failure and counts. Clauses see the writer, the failed
/// writes so far, and whether the last one failed. As a sink it tells nothing of bytes. It does not
/// flush.
#[derive(Drop)]
pub struct WriteSink<W> {
    inner: W,
    faults: u64,
    failed: bool,
}

impl<W> Model for WriteSink<W> {
    ghost use Rattle.std.specs.Prelude.{◌≤◌};
    ghost use Rattle.sg_io.specs.Adapters.{Adapter};
    ghost use Rattle.sg_io.specs.Devices.{last_count};

    ghost Value = { Adapter W };

    ghost view = { λ s. record { inner = s.inner; faults = s.faults; failed = s.failed } };

    ghost invariant = { λ s. s.faults ≤ last_count };
}

impl<W: Write> WriteSink<W> {
    /// The sink that writes to this writer. No write has failed yet.
    pub fn new(inner: W) -> Self
        ensures { result ≡ record { inner = inner; faults = 0; failed = false } }
    {
        WriteSink {
            inner,
            faults: 0,
            failed: false,
        }
    }
}

// What the answer of a writer means.
fn gave(answer: io::Result<usize>) -> Gave
    ensures { result ≡ gave_by answer }
{
    match answer {
        Ok(0) | Err(_) => Gave::Failed,
        Ok(count) => Gave::Took(count),
    }
}

impl<W: Write> Sink for WriteSink<W> {
    ghost written = { λ _. None };

    ghost faults = { λ s. s.faults };

    ghost failed = { λ s. s.failed };

    fn write(&mut self, bytes: &[u8]) -> Gave
        requires { 0 < length bytes.now }
        ensures count { WritesWithin result bytes.now }
        ensures bytes { Writes result bytes.now None None }
        ensures counted { self.new.faults ≡ write_faults result self.old.faults }
        ensures last { self.new.failed ≡ write_failed result }

        // What std knows of the writer's bytes.
        ensures passed { PassesWrite result bytes.now (W.contents self.old.inner) (W.contents self.new.inner) }
    {
        let answer = gave(self.inner.write(bytes));
        self.failed = matches!(answer, Gave::Failed);
        self.faults = counted(self.faults, self.failed);
        answer
    }
}
