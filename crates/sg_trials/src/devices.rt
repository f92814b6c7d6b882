ghost use Rattle.std.specs.Prelude.{◌≤◌, IfOk};

use super::facts::expect;
use sg_io::{
    CallList, Gave, MemSink, MemSource, ReadEnd, ReadSource, Sink, Source, Took, WriteFault,
    WriteSink, put, read_all,
};
use std::alloc::{AllocError, Global};
use std::io;
use std::io::{ErrorKind, Read, Write};
use std::process::Abort;
use std::test::Fail;

// The list of one call, or of none.
fn calls(alloc: Global, fail: Option<u64>) -> Result<CallList, AllocError> {
    let mut list = CallList::new(alloc);
    if let Some(call) = fail {
        list.push(call)?;
    }
    Ok(list)
}

// Whether three bytes are read within a limit, or the reading ends so, where a call may fail.
fn is_read(
    alloc: Global,
    limit: u8,
    fail: Option<u64>,
    wanted: Option<ReadEnd>,
) -> Result<bool, AllocError> {
    let fails = calls(alloc, fail)?;
    let bytes = Vec::from_slice(alloc, b"abc")?;
    let mut source = MemSource::new(bytes, 2, fails);
    match read_all(alloc, &mut source, limit as usize) {
        Ok(found) => Ok(wanted.is_none() && found.as_slice() == b"abc".as_slice()),
        Err(end) => Ok(wanted.is_some_and(|other| other == end)),
    }
}

#[test]
fn a_source_is_read_to_its_end_within_the_limit(rt: HostRuntime) -> Result<(), Fail> {
    let rows = [
        (3, None, None),
        (2, None, Some(ReadEnd::TooLong)),
        (3, Some(1), Some(ReadEnd::ReadFault)),
    ];
    for (limit, fail, wanted) in rows {
        let is_wanted = is_read(rt.alloc(), limit, fail, wanted)?;
        expect(&rt, "the end", is_wanted);
    }
    Ok(())
}

// Whether a text is written with this answer into this room, as these bytes, where a call may fail.
fn is_written(
    alloc: Global,
    room: usize,
    fail: Option<u64>,
    answer: Result<(), WriteFault>,
    wanted: &str,
) -> Result<bool, AllocError> {
    let mut sink = MemSink::new(alloc, room, 5, calls(alloc, fail)?)?;
    let found = put(&mut sink, b"energy,-10\n");
    Ok(found == answer && sink.bytes() == wanted.as_bytes())
}

#[test]
fn a_text_is_written_whole_or_up_to_the_fault(rt: HostRuntime) -> Result<(), Fail> {
    let rows = [
        (100, None, Ok(()), "energy,-10\n"),
        (100, Some(1), Err(WriteFault), "energ"),
        (7, None, Err(WriteFault), "energy,"),
    ];
    for (room, fail, answer, wanted) in rows {
        let is_wanted = is_written(rt.alloc(), room, fail, answer, wanted)?;
        expect(&rt, wanted, is_wanted);
    }
    Ok(())
}

// A reader and writer that fails at its first call, moves nothing at its third, and moves one byte at
// each other call.
#[derive(Drop)]
struct FailsOnce {
    calls: u64,
}

impl FailsOnce {
    fn answer(&mut self, offered: usize) -> io::Result<usize>
        ensures { IfOk result (λ n. n ≤ offered) }
    {
        let call = self.calls;
        self.calls = call.saturating_add(1);
        match call {
            0 => Err(ErrorKind::Interrupted.into()),
            2 => Ok(0),
            _ => Ok(offered.min(1)),
        }
    }
}

impl Read for FailsOnce {
    fn read(&mut self, into: &mut [u8]) -> io::Result<usize> {
        self.answer(into.len())
    }
}

impl Write for FailsOnce {
    fn write(&mut self, bytes: &[u8]) -> io::Result<usize> {
        self.answer(bytes.len())
    }

    fn flush(&mut self) -> io::Result<()> {
        Ok(())
    }
}

// A read must have this answer.
fn expect_took(rt: &impl Abort, found: Took, wanted: Took) {
    assert_eq!(rt; found, wanted);
}

// A write must have this answer.
fn expect_gave(rt: &impl Abort, found: Gave, wanted: Gave) {
    assert_eq!(rt; found, wanted);
}

// One call more of the inner reader than of the source shifts the answers behind it.
#[test]
fn a_reader_of_std_is_a_source(rt: HostRuntime) -> Result<(), Fail> {
    let mut source = ReadSource::new(b"abc".as_slice());
    let mut into = [0u8; 2];
    expect_took(&rt, source.read(&mut into), Took::Got(2));
    expect(&rt, "two bytes", into == *b"ab");
    expect_took(&rt, source.read(&mut into), Took::Got(1));
    expect(&rt, "one byte", into[0] == b'c');
    expect_took(&rt, source.read(&mut into), Took::End);
    let mut source = ReadSource::new(FailsOnce { calls: 0 });
    for wanted in [Took::Failed, Took::Got(1), Took::End, Took::Got(1)] {
        expect_took(&rt, source.read(&mut into), wanted);
    }
    Ok(())
}

// As above, of the inner writer.
#[test]
fn a_writer_of_std_is_a_sink(rt: HostRuntime) -> Result<(), Fail> {
    let mut written = Vec::new(rt.alloc());
    let mut sink = WriteSink::new(&mut written);
    expect_gave(&rt, sink.write(b"abc"), Gave::Took(3));
    drop(sink);
    expect(
        &rt,
        "what is written",
        written.as_slice() == b"abc".as_slice(),
    );
    let mut sink = WriteSink::new(FailsOnce { calls: 0 });
    for wanted in [Gave::Failed, Gave::Took(1), Gave::Failed, Gave::Took(1)] {
        expect_gave(&rt, sink.write(b"abc"), wanted);
    }
    let mut place = [0u8; 1];
    let mut narrow = WriteSink::new(place.as_mut_slice());
    expect_gave(&rt, narrow.write(b"abc"), Gave::Took(1));
    expect_gave(&rt, narrow.write(b"bc"), Gave::Failed);
    Ok(())
}
