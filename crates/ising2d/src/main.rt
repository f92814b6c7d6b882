//! The program `ising2d`: standard input and output under the top call.
//!
//! Every text goes to standard output, and the exit status says how the run ended. What the
//! program does is the contract of `sg_cli::run_with_all_laws`; here the words, the devices and the
//! status are joined to the system, which is trusted.
#![tactic(auto)]

use sg_cli::{Status, run_with_all_laws};
use sg_io::{ReadSource, WriteSink};
use std::process::ExitCode;
use std::{env, io};

// The exit status where the words cannot be had, for another cause than memory, as where one is no
// UTF-8.
const NO_WORDS: u8 = 7;

fn main(rt: HostRuntime) -> ExitCode {
    match words(&rt) {
        Ok(words) => ExitCode::from(answer(&rt, words.as_slice()).exit_code()),
        Err(error) if error.kind() == io::ErrorKind::OutOfMemory => {
            ExitCode::from(Status::NoMemory.exit_code())
        }
        Err(_) => ExitCode::from(NO_WORDS),
    }
}

/// The words after the program's name.
fn words(rt: &HostRuntime) -> io::Result<Vec<String>> {
    let mut words = Vec::new(rt.alloc());
    for word in env::args(rt)?.skip(1) {
        words.push(word)?;
    }
    Ok(words)
}

/// Answers the words, from standard input to standard output.
fn answer(rt: &HostRuntime, words: &[String]) -> Status {
    let mut source = ReadSource::new(rt.reader());
    let mut sink = WriteSink::new(io::writer(rt));
    run_with_all_laws(rt.alloc(), words, &mut source, &mut sink).unwrap_or(Status::NoMemory)
}
