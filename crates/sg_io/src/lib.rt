//! Bytes in and bytes out: where a program reads its input from and writes its text to.
//!
//! An exact solver is only worth as much as the bytes that reach it and leave it. A `Source` gives bytes
//! piece by piece and a `Sink` takes them; both may fail, and neither loses or doubles a byte.
//! `read_all` reads a source to its end, `put` writes a whole text. There are devices in memory, which
//! fail at chosen calls, and adapters over std's readers and writers.
//!
//! For the next engineer: everything above rests on the contract of `read_all` (`reading.rt`): its
//! answer is exactly what was left, and a fault is answered only if the device's own count shows one.
//! The definitions behind the clauses are in `specs/Devices.antt`, the traits in `devices.rt`.
#![tactic(auto)]

mod adapters;
mod devices;
mod memory_sink;
mod memory_source;
mod reading;
mod writing;

pub use adapters::{ReadSource, WriteSink};
pub use devices::{Gave, Sink, Source, Took};
pub use memory_sink::MemSink;
pub use memory_source::MemSource;
pub use reading::{ReadEnd, read_all};
use sg_base::Numbers;
use std::alloc::AllocError;
pub use writing::{WriteFault, put};

/// The allocator had no memory left.
pub type NoMemory = AllocError;

/// The numbers of calls, counted from 0: those at which a device in memory fails.
pub type CallList = Numbers<u64>;
