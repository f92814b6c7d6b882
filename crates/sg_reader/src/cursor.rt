ghost use Rattle.std.specs.Prelude.{◌≡◌, [], ◌∷◌, IfOk, OnErr};
ghost use Rattle.std.specs.Bool.{MatchBool};
ghost use Rattle.csv.specs.Reading.{strip_bom};
ghost use Rattle.csv.specs.Records.{fields_of};
ghost use Rattle.sg_reader.specs.Kept.{records_of};

use super::NoMemory;
use csv::{ByteRecord, ErrorKind, Reader, ReaderBuilder};
use std::alloc::{AllocError, Global};
use std::marker::Model;

/// A cursor over the records of a text in memory. Clauses see the records that are left.
#[derive(Drop)]
pub struct Cursor<'a> {
    reader: Reader<&'a [u8]>,
    is_done: bool,
}

impl<'a> Model for Cursor<'a> {
    ghost use Rattle.std.specs.Prelude.{ℕ, List};

    ghost Value = { List (List (List ℕ)) };

    ghost use Rattle.sg_reader.specs.Cursor.{cursor_left, IsSoundCursor};

    ghost view = { cursor_left };

    ghost invariant = { IsSoundCursor };
}

impl<'a> Cursor<'a> {
    /// The cursor in front of the first record. A byte-order mark at the front is passed over.
    pub fn new(alloc: Global, text: &'a [u8]) -> Self
        ensures { result ≡ records_of (strip_bom text.now) }
    {
        Cursor {
            reader: ReaderBuilder::new()
                .has_headers(false)
                .flexible(true)
                .from_reader(alloc, text),
            is_done: false,
        }
    }

    /// Reads the next record into `row`, or answers false where there is none. If an allocation
    /// fails, none is left.
    pub fn next(&mut self, row: &mut ByteRecord) -> Result<bool, NoMemory>
        ensures found { IfOk result (λ found. MatchBool found
            (self.old ≡ fields_of row.new ∷ self.new)
            ((self.old ≡ []) × (self.new ≡ []))) }
        ensures failed { OnErr result (self.new ≡ []) }
    {
        if self.is_done {
            return Ok(false);
        }
        match self.reader.read_byte_record(row) {
            Ok(true) => Ok(true),
            Ok(false) => {
                self.is_done = true;
                Ok(false)
            }
            Err(e) => {
                self.is_done = true;
                match e.into_kind() {
                    // A slice has no error of its own.
                    ErrorKind::Io(_) | ErrorKind::OutOfMemory => Err(AllocError),
                    _ => unreachable!(),
                }
            }
        }
    }
}
