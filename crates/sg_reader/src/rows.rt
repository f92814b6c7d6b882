ghost use Rattle.std.specs.Prelude.{◌≡◌, ◌<◌, ◌≤◌, [], ◌∷◌, length, IfOk, OnErr, MatchBool};
ghost use Rattle.std.specs.List.{sum_by};
ghost use Rattle.sg_base.specs.Limits.{text_limit};
ghost use Rattle.sg_reader.specs.Kept.{kept_of};

use super::NoMemory;
use super::cursor::Cursor;
use super::field::without_marks;
use super::row::Row;
use std::alloc::Global;
use std::marker::Model;

/// The records of a text that are left, without those that are skipped: blank ones and comments.
#[derive(Drop)]
pub struct Rows<'a> {
    cursor: Cursor<'a>,
    // How many precede those that are left, also of those that are skipped.
    taken: u32,
}

impl<'a> Model for Rows<'a> {
    ghost use Rattle.std.specs.Prelude.{◌+◌, ◌<◌, ◌≤◌, ◌^◌, List, filter, length};
    ghost use Rattle.std.specs.List.{sum_by};
    ghost use Rattle.sg_base.specs.Limits.{text_limit};
    ghost use Rattle.sg_reader.specs.Kept.{Kept, is_kept, numbered_from};

    ghost Value = { List Kept };

    ghost view = { λ r. filter is_kept (numbered_from r.taken r.cursor) };

    ghost invariant = { λ r. (r.taken + length r.cursor + 1 < 2 ^ 32) × (sum_by length r.cursor ≤ text_limit) };
}

impl<'a> Rows<'a> {
    /// In front of the first record of a text.
    pub fn new(alloc: Global, bytes: &'a [u8]) -> Self
        requires { length bytes.now < text_limit }
        ensures { result ≡ kept_of bytes.now }
    {
        Rows {
            cursor: Cursor::new(alloc, without_marks(bytes)),
            taken: 0,
        }
    }

    /// Reads the next record that is not skipped into `row`, or answers false where there is none.
    /// If an allocation fails, none is left.
    pub fn next(&mut self, row: &mut Row) -> Result<bool, NoMemory>
        ensures found { IfOk result (λ found. MatchBool found
            (self.old ≡ row.new ∷ self.new)
            ((self.old ≡ []) × (self.new ≡ []))) }
        ensures failed { OnErr result (self.new ≡ []) }
        ensures few { sum_by (λ r. length r.fields) self.old ≤ text_limit }
    {
        while row.fill(&mut self.cursor, self.taken)? {
            self.taken += 1;
            if row.is_kept() {
                return Ok(true);
            }
        }
        Ok(false)
    }
}
