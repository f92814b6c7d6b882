ghost use Rattle.std.specs.Prelude.{◌≡◌, ◌<◌, ◌+◌, ◌^◌, [], ◌∷◌, ◌≤◌, None, Some, true, false, length, pos, IfOk, IfErr, OnErr, OnOk, MatchBool, ◌≤ℤ◌, ℕ, List};
ghost use Rattle.std.specs.Str.{bytes_eq};
ghost use Rattle.std.specs.List.{sum_by};
ghost use Rattle.sg_reader.specs.Field.{fields_in};
ghost use Rattle.sg_reader.specs.Kept.{begins as begins_with, field as field_of, is_kept as is_kept_row, is_comment as is_comment_field};
ghost use Rattle.sg_model.specs.Spins.{IsUpOrDown};
ghost use Rattle.sg_reader.specs.Tests.{field_count_fault, field_fault, number_in, size_in, word_fault};
ghost use Rattle.sg_reader.specs.Result.{spin_fault};

use super::cursor::Cursor;
use super::field::{field_at, field_count};
use super::range::Range;
use super::{NoMemory, number};
use csv::ByteRecord;
use sg_model::Refusal;
use std::alloc::Global;
use std::marker::Model;

/// A record with its number: its fields trimmed, and without the empty ones at the end.
#[derive(Drop)]
pub struct Row {
    at: u32,
    raw: ByteRecord,
    count: usize,
}

impl Model for Row {
    ghost use Rattle.std.specs.Prelude.{◌+◌, ◌<◌, ◌≤◌, ◌^◌, length, map, take};
    ghost use Rattle.csv.specs.Records.{fields_of};
    ghost use Rattle.sg_reader.specs.Field.{trimmed};
    ghost use Rattle.sg_reader.specs.Kept.{Kept};

    ghost Value = { Kept };

    ghost view = { λ r. record { at = r.at; fields = take r.count (map trimmed (fields_of r.raw)) } };

    ghost invariant = { λ r. (r.at + 1 < 2 ^ 32) × (r.count < 2 ^ 32) × (r.count ≤ length (fields_of r.raw)) };
}

impl Row {
    /// A record without fields, to be filled.
    pub fn new(alloc: Global) -> Self
        ensures { result ≡ record { at = 0; fields = [] } }
    {
        Row {
            at: 0,
            raw: ByteRecord::new(alloc),
            count: 0,
        }
    }

    /// Reads the next record, which has the number `at`. It answers false where there is none.
    pub(crate) fn fill(&mut self, cursor: &mut Cursor<'_>, at: u32) -> Result<bool, NoMemory>
        requires at_fits { at + 1 < 2 ^ 32 }
        requires short { sum_by length cursor.old < 2 ^ 32 }
        ensures found { IfOk result (λ found. MatchBool found
            ((raw : List (List ℕ)) × (cursor.old ≡ raw ∷ cursor.new)
            × (self.new ≡ record { at = at; fields = fields_in raw }))
            ((cursor.old ≡ []) × (cursor.new ≡ []))) }
        ensures failed { OnErr result (cursor.new ≡ []) }
    {
        self.count = 0;
        if !cursor.next(&mut self.raw)? {
            return Ok(false);
        }
        self.at = at;
        self.count = field_count(&self.raw);
        Ok(true)
    }

    /// The number of the record.
    pub fn at(&self) -> u32
        ensures value { result ≡ self.now.at }
        ensures fits { result + 1 < 2 ^ 32 }
    {
        self.at
    }

    /// How many fields the record has.
    pub fn len(&self) -> usize
        ensures value { result ≡ length self.now.fields }
        ensures fits { result < 2 ^ 32 }
    {
        self.count
    }

    /// Field `i`.
    pub(crate) fn field(&self, i: usize) -> &[u8]
        requires { i < length self.now.fields }
        ensures { result.now ≡ field_of self.now i }
    {
        field_at(&self.raw, i)
    }

    /// The first field, and the empty one where there is none.
    pub(crate) fn word(&self) -> &[u8]
        ensures { result.now ≡ field_of self.now 0 }
    {
        if self.count == 0 {
            return &[];
        }
        field_at(&self.raw, 0)
    }

    /// Whether the first field is this word.
    pub fn begins(&self, word: &[u8]) -> bool
        ensures { result ≡ bytes_eq (field_of self.now 0) word.now }
    {
        self.word() == word
    }

    /// The test of the word with which the record begins.
    ///
    /// # Errors
    /// `UnknownKind` for another one.
    pub fn check_word(&self, word: &[u8]) -> Result<(), Refusal>
        ensures passes { OnOk result (word_fault word.now self.now ≡ None) }
        ensures says { OnOk result (begins_with word.now self.now ≡ true) }
        ensures refused { IfErr result (λ e. word_fault word.now self.now ≡ Some e) }
    {
        if !self.begins(word) {
            return Err(Refusal::UnknownKind { at: self.at });
        }
        Ok(())
    }

    /// The test of how many fields the record has.
    ///
    /// # Errors
    /// `BadShape` for another number of them.
    pub fn check_shape(&self, fields: usize) -> Result<(), Refusal>
        ensures passes { OnOk result (field_count_fault fields self.now ≡ None) }
        ensures count { OnOk result (length self.now.fields ≡ fields) }
        ensures refused { IfErr result (λ e. field_count_fault fields self.now ≡ Some e) }
    {
        if self.count != fields {
            return Err(Refusal::BadShape { at: self.at });
        }
        Ok(())
    }

    /// Whether the record counts: it has a field, and the first does not begin with `#`.
    pub(crate) fn is_kept(&self) -> bool
        ensures { result ≡ is_kept_row self.now }
    {
        self.count != 0 && !is_comment(self.word())
    }

    /// The number in field `i`, if it is in the range of its place.
    #[tactic(auto, unfolding(crate::specs::Tests::field_fault))]
    pub fn number(&self, i: usize, range: Range) -> Result<i64, Refusal>
        requires { i < length self.now.fields }
        ensures passes { IfOk result (λ z. field_fault range i self.now ≡ None) }
        ensures value { IfOk result (λ z. z ≡ number_in self.now i) }
        ensures bounds { IfOk result (λ z. (range.low ≤ℤ z) × (z ≤ℤ range.high)) }
        ensures refused { IfErr result (λ e. field_fault range i self.now ≡ Some e) }
    {
        match number(self.field(i)) {
            Some(value) if range.holds(value) => Ok(value),
            _ => Err(Refusal::BadNumber {
                at: self.at,
                field: i as u32,
            }),
        }
    }

    /// The value of a spin in field `i`, 1 or -1.
    #[tactic(auto, unfolding(crate::specs::Result::spin_fault))]
    pub(crate) fn spin(&self, i: usize) -> Result<i8, Refusal>
        requires { i < length self.now.fields }
        ensures passes { IfOk result (λ z. spin_fault i self.now ≡ None) }
        ensures value { IfOk result (λ z. z ≡ number_in self.now i) }
        ensures up_or_down { IfOk result IsUpOrDown }
        ensures refused { IfErr result (λ e. spin_fault i self.now ≡ Some e) }
    {
        match number(self.field(i)) {
            Some(1) => Ok(1),
            Some(-1) => Ok(-1),
            _ => Err(Refusal::BadNumber {
                at: self.at,
                field: i as u32,
            }),
        }
    }

    /// The number in field `i`, where the range of its place has no negative ones.
    pub fn size(&self, i: usize, range: Range) -> Result<u64, Refusal>
        requires inside { i < length self.now.fields }
        requires natural { pos 0 ≤ℤ range.low }
        ensures passes { IfOk result (λ n. field_fault range i self.now ≡ None) }
        ensures value { IfOk result (λ n. n ≡ size_in self.now i) }
        ensures fits { IfOk result (λ n. n < 2 ^ 63) }
        ensures bounds { IfOk result (λ n. (range.low ≤ℤ pos n) × (pos n ≤ℤ range.high)) }
        ensures refused { IfErr result (λ e. field_fault range i self.now ≡ Some e) }
    {
        let value = self.number(i, range)?;
        Ok(value as u64)
    }
}

// Whether a field begins with `#`.
fn is_comment(field: &[u8]) -> bool
    ensures { result ≡ is_comment_field field.now }
{
    matches!(field, [b'#', ..])
}
