ghost use Rattle.std.specs.Prelude.{◌≡◌, ◌≤◌, ◌<◌, [], ◌==◌, length, map, take, slice_index_or};
ghost use Rattle.std.specs.List.{prefix_len, suffix_len};
ghost use Rattle.csv.specs.Reading.{strip_bom};
ghost use Rattle.csv.specs.Records.{fields_of};
ghost use Rattle.sg_reader.specs.Field.{after_front, before_end, fields_in, is_blank as is_blank_byte, trimmed as trimmed_of, without_marks as without_marks_of};

use csv::ByteRecord;

/// The text behind all the byte-order marks of UTF-8 at its front.
#[tactic(auto, unfolding(crate::specs::Field::without_marks, csv::specs::Reading::strip_bom))]
pub fn without_marks(text: &[u8]) -> &[u8]
    ensures value { result.now ≡ without_marks_of text.now }
    ensures bare { strip_bom result.now ≡ result.now }
    ensures shorter { length result.now ≤ length text.now }
{
    let mut rest = text;
    while let [0xEF, 0xBB, 0xBF, behind @ ..] = rest {
        rest = behind;
    }
    rest
}

fn is_blank(byte: u8) -> bool
    ensures { result ≡ is_blank_byte byte }
{
    byte == b' ' || byte == b'\t'
}

// How many blanks a field begins with.
fn blanks_before(field: &[u8]) -> usize
    ensures value { result ≡ prefix_len is_blank_byte field.now }
    ensures within { result ≤ length field.now }
{
    field.iter().take_while(|byte| is_blank(**byte)).count()
}

// How many blanks a field ends with.
fn blanks_behind(field: &[u8]) -> usize
    ensures value { result ≡ suffix_len is_blank_byte field.now }
    ensures within { result ≤ length field.now }
{
    field
        .iter()
        .rev()
        .take_while(|byte| is_blank(**byte))
        .count()
}

// Blanks are counted only where there are some: most fields have none.
fn after_blanks(field: &[u8]) -> &[u8]
    ensures { result.now ≡ after_front is_blank_byte field.now }
{
    match field {
        [b' ' | b'\t', ..] => &field[blanks_before(field)..],
        _ => field,
    }
}

fn before_blanks(field: &[u8]) -> &[u8]
    ensures { result.now ≡ before_end is_blank_byte field.now }
{
    match field {
        [.., b' ' | b'\t'] => &field[..field.len() - blanks_behind(field)],
        _ => field,
    }
}

/// A field without the blanks at both its ends.
pub(crate) fn trimmed(field: &[u8]) -> &[u8]
    ensures { result.now ≡ trimmed_of field.now }
{
    before_blanks(after_blanks(field))
}

/// Field `i` of a record, trimmed.
pub(crate) fn field_at(raw: &ByteRecord, i: usize) -> &[u8]
    requires { i < length (fields_of raw.now) }
    ensures { result.now ≡ trimmed_of (slice_index_or (fields_of raw.now) i []) }
{
    match raw.get(i) {
        Some(field) => trimmed(field),
        None => unreachable!(),
    }
}

/// How many fields a record has, up to the last that is not empty once trimmed.
pub(crate) fn field_count(raw: &ByteRecord) -> usize
    ensures fields { fields_in (fields_of raw.now) ≡ take result (map trimmed_of (fields_of raw.now)) }
    ensures within { result ≤ length (fields_of raw.now) }
{
    let mut count = raw.len();
    while count > 0 && field_at(raw, count - 1).is_empty() {
        count -= 1;
    }
    count
}
