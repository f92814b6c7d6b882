ghost use Rattle.std.specs.Prelude.{◌≡◌, ◌≤◌, ◌*◌, None, Some, IfOk, IfErr};
ghost use Rattle.sg_reader.specs.declared.header.Form.TheVariants as form;
ghost use Rattle.sg_reader.specs.Header.{form_fault, form_header, form_of, header_fault, header_of, IsHeader};

use super::range::Range;
use super::row::Row;
use sg_draft::{Limits, check_spins};
use sg_lattice::{Kind, least_cols};
use sg_model::Refusal;

const SQUARE: &[u8] = b"square";

const TRIANGULAR: &[u8] = b"triangular";

const HEXAGONAL: &[u8] = b"hexagonal";

const CYLINDER: &[u8] = b"cylinder";

const GENERAL: &[u8] = b"general";

/// The form of an instance, which the first word of its text names.
#[derive(Clone, Copy)]
pub enum Form {
    /// A lattice of this kind.
    Lattice(Kind),
    /// An instance with its own bonds and rotation.
    General,
}

/// What the first record of an instance says.
#[derive(Clone, Copy)]
pub(crate) enum Header {
    Lattice { kind: Kind, rows: u32, cols: u32 },
    General { n: u32 },
}

/// The form that a word names, if it is one of the five.
#[tactic(auto, unfolding(crate::specs::Header::form_of))]
pub fn form_named(word: &[u8]) -> Option<Form>
    ensures { result ≡ form_of word.now }
{
    if word == SQUARE {
        Some(Form::Lattice(Kind::Square))
    } else if word == TRIANGULAR {
        Some(Form::Lattice(Kind::Triangular))
    } else if word == HEXAGONAL {
        Some(Form::Lattice(Kind::Hexagonal))
    } else if word == CYLINDER {
        Some(Form::Lattice(Kind::Cylinder))
    } else if word == GENERAL {
        Some(Form::General)
    } else {
        None
    }
}

// `square,R,C` and its like.
#[tactic(auto, unfolding(crate::specs::Header::form_fault, crate::specs::Header::form_header))]
fn lattice_header(row: &Row, kind: Kind) -> Result<Header, Refusal>
    ensures passes { IfOk result (λ h. form_fault (Some (form.Lattice kind)) row.now ≡ None) }
    ensures value { IfOk result (λ h. form_header (Some (form.Lattice kind)) row.now ≡ Some h) }
    ensures sound { IfOk result IsHeader }
    ensures refused { IfErr result (λ e. form_fault (Some (form.Lattice kind)) row.now ≡ Some e) }
{
    row.check_shape(3)?;
    let rows = row.size(1, Range::at_least(1))?;
    let cols = row.size(2, Range::at_least(least_cols(kind)))?;
    check_spins(Limits::of_program(), u128::from(rows) * u128::from(cols))?;
    Ok(Header::Lattice {
        kind,
        rows: rows as u32,
        cols: cols as u32,
    })
}

// `general,N`.
#[tactic(auto, unfolding(crate::specs::Header::form_fault, crate::specs::Header::form_header))]
fn general_header(row: &Row) -> Result<Header, Refusal>
    ensures passes { IfOk result (λ h. form_fault (Some form.General) row.now ≡ None) }
    ensures value { IfOk result (λ h. form_header (Some form.General) row.now ≡ Some h) }
    ensures sound { IfOk result IsHeader }
    ensures refused { IfErr result (λ e. form_fault (Some form.General) row.now ≡ Some e) }
{
    row.check_shape(2)?;
    let spins = row.size(1, Range::at_least(1))?;
    check_spins(Limits::of_program(), u128::from(spins))?;
    Ok(Header::General { n: spins as u32 })
}

/// What the first record of an instance says.
///
/// # Errors
/// In this order: `UnknownKind` for another first word, `BadShape` for another number of fields,
/// `BadNumber`, and `TooManySpins` above the limit.
#[tactic(auto, unfolding(crate::specs::Header::form_fault, crate::specs::Header::header_fault, crate::specs::Header::header_of))]
pub(crate) fn read_header(row: &Row) -> Result<Header, Refusal>
    ensures passes { IfOk result (λ h. header_fault row.now ≡ None) }
    ensures value { IfOk result (λ h. header_of row.now ≡ Some h) }
    ensures sound { IfOk result IsHeader }
    ensures refused { IfErr result (λ e. header_fault row.now ≡ Some e) }
{
    match form_named(row.word()) {
        Some(Form::Lattice(kind)) => lattice_header(row, kind),
        Some(Form::General) => general_header(row),
        None => Err(Refusal::UnknownKind { at: row.at() }),
    }
}
