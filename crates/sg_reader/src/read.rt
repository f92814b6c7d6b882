ghost use Rattle.std.specs.Prelude.{◌≡◌, ◌≤◌, [], Ok, MatchResult, IfOk, IfErr, OnOk};
ghost use Rattle.sg_base.specs.Limits.{bond_limit, spin_limit};
ghost use Rattle.sg_model.specs.Ising.{bond_count};
ghost use Rattle.sg_model.specs.WellFormed.{IsInstance};
ghost use Rattle.sg_reader.specs.ReadInstance.{ReadsInstance, RefusesInstance};
ghost use Rattle.sg_reader.specs.Ended.{Fails, IsTrailing};

use super::general::read_general;
use super::header::{Header, read_header};
use super::lattice::read_lattice;
use super::row::Row;
use super::rows::Rows;
use sg_model::{Fault, Instance, Refusal};
use std::alloc::Global;

/// Reads an instance from the records of a text. Those behind its `end` are left.
///
/// Byte-order marks at the front are passed over. Of each record the fields are trimmed of spaces and
/// tabs, and the empty fields at the end are dropped; blank records and those whose first field
/// begins with `#` are skipped, but counted.
///
/// - The first record is `square,R,C`, `triangular,R,C`, `hexagonal,R,C`, `cylinder,R,C` or
///   `general,N`.
/// - Then come the couplings of a lattice, in the order of its bonds, on any number of records; or
///   the records `bond,U,V,J` and `rot,I,D,..`, the darts of spin I in cyclic order.
/// - A record `seam,..` gives the bonds of the seam.
/// - The record `end` ends the instance.
///
/// # Errors
/// The refusal of the first record that fails a test, and of its tests the first that fails: of the
/// first record `UnknownKind`, `BadShape`, `BadNumber`, `TooManySpins`; of a seam `BadShape` where it is
/// the second, `BadNumber`; of couplings `BadNumber`; of a bond `BadShape`, `BadNumber`, `TooManyBonds`,
/// `SelfBond`; of a rotation `BadShape`, `BadNumber`, `BadShape` where its spin has one; of another
/// record of a general instance `UnknownKind`; of the `end` `BadShape`, `CouplingCount` for a lattice,
/// `BadRotation`, `BadSeam`. What follows that record is left. `Unended` where the records run out.
/// `NoMemory` may come at any time, and some records are left then, perhaps none.
///
/// The time is linear in the bytes, and the memory is that of the instance and of the longest record.
pub fn read_instance(alloc: Global, rows: &mut Rows<'_>) -> Result<Instance, Fault>
    ensures read { IfOk result (λ inst. ReadsInstance rows.old inst rows.new) }
    ensures instance { IfOk result IsInstance }
    ensures few_spins { IfOk result (λ inst. inst.n ≤ spin_limit) }
    ensures few_bonds { IfOk result (λ inst. bond_count inst ≤ bond_limit) }
    ensures fault { IfErr result (Fails (RefusesInstance rows.old) rows.old rows.new) }
{
    let mut row = Row::new(alloc);
    if !rows.next(&mut row)? {
        return Err(Fault::Refused(Refusal::Unended));
    }
    match read_header(&row)? {
        Header::Lattice {
            kind,
            rows: high,
            cols: wide,
        } => read_lattice(alloc, rows, &mut row, kind, high, wide),
        Header::General { n } => read_general(alloc, rows, &mut row, n),
    }
}

/// Whether no record of a text is left.
///
/// # Errors
/// `Trailing` with the first of those that are left; those behind it are left then. `NoMemory`.
///
/// The time is linear in the bytes that are left, and the memory that of the longest record.
pub fn no_more(alloc: Global, rows: &mut Rows<'_>) -> Result<(), Fault>
    ensures none { OnOk result (rows.old ≡ []) }
    ensures left { OnOk result (rows.new ≡ []) }
    ensures fault { IfErr result (Fails (IsTrailing rows.old) rows.old rows.new) }
{
    let mut row = Row::new(alloc);
    if rows.next(&mut row)? {
        return Err(Fault::Refused(Refusal::Trailing { at: row.at() }));
    }
    Ok(())
}

/// What a reading gave, where it left no record.
///
/// # Errors
/// That of the reading; else those of `no_more`.
pub fn alone<T: Drop>(
    alloc: Global,
    given: Result<T, Fault>,
    rows: &mut Rows<'_>,
) -> Result<T, Fault>
    ensures value { IfOk result (λ x. given ≡ Ok x) }
    ensures none { OnOk result (rows.old ≡ []) }
    ensures left { OnOk result (rows.new ≡ []) }
    ensures fault { IfErr result (λ e. MatchResult given (λ x. Fails (IsTrailing rows.old) rows.old rows.new e)
        (λ why. (e ≡ why) × (rows.new ≡ rows.old))) }
{
    let value = given?;
    no_more(alloc, rows)?;
    Ok(value)
}
