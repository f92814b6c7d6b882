// Records up to an `end`, whatever they are gathered in.
ghost use Rattle.std.specs.Prelude.{◌≡◌, List, [], false, IfErr, OnOk};
ghost use Rattle.sg_reader.specs.Body.{says_end};
ghost use Rattle.sg_reader.specs.Ended.{RefusesRecords, TestTable, Fails, HoldsSome, HoldsToEnd, RefusesNext, TakesNext};
ghost use Rattle.sg_reader.specs.Kept.{Kept};

use super::body::END;
use super::row::Row;
use super::rows::Rows;
use sg_model::{Fault, Refusal};
use std::alloc::Global;

/// What gathers the records in front of an `end`.
pub trait Gather {
    // The tests of the records from a value on.
    ghost tests: { Self → TestTable };

    // From the first value on the records gave the second.
    ghost holds: { Self → List Kept → Self → Type 0 };

    /// Takes a record that is not the `end`.
    ///
    /// # Errors
    /// The first of its tests that fails. `NoMemory`.
    fn take(&mut self, alloc: Global, row: &Row) -> Result<(), Fault>
        requires other { says_end row.now ≡ false }
        requires held { HoldsSome holds self.old }
        ensures taken { OnOk result (TakesNext tests holds self.old row.now self.new) }
        ensures fault { IfErr result (RefusesNext tests holds self.old row.now) };
}

/// Takes the records up to an `end`, which is then in `row`, and is not tested yet. Those behind it are
/// left.
///
/// # Errors
/// The refusal of the first record that fails a test, behind which the others are left; `Unended` where
/// the records run out. `NoMemory` may come at any time.
pub fn read_to_end<B: Gather>(
    alloc: Global,
    rows: &mut Rows<'_>,
    row: &mut Row,
    body: &mut B,
) -> Result<(), Fault>
    requires { B.holds body.old [] body.old }
    ensures ended { OnOk result (HoldsToEnd B.tests B.holds body.old rows.old body.new row.new rows.new) }
    ensures fault { IfErr result (Fails (RefusesRecords (B.tests body.old) rows.old) rows.old rows.new) }
{
    while rows.next(row)? {
        if row.begins(END) {
            return Ok(());
        }
        body.take(alloc, row)?;
    }
    Err(Fault::Refused(Refusal::Unended))
}
