ghost use Rattle.std.specs.Prelude.{◌≡◌, ◌<◌, ◌≤◌, ◌∷◌, [], None, length, IfOk, IfErr};
ghost use Rattle.std.specs.List.{sum_by};
ghost use Rattle.sg_base.specs.Limits.{text_limit};
ghost use Rattle.sg_reader.specs.Body.{numbers_from};
ghost use Rattle.sg_reader.specs.Ended.{RefusesRecords, StatesToEnd, Fails};
ghost use Rattle.sg_reader.specs.Result.{HoldsLoops, energy_fault, loop_fault, stated_loop, loops_fault, result_fault, stated_loops, spins_fault, ReadsResult, RefusesResult};
ghost use Rattle.sg_reader.specs.Kept.{Kept};
ghost use Rattle.sg_draft.specs.Tests.{Refuses};
ghost use Rattle.sg_reader.specs.Tests.{number_in};
ghost use Rattle.sg_model.specs.Faults.{OrNoMemory};

use super::body::indices;
use super::ended::{Gather, read_to_end};
use super::range::Range;
use super::row::Row;
use super::rows::Rows;
use sg_check::{Loop, Loops, ResultText};
use sg_model::{Fault, Refusal, Spins};
use std::alloc::Global;

const ENERGY: &[u8] = b"energy";

const SPINS: &[u8] = b"spins";

const LOOP: &[u8] = b"loop";

// The energy of a record `energy,E`.
fn read_energy(row: &Row) -> Result<i64, Refusal>
    ensures passes { IfOk result (λ e. energy_fault row.now ≡ None) }
    ensures value { IfOk result (λ e. e ≡ number_in row.now 1) }
    ensures count { IfOk result (λ e. length row.now.fields ≡ 2) }
    ensures refused { IfErr result (λ e. energy_fault row.now ≡ Some e) }
{
    row.check_word(ENERGY)?;
    row.check_shape(2)?;
    row.number(1, Range::any_number())
}

// The values of a record `spins,S,S,..`.
fn read_spins(alloc: Global, row: &Row) -> Result<Spins, Fault>
    ensures passes { IfOk result (λ s. spins_fault row.now ≡ None) }
    ensures value { IfOk result (λ s. s ≡ numbers_from row.now 1) }
    ensures count { IfOk result (λ s. length s < length row.now.fields) }
    ensures fault { IfErr result (OrNoMemory (Refuses (spins_fault row.now))) }
{
    row.check_word(SPINS)?;
    let mut spins = Spins::new(alloc);
    for i in 1..row.len() {
        let value = row.spin(i)?;
        spins.push(value)?;
    }
    Ok(spins)
}

// The weight and the bonds of a record `loop,Y,B,B,..`.
fn read_loop(alloc: Global, row: &Row) -> Result<Loop, Fault>
    ensures passes { IfOk result (λ l. loop_fault row.now ≡ None) }
    ensures value { IfOk result (λ l. l ≡ stated_loop row.now) }
    ensures count { IfOk result (λ l. 1 < length row.now.fields) }
    ensures fault { IfErr result (OrNoMemory (Refuses (loop_fault row.now))) }
{
    row.check_word(LOOP)?;
    if row.len() == 1 {
        return Err(Fault::Refused(Refusal::BadShape { at: row.at() }));
    }
    let y = row.number(1, Range::any_number())?;
    let bonds = indices(alloc, row, 2)?;
    Ok(Loop { y, bonds })
}

// The energy, in the next record.
fn next_energy(rows: &mut Rows<'_>, row: &mut Row) -> Result<i64, Fault>
    ensures split { IfOk result (λ e. rows.old ≡ row.new ∷ rows.new) }
    ensures passes { IfOk result (λ e. energy_fault row.new ≡ None) }
    ensures value { IfOk result (λ e. e ≡ number_in row.new 1) }
    ensures fault { IfErr result (Fails (RefusesResult rows.old) rows.old rows.new) }
{
    if !rows.next(row)? {
        return Err(Fault::Refused(Refusal::Unended));
    }
    let energy = read_energy(row)?;
    Ok(energy)
}

// The spins, in the next record, which follows an energy.
fn next_spins(alloc: Global, rows: &mut Rows<'_>, row: &mut Row) -> Result<Spins, Fault>
    ensures split { IfOk result (λ s. rows.old ≡ row.new ∷ rows.new) }
    ensures passes { IfOk result (λ s. spins_fault row.new ≡ None) }
    ensures value { IfOk result (λ s. s ≡ numbers_from row.new 1) }
    ensures count { IfOk result (λ s. length s < text_limit) }
    ensures few { IfOk result (λ s. sum_by (λ r. length r.fields) rows.new ≤ text_limit) }
    ensures fault { IfErr result (λ e. (energy : Kept) →
        Fails (RefusesRecords (λ body. result_fault (energy ∷ body)) rows.old) rows.old rows.new e) }
{
    if !rows.next(row)? {
        return Err(Fault::Refused(Refusal::Unended));
    }
    read_spins(alloc, row)
}

/// The loops so far.
#[derive(Drop)]
pub(crate) struct LoopsBody {
    loops: Loops,
}

impl Gather for LoopsBody {
    ghost tests = { λ start. loops_fault };

    ghost holds = { HoldsLoops };

    fn take(&mut self, alloc: Global, row: &Row) -> Result<(), Fault> {
        let entry = read_loop(alloc, row)?;
        self.loops.push(entry)?;
        Ok(())
    }
}

// The loops up to the `end`.
fn read_loops(alloc: Global, rows: &mut Rows<'_>, row: &mut Row) -> Result<Loops, Fault>
    requires { sum_by (λ r. length r.fields) rows.old ≤ text_limit }
    ensures read { IfOk result (λ loops. StatesToEnd loops_fault stated_loops rows.old loops rows.new) }
    ensures few { IfOk result (λ loops. length loops < text_limit) }
    ensures fault { IfErr result (Fails (RefusesRecords loops_fault rows.old) rows.old rows.new) }
{
    let mut body = LoopsBody {
        loops: Loops::new(alloc),
    };
    read_to_end(alloc, rows, row, &mut body)?;
    row.check_shape(1)?;
    Ok(body.loops)
}

/// Reads a result from the records of a text. Those behind its `end` are left.
///
/// The records count as those of an instance do. The first is `energy,E`; the second is `spins,S,..`
/// with the value 1 or -1 of each spin; then come the loops, each `loop,Y,B,..` with its weight and
/// its bonds, and the `end`. What they say is not judged here.
///
/// # Errors
/// The refusal of the first record that fails a test, and of its tests the first that fails:
/// `UnknownKind` for another word than may appear in its place; `BadShape` for an energy without
/// its one number, a loop without a weight, an `end` with a number; `BadNumber`. What follows that
/// record is left. `Unended` where the records run out. `NoMemory` may come at any time, and some
/// records are left then, perhaps none.
///
/// The time is linear in the bytes, and the memory is that of the result and of the longest record.
pub fn read_result(alloc: Global, rows: &mut Rows<'_>) -> Result<ResultText, Fault>
    ensures read { IfOk result (λ text. ReadsResult rows.old text rows.new) }
    ensures few_spins { IfOk result (λ text. length text.spins < text_limit) }
    ensures few_loops { IfOk result (λ text. length text.loops < text_limit) }
    ensures fault { IfErr result (Fails (RefusesResult rows.old) rows.old rows.new) }
{
    let mut row = Row::new(alloc);
    let energy = next_energy(rows, &mut row)?;
    let spins = next_spins(alloc, rows, &mut row)?;
    let loops = read_loops(alloc, rows, &mut row)?;
    Ok(ResultText {
        energy,
        spins,
        loops,
    })
}
