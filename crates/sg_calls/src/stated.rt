// What a caller states as a proof, by numbers. No number is trusted.
ghost use Rattle.std.specs.Prelude.{◌≡◌, ◌≤◌, length, true, None, Some, IfOk, IfErr, OnOk};
ghost use Rattle.sg_base.specs.Limits.{input_limit};
ghost use Rattle.sg_model.specs.Spins.{IsUpOrDown};
ghost use Rattle.sg_reader.specs.Result.{is_spin_value};
ghost use Rattle.sg_draft.specs.Tests.{Refuses};
ghost use Rattle.sg_calls.specs.Proofs.{AreRows, loop_lists, given_loops_fault, loops_of, stated_fault, States, values_fault};
ghost use Rattle.sg_calls.specs.Crossing.{DividesEntries};
ghost use Rattle.sg_model.specs.Faults.{OrNoMemory};

use super::starts::{entries_at, wrong_start};
use sg_base::INPUT_LIMIT;
use sg_check::{Loop, Loops, ResultText};
use sg_draft::{Member, bad_entry, check_entry};
use sg_model::{BondList, Fault, Refusal, Spins};
use std::alloc::{AllocError, Global};

/// Loops as a caller gives them: for each its weight, and the place of its first bond with the number of
/// all behind them; and the bonds of all loops.
#[derive(Drop)]
pub struct GivenLoops<'a> {
    pub weights: &'a [i64],
    pub starts: &'a [usize],
    pub bonds: &'a [u32],
}

/// The energy, the spins and the loops that these numbers state. Whether they are a proof is not asked.
///
/// # Errors
/// The first that is wrong: `TooLong` where there are more spins than a text may have bytes,
/// `BadMember` for a value that is no spin, `TooLong` for the loops, and `BadMember` for their starts.
pub fn stated_by(
    alloc: Global,
    energy: i64,
    spins: &[i8],
    given: &GivenLoops,
) -> Result<ResultText, Fault>
    ensures states { IfOk result (States energy spins.now (loops_of given.now)) }
    ensures few_spins { IfOk result (λ stated. length stated.spins ≤ input_limit) }
    ensures few_loops { IfOk result (λ stated. length stated.loops ≤ input_limit) }
    ensures refuses { IfErr result (OrNoMemory (Refuses (stated_fault spins.now (loops_of given.now)))) }
{
    let spins = spins_by(alloc, spins)?;
    check_loops(given)?;
    let loops = loops_by(alloc, given.weights, given.starts, given.bonds)?;
    Ok(ResultText {
        energy,
        spins,
        loops,
    })
}

/// The spins of these values.
pub fn spins_by(alloc: Global, values: &[i8]) -> Result<Spins, Fault>
    ensures value { IfOk result (λ spins. spins ≡ values.now) }
    ensures few { IfOk result (λ spins. length spins ≤ input_limit) }
    ensures passes { IfOk result (λ _. values_fault values.now ≡ None) }
    ensures refuses { IfErr result (OrNoMemory (Refuses (values_fault values.now))) }
{
    if values.len() > INPUT_LIMIT {
        return Err(Fault::Refused(Refusal::TooLong {
            limit: INPUT_LIMIT as u64,
        }));
    }
    let mut spins = Spins::new(alloc);
    for k in 0..values.len() {
        if !is_spin(&values[k]) {
            return Err(Fault::Refused(bad_entry(Member::Spins, k)));
        }
        spins.push(values[k])?;
    }
    Ok(spins)
}

// Whether a value is one of a spin, 1 or -1.
fn is_spin(number: &i8) -> bool
    ensures value { result ≡ is_spin_value (Some number.now) }
    ensures up_or_down { result ≡ true → IsUpOrDown number.now }
{
    number.unsigned_abs() == 1
}

// The tests of loops.
fn check_loops(given: &GivenLoops) -> Result<(), Refusal>
    ensures few { OnOk result (length given.now.weights.now ≤ input_limit) }
    ensures division { OnOk result (DividesEntries given.now.starts.now (length given.now.weights.now) (length given.now.bonds.now)) }
    ensures passes { OnOk result (given_loops_fault (loops_of given.now) ≡ None) }
    ensures refuses { IfErr result (λ e. given_loops_fault (loops_of given.now) ≡ Some e) }
{
    let count = given.weights.len();
    if count > INPUT_LIMIT {
        return Err(Refusal::TooLong {
            limit: INPUT_LIMIT as u64,
        });
    }
    check_entry(
        Member::Loops,
        wrong_start(given.starts, count, given.bonds.len()),
    )
}

// The loops of these rows.
fn loops_by(
    alloc: Global,
    weights: &[i64],
    starts: &[usize],
    bonds: &[u32],
) -> Result<Loops, AllocError>
    requires { DividesEntries starts.now (length weights.now) (length bonds.now) }
    ensures rows { IfOk result (AreRows (loop_lists weights.now starts.now bonds.now)) }
    ensures count { IfOk result (λ loops. length loops ≡ length weights.now) }
{
    let mut loops = Loops::new(alloc);
    for k in 0..weights.len() {
        let own = Vec::from_slice(alloc, entries_at(starts, bonds, k))?;
        loops.push(Loop {
            y: weights[k],
            bonds: BondList::from_vec(own),
        })?;
    }
    Ok(loops)
}
