ghost use Rattle.std.specs.Prelude.{◌≡◌, ◌<◌, ◌≤◌, ◌*◌, ◌^◌, None, Some, IfErr, IfOk, IfSome, OnOk, is_some};
ghost use Rattle.sg_base.specs.Limits.{large_bond_limit, large_spin_limit};
ghost use Rattle.sg_lattice.specs.Tables.{IsSize};
ghost use Rattle.sg_draft.specs.Numbers.{bond_count_fault, coupling_count_fault, is_number_from as is_number_from_least, lattice_size_fault, many_spins_fault, spin_count_fault};

use super::limits::Limits;
use super::member::{Member, bad_member};
use sg_lattice::{Kind, least_cols};
use sg_model::Refusal;

/// Rows and columns of a lattice.
#[derive(Clone, Copy)]
pub struct Size {
    pub rows: u32,
    pub cols: u32,
}

// The number, if it is at least so large.
fn at_least(least: u32, size: Option<u64>) -> Option<u64>
    ensures value { IfSome result (λ n. size ≡ Some n) }
    ensures large { IfSome result (λ n. least ≤ n) }
    ensures test { is_number_from_least least size ≡ is_some result }
{
    let number = size?;
    if number >= u64::from(least) {
        Some(number)
    } else {
        None
    }
}

/// The test of how many spins there are.
///
/// # Errors
/// `TooManySpins`.
pub fn check_spins(most: Limits, n: u128) -> Result<(), Refusal>
    requires { n < 2 ^ 127 }
    ensures few { OnOk result (n ≤ most.spins) }
    ensures passes { OnOk result (many_spins_fault most n ≡ None) }
    ensures refused { IfErr result (λ e. many_spins_fault most n ≡ Some e) }
{
    if n > u128::from(most.spins) {
        return Err(Refusal::TooManySpins { n: n as i128 });
    }
    Ok(())
}

/// The size of a lattice, of which either number may be missing.
///
/// # Errors
/// In this order: `BadMember` for the rows, for the columns, and `TooManySpins`.
pub fn check_lattice_size(
    most: Limits,
    kind: Kind,
    rows: Option<u64>,
    cols: Option<u64>,
) -> Result<Size, Refusal>
    requires room { most.spins ≤ large_spin_limit }
    requires rows { IfSome rows (λ n. n < 2 ^ 63) }
    requires cols { IfSome cols (λ n. n < 2 ^ 63) }
    ensures passes { IfOk result (λ s. lattice_size_fault most kind rows cols ≡ None) }
    ensures rows_are { IfOk result (λ s. rows ≡ Some s.rows) }
    ensures cols_are { IfOk result (λ s. cols ≡ Some s.cols) }
    ensures sound { IfOk result (λ s. IsSize kind s.rows s.cols) }
    ensures few { IfOk result (λ s. s.rows * s.cols ≤ most.spins) }
    ensures refused { IfErr result (λ e. lattice_size_fault most kind rows cols ≡ Some e) }
{
    let Some(r) = at_least(1, rows) else {
        return Err(bad_member(Member::Rows));
    };
    let Some(c) = at_least(least_cols(kind), cols) else {
        return Err(bad_member(Member::Cols));
    };
    check_spins(most, u128::from(r) * u128::from(c))?;
    Ok(Size {
        rows: r as u32,
        cols: c as u32,
    })
}

/// The number of spins of a general instance, which may be missing.
///
/// # Errors
/// `BadMember`, and then `TooManySpins`.
pub fn check_spin_count(most: Limits, spins: Option<u64>) -> Result<u32, Refusal>
    ensures passes { IfOk result (λ n. spin_count_fault most spins ≡ None) }
    ensures value { IfOk result (λ n. spins ≡ Some n) }
    ensures some { IfOk result (λ n. 1 ≤ n) }
    ensures few { IfOk result (λ n. n ≤ most.spins) }
    ensures refused { IfErr result (λ e. spin_count_fault most spins ≡ Some e) }
{
    let Some(n) = at_least(1, spins) else {
        return Err(bad_member(Member::SpinCount));
    };
    check_spins(most, u128::from(n))?;
    Ok(n as u32)
}

/// The test of the number of couplings of a lattice with `wanted` bonds.
///
/// # Errors
/// `CouplingCount`, which tells up to 4294967295 of them.
pub fn check_coupling_count(found: usize, wanted: u32) -> Result<(), Refusal>
    ensures count { OnOk result (found ≡ wanted) }
    ensures passes { OnOk result (coupling_count_fault found wanted ≡ None) }
    ensures refused { IfErr result (λ e. coupling_count_fault found wanted ≡ Some e) }
{
    if found != wanted as usize {
        return Err(Refusal::CouplingCount {
            found: found.min(u32::MAX as usize) as u32,
            wanted,
        });
    }
    Ok(())
}

/// The test of the number of bonds of a general instance.
///
/// # Errors
/// `TooManyBonds`.
pub fn check_bond_count(most: Limits, bonds: usize) -> Result<(), Refusal>
    requires { most.bonds ≤ large_bond_limit }
    ensures few { OnOk result (bonds ≤ most.bonds) }
    ensures passes { OnOk result (bond_count_fault most bonds ≡ None) }
    ensures refused { IfErr result (λ e. bond_count_fault most bonds ≡ Some e) }
{
    if bonds > most.bonds as usize {
        return Err(Refusal::TooManyBonds { m: most.bonds + 1 });
    }
    Ok(())
}
