ghost use Rattle.std.specs.Prelude.{◌≡◌, ◌<◌, ◌≤◌, ◌*◌, ◌^◌, None, Some, IfErr, IfOk, IfSome};
ghost use Rattle.sg_base.specs.Limits.{large_bond_limit, large_spin_limit};
ghost use Rattle.sg_lattice.specs.Tables.{IsSize, bond_total};
ghost use Rattle.sg_draft.specs.declared.read.Read.TheVariants.{Known as IsKnown};
ghost use Rattle.sg_draft.specs.Draft.{general_draft_fault, lattice_draft_fault};
ghost use Rattle.sg_draft.specs.Reads.{value_or};

use super::entries::{check_entry, check_list};
use super::limits::Limits;
use super::member::Member;
use super::numbers::{
    Size, check_bond_count, check_coupling_count, check_lattice_size, check_spin_count,
};
use super::read::Read;
use sg_lattice::{Kind, bond_count};
use sg_model::Refusal;

/// The size of a lattice that passes its tests: its rows and columns, where they are given; how many
/// couplings there are, or the one that is wrong; and the entry of the seam that is wrong, if one is. It
/// does not allocate.
///
/// # Errors
/// The first that fails: `BadMember` for the rows and for the columns, `TooManySpins`, `BadMember` for the
/// couplings and for the seam, `CouplingCount`.
pub fn check_lattice(
    most: Limits,
    kind: Kind,
    rows: Option<u64>,
    cols: Option<u64>,
    couplings: Read<usize>,
    wrong_seam: Option<usize>,
) -> Result<Size, Refusal>
    requires room { most.spins ≤ large_spin_limit }
    requires rows { IfSome rows (λ n. n < 2 ^ 63) }
    requires cols { IfSome cols (λ n. n < 2 ^ 63) }
    ensures passes { IfOk result (λ s. lattice_draft_fault most kind rows cols couplings wrong_seam ≡ None) }
    ensures rows_are { IfOk result (λ s. rows ≡ Some s.rows) }
    ensures cols_are { IfOk result (λ s. cols ≡ Some s.cols) }
    ensures couplings_are { IfOk result (λ s. couplings ≡ IsKnown (bond_total kind s.rows s.cols)) }
    ensures seam_is { IfOk result (λ s. wrong_seam ≡ None) }
    ensures sound { IfOk result (λ s. IsSize kind s.rows s.cols) }
    ensures few { IfOk result (λ s. s.rows * s.cols ≤ most.spins) }
    ensures refused { IfErr result (λ e. lattice_draft_fault most kind rows cols couplings wrong_seam ≡ Some e) }
{
    let size = check_lattice_size(most, kind, rows, cols)?;
    let found = check_list(Member::Couplings, couplings)?;
    check_entry(Member::Seam, wrong_seam)?;
    check_coupling_count(found, bond_count(kind, size.rows, size.cols))?;
    Ok(size)
}

/// The number of spins of a general instance that passes the tests in front of those of each bond: its
/// number of spins, where it is given; how many bonds there are, or the one that is wrong; and the entries
/// of the rotation and of the seam that are wrong. It does not allocate.
///
/// # Errors
/// The first that fails: `BadMember` for the number of spins, `TooManySpins`, `BadMember` for the bonds, for
/// the rotation and for the seam, `TooManyBonds`.
pub fn check_general(
    most: Limits,
    spins: Option<u64>,
    bonds: Read<usize>,
    wrong_rotation: Option<usize>,
    wrong_seam: Option<usize>,
) -> Result<u32, Refusal>
    requires { most.bonds ≤ large_bond_limit }
    ensures passes { IfOk result (λ n. general_draft_fault most spins bonds wrong_rotation wrong_seam ≡ None) }
    ensures spins_are { IfOk result (λ n. spins ≡ Some n) }
    ensures bonds_are { IfOk result (λ n. bonds ≡ IsKnown (value_or 0 bonds)) }
    ensures rotation_is { IfOk result (λ n. wrong_rotation ≡ None) }
    ensures seam_is { IfOk result (λ n. wrong_seam ≡ None) }
    ensures some { IfOk result (λ n. 1 ≤ n) }
    ensures few_spins { IfOk result (λ n. n ≤ most.spins) }
    ensures few_bonds { IfOk result (λ n. value_or 0 bonds ≤ most.bonds) }
    ensures refused { IfErr result (λ e. general_draft_fault most spins bonds wrong_rotation wrong_seam ≡ Some e) }
{
    let n = check_spin_count(most, spins)?;
    let found = check_list(Member::Bonds, bonds)?;
    check_entry(Member::Rotation, wrong_rotation)?;
    check_entry(Member::Seam, wrong_seam)?;
    check_bond_count(most, found)?;
    Ok(n)
}
