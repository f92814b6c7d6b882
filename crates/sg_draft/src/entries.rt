ghost use Rattle.std.specs.Prelude.{◌≡◌, ◌↔◌, None, IfErr, IfOk, IsTrue, OnOk};
ghost use Rattle.sg_draft.specs.declared.read.Read.TheVariants.{Known as IsKnown};
ghost use Rattle.sg_draft.specs.Bonds.{IsCoupling, is_among as is_among_spins, is_coupling as is_coupling_number};
ghost use Rattle.sg_draft.specs.Reads.{member_fault, wrong_entry};

use super::member::{Member, bad_entry};
use super::read::Read;
use sg_model::{Bond, Refusal};

/// The test of a member, of which an entry may be wrong.
///
/// # Errors
/// `BadMember` with that entry.
pub fn check_entry(what: Member, wrong: Option<usize>) -> Result<(), Refusal>
    ensures passes { OnOk result (wrong ≡ None) }
    ensures refused { IfErr result (λ e. member_fault what wrong ≡ Some e) }
{
    match wrong {
        Some(entry) => Err(bad_entry(what, entry)),
        None => Ok(()),
    }
}

/// How many entries a list has, where none is wrong.
///
/// # Errors
/// `BadMember` with the wrong entry.
pub fn check_list(what: Member, list: Read<usize>) -> Result<usize, Refusal>
    ensures count { IfOk result (λ n. list ≡ IsKnown n) }
    ensures refused { IfErr result (λ e. member_fault what (wrong_entry list) ≡ Some e) }
{
    match list {
        Read::WrongAt(entry) => Err(bad_entry(what, entry)),
        Read::Known(entries) => Ok(entries),
    }
}

/// Whether a number is a coupling: it is not the least of 64 bits.
pub fn is_coupling(number: i64) -> bool
    ensures value { result ≡ is_coupling_number number }
    ensures meaning { IsTrue result ↔ IsCoupling number }
{
    number.unsigned_abs() < 1 << 63
}

/// Whether both ends of a bond are among `n` spins, and its number is a coupling.
pub fn is_among(n: u64, bond: Bond) -> bool
    ensures { result ≡ is_among_spins n bond }
{
    u64::from(bond.u) < n && u64::from(bond.v) < n && is_coupling(bond.j)
}
