// Lattices by numbers. No number is trusted: each is tested, and the first fault is named.
ghost use Rattle.std.specs.Prelude.{◌≡◌, ◌≤◌, length, IfOk, IfErr};
ghost use Rattle.sg_base.specs.Limits.{large_spin_limit};
ghost use Rattle.sg_model.specs.Ising.{bond_count as bonds_in};
ghost use Rattle.sg_calls.specs.Lattices.{first_out as first_out_of, IsLattice, IsLatticeFault, kind_numbered};

use sg_draft::{
    Limits, Member, bad_member, check_coupling_count, check_entry, check_lattice_size, is_coupling,
};
use sg_lattice::{Kind, bond_count, build};
use sg_model::{Couplings, Fault, Instance};
use std::alloc::Global;

/// The lattice of these numbers, within the limits.
///
/// # Errors
/// The first that is wrong of the kind, the rows, the columns, the number of spins, the number of
/// couplings, and the values of the couplings.
pub fn lattice_of(
    alloc: Global,
    most: Limits,
    number: u8,
    rows: u32,
    cols: u32,
    couplings: &[i64],
) -> Result<Instance, Fault>
    requires { most.spins ≤ large_spin_limit }
    ensures gives { IfOk result (IsLattice most number rows cols couplings.now) }
    ensures count { IfOk result (λ inst. bonds_in inst ≡ length couplings.now) }
    ensures refuses { IfErr result (IsLatticeFault most number rows cols couplings.now) }
{
    let Some(kind) = kind_by(number) else {
        return Err(Fault::Refused(bad_member(Member::Kind)));
    };
    let size = check_lattice_size(most, kind, Some(u64::from(rows)), Some(u64::from(cols)))?;
    check_coupling_count(couplings.len(), bond_count(kind, size.rows, size.cols))?;
    check_entry(Member::Couplings, first_out(couplings))?;
    let list = Couplings::from_vec(Vec::from_slice(alloc, couplings)?);
    Ok(build(alloc, kind, size.rows, size.cols, list)?)
}

// The kind of this number.
fn kind_by(number: u8) -> Option<Kind>
    ensures { result ≡ kind_numbered number }
{
    match number {
        0 => Some(Kind::Square),
        1 => Some(Kind::Triangular),
        2 => Some(Kind::Hexagonal),
        3 => Some(Kind::Cylinder),
        _ => None,
    }
}

// The place of the first number that is no coupling.
fn first_out(couplings: &[i64]) -> Option<usize>
    ensures { result ≡ first_out_of couplings.now }
{
    couplings.iter().position(|number| !is_coupling(*number))
}
