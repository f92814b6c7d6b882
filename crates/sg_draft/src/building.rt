ghost use Rattle.std.specs.Prelude.{◌≡◌, ◌<◌, ◌≤◌, ◌^◌, [], None, All, IfErr, IfOk, IfSome, length, unwrap_or};
ghost use Rattle.sg_lattice.specs.Tables.{IsSize, bond_total, lattice};
ghost use Rattle.sg_model.specs.Faults.{IsRefusalOf, OrNoMemory};
ghost use Rattle.sg_model.specs.WellFormed.{IsInstance};
ghost use Rattle.sg_draft.specs.Bonds.{IsAmong, IsCoupling, first_self as first_self_of, self_fault};
ghost use Rattle.sg_draft.specs.Draft.{IsFirstFault, reseamed};

use super::numbers::Size;
use sg_lattice::{Kind, build};
use sg_model::{Bond, BondList, Bonds, Couplings, Fault, Instance, Refusal, Rotation};
use std::alloc::Global;

/// The lattice of a size with a coupling for each bond, and with another seam where one is given, in time
/// linear in the spins and the seam.
///
/// # Errors
/// `BadSeam` with the first entry of the seam that is not a bond or is listed earlier.
pub fn build_lattice(
    alloc: Global,
    kind: Kind,
    size: Size,
    couplings: Couplings,
    seam: Option<BondList>,
) -> Result<Instance, Fault>
    requires sound { IsSize kind size.rows size.cols }
    requires count { length couplings ≡ bond_total kind size.rows size.cols }
    requires sizes { All IsCoupling couplings }
    ensures ok { IfOk result (λ inst. inst ≡ reseamed seam (lattice kind size.rows size.cols couplings)) }
    ensures well_formed { IfOk result IsInstance }
    ensures refused { IfErr result (OrNoMemory (IsRefusalOf
        (reseamed seam (lattice kind size.rows size.cols couplings)))) }
{
    let inst = build(alloc, kind, size.rows, size.cols, couplings)?;
    match seam {
        Some(bonds) => inst.with_seam(bonds),
        None => Ok(inst),
    }
}

// The first bond between a spin and itself.
fn first_self(bonds: &[Bond]) -> Option<usize>
    ensures first { result ≡ first_self_of bonds.now }
    ensures below { IfSome result (λ k. k < length bonds.now) }
{
    for (k, bond) in bonds.iter().enumerate() {
        if bond.u == bond.v {
            return Some(k);
        }
    }
    None
}

/// The general instance of its parts, with an empty seam where none is given, in time linear in the bonds
/// and darts.
///
/// # Errors
/// `SelfBond` with the first bond between a spin and itself; then `BadRotation`, and then `BadSeam`.
pub fn build_general(
    alloc: Global,
    n: u32,
    bonds: Bonds,
    rotation: Rotation,
    seam: Option<BondList>,
) -> Result<Instance, Fault>
    requires has_spin { 1 ≤ n }
    requires few_spins { n ≤ 2 ^ 24 }
    requires few_bonds { length bonds ≤ 2 ^ 24 }
    requires among { All (IsAmong n) bonds }
    requires lists { length rotation ≡ n }
    ensures apart { IfOk result (λ inst. self_fault bonds ≡ None) }
    ensures ok { IfOk result
        (λ inst. inst ≡ record { n = n; bonds = bonds; rotation = rotation; seam = unwrap_or seam [] }) }
    ensures well_formed { IfOk result IsInstance }
    ensures refused { IfErr result (OrNoMemory (IsFirstFault (self_fault bonds)
        (record { n = n; bonds = bonds; rotation = rotation; seam = unwrap_or seam [] }))) }
{
    if let Some(k) = first_self(bonds.as_slice()) {
        return Err(Fault::Refused(Refusal::SelfBond { bond: k as u32 }));
    }
    let cut = seam.unwrap_or(BondList::new(alloc));
    Instance::new(alloc, n, bonds, rotation, cut)
}
