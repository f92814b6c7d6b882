ghost use Rattle.std.specs.Prelude.{◌≡◌, ◌≤◌, IfOk, IfErr};
ghost use Rattle.serde_json.specs.View.{view};
ghost use Rattle.sg_base.specs.Limits.{bond_limit, spin_limit};
ghost use Rattle.sg_model.specs.Faults.{OrNoMemory};
ghost use Rattle.sg_model.specs.Ising.{bond_count as count_of};
ghost use Rattle.sg_draft.specs.Draft.{IsDraftRefusal, IsDrafted, OfGeneral, OfLattice};
ghost use Rattle.sg_draft.specs.Limits.{program_limits};
ghost use Rattle.sg_json.specs.Members.{general_draft, lattice_draft};

use super::build::{bonds, couplings, rotation, seam};
use super::entry::{Entry, wrong_list, wrong_rotation, wrong_seam};
use super::value::{items_at, list_member, size_member};
use serde_json::Value;
use sg_draft::{Limits, build_general, build_lattice, check_general, check_lattice, unless};
use sg_lattice::Kind;
use sg_model::{Fault, Instance};
use std::alloc::Global;

/// The lattice of a kind that the members give.
///
/// # Errors
/// The first fault of their draft.
pub(crate) fn read_lattice(alloc: Global, value: &Value, kind: Kind) -> Result<Instance, Fault>
    ensures gives { IfOk result (IsDrafted program_limits (OfLattice (lattice_draft kind (view value.now)))) }
    ensures few_spins { IfOk result (λ inst. inst.n ≤ spin_limit) }
    ensures few_bonds { IfOk result (λ inst. count_of inst ≤ bond_limit) }
    ensures fault { IfErr result (OrNoMemory
        (IsDraftRefusal program_limits (OfLattice (lattice_draft kind (view value.now))))) }
{
    let items = items_at(value, "couplings");
    let wrong = wrong_list(list_member(value, "couplings"), Entry::Coupling);
    let size = check_lattice(
        Limits::of_program(),
        kind,
        size_member(value, "rows"),
        size_member(value, "cols"),
        unless(wrong, items.len()),
        wrong_seam(value),
    )?;
    let list = couplings(alloc, items)?;
    let cut = seam(alloc, value)?;
    build_lattice(alloc, kind, size, list, cut)
}

/// The general instance that the members give.
///
/// # Errors
/// The first fault of their draft.
pub(crate) fn read_general(alloc: Global, value: &Value) -> Result<Instance, Fault>
    ensures gives { IfOk result (IsDrafted program_limits (OfGeneral (general_draft (view value.now)))) }
    ensures few_spins { IfOk result (λ inst. inst.n ≤ spin_limit) }
    ensures few_bonds { IfOk result (λ inst. count_of inst ≤ bond_limit) }
    ensures fault { IfErr result (OrNoMemory (IsDraftRefusal program_limits (OfGeneral (general_draft (view value.now))))) }
{
    let spins = size_member(value, "n");
    let count = spins.unwrap_or(0);
    let items = items_at(value, "bonds");
    let wrong = wrong_list(list_member(value, "bonds"), Entry::Bond { n: count });
    let n = check_general(
        Limits::of_program(),
        spins,
        unless(wrong, items.len()),
        wrong_rotation(list_member(value, "rotation"), count),
        wrong_seam(value),
    )?;
    let joined = bonds(alloc, items)?;
    let darts = rotation(alloc, items_at(value, "rotation"))?;
    let cut = seam(alloc, value)?;
    build_general(alloc, n, joined, darts, cut)
}
