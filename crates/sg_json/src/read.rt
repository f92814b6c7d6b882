ghost use Rattle.std.specs.Prelude.{◌≤◌, IfOk, IfErr};
ghost use Rattle.serde_json.specs.View.{view};
ghost use Rattle.sg_base.specs.Limits.{bond_limit, spin_limit};
ghost use Rattle.sg_model.specs.Faults.{OrNoMemory};
ghost use Rattle.sg_model.specs.Ising.{bond_count as count_of};
ghost use Rattle.sg_model.specs.WellFormed.{IsInstance};
ghost use Rattle.sg_draft.specs.Draft.{IsDraftRefusal, IsDrafted};
ghost use Rattle.sg_draft.specs.Limits.{program_limits};
ghost use Rattle.sg_json.specs.Members.{draft_of};
ghost use Rattle.sg_json.specs.ReadJson.{Gives, ReadsJson, RefusesData, RefusesJson};

use super::form::{form_member, has_known_names};
use super::members::{read_general, read_lattice};
use serde_json::Value;
use sg_base::JSON_LIMIT;
use sg_draft::{Member, bad_member};
use sg_model::{Fault, Instance, Refusal};
use sg_reader::{Form, without_marks};
use std::alloc::Global;

// The instance of a form that the members give.
fn read_form(alloc: Global, value: &Value, form: Form) -> Result<Instance, Fault>
    ensures gives { IfOk result (IsDrafted program_limits (draft_of form (view value.now))) }
    ensures few_spins { IfOk result (λ inst. inst.n ≤ spin_limit) }
    ensures few_bonds { IfOk result (λ inst. count_of inst ≤ bond_limit) }
    ensures fault { IfErr result (OrNoMemory (IsDraftRefusal program_limits (draft_of form (view value.now)))) }
{
    match form {
        Form::Lattice(kind) => read_lattice(alloc, value, kind),
        Form::General => read_general(alloc, value),
    }
}

// The instance of a value.
fn read_value(alloc: Global, value: &Value) -> Result<Instance, Fault>
    ensures gives { IfOk result (Gives (view value.now)) }
    ensures few_spins { IfOk result (λ inst. inst.n ≤ spin_limit) }
    ensures few_bonds { IfOk result (λ inst. count_of inst ≤ bond_limit) }
    ensures fault { IfErr result (OrNoMemory (RefusesData (view value.now))) }
{
    let Some(form) = form_member(value) else {
        return Err(Fault::Refused(bad_member(Member::Kind)));
    };
    if !has_known_names(value, form) {
        return Err(Fault::Refused(bad_member(Member::Names)));
    }
    read_form(alloc, value, form)
}

/// Reads the instance that an input stands for as one JSON object.
///
/// Byte-order marks at the front are passed over. If a member is repeated, the last one counts. A
/// whole number is one that `serde_json` reads as such, from -9223372036854775807 to
/// 9223372036854775807; `1.0`, `1e2` and `-0` are none.
///
/// - `kind` is one of the words `square`, `triangular`, `hexagonal`, `cylinder` and `general`.
/// - A lattice has `rows`, `cols` and the list `couplings`, in the order of its bonds.
/// - A general instance has `n`, the list `bonds` of lists of two spins and a coupling, and the list
///   `rotation` with the list of the darts of each spin, in cyclic order.
/// - `seam` may give the bonds of the seam. No other member may appear.
///
/// # Errors
/// The refusal of the first test that fails, in this order: `JsonTooLong` above 67108864 bytes;
/// `BadJson` where the bytes are no value to `serde_json`; `BadMember` for the kind, for a name that
/// does not belong, for the rows, the columns and the number of spins; `TooManySpins`; `BadMember`
/// for the couplings, the bonds, the rotation and the seam; `TooManyBonds`, `SelfBond`,
/// `CouplingCount`, `BadRotation`, `BadSeam`. `NoMemory` may come at any time.
///
/// The time is that of `serde_json` and linear in the bytes, and the memory is that of the value and
/// of the instance.
pub fn read_json(alloc: Global, bytes: &[u8]) -> Result<Instance, Fault>
    ensures read { IfOk result (ReadsJson bytes.now) }
    ensures instance { IfOk result IsInstance }
    ensures few_spins { IfOk result (λ inst. inst.n ≤ spin_limit) }
    ensures few_bonds { IfOk result (λ inst. count_of inst ≤ bond_limit) }
    ensures fault { IfErr result (OrNoMemory (RefusesJson bytes.now)) }
{
    if bytes.len() > JSON_LIMIT {
        return Err(Fault::Refused(Refusal::JsonTooLong {
            limit: JSON_LIMIT as u64,
        }));
    }
    match Value::from_slice(alloc, without_marks(bytes)) {
        Ok(value) => read_value(alloc, &value),
        Err(e) => if e.is_memory() {
            Err(Fault::NoMemory)
        } else {
            Err(Fault::Refused(Refusal::BadJson))
        },
    }
}
