// Instances that are fit for a planar solver, out of texts.
ghost use Rattle.std.specs.Prelude.{◌<◌, [], length, IfOk, IfErr};
ghost use Rattle.sg_base.specs.Limits.{text_limit};
ghost use Rattle.sg_model.specs.Faults.{OrNoMemory};
ghost use Rattle.sg_reader.specs.Kept.{kept_of};
ghost use Rattle.sg_reader.specs.ReadInstance.{ReadsInstance, RefusesInstance};
ghost use Rattle.sg_reader.specs.Ended.{RefusesAlone};
ghost use Rattle.sg_input.specs.Input.{GivesFit, GivesInstance, RefusesText};

use sg_json::{is_json, read_json};
use sg_model::{Fault, Instance};
use sg_planar::Planar;
use sg_reader::{Rows, alone, read_instance};
use std::alloc::Global;

/// The instance of a text within the limit of bytes, fit for a planar solver. The text is one JSON object
/// where it begins as one, and else a list of records.
///
/// # Errors
/// The first fault of the text, as `read_json` or `read_instance` names it; `Trailing` if a record follows
/// the `end`; then the first test of fitness that the instance fails. `NoMemory` may come at any time.
///
/// The time is linear in the bytes but for what `serde_json` takes, and the memory that of the instance with
/// its faces, and of the value of a JSON text.
pub fn read_planar(alloc: Global, bytes: &[u8]) -> Result<Planar, Fault>
    requires { length bytes.now < text_limit }
    ensures gives { IfOk result (λ planar. GivesFit bytes.now planar.instance) }
    ensures refuses { IfErr result (OrNoMemory (RefusesText bytes.now)) }
{
    match read_text(alloc, bytes) {
        Ok(instance) => Planar::test(alloc, instance),
        Err(fault) => Err(fault),
    }
}

// The instance of a text, which is one JSON object or a list of records, or its first fault.
fn read_text(alloc: Global, bytes: &[u8]) -> Result<Instance, Fault>
    requires { length bytes.now < text_limit }
    ensures gives { IfOk result (GivesInstance bytes.now) }
    ensures refuses { IfErr result (OrNoMemory (RefusesText bytes.now)) }
{
    if is_json(bytes) {
        read_json(alloc, bytes)
    } else {
        read_alone(alloc, bytes)
    }
}

// The instance of a text with nothing behind it, or the first fault of the records.
fn read_alone(alloc: Global, bytes: &[u8]) -> Result<Instance, Fault>
    requires { length bytes.now < text_limit }
    ensures gives { IfOk result (λ inst. ReadsInstance (kept_of bytes.now) inst []) }
    ensures refuses { IfErr result (OrNoMemory (RefusesAlone (ReadsInstance (kept_of bytes.now))
        (RefusesInstance (kept_of bytes.now)))) }
{
    let mut rows = Rows::new(alloc, bytes);
    let given = read_instance(alloc, &mut rows);
    alone(alloc, given, &mut rows)
}
