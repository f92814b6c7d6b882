// Instances with stated proofs, out of texts.
ghost use Rattle.std.specs.Prelude.{◌<◌, length, IfOk, IfErr};
ghost use Rattle.sg_base.specs.Limits.{text_limit};
ghost use Rattle.sg_model.specs.Faults.{OrNoMemory};
ghost use Rattle.sg_input.specs.Input.{GivesProof, RefusesProof};

use sg_check::ResultText;
use sg_model::{Fault, Instance};
use sg_reader::{Rows, alone, read_instance, read_result};
use std::alloc::Global;

/// An instance, and what is stated as a proof of its least energy.
#[derive(Drop)]
pub struct StatedProof {
    pub instance: Instance,
    pub stated: ResultText,
}

/// The instance of a text within the limit of bytes, and what is stated behind it. The instance need not be
/// fit for a planar solver.
///
/// # Errors
/// The first fault of the records, as `read_instance` or `read_result` names it; `Trailing` where a record
/// follows the second `end`. `NoMemory` may come at any time.
///
/// The time is linear in the bytes, and the memory that of what is read and of the longest record.
pub fn read_proof(alloc: Global, bytes: &[u8]) -> Result<StatedProof, Fault>
    requires { length bytes.now < text_limit }
    ensures gives { IfOk result (λ r. GivesProof bytes.now r.instance r.stated) }
    ensures few_spins { IfOk result (λ r. length r.stated.spins < text_limit) }
    ensures few_loops { IfOk result (λ r. length r.stated.loops < text_limit) }
    ensures refuses { IfErr result (OrNoMemory (RefusesProof bytes.now)) }
{
    let mut rows = Rows::new(alloc, bytes);
    let instance = read_instance(alloc, &mut rows)?;
    let given = read_result(alloc, &mut rows);
    let stated = alone(alloc, given, &mut rows)?;
    Ok(StatedProof { instance, stated })
}
