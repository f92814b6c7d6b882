ghost use Rattle.std.specs.Prelude.{◌≡◌, ◌<◌, ◌^◌, ◌-ℤ◌, pos, IfOk, IfErr};
ghost use Rattle.sg_model.specs.Connected.{AreLeasts};
ghost use Rattle.sg_faces.specs.Faces.{IsFaceLabels};
ghost use Rattle.sg_faces.specs.Euler.{IsEuler};
ghost use Rattle.sg_planar.specs.Naming.{AreComponents};
ghost use Rattle.sg_planar.specs.Fit.{IsFit, IsUnfit};
ghost use Rattle.sg_model.specs.Faults.{OrNoMemory};

use super::{Components, NoMemory};
use sg_base::SUM_LIMIT;
use sg_faces::{Faces, trace};
use sg_model::{Fault, Instance, Refusal};
use std::alloc::Global;

fn difference(a: u64, b: u64) -> i64
    requires left { a < 2 ^ 33 }
    requires right { b < 2 ^ 33 }
    ensures { result ≡ pos a -ℤ pos b }
{
    a as i64 - b as i64
}

// Euler's number: spins minus bonds plus faces, and less two for each component but one.
fn euler_number(inst: &Instance, faces: &Faces, leasts: &[u32]) -> i64
    requires faces { IsFaceLabels inst.now faces.now }
    requires leasts { AreLeasts inst.now leasts.now }
    ensures { IsEuler inst.now result }
{
    let counted = u64::from(inst.n()) + u64::from(faces.count());
    let separations = leasts.len() as u64 - 1;
    let taken = inst.bonds().len() as u64 + 2 * separations;
    difference(counted, taken)
}

/// What an instance has by its drawing alone, whatever its couplings: its faces and its components.
#[derive(Drop)]
pub(crate) struct Drawing {
    pub(crate) faces: Faces,
    pub(crate) components: Components,
}

/// Tests the sum, then Euler's number, and gives the faces and components of an instance that passes.
pub(crate) fn judge(alloc: Global, inst: &Instance) -> Result<Drawing, Fault>
    ensures fit { IfOk result (λ _. IsFit inst.now) }
    ensures faces { IfOk result (λ d. IsFaceLabels inst.now d.faces) }
    ensures components { IfOk result (λ d. AreComponents inst.now d.components.names d.components.leasts) }
    ensures unfit { IfErr result (OrNoMemory (IsUnfit inst.now)) }
{
    let sum = inst.weight();
    if sum > SUM_LIMIT {
        return Err(Fault::Refused(Refusal::SumTooLarge { sum }));
    }
    let faces = trace(alloc, inst)?;
    let components = Components::find(alloc, inst)?;
    let euler = euler_number(inst, &faces, components.leasts.as_slice());
    if euler != 2 {
        return Err(Fault::Refused(Refusal::NotPlanar { euler }));
    }
    Ok(Drawing { faces, components })
}
