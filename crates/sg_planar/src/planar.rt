ghost use Rattle.std.specs.Prelude.{◌≡◌, ◌↔◌, ◌<◌, ◌≤◌, IsTrue, length, IfOk, IfErr};
ghost use Rattle.sg_base.specs.Limits.{forced_limit};
ghost use Rattle.sg_model.specs.Ising.{bond_count};
ghost use Rattle.sg_model.specs.Energy.{weight};
ghost use Rattle.sg_model.specs.Changes.{negated, with_coupling, with_couplings, with_seam_flipped};
ghost use Rattle.sg_model.specs.Connected.{IsConnected};
ghost use Rattle.sg_planar.specs.Naming.{AreComponents};
ghost use Rattle.sg_planar.specs.Fit.{IsFit, IsPlanar, IsRedrawn, IsUnfit};
ghost use Rattle.sg_model.specs.Faults.{OrNoMemory};

use super::fitness::{Drawing, judge};
use super::{Components, NoMemory};
use sg_faces::Faces;
use sg_model::{Couplings, Fault, Instance};
use std::alloc::Global;
use std::marker::Model;

/// An instance, each component of which is drawn on a sphere, with its faces and its components. The
/// sum of the couplings' sizes is at most 2^45 + 1.
pub struct Planar {
    instance: Instance,
    faces: Faces,
    components: Components,
}

// An explicit `Drop`: otherwise every early return of an owner drops each list, and the prover pays for each.
impl Drop for Planar {
    fn drop(self) {
        let Planar {
            instance: _instance,
            faces: _faces,
            components: _components,
        } = self;
    }
}

impl Model for Planar {
    ghost use Rattle.sg_planar.specs.Naming.{AreComponents};
    ghost use Rattle.sg_planar.specs.Fit.{Embedding, IsPlanar};

    ghost Value = { Embedding };

    ghost view = { λ p. record { instance = p.instance; faces = p.faces } };

    ghost invariant = { λ p. IsPlanar (record { instance = p.instance; faces = p.faces })
        × AreComponents p.instance p.components.names p.components.leasts };
}

/// Why an instance is not fit, and the instance as it was given.
#[derive(Drop)]
pub struct NotFit {
    pub fault: Fault,
    pub instance: Instance,
}

impl Planar {
    /// Tests an instance, in time linear in the spins and bonds.
    ///
    /// # Errors
    /// `SumTooLarge` where the sum of the couplings' sizes is above `SUM_LIMIT`; then `NotPlanar` with
    /// Euler's number where it is not 2. The instance is returned with every fault.
    pub fn new(alloc: Global, instance: Instance) -> Result<Planar, NotFit>
        ensures instance { IfOk result (λ p. p.instance ≡ instance) }
        ensures fit { IfOk result (λ _. IsFit instance) }
        ensures planar { IfOk result IsPlanar }
        ensures handed_back { IfErr result (λ e. e.instance ≡ instance) }
        ensures unfit { IfErr result (λ e. OrNoMemory (IsUnfit instance) e.fault) }
    {
        match judge(alloc, &instance) {
            Ok(drawing) => {
                let Drawing { faces, components } = drawing;
                Ok(Planar {
                    instance,
                    faces,
                    components,
                })
            }
            Err(fault) => Err(NotFit { fault, instance }),
        }
    }

    /// Tests an instance as `new` does, for a caller that does not need it back.
    pub fn test(alloc: Global, instance: Instance) -> Result<Planar, Fault>
        ensures instance { IfOk result (λ p. p.instance ≡ instance) }
        ensures fit { IfOk result (λ _. IsFit instance) }
        ensures planar { IfOk result IsPlanar }
        ensures unfit { IfErr result (OrNoMemory (IsUnfit instance)) }
    {
        match Planar::new(alloc, instance) {
            Ok(planar) => Ok(planar),
            Err(NotFit { fault, instance: _ }) => Err(fault),
        }
    }

    /// The planar instance of these three, which make one.
    pub(crate) fn of(instance: Instance, faces: Faces, components: Components) -> Planar
        requires planar { IsPlanar (record { instance = instance; faces = faces }) }
        requires components { AreComponents instance components.names components.leasts }
        ensures { result ≡ record { instance = instance; faces = faces } }
    {
        Planar {
            instance,
            faces,
            components,
        }
    }

    /// The instance.
    pub fn instance(&self) -> &Instance
        ensures value { result.now ≡ self.now.instance }
        ensures planar { IsPlanar self.now }
    {
        &self.instance
    }

    /// The faces of the instance.
    pub fn faces(&self) -> &Faces
        ensures value { result.now ≡ self.now.faces }
        ensures planar { IsPlanar self.now }
    {
        &self.faces
    }

    /// The components of the instance.
    pub fn components(&self) -> &Components
        ensures components { AreComponents self.now.instance result.now.names result.now.leasts }
        ensures planar { IsPlanar self.now }
    {
        &self.components
    }

    /// Whether the instance is one component. It takes the same time for every instance.
    pub fn is_connected(&self) -> bool
        ensures { IsTrue result ↔ IsConnected self.now.instance }
    {
        self.components.leasts.len() == 1
    }

    /// The same drawing with these couplings, in the order of the bonds, in time linear in the bonds.
    /// It does not allocate: the rotation, the faces and the components are moved, and not copied.
    pub fn with_couplings(self, couplings: &Couplings) -> Planar
        requires count { length couplings.now ≡ bond_count self.instance }
        requires sum { weight (with_couplings self.instance couplings.now) ≤ forced_limit }
        ensures value { result ≡ record {
          instance = with_couplings self.instance couplings.now;
          faces = self.faces;
        } }
        ensures planar { IsPlanar result }
    {
        let Planar {
            instance,
            faces,
            components,
        } = self;
        Planar {
            instance: instance.with_couplings(couplings),
            faces,
            components,
        }
    }

    /// A copy with the sign of the coupling changed on each bond of the seam. The faces stay.
    pub fn flip_seam(&self) -> Result<Planar, NoMemory>
        ensures copy { IfOk result (λ copy.
            copy ≡ record { instance = with_seam_flipped self.now.instance; faces = self.now.faces }) }
        ensures planar { IfOk result IsPlanar }
    {
        let instance = self.instance().flip_seam()?;
        self.drawn_with(instance)
    }

    /// A copy in which the sign of every coupling is changed. The faces stay.
    pub fn negated(&self) -> Result<Planar, NoMemory>
        ensures copy { IfOk result (λ copy.
            copy ≡ record { instance = negated self.now.instance; faces = self.now.faces }) }
        ensures planar { IfOk result IsPlanar }
    {
        let instance = self.instance().negated()?;
        self.drawn_with(instance)
    }

    /// A copy in which one bond has the coupling `j`. The faces stay. The sum of the couplings' sizes
    /// may pass `SUM_LIMIT`, up to 2^45 + 1.
    pub fn with_coupling(&self, bond: u32, j: i64) -> Result<Planar, NoMemory>
        requires bond_in { bond < bond_count self.now.instance }
        requires sum { weight (with_coupling self.now.instance bond j) ≤ forced_limit }
        ensures copy { IfOk result (λ copy.
            copy ≡ record {
              instance = with_coupling self.now.instance bond j;
              faces = self.now.faces;
            }) }
        ensures planar { IfOk result IsPlanar }
    {
        let instance = self.instance().with_coupling(bond, j)?;
        self.drawn_with(instance)
    }

    // A copy of the faces and the components.
    fn drawing(&self) -> Result<Drawing, NoMemory>
        ensures faces { IfOk result (λ copy. copy.faces ≡ self.now.faces) }
        ensures components { IfOk result (λ copy.
            AreComponents self.now.instance copy.components.names copy.components.leasts) }
        ensures planar { IsPlanar self.now }
    {
        let faces = self.faces.clone()?;
        let components = self.components.clone()?;
        Ok(Drawing { faces, components })
    }

    // A copy of the drawing, with an instance that differs from this one in couplings alone.
    fn drawn_with(&self, instance: Instance) -> Result<Planar, NoMemory>
        requires { IsRedrawn self.now.instance instance }
        ensures copy { IfOk result (λ copy. copy ≡ record { instance = instance; faces = self.now.faces }) }
        ensures planar { IfOk result IsPlanar }
    {
        let drawing = self.drawing()?;
        let Drawing { faces, components } = drawing;
        Ok(Planar {
            instance,
            faces,
            components,
        })
    }
}
