ghost use Rattle.std.specs.Prelude.{◌≡◌, IfOk};
ghost use Rattle.sg_model.specs.Connected.{IsConnected};
ghost use Rattle.sg_planar.specs.Naming.{AreComponents};

use super::NoMemory;
use super::naming::{names, own_names};
use sg_base::Numbers;
use sg_model::Instance;
use std::alloc::Global;

/// The components of an instance: a component is what one spin reaches over all bonds.
#[derive(Clone, Drop)]
pub struct Components {
    /// For each spin the least spin of its component.
    pub names: Numbers<u32>,
    /// The least spin of each component, rising.
    pub leasts: Numbers<u32>,
}

impl Components {
    /// Finds the components of an instance, in time linear in the spins and bonds. The only error is
    /// running out of memory.
    pub fn find(alloc: Global, inst: &Instance) -> Result<Components, NoMemory>
        ensures { IfOk result (λ found. AreComponents inst.now found.names found.leasts) }
    {
        let all = vec![in alloc; true; inst.bonds().len()]?;
        let names = names(alloc, inst, &all)?;
        let leasts = own_names(alloc, inst, &names)?;
        Ok(Components {
            names: Numbers::from_vec(names),
            leasts: Numbers::from_vec(leasts),
        })
    }

    /// The one component of a connected instance, in time linear in the spins.
    pub fn whole(alloc: Global, inst: &Instance) -> Result<Components, NoMemory>
        requires { IsConnected inst.now }
        ensures { IfOk result (λ found. AreComponents inst.now found.names found.leasts) }
    {
        let names = vec![in alloc; 0u32; inst.n() as usize]?;
        let leasts = vec![in alloc; 0u32; 1]?;
        Ok(Components {
            names: Numbers::from_vec(names),
            leasts: Numbers::from_vec(leasts),
        })
    }
}
