ghost use Rattle.std.specs.Prelude.{◌≡◌, [], pos, IfErr, IfOk};
ghost use Rattle.sg_tjoin.specs.Allowance.{IfTooLarge};
ghost use Rattle.sg_wall.specs.Wall.{IsWall, WallTablesExceed};

use super::NoMemory;
use sg_ground::least_energy_within;
use sg_planar::Planar;
use sg_tjoin::Unproved;
use std::alloc::{AllocError, Global};

/// The least energies under the two boundaries, and the energy of the domain wall.
#[derive(Clone, Copy, Debug)]
pub struct WallAnswer {
    /// The least energy.
    pub periodic: i64,
    /// The least energy with the signs of the seam's couplings changed.
    pub antiperiodic: i64,
    /// `antiperiodic - periodic`, of either sign.
    pub difference: i64,
}

/// The energy of the domain wall that the seam forces, in the time of two least energies. With an
/// empty seam it is 0. The only error is that of an allocator that has no memory left.
pub fn wall(alloc: Global, planar: &Planar) -> Result<WallAnswer, NoMemory>
    ensures wall { IfOk result
        (λ w. IsWall planar.now.instance w.periodic w.antiperiodic w.difference) }
    ensures no_seam { IfOk result (λ w. planar.now.instance.seam ≡ [] → w.difference ≡ pos 0) }
{
    match wall_within(alloc, planar, u64::MAX) {
        Ok(found) => Ok(found),
        Err(Unproved::NoMemory) => Err(AllocError),
        Err(Unproved::TablesTooLarge) => unreachable!(),
    }
}

/// The energies of [`wall`], where the tables of the matching fallback may take `most_bytes` for each
/// component.
pub fn wall_within(alloc: Global, planar: &Planar, most_bytes: u64) -> Result<WallAnswer, Unproved>
    ensures wall { IfOk result
        (λ w. IsWall planar.now.instance w.periodic w.antiperiodic w.difference) }
    ensures no_seam { IfOk result (λ w. planar.now.instance.seam ≡ [] → w.difference ≡ pos 0) }
    ensures too_large { IfErr result (IfTooLarge (WallTablesExceed most_bytes planar.now.instance)) }
{
    let periodic = least_energy_within(alloc, planar, most_bytes)?;
    let antiperiodic = least_energy_within(alloc, &planar.flip_seam()?, most_bytes)?;
    Ok(WallAnswer {
        periodic,
        antiperiodic,
        difference: antiperiodic - periodic,
    })
}
