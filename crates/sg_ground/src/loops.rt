ghost use Rattle.std.specs.Prelude.{◌≡◌, map, IfOk};
ghost use Rattle.sg_ground.specs.Loops.{loop_of};

use super::NoMemory;
use sg_check::{Loop, Loops};
use sg_graph::Cuts;
use std::alloc::Global;

/// Each cut as a loop of the bonds with the numbers of its edges, with its weight. The lists of edges
/// are moved, and not copied.
pub fn cut_loops(alloc: Global, cuts: Cuts) -> Result<Loops, NoMemory>
    ensures { IfOk result (λ loops. loops ≡ map loop_of cuts) }
{
    let mut loops = Loops::new(alloc);
    for cut in cuts.into_vec() {
        loops.push(Loop {
            y: cut.y,
            bonds: cut.edges,
        })?;
    }
    Ok(loops)
}
