ghost use Rattle.std.specs.Prelude.{◌≡◌, ◌<◌, ◌^◌, length, All, IfOk};
ghost use Rattle.sg_arena.specs.Family.{dual_of, leaf_count};
ghost use Rattle.sg_moat.specs.Depths.{AreDepths, Lowers, ReachesAll};
ghost use Rattle.sg_moat.specs.Gathers.{set_depth};

use super::NoMemory;
use super::duals::inner_duals;
use sg_arena::Arena;
use sg_graph::{Table, Web};
use std::alloc::Global;

/// The depth of each node at the set with this name and the dual `y`: the least of `y` and, for each
/// terminal of the set, twice its distance less the duals inside.
pub fn depths_of(
    alloc: Global,
    web: &Web,
    tables: &[Table],
    family: &Arena,
    name: usize,
    y: u64,
) -> Result<Vec<u64>, NoMemory>
    requires tables { All (ReachesAll web.now.nodes) tables.now }
    requires few { length tables.now < 2 ^ 32 }
    requires leaves { leaf_count family.now ≡ length tables.now }
    requires dual { y ≡ dual_of family.now name }
    ensures { IfOk result (λ depths. AreDepths web.now.nodes (set_depth family.now tables.now name) depths.items) }
{
    let _room = family.room();
    let mut depths = vec![in alloc; y; web.nodes() as usize]?;
    for leaf in 0..tables.len() {
        if let Some(inner) = inner_duals(family, name, leaf as u32) {
            lower(web, &tables[leaf], inner, &mut depths);
        }
    }
    Ok(depths)
}

// No depth is beyond twice the distance from the table's source less the duals inside.
fn lower(web: &Web, table: &Table, inner: u64, depths: &mut [u64])
    requires count { length depths.old ≡ web.now.nodes }
    requires reaches { ReachesAll web.now.nodes table.now }
    ensures { Lowers table.now inner web.now.nodes depths.old depths.new }
{
    for x in 0..web.nodes() {
        let reach = 2 * table.distance(x).unsigned_abs();
        depths[x as usize] = depths[x as usize].min(reach.saturating_sub(inner));
    }
}
