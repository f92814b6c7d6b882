ghost use Rattle.std.specs.Prelude.{◌≡◌, ◌<◌, ◌^◌, length, All, IfOk, OnOk, sum_by};
ghost use Rattle.sg_arena.specs.Family.{leaf_count};
ghost use Rattle.sg_graph.specs.Join.{AreTerminals};
ghost use Rattle.sg_graph.specs.OddCut.{CutsPack, odd_cut_weight};
ghost use Rattle.sg_graph.specs.Walk.{IsConnectedWeb};
ghost use Rattle.sg_slack.specs.Matching.{NoSlackIsNegative, sum_of_duals};
ghost use Rattle.sg_moat.specs.Depths.{ReachesAll};
ghost use Rattle.sg_moat.specs.Gathers.{Adds};
ghost use Rattle.sg_moat.specs.Input.{AreTerminalTables, terminal_cost};

use super::NoMemory;
use super::depths::depths_of;
use super::duals::dual_under;
use super::slices::slice;
use sg_arena::Arena;
use sg_graph::{Cuts, Table, Terminals, Web};
use std::alloc::Global;

/// The odd cuts at the levels of all sets of a family that has no negative slack at costs of twice the
/// distances between terminals: leaf `i` is terminal `i`, and `tables[i]` the table with it as source.
///
/// Each cut weighs at least 1 and holds, rising, all edges with exactly one end in some set of nodes
/// that has an odd number of terminals. At each edge the weights of the cuts that hold it sum to at
/// most twice its weight, and all weights to the sum of all duals. Twice the number of cuts is at most
/// three times the number of terminals plus twice the number of nodes.
///
/// Cost: for each name the way up from each terminal, for each set of positive dual the nodes once for
/// each of its terminals, and for each cut the nodes and edges. Memory: 8 bytes a node, and the cuts.
pub fn levels(
    alloc: Global,
    web: &Web,
    terminals: &Terminals,
    tables: &[Table],
    family: &Arena,
) -> Result<Cuts, NoMemory>
    requires connected { IsConnectedWeb web.now }
    requires terminals { AreTerminals web.now terminals.now }
    requires leaves { leaf_count family.now ≡ length terminals.now }
    requires tables { AreTerminalTables web.now terminals.now tables.now }
    requires slack { NoSlackIsNegative family.now (terminal_cost terminals.now tables.now) }
    ensures packs { IfOk result (CutsPack web.now terminals.now) }
    ensures total { IfOk result (λ cuts. sum_by odd_cut_weight cuts ≡ sum_of_duals family.now) }
{
    let _nodes = web.nodes();
    let mut cuts = Cuts::new(alloc);
    for name in 0..family.room() {
        add_set(alloc, web, tables, family, name, &mut cuts)?;
    }
    Ok(cuts)
}

// The cuts of one set.
fn add_set(
    alloc: Global,
    web: &Web,
    tables: &[Table],
    family: &Arena,
    name: usize,
    cuts: &mut Cuts,
) -> Result<(), NoMemory>
    requires tables { All (ReachesAll web.now.nodes) tables.now }
    requires few { length tables.now < 2 ^ 32 }
    requires leaves { leaf_count family.now ≡ length tables.now }
    ensures { OnOk result (Adds family.now web.now tables.now name cuts.old cuts.new) }
{
    let _room = family.room();
    let _nodes = web.nodes();
    let y = dual_under(family, tables.len() as u32, name);
    if y == 0 {
        return Ok(());
    }
    let depths = depths_of(alloc, web, tables, family, name, y)?;
    slice(alloc, web, &depths, y, cuts)?;
    Ok(())
}
