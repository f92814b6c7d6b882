ghost use Rattle.std.specs.Prelude.{◌≡◌, ◌*◌, ◌≤◌, length, [], IfOk, IsTrue, OnOk};
ghost use Rattle.sg_graph.specs.Join.{AreTerminals, IsJoin};
ghost use Rattle.sg_graph.specs.Table.{IsTableOf, is_reached, length_to};
ghost use Rattle.sg_graph.specs.Web.{edge_count, weight_of};
ghost use Rattle.sg_slack.specs.Matching.{IsPairing, pairing_cost};
ghost use Rattle.sg_moat.specs.Input.{AreTerminalTables, terminal_cost};
ghost use Rattle.sg_tjoin.specs.Doubled.{AreMetric};
ghost use Rattle.sg_tjoin.specs.Turns.{TurnsWalk};

use super::NoMemory;
use sg_base::{flip, places};
use sg_dist::path;
use sg_graph::{EdgeList, Table, Web};
use std::alloc::Global;

/// The edges that are in an odd number of the mates' shortest walks: a T-join of the terminals.
pub fn odd_edges(
    alloc: Global,
    web: &Web,
    terminals: &[u32],
    tables: &[Table],
    mates: &[u32],
) -> Result<EdgeList, NoMemory>
    requires terminals { AreTerminals web.now terminals.now }
    requires tables { AreTerminalTables web.now terminals.now tables.now }
    requires metric { AreMetric terminals.now tables.now }
    requires pairing { IsPairing (length terminals.now) mates.now }
    ensures bare { IfOk result (λ edges. length terminals.now ≡ 0 → edges ≡ []) }
    ensures join { IfOk result (IsJoin web.now terminals.now) }
    ensures light { IfOk result (λ edges. 2 * weight_of web.now edges ≤ pairing_cost (terminal_cost terminals.now tables.now) mates.now) }
{
    let mut odd = vec![in alloc; false; web.edges().len()]?;
    for i in 0..mates.len() {
        let mate = mates[i] as usize;
        if i < mate {
            turn_walk(alloc, web, &tables[i], terminals[mate], &mut odd)?;
        }
    }
    places(alloc, &odd)
}

// Turns the marks of the edges of a shortest walk from the table's source.
fn turn_walk(
    alloc: Global,
    web: &Web,
    table: &Table,
    to: u32,
    odd: &mut [bool],
) -> Result<(), NoMemory>
    requires table { IsTableOf web.now table.now }
    requires reached { IsTrue (is_reached table.now to) }
    requires marks { length odd.old ≡ edge_count web.now }
    ensures { OnOk result (TurnsWalk web.now table.now.source to (length_to table.now to) odd.old odd.new) }
{
    let walk = path(alloc, web, table, to)?;
    flip(odd, walk.as_slice());
    Ok(())
}
