ghost use Rattle.std.specs.Prelude.{◌<◌, All, IfOk};
ghost use Rattle.sg_moat.specs.Input.{AreTerminalTables};

use super::NoMemory;
use sg_dist::distances_over;
use sg_graph::{Incidence, Table, Web};
use std::alloc::Global;

/// A table of distances from each terminal, by searches over one incidence of the graph.
pub fn terminal_tables(alloc: Global, web: &Web, terminals: &[u32]) -> Result<Vec<Table>, NoMemory>
    requires { All (λ t. t < web.now.nodes) terminals.now }
    ensures { IfOk result (λ tables. AreTerminalTables web.now terminals.now tables.items) }
{
    let incidence = Incidence::new(alloc, web)?;
    let mut tables = Vec::new(alloc);
    for terminal in terminals {
        tables.push(distances_over(alloc, web, &incidence, *terminal)?)?;
    }
    Ok(tables)
}
