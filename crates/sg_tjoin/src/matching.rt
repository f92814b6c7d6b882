ghost use Rattle.std.specs.Prelude.{◌≡◌, ◌<◌, ◌*◌, ◌≤◌, length, All, IfOk};
ghost use Rattle.sg_arena.specs.Family.{leaf_count};
ghost use Rattle.sg_slack.specs.Matching.{IsMatching, IsPairing, NoSlackIsNegative, pairing_cost, sum_of_duals};
ghost use Rattle.sg_slack.specs.Metric.{IsMetric, cost};
ghost use Rattle.sg_moat.specs.Input.{terminal_cost};
ghost use Rattle.sg_tjoin.specs.Doubled.{AreMetric, FillsRow, FillsRows, Reaches};

use super::NoMemory;
use sg_base::Steps;
use sg_graph::Table;
use sg_match::{Engine, Matched};
use sg_slack::Costs;
use std::alloc::Global;
use std::marker::Brand;
use std::sync::ledger::{Blank, Ledger};

/// The terminals matched at costs of twice their distances, with the duals that prove it least.
pub fn matching(alloc: Global, terminals: &[u32], tables: &[Table]) -> Result<Matched, NoMemory>
    requires { AreMetric terminals.now tables.now }
    ensures leaves { IfOk result (λ m. leaf_count m.family ≡ length terminals.now) }
    ensures near { IfOk result (λ m. NoSlackIsNegative m.family (terminal_cost terminals.now tables.now)) }
    ensures pairing { IfOk result (λ m. IsPairing (length terminals.now) m.mates) }
    ensures duals { IfOk result (λ m. pairing_cost (terminal_cost terminals.now tables.now) m.mates ≡ sum_of_duals m.family) }
    ensures bounded { IfOk result (λ m. m.family.steps ≤ 2 * length terminals.now * length terminals.now) }
{
    let costs = doubled_distances(alloc, terminals, tables)?;
    run::<Brand>(alloc, costs, Blank::new(1))
}

// The engine's answer at these costs. Its memory, and the costs, are gone when it returns.
fn run<L: Ledger>(alloc: Global, costs: Costs, blank: Blank) -> Result<Matched, NoMemory>
    requires metric { IsMetric costs }
    requires name { blank.name ≡ L.name }
    requires parts { blank.parts ≡ L.parts }
    requires some { 0 < L.parts }
    ensures leaves { IfOk result (λ m. leaf_count m.family ≡ costs.size) }
    ensures slack { IfOk result (λ m. NoSlackIsNegative m.family (cost costs)) }
    ensures matching { IfOk result (λ m. IsMatching m.family (cost costs) m.mates) }
    ensures duals { IfOk result (λ m. pairing_cost (cost costs) m.mates ≡ sum_of_duals m.family) }
    ensures bounded { IfOk result (λ m. m.family.steps ≤ 2 * costs.size * costs.size) }
{
    let mut steps = Steps::<L>::new(blank);
    let engine = Engine::open(alloc, costs)?;
    Ok(engine.run(&mut steps))
}

// A table of twice the distances of each two terminals.
fn doubled_distances(alloc: Global, terminals: &[u32], tables: &[Table]) -> Result<Costs, NoMemory>
    requires { AreMetric terminals.now tables.now }
    ensures { IfOk result (FillsRows terminals.now tables.now (length terminals.now)) }
{
    let count = terminals.len() as u32;
    let mut costs = Costs::new(alloc, count)?;
    for i in 0..count {
        fill_row(&mut costs, terminals, &tables[i as usize], i);
    }
    Ok(costs)
}

// The costs of terminal `i`, whose table it is, and each terminal before it.
fn fill_row(costs: &mut Costs, terminals: &[u32], table: &Table, i: u32)
    requires row { i < costs.old.size }
    requires size { costs.old.size ≡ length terminals.now }
    requires reaches { All (Reaches table.now) terminals.now }
    ensures { FillsRow terminals.now table.now i i costs.old costs.new }
{
    for j in 0..i {
        costs.set(i, j, 2 * table.distance(terminals[j as usize]));
    }
}
