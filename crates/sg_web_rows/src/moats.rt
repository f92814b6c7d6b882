// The cuts of the moats round nested sets of terminals.
ghost use Rattle.std.specs.Prelude.{◌≡◌, ℕ, ◌+◌, ◌*◌, ◌%◌, ◌<◌, ◌≤◌, length, slice_index, All, IfOk, IsTrue};
ghost use Rattle.sg_arena.specs.Family.{leaf_count, total_of};
ghost use Rattle.sg_graph.specs.Join.{AreTerminals};
ghost use Rattle.sg_graph.specs.Table.{length_to};
ghost use Rattle.sg_graph.specs.Walk.{IsConnectedWeb};
ghost use Rattle.sg_graph.specs.Web.{total_weight};
ghost use Rattle.sg_base.specs.Limits.{forced_limit};
ghost use Rattle.sg_moat.specs.Input.{AreTerminalTables, terminal_cost};
ghost use Rattle.sg_slack.specs.Matching.{NoSlackIsNegative};
ghost use Rattle.sg_tjoin.specs.Doubled.{AreMetric, Reaches};

use super::facts::expect;
use super::webs::{BUNDLE, CutRow, Graph, connected_problem};
use sg_arena::Arena;
use sg_base::Steps;
use sg_dist::distances;
use sg_graph::{Cuts, Table, Terminals, Web};
use sg_moat::{NoMemory, levels};
use std::alloc::Global;
use std::marker::Brand;
use std::process::Abort;
use std::sync::ledger::{Blank, Ledger};

// A table of distances from each terminal.
fn tables_of(alloc: Global, web: &Web, terminals: &[u32]) -> Result<Vec<Table>, NoMemory>
    requires { All (λ t. t < web.now.nodes) terminals.now }
    ensures { IfOk result (λ tables. AreTerminalTables web.now terminals.now tables.items) }
{
    let mut tables = Vec::new(alloc);
    for terminal in terminals {
        tables.push(distances(alloc, web, *terminal)?)?;
    }
    Ok(tables)
}

// Two leaves with the duals 4 and 0.
fn four_and_none<L: Ledger, R: Abort>(
    rt: &R,
    alloc: Global,
    steps: &mut Steps<L>,
) -> Result<Arena, NoMemory>
    ensures { IfOk result (λ family. leaf_count family ≡ 2) }
{
    let mut family = Arena::open(alloc, 2)?;
    let room = family.room();
    let outer = family.top(0);
    expect(rt, "room of the first leaf", outer < room);
    expect(rt, "total of leaf 0", family.total(0) == 0);
    expect(rt, "total of leaf 1", family.total(1) == 0);
    family.raise(&[outer], &[], 4, steps);
    let duals = (
        family.dual(family.leaf_node(0)),
        family.dual(family.leaf_node(1)),
    );
    expect(rt, "duals", duals == (4, 0));
    Ok(family)
}

// Whether the totals of leaf `i` and each leaf before it are at most twice the distance of the two.
fn row_fits(family: &Arena, terminals: &[u32], table: &Table, i: u32) -> bool
    requires leaves { leaf_count family.now ≡ length terminals.now }
    requires row { i < length terminals.now }
    requires reaches { All (Reaches table.now) terminals.now }
    ensures { IsTrue result → (j : ℕ) → j < i →
        total_of family.now i + total_of family.now j ≤ 2 * length_to table.now (slice_index terminals.now j) }
{
    for j in 0..i {
        let room = 2 * table.distance(terminals[j as usize]);
        if family.total(i) > room || family.total(j) > room - family.total(i) {
            return false;
        }
    }
    true
}

// Whether the totals of each two leaves are at most twice the distance of their terminals, so that no
// slack is negative.
fn totals_fit(family: &Arena, terminals: &[u32], tables: &[Table]) -> bool
    requires leaves { leaf_count family.now ≡ length terminals.now }
    requires metric { AreMetric terminals.now tables.now }
    ensures { IsTrue result → NoSlackIsNegative family.now (terminal_cost terminals.now tables.now) }
{
    for i in 0..terminals.len() as u32 {
        if !row_fits(family, terminals, &tables[i as usize], i) {
            return false;
        }
    }
    true
}

// The cuts of a family, of which no slack is negative.
fn cuts_of(
    rt: &impl Abort,
    alloc: Global,
    web: &Web,
    terminals: &Terminals,
    family: &Arena,
) -> Result<Cuts, NoMemory>
    requires connected { IsConnectedWeb web.now }
    requires terminals { AreTerminals web.now terminals.now }
    requires even { length terminals.now % 2 ≡ 0 }
    requires light { total_weight web.now ≤ forced_limit }
    requires leaves { leaf_count family.now ≡ length terminals.now }
{
    let _edges = web.edges();
    let nodes = terminals.as_slice();
    let tables = tables_of(alloc, web, nodes)?;
    expect(rt, "totals", totals_fit(family, nodes, &tables));
    levels(alloc, web, terminals, &tables, family)
}

// The cuts are these.
fn expect_cuts(rt: &impl Abort, cuts: &Cuts, wanted: &[CutRow]) {
    expect(rt, "number of cuts", cuts.len() == wanted.len());
    for i in 0..wanted.len() {
        let (weight, edges) = wanted[i];
        let cut = cuts.at(i);
        expect(rt, "weight of a cut", cut.y == weight);
        expect(rt, "edges of a cut", cut.edges.as_slice() == edges);
    }
}

// A family that has the dual 4 on the first of two terminals alone gives these cuts.
fn expect_row<L: Ledger, R: Abort>(
    rt: &R,
    alloc: Global,
    graph: &Graph,
    wanted: &[CutRow],
    steps: &mut Steps<L>,
) -> Result<(), NoMemory> {
    let problem = connected_problem(rt, alloc, graph)?;
    expect(rt, "two terminals", problem.terminals.len() == 2);
    let family = four_and_none(rt, alloc, steps)?;
    let cuts = cuts_of(rt, alloc, &problem.web, &problem.terminals, &family)?;
    expect_cuts(rt, &cuts, wanted);
    Ok(())
}

// Graphs with two terminals, and the cuts. Between two nodes the whole dual lies on one cut of all edges. In the
// triangle node 1 is at depth 2 of the set at node 0, and node 2 at 4 or more, so there is a cut at 2 and one at 4.
static ROWS: [(Graph, &[CutRow]); 2] = [
    ((2, BUNDLE, &[0, 1]), &[(4, &[0, 1, 2, 3])]),
    (
        (3, &[(0, 1, 1), (1, 2, 2), (0, 2, 3)], &[0, 2]),
        &[(2, &[0, 2]), (2, &[1, 2])],
    ),
];

// All rows.
fn expect_all<L: Ledger, R: Abort>(rt: &R, alloc: Global, blank: Blank) -> Result<(), NoMemory>
    requires name { blank.name ≡ L.name }
    requires parts { blank.parts ≡ L.parts }
    requires some { 0 < L.parts }
{
    let mut steps = Steps::<L>::new(blank);
    for (graph, wanted) in &ROWS {
        expect_row(rt, alloc, graph, wanted, &mut steps)?;
    }
    Ok(())
}

#[test]
fn each_depth_and_the_dual_give_a_cut(rt: HostRuntime) -> Result<(), NoMemory> {
    expect_all::<Brand, HostRuntime>(&rt, rt.alloc(), Blank::new(1))
}
