ghost use Rattle.std.specs.Prelude.{◌≡◌, ◌<◌};
ghost use Rattle.sg_arena.specs.Family.{leaf_count};

use super::costs::{Entry, SETS, costs_of, table};
use super::facts::{expect, is_wanted};
use sg_arena::Arena;
use sg_base::Steps;
use sg_match::{Engine, NoMemory, Stage};
use sg_slack::{Costs, is_metric};
use std::alloc::Global;
use std::marker::Brand;
use std::process::Abort;
use std::sync::ledger::{Blank, Ledger};

// What all mates cost together, the mates where no others cost as little, and whether an engine has matched all
// leaves when it first advances.
#[derive(Clone, Copy)]
struct Wanted {
    cost: i64,
    mates: Option<&'static [u32]>,
    is_done: bool,
}

// Leaves with their costs.
struct Row {
    leaves: u32,
    entries: &'static [Entry],
    wanted: Wanted,
}

static ROWS: [Row; 5] = [
    Row {
        leaves: 0,
        entries: &[],
        wanted: Wanted {
            cost: 0,
            mates: None,
            is_done: true,
        },
    },
    Row {
        leaves: 2,
        entries: &[(0, 1, 4)],
        wanted: Wanted {
            cost: 4,
            mates: Some(&[1, 0]),
            is_done: true,
        },
    },
    // The places 0, 3, 5 and 8 of a line.
    Row {
        leaves: 4,
        entries: &[
            (0, 1, 6),
            (0, 2, 10),
            (0, 3, 16),
            (1, 2, 4),
            (1, 3, 10),
            (2, 3, 6),
        ],
        wanted: Wanted {
            cost: 12,
            mates: Some(&[1, 0, 3, 2]),
            is_done: false,
        },
    },
    // Four leaves at one place.
    Row {
        leaves: 4,
        entries: &[],
        wanted: Wanted {
            cost: 0,
            mates: None,
            is_done: false,
        },
    },
    // Two far triangles, which one pair has to join.
    Row {
        leaves: 6,
        entries: &[
            (0, 1, 2),
            (0, 2, 2),
            (1, 2, 2),
            (3, 4, 2),
            (3, 5, 2),
            (4, 5, 2),
            (0, 3, 20),
            (0, 4, 20),
            (0, 5, 20),
            (1, 3, 20),
            (1, 4, 20),
            (1, 5, 20),
            (2, 3, 20),
            (2, 4, 20),
            (2, 5, 20),
        ],
        wanted: Wanted {
            cost: 24,
            mates: None,
            is_done: false,
        },
    },
];

// The cost of these mates, each the other's.
fn mates_cost<R: Abort>(rt: &R, costs: &Costs, mates: &[u32]) -> i64 {
    expect(rt, "number of mates", mates.len() == costs.size() as usize);
    let mut sum = 0i64;
    for u in 0..costs.size() {
        let mate = mates[u as usize];
        expect(rt, "another leaf", mate != u);
        expect(rt, "mate", mate < costs.size());
        expect(rt, "mate of the mate", mates[mate as usize] == u);
        if u < mate {
            sum = sum.saturating_add(costs.cost(u, mate));
        }
    }
    sum
}

// The duals of the sets that are counted at a leaf: its own, and each blossom of which all that holds
// the leaf is the first child. So each set is counted at one leaf.
fn first_duals<R: Abort>(rt: &R, arena: &Arena, leaf: u32) -> i64
    requires { leaf < leaf_count arena.now }
{
    let mut node = arena.leaf_node(leaf);
    let mut sum = 0i64;
    for _level in 0..8 {
        sum = sum.saturating_add(arena.dual(node));
        match arena.parent(node) {
            Some(blossom) if arena.first_child(blossom) == node => node = blossom,
            _ => return sum,
        }
    }
    panic!(rt; "too many sets in one another")
}

// The sum of all duals.
fn all_duals<R: Abort>(rt: &R, arena: &Arena, leaves: u32) -> i64
    requires { leaf_count arena.now ≡ leaves }
{
    let mut sum = 0i64;
    for leaf in 0..leaves {
        sum = sum.saturating_add(first_duals(rt, arena, leaf));
    }
    sum
}

// An engine that is wanted to be done at once is so, and its duals cost as much as the mates.
fn expect_done<L: Ledger, R: Abort>(
    rt: &R,
    engine: &mut Engine,
    leaves: u32,
    wanted: &Wanted,
    steps: &mut Steps<L>,
)
    requires { engine.old.table.size ≡ leaves }
    ensures { engine.new.table.size ≡ leaves }
{
    if wanted.is_done {
        expect(rt, "stage", engine.advance(steps) == Stage::Matched);
        let duals = all_duals(rt, engine.family(), leaves);
        expect(rt, "duals at once", duals == wanted.cost);
    }
}

// The engine's mates cost as much as is wanted, and so do the duals together. `kept` has the same costs.
fn expect_cost<L: Ledger, R: Abort>(
    rt: &R,
    alloc: Global,
    costs: Costs,
    kept: &Costs,
    wanted: &Wanted,
    steps: &mut Steps<L>,
) -> Result<(), NoMemory>
    requires { kept.now.size ≡ costs.size }
{
    let leaves = kept.size();
    expect(rt, "a metric", is_metric(&costs));
    let mut engine = Engine::open(alloc, costs)?;
    expect_done(rt, &mut engine, leaves, wanted, steps);
    let matched = engine.run(steps);
    let mates = matched.mates.as_slice();
    expect(rt, "cost", mates_cost(rt, kept, mates) == wanted.cost);
    expect(rt, "mates", is_wanted(mates, wanted.mates));
    let duals = all_duals(rt, &matched.family, leaves);
    expect(rt, "duals", duals == wanted.cost);
    Ok(())
}

// The same for the leaves of a row.
fn expect_row<L: Ledger, R: Abort>(
    rt: &R,
    alloc: Global,
    row: &Row,
    steps: &mut Steps<L>,
) -> Result<(), NoMemory> {
    let leaves = row.leaves;
    let costs = table(rt, alloc, leaves, row.entries)?;
    let kept = table(rt, alloc, leaves, row.entries)?;
    expect_cost(rt, alloc, costs, &kept, &row.wanted, steps)
}

// The same for eight places, whose mates cost so much at least.
fn expect_least<L: Ledger, R: Abort>(
    rt: &R,
    alloc: Global,
    places: &[u32; 8],
    least: i64,
    steps: &mut Steps<L>,
) -> Result<(), NoMemory> {
    let costs = costs_of(alloc, places)?;
    let kept = costs_of(alloc, places)?;
    let wanted = Wanted {
        cost: least,
        mates: None,
        is_done: false,
    };
    expect_cost(rt, alloc, costs, &kept, &wanted, steps)
}

// All rows, then all sets of places.
fn expect_all<L: Ledger, R: Abort>(rt: &R, alloc: Global, blank: Blank) -> Result<(), NoMemory>
    requires name { blank.name ≡ L.name }
    requires parts { blank.parts ≡ L.parts }
    requires some { 0 < L.parts }
{
    let mut steps = Steps::<L>::new(blank);
    for row in &ROWS {
        expect_row(rt, alloc, row, &mut steps)?;
    }
    for (places, least) in &SETS {
        expect_least(rt, alloc, places, *least, &mut steps)?;
    }
    Ok(())
}

#[test]
fn leaves_are_matched_at_least_cost(rt: HostRuntime) -> Result<(), NoMemory> {
    expect_all::<Brand, HostRuntime>(&rt, rt.alloc(), Blank::new(1))
}
