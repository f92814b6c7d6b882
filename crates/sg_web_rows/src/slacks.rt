ghost use Rattle.std.specs.Prelude.{◌≡◌, ℕ, ◌<◌, length, IsTrue};
ghost use Rattle.sg_slack.specs.Table.{cost_of};
ghost use Rattle.sg_slack.specs.Slack.{SumsFit};
ghost use Rattle.sg_slack.specs.Small.{IsSmall};

use super::costs::{Entry, table};
use super::facts::expect;
use sg_slack::{Costs, Mark, NoMemory, Pair, least_outer_free, least_outer_outer};
use std::alloc::Global;
use std::process::Abort;
use std::test::Fail;

// Whether a number is less than a million in size.
fn is_small(x: i64) -> bool
    ensures { IsTrue result → IsSmall x }
{
    -1_000_000 < x && x < 1_000_000
}

// Whether the costs of a row are small.
fn is_row_small(costs: &Costs, u: u32) -> bool
    requires { u < costs.now.size }
    ensures { IsTrue result → (v : ℕ) → v < costs.now.size → IsSmall (cost_of costs.now u v) }
{
    for v in 0..costs.size() {
        if !is_small(costs.cost(u, v)) {
            return false;
        }
    }
    true
}

// Whether all costs and totals are small, so that each slack fits.
pub fn are_small(costs: &Costs, total: &[i64]) -> bool
    requires { length total.now ≡ costs.now.size }
    ensures { IsTrue result → SumsFit costs.now total.now }
{
    for u in 0..costs.size() {
        if !is_small(total[u as usize]) {
            return false;
        }
        if !is_row_small(costs, u) {
            return false;
        }
    }
    true
}

/// The slack of a pair, if there is one.
pub fn slack_of(found: Option<Pair>) -> Option<i64> {
    match found {
        Some(pair) => Some(pair.slack),
        None => None,
    }
}

// Leaves with their costs, and the total, the top and the mark of each; the pair of least slack of an outer leaf and
// a free one, and the least slack of two outer leaves of different tops.
struct Row {
    leaves: u32,
    entries: &'static [Entry],
    total: &'static [i64],
    top: &'static [usize],
    mark: &'static [Mark],
    free: Option<Pair>,
    outer: Option<i64>,
}

static ROWS: [Row; 2] = [
    // An outer leaf and a free one.
    Row {
        leaves: 2,
        entries: &[(0, 1, 4)],
        total: &[1, 0],
        top: &[7, 8],
        mark: &[Mark::Outer, Mark::Free],
        free: Some(Pair {
            u: 0,
            v: 1,
            slack: 3,
        }),
        outer: None,
    },
    // The leaves 0 to 2 lie in one outer top and 3 in another, 4 is free and 5 inner.
    Row {
        leaves: 6,
        entries: &[
            (0, 1, 3),
            (0, 2, 2),
            (0, 3, 9),
            (0, 4, 10),
            (1, 2, 1),
            (1, 3, 7),
            (1, 4, 6),
            (2, 3, 7),
            (2, 4, 9),
            (3, 4, 12),
            (0, 5, -1),
            (4, 5, -2),
            (3, 5, 0),
        ],
        total: &[2, 1, 0, 3, 1, 0],
        top: &[9, 9, 9, 3, 4, 5],
        mark: &[
            Mark::Outer,
            Mark::Outer,
            Mark::Outer,
            Mark::Outer,
            Mark::Free,
            Mark::Inner,
        ],
        free: Some(Pair {
            u: 1,
            v: 4,
            slack: 4,
        }),
        outer: Some(3),
    },
];

// The scans of all pairs find these.
fn expect_least(rt: &impl Abort, costs: &Costs, row: &Row) {
    let total = row.total;
    let top = row.top;
    let mark = row.mark;
    let count = costs.size() as usize;
    expect(rt, "number of totals", total.len() == count);
    expect(rt, "number of tops", top.len() == count);
    expect(rt, "number of marks", mark.len() == count);
    expect(rt, "small costs", are_small(costs, total));
    let free = least_outer_free(costs, total, top, mark);
    expect(rt, "outer leaf and free one", free == row.free);
    let outer = least_outer_outer(costs, total, top, mark);
    expect(rt, "two outer leaves", slack_of(outer) == row.outer);
}

// Makes the table of a row, and scans it.
fn expect_row(rt: &impl Abort, alloc: Global, row: &Row) -> Result<(), NoMemory> {
    let costs = table(rt, alloc, row.leaves, row.entries)?;
    expect(rt, "size", costs.size() == row.leaves);
    expect_least(rt, &costs, row);
    Ok(())
}

#[test]
fn the_least_slack_is_found(rt: HostRuntime) -> Result<(), Fail> {
    for row in &ROWS {
        expect_row(&rt, rt.alloc(), row)?;
    }
    Ok(())
}
