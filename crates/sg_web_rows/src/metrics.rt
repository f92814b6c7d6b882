// Which costs an engine takes.
use super::costs::{Entry, table};
use super::facts::expect;
use sg_slack::is_metric;
use std::test::Fail;

// Leaves with their costs, and whether an engine takes these: an odd number of leaves, a line, an odd cost, a
// detour that is cheaper than the direct way, and a negative cost.
static ROWS: [(u32, &[Entry], bool); 5] = [
    (3, &[], false),
    (
        4,
        &[
            (0, 1, 6),
            (0, 2, 10),
            (0, 3, 16),
            (1, 2, 4),
            (1, 3, 10),
            (2, 3, 6),
        ],
        true,
    ),
    (
        4,
        &[
            (0, 1, 6),
            (0, 2, 10),
            (0, 3, 15),
            (1, 2, 4),
            (1, 3, 10),
            (2, 3, 6),
        ],
        false,
    ),
    (
        4,
        &[
            (0, 1, 6),
            (0, 2, 10),
            (0, 3, 18),
            (1, 2, 4),
            (1, 3, 10),
            (2, 3, 6),
        ],
        false,
    ),
    (4, &[(0, 2, -2)], false),
];

#[test]
fn costs_are_taken_or_not(rt: HostRuntime) -> Result<(), Fail> {
    for (leaves, entries, is_taken) in &ROWS {
        let costs = table(&rt, rt.alloc(), *leaves, entries)?;
        expect(&rt, "a metric", is_metric(&costs) == *is_taken);
    }
    Ok(())
}
