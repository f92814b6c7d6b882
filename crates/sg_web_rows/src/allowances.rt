// Minimum T-joins within an allowance of bytes for the tables of the matching.
use super::facts::expect;
use super::webs::{Graph, connected_problem};
use sg_tjoin::{Join, Unproved, least_join_within, matched_join_within};
use std::alloc::Global;
use std::process::Abort;

// Four terminals among four nodes.
static LINE: Graph = (4, &[(0, 1, 3), (1, 2, 2), (2, 3, 3)], &[0, 1, 2, 3]);

// The minimum T-join of the line, by the matching alone or not.
fn joined(
    rt: &impl Abort,
    alloc: Global,
    most_bytes: u64,
    is_matched: bool,
) -> Result<Join, Unproved> {
    let problem = connected_problem(rt, alloc, &LINE)?;
    if is_matched {
        matched_join_within(alloc, &problem.web, &problem.terminals, most_bytes)
    } else {
        least_join_within(alloc, &problem.web, &problem.terminals, most_bytes)
    }
}

// Its weight, and none where the tables are too large.
fn weighed(rt: &impl Abort, alloc: Global, most_bytes: u64, is_matched: bool) -> Option<i64> {
    match joined(rt, alloc, most_bytes, is_matched) {
        Ok(join) => Some(join.weight),
        Err(Unproved::TablesTooLarge) => None,
        Err(Unproved::NoMemory) => Some(0),
    }
}

// The bytes that are allowed, whether the matching is asked alone, and the weight. The tables take
// 4 * (12 * 4 + 8 * 4) bytes.
static ROWS: [(u64, bool, Option<i64>); 3] = [
    (320, true, Some(6)),
    (319, true, None),
    (0, false, Some(6)),
];

#[test]
fn tables_are_too_large_just_where_they_take_more(rt: HostRuntime) {
    for (most_bytes, is_matched, wanted) in &ROWS {
        let weight = weighed(&rt, rt.alloc(), *most_bytes, *is_matched);
        expect(&rt, "weight", weight == *wanted);
    }
}
