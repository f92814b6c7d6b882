// Minimum T-joins beside what was worked by hand, and beside the least of all joins.
use super::facts::{expect, is_wanted};
use super::webs::{BUNDLE, Graph, connected_problem};
use sg_graph::Cuts;
use sg_tjoin::{Join, LeastJoin, NoMemory, least_join, least_weight, matched_join};
use std::alloc::Global;
use std::process::Abort;
use std::test::Fail;

// The minimum T-join in a graph, by the matching alone or not.
fn joined(
    rt: &impl Abort,
    alloc: Global,
    graph: &Graph,
    is_matched: bool,
) -> Result<Join, NoMemory> {
    let problem = connected_problem(rt, alloc, graph)?;
    if is_matched {
        matched_join(alloc, &problem.web, &problem.terminals)
    } else {
        least_join(alloc, &problem.web, &problem.terminals)
    }
}

// The minimum T-join in a graph, without its cuts.
fn weighed(rt: &impl Abort, alloc: Global, graph: &Graph) -> Result<LeastJoin, NoMemory> {
    let problem = connected_problem(rt, alloc, graph)?;
    least_weight(alloc, &problem.web, &problem.terminals)
}

// A graph, the edges of its minimum T-join where it is the only one, and the weight.
type Row<'a> = (Graph<'a>, Option<&'a [u32]>, i64);

// First three graphs that were worked by hand. Then two nodes at distance 0, parallel edges, edges from a
// node to itself, a tree, a ring, and graphs whose nodes all are terminals, of at most ten edges: the least
// weights of these were found by trying all edge sets in another language.
static ROWS: [Row; 10] = [
    ((2, BUNDLE, &[0, 1]), Some(&[2]), 2),
    (
        (4, &[(0, 1, 3), (1, 2, 2), (2, 3, 3)], &[0, 1, 2, 3]),
        Some(&[0, 2]),
        6,
    ),
    ((1, &[], &[]), Some(&[]), 0),
    (
        (3, &[(0, 1, 0), (1, 2, 0), (2, 2, 0), (0, 2, 0)], &[0, 2]),
        None,
        0,
    ),
    (
        (
            4,
            &[
                (0, 0, 0),
                (0, 1, 7),
                (1, 0, 7),
                (1, 2, 0),
                (2, 3, 4),
                (3, 2, 3),
                (3, 3, 9),
            ],
            &[0, 3],
        ),
        None,
        10,
    ),
    (
        (
            6,
            &[(0, 1, 2), (1, 2, 3), (1, 3, 1), (3, 4, 5), (3, 5, 8)],
            &[0, 2, 4, 5],
        ),
        None,
        18,
    ),
    (
        (
            6,
            &[
                (0, 1, 3),
                (1, 2, 2),
                (2, 3, 3),
                (3, 4, 7),
                (4, 5, 1),
                (5, 0, 6),
            ],
            &[0, 1, 2, 3, 4, 5],
        ),
        None,
        7,
    ),
    (
        (
            4,
            &[(0, 1, 3), (1, 2, 2), (2, 3, 3), (3, 0, 7)],
            &[0, 1, 2, 3],
        ),
        None,
        6,
    ),
    (
        (
            7,
            &[
                (0, 1, 1),
                (1, 2, 1),
                (2, 0, 1),
                (2, 3, 9),
                (3, 4, 1),
                (4, 5, 1),
                (5, 3, 1),
                (5, 6, 4),
                (6, 0, 20),
            ],
            &[0, 1, 2, 3, 4, 5],
        ),
        None,
        11,
    ),
    (
        (
            5,
            &[
                (0, 1, 4),
                (0, 2, 1),
                (0, 3, 5),
                (0, 4, 0),
                (1, 2, 2),
                (1, 3, 6),
                (1, 4, 3),
                (2, 3, 3),
                (2, 4, 1),
                (3, 4, 5),
            ],
            &[0, 1, 3, 4],
        ),
        None,
        5,
    ),
];

// The sum of the weights of the cuts.
fn cut_sum(cuts: &Cuts) -> i64 {
    let mut sum = 0i64;
    for cut in cuts.as_slice() {
        sum = sum.saturating_add(cut.y);
    }
    sum
}

// A T-join has the edges and the weight of a row, and its cuts weigh twice as much.
fn expect_join(rt: &impl Abort, join: &Join, row: &Row) {
    let (_, edges, weight) = *row;
    expect(rt, "edges", is_wanted(join.edges.as_slice(), edges));
    expect(rt, "weight", join.weight == weight);
    let twice = weight.saturating_mul(2);
    expect(rt, "cuts", cut_sum(&join.cuts) == twice);
}

// Each way to the minimum T-join of a graph gives these edges and this weight.
fn expect_joins(rt: &impl Abort, alloc: Global, row: &Row) -> Result<(), NoMemory> {
    let (graph, edges, weight) = *row;
    for is_matched in [false, true] {
        let join = joined(rt, alloc, &graph, is_matched)?;
        expect_join(rt, &join, row);
    }
    let alone = weighed(rt, alloc, &graph)?;
    expect(rt, "edges alone", is_wanted(alone.edges.as_slice(), edges));
    expect(rt, "weight alone", alone.weight == weight);
    Ok(())
}

#[test]
fn no_edge_set_weighs_less(rt: HostRuntime) -> Result<(), Fail> {
    for row in &ROWS {
        expect_joins(&rt, rt.alloc(), row)?;
    }
    Ok(())
}
