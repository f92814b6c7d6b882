ghost use Rattle.std.specs.Prelude.{◌≡◌, ◌<◌};
ghost use Rattle.sg_graph.specs.Table.{IsTableOf};

use super::facts::expect;
use super::webs::{BUNDLE, EdgeRow, web};
use sg_dist::{distances, path};
use sg_graph::{NoMemory, Table, Web};
use std::alloc::Global;
use std::process::Abort;
use std::test::Fail;

// The distance of a node that is not reached.
const FAR: u64 = u64::MAX;

// The weight of the edges of a walk.
fn walk_weight(walk: &[u32], small: &Web) -> u64 {
    let edges = small.edges().as_slice();
    let mut weight = 0u64;
    for k in walk {
        if (*k as usize) < edges.len() {
            weight = weight.saturating_add(edges[*k as usize].w.unsigned_abs());
        }
    }
    weight
}

// The last edge of a walk, if there is one.
fn last_of(walk: &[u32]) -> Option<u32> {
    match walk {
        [.., last] => Some(*last),
        [] => None,
    }
}

// A node is at this distance, or `FAR`. The walk to it weighs as much, and its last edge is the node's parent.
fn expect_far(
    rt: &impl Abort,
    alloc: Global,
    small: &Web,
    table: &Table,
    node: u32,
    far: u64,
) -> Result<(), NoMemory>
    requires table { IsTableOf small.now table.now }
    requires node { node < small.now.nodes }
{
    expect(rt, "a node is reached", table.reached(node) == (far < FAR));
    let parent = table.parent(node);
    if table.reached(node) {
        expect(rt, "distance", table.distance(node).unsigned_abs() == far);
        let walk = path(alloc, small, table, node)?;
        let edges = walk.as_slice();
        expect(rt, "walk", walk_weight(edges, small) == far);
        expect(rt, "last edge of a walk", last_of(edges) == parent);
    } else {
        expect(rt, "no parent", parent.is_none());
    }
    Ok(())
}

// The distances from each node are these, and so are the weights of the walks.
fn agrees(
    rt: &impl Abort,
    alloc: Global,
    list: &[EdgeRow],
    far: &[[u64; 5]; 5],
) -> Result<(), NoMemory> {
    let small = web(rt, alloc, 5, list)?;
    for source in 0..5u32 {
        let table = distances(alloc, &small, source)?;
        for node in 0..5u32 {
            let wanted = far[source as usize][node as usize];
            expect_far(rt, alloc, &small, &table, node, wanted)?;
        }
    }
    Ok(())
}

// Graphs on five nodes, and the distances from each of them to each, from elsewhere by Floyd and Warshall. Of the
// parallel edges of the second one is lighter than all others, so that a walk of this weight is that edge.
static WEBS: [(&[EdgeRow], [[u64; 5]; 5]); 11] = [
    (
        &[],
        [
            [0, FAR, FAR, FAR, FAR],
            [FAR, 0, FAR, FAR, FAR],
            [FAR, FAR, 0, FAR, FAR],
            [FAR, FAR, FAR, 0, FAR],
            [FAR, FAR, FAR, FAR, 0],
        ],
    ),
    (
        BUNDLE,
        [
            [0, 2, FAR, FAR, FAR],
            [2, 0, FAR, FAR, FAR],
            [FAR, FAR, 0, FAR, FAR],
            [FAR, FAR, FAR, 0, FAR],
            [FAR, FAR, FAR, FAR, 0],
        ],
    ),
    (
        &[(0, 0, 3), (4, 4, 0)],
        [
            [0, FAR, FAR, FAR, FAR],
            [FAR, 0, FAR, FAR, FAR],
            [FAR, FAR, 0, FAR, FAR],
            [FAR, FAR, FAR, 0, FAR],
            [FAR, FAR, FAR, FAR, 0],
        ],
    ),
    (
        &[(0, 1, 1), (1, 2, 1), (2, 3, 1), (3, 4, 1), (4, 0, 1)],
        [
            [0, 1, 2, 2, 1],
            [1, 0, 1, 2, 2],
            [2, 1, 0, 1, 2],
            [2, 2, 1, 0, 1],
            [1, 2, 2, 1, 0],
        ],
    ),
    (
        &[(0, 1, 0), (1, 2, 0), (2, 0, 0), (3, 4, 0)],
        [
            [0, 0, 0, FAR, FAR],
            [0, 0, 0, FAR, FAR],
            [0, 0, 0, FAR, FAR],
            [FAR, FAR, FAR, 0, 0],
            [FAR, FAR, FAR, 0, 0],
        ],
    ),
    (
        &[
            (0, 1, 9),
            (0, 2, 1),
            (2, 1, 1),
            (1, 3, 5),
            (2, 3, 7),
            (3, 4, 0),
        ],
        [
            [0, 2, 1, 7, 7],
            [2, 0, 1, 5, 5],
            [1, 1, 0, 6, 6],
            [7, 5, 6, 0, 0],
            [7, 5, 6, 0, 0],
        ],
    ),
    (
        &[
            (0, 1, 4),
            (1, 0, 3),
            (0, 1, 3),
            (1, 1, 0),
            (1, 2, 2),
            (2, 1, 2),
        ],
        [
            [0, 3, 5, FAR, FAR],
            [3, 0, 2, FAR, FAR],
            [5, 2, 0, FAR, FAR],
            [FAR, FAR, FAR, 0, FAR],
            [FAR, FAR, FAR, FAR, 0],
        ],
    ),
    (
        &[
            (4, 3, 2),
            (3, 2, 2),
            (2, 1, 2),
            (1, 0, 2),
            (4, 0, 9),
            (2, 4, 3),
        ],
        [
            [0, 2, 4, 6, 7],
            [2, 0, 2, 4, 5],
            [4, 2, 0, 2, 3],
            [6, 4, 2, 0, 2],
            [7, 5, 3, 2, 0],
        ],
    ),
    (
        &[
            (0, 1, 1),
            (0, 2, 1),
            (0, 3, 1),
            (0, 4, 1),
            (1, 2, 5),
            (3, 4, 0),
        ],
        [
            [0, 1, 1, 1, 1],
            [1, 0, 2, 2, 2],
            [1, 2, 0, 2, 2],
            [1, 2, 2, 0, 0],
            [1, 2, 2, 0, 0],
        ],
    ),
    (
        &[
            (0, 4, 100),
            (0, 1, 30),
            (1, 2, 30),
            (2, 4, 30),
            (1, 3, 20),
            (3, 4, 39),
        ],
        [
            [0, 30, 60, 50, 89],
            [30, 0, 30, 20, 59],
            [60, 30, 0, 50, 30],
            [50, 20, 50, 0, 39],
            [89, 59, 30, 39, 0],
        ],
    ),
    (
        &[
            (2, 2, 1),
            (2, 0, 0),
            (0, 1, 0),
            (1, 2, 1),
            (2, 3, 0),
            (3, 0, 1),
            (3, 1, 0),
        ],
        [
            [0, 0, 0, 0, FAR],
            [0, 0, 0, 0, FAR],
            [0, 0, 0, 0, FAR],
            [0, 0, 0, 0, FAR],
            [FAR, FAR, FAR, FAR, 0],
        ],
    ),
];

#[test]
fn distances_are_those_of_floyd_and_warshall(rt: HostRuntime) -> Result<(), Fail> {
    for (list, far) in &WEBS {
        agrees(&rt, rt.alloc(), list, far)?;
    }
    Ok(())
}
