ghost use Rattle.std.specs.Prelude.{◌≡◌, IfOk};
ghost use Rattle.sg_nest.specs.Nest.{region_count};

use super::facts::expect;
use super::webs::{Graph, problem_of};
use sg_graph::{EdgeList, NoMemory};
use sg_nest::{Nest, Place, Places, Region, Regions, proves};
use std::alloc::Global;
use std::process::Abort;
use std::test::Fail;

// A triangle of terminals, 0 to 2, and a fourth, 3, joined to 0 by way of node 4.
static TRIANGLE: Graph = (
    5,
    &[(0, 1, 2), (1, 2, 2), (2, 0, 2), (0, 4, 3), (4, 3, 2)],
    &[0, 1, 2, 3],
);

// A part of region 4, and a region by itself.
const PART: Region = Region {
    parent: Some(4),
    radius: 4,
};

const TOP: Region = Region {
    parent: None,
    radius: 8,
};

// Three parts of the region round the triangle, the region round node 3, and that round the triangle.
const FIVE: [Region; 5] = [PART, PART, PART, TOP, TOP];

// Node 4 taken by the region round the triangle, or at the heart of the one round node 3.
const LATE: Option<Place> = Some(Place { region: 4, at: 8 });

const EARLY: Option<Place> = Some(Place { region: 3, at: 0 });

// The edges that are proposed, the regions, the place of node 4, and whether that is proved.
type Row<'a> = (&'a [u32], [Region; 5], Option<Place>, bool);

static ROWS: [Row; 7] = [
    (&[1, 3, 4], FIVE, LATE, true),
    (&[1, 3, 4], FIVE, EARLY, false),
    (&[1, 3, 4], FIVE, None, true),
    (&[0, 1, 3, 4], FIVE, LATE, false),
    (&[0, 2, 3, 4], FIVE, LATE, false),
    (
        &[1, 3, 4],
        [
            PART,
            Region {
                parent: Some(4),
                radius: 5,
            },
            PART,
            TOP,
            Region {
                parent: None,
                radius: 7,
            },
        ],
        None,
        false,
    ),
    (
        &[1, 3, 4],
        [
            PART,
            PART,
            PART,
            Region {
                parent: None,
                radius: 0,
            },
            Region {
                parent: None,
                radius: 16,
            },
        ],
        LATE,
        true,
    ),
];

// The nest of these regions, with the terminals at the hearts of the first four, and node 4 at this place.
fn nest(alloc: Global, regions: &[Region; 5], outer: Option<Place>) -> Result<Nest, NoMemory>
    ensures { IfOk result (λ made. region_count made ≡ 5) }
{
    let places = [
        Some(Place { region: 0, at: 0 }),
        Some(Place { region: 1, at: 0 }),
        Some(Place { region: 2, at: 0 }),
        Some(Place { region: 3, at: 0 }),
        outer,
    ];
    let all = Vec::from_slice(alloc, regions)?;
    let nodes = Vec::from_slice(alloc, &places)?;
    Ok(Nest {
        regions: Regions::from_vec(all),
        places: Places::from_vec(nodes),
    })
}

// Whether the regions prove a T-join of nodes 0 to 3.
fn judged(rt: &impl Abort, alloc: Global, row: &Row) -> Result<bool, NoMemory> {
    let (edges, regions, outer, _) = *row;
    let problem = problem_of(rt, alloc, &TRIANGLE)?;
    let join = EdgeList::from_vec(Vec::from_slice(alloc, edges)?);
    let nest = nest(alloc, &regions, outer)?;
    proves(alloc, &problem.web, &problem.terminals, &join, &nest)
}

#[test]
fn a_triangle_in_a_region_is_proved(rt: HostRuntime) -> Result<(), Fail> {
    for row in &ROWS {
        let is_proved = judged(&rt, rt.alloc(), row)?;
        expect(&rt, "answer", is_proved == row.3);
    }
    Ok(())
}
