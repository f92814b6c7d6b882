// Rows by hand: where the judge says yes, and for each of its tests a proposal that fails that one.
use super::facts::expect;
use super::webs::{CutRow, Graph, problem_of};
use sg_graph::{Cut, Cuts, EdgeList, NoMemory};
use sg_join_check::{Growth, Growths, NodeList, Proposal, proves_least};
use std::alloc::Global;
use std::process::Abort;
use std::test::Fail;

// Whether a chain begins, and the nodes that change sides.
type GrowthRow<'a> = (bool, &'a [u32]);

// The edges of the join, the cuts, and how their node sets grow.
type ProposalRow<'a> = (&'a [u32], &'a [CutRow<'a>], &'a [GrowthRow<'a>]);

fn cuts_of(alloc: Global, rows: &[CutRow]) -> Result<Cuts, NoMemory> {
    let mut cuts = Cuts::new(alloc);
    for (y, list) in rows {
        let edges = EdgeList::from_vec(Vec::from_slice(alloc, list)?);
        cuts.push(Cut { y: *y, edges })?;
    }
    Ok(cuts)
}

fn growths_of(alloc: Global, rows: &[GrowthRow]) -> Result<(Growths, NodeList), NoMemory> {
    let mut growths = Growths::new(alloc);
    let mut nodes = Vec::new(alloc);
    for (fresh, list) in rows {
        nodes.extend_from_slice(list)?;
        let fresh = *fresh;
        let behind = u32::try_from(nodes.len()).unwrap_or(u32::MAX);
        growths.push(Growth { fresh, behind })?;
    }
    Ok((growths, NodeList::from_vec(nodes)))
}

// What is proposed in the rows of a table.
fn proposal_of(alloc: Global, row: &ProposalRow) -> Result<Proposal, NoMemory> {
    let (join, cuts, rows) = *row;
    let edges = EdgeList::from_vec(Vec::from_slice(alloc, join)?);
    let cuts = cuts_of(alloc, cuts)?;
    let (growths, nodes) = growths_of(alloc, rows)?;
    Ok(Proposal {
        edges,
        cuts,
        growths,
        nodes,
    })
}

// What the judge says of a proposal in this graph, for these terminals.
fn judged(
    rt: &impl Abort,
    alloc: Global,
    graph: &Graph,
    row: &ProposalRow,
) -> Result<bool, NoMemory> {
    let problem = problem_of(rt, alloc, graph)?;
    let proposed = proposal_of(alloc, row)?;
    proves_least(alloc, &problem.web, &problem.terminals, &proposed)
}

// A graph of five nodes, of which no edge ends at the last: the path 0, 1, 2 of weights 3 and 4, two
// long ways round it, an edge to itself as heavy as the path, and a heavy edge to node 3.
const SMALL: Graph = (
    5,
    &[
        (0, 1, 3),
        (1, 2, 4),
        (2, 0, 9),
        (0, 2, 20),
        (1, 1, 7),
        (3, 1, 50),
    ],
    &[0, 2],
);

// The path, and the two cuts that prove it.
const JOIN: &[u32] = &[0, 1];

const CUTS: &[CutRow] = &[(6, &[0, 2, 3]), (8, &[1, 2, 3])];

// The growths of these two cuts as one chain.
const CHAIN: &[GrowthRow] = &[(true, &[0]), (false, &[1, 3])];

// Proposals, each with its graph and whether the judge says yes. First some that it says yes to, then chains of any
// form, then for each of its tests a proposal that fails that one.
static ROWS: [(&str, Graph, ProposalRow, bool); 33] = [
    (
        "a path of three nodes",
        (3, &[(0, 1, 3), (1, 2, 4)], &[0, 2]),
        (
            &[0, 1],
            &[(6, &[0]), (8, &[1])],
            &[(true, &[0]), (false, &[1])],
        ),
        true,
    ),
    (
        "parallel edges",
        (2, &[(0, 1, 5), (1, 0, 3)], &[0, 1]),
        (&[1], &[(6, &[0, 1])], &[(true, &[1])]),
        true,
    ),
    (
        "an edge to itself",
        (2, &[(0, 0, 7), (0, 1, 2)], &[0, 1]),
        (&[1], &[(4, &[1])], &[(true, &[0])]),
        true,
    ),
    (
        "no terminals",
        (1, &[(0, 0, 7)], &[]),
        (&[], &[], &[]),
        true,
    ),
    (
        "edges of weight 0 that go round",
        (3, &[(0, 1, 0), (1, 2, 0), (2, 0, 0)], &[]),
        (&[0, 1, 2], &[], &[]),
        true,
    ),
    (
        "an edge of weight 0",
        (2, &[(0, 1, 0)], &[0, 1]),
        (&[0], &[], &[]),
        true,
    ),
    (
        "two components",
        (4, &[(0, 1, 1), (2, 3, 2)], &[0, 1, 2, 3]),
        (
            &[0, 1],
            &[(2, &[0]), (4, &[1])],
            &[(true, &[0]), (true, &[2])],
        ),
        true,
    ),
    (
        "a star with its middle",
        (4, &[(0, 1, 1), (0, 2, 1), (0, 3, 1)], &[0, 1, 2, 3]),
        (
            &[0, 1, 2],
            &[(2, &[0]), (2, &[1]), (2, &[2])],
            &[(true, &[1]), (true, &[2]), (false, &[2, 3])],
        ),
        true,
    ),
    (
        "one chain",
        SMALL,
        (JOIN, CUTS, &[(true, &[0]), (false, &[1, 3])]),
        true,
    ),
    (
        "a chain without a fresh growth",
        SMALL,
        (JOIN, CUTS, &[(false, &[0]), (false, &[3, 1])]),
        true,
    ),
    (
        "two chains, the first on the far side",
        SMALL,
        (JOIN, CUTS, &[(true, &[2, 1, 3]), (true, &[2, 4])]),
        true,
    ),
    (
        "two chains",
        SMALL,
        (JOIN, CUTS, &[(false, &[0, 4]), (true, &[2])]),
        true,
    ),
    (
        "nodes that change sides twice",
        SMALL,
        (JOIN, CUTS, &[(true, &[0, 2, 2]), (false, &[4, 0, 2])]),
        true,
    ),
    (
        "more cuts than one a node and three for two terminals",
        SMALL,
        (
            &[0, 1],
            &[
                (1, &[0, 2, 3]),
                (1, &[0, 2, 3]),
                (1, &[0, 2, 3]),
                (1, &[0, 2, 3]),
                (1, &[0, 2, 3]),
                (1, &[0, 2, 3]),
                (4, &[1, 2, 3]),
                (3, &[1, 2, 3]),
                (1, &[1, 2, 3]),
            ],
            &[
                (true, &[0]),
                (false, &[]),
                (false, &[]),
                (false, &[]),
                (false, &[]),
                (false, &[]),
                (false, &[1, 3]),
                (false, &[]),
                (false, &[]),
            ],
        ),
        false,
    ),
    (
        "a join that does not rise",
        SMALL,
        (&[1, 0], CUTS, CHAIN),
        false,
    ),
    (
        "a join out of range",
        SMALL,
        (&[0, 1, 6], CUTS, CHAIN),
        false,
    ),
    (
        "a join that misses the terminals",
        SMALL,
        (&[4], CUTS, CHAIN),
        false,
    ),
    (
        "a join that is too heavy",
        SMALL,
        (&[2], CUTS, CHAIN),
        false,
    ),
    ("no join", SMALL, (&[], CUTS, CHAIN), false),
    (
        "a cut that does not rise",
        SMALL,
        (&[0, 1], &[(6, &[2, 0, 3]), (8, &[1, 2, 3])], CHAIN),
        false,
    ),
    (
        "a cut with an edge twice",
        SMALL,
        (&[0, 1], &[(6, &[0, 2, 2, 3]), (8, &[1, 2, 3])], CHAIN),
        false,
    ),
    (
        "a cut out of range",
        SMALL,
        (&[0, 1], &[(6, &[0, 2, 3, 6]), (8, &[1, 2, 3])], CHAIN),
        false,
    ),
    (
        "a cut of weight 0",
        SMALL,
        (
            &[0, 1],
            &[(6, &[0, 2, 3]), (8, &[1, 2, 3]), (0, &[1, 2, 3])],
            &[(true, &[0]), (false, &[1, 3]), (false, &[])],
        ),
        false,
    ),
    (
        "a cut of negative weight",
        SMALL,
        (&[0, 1], &[(6, &[0, 2, 3]), (-8, &[1, 2, 3])], CHAIN),
        false,
    ),
    (
        "too large a load",
        SMALL,
        (&[0, 1], &[(7, &[0, 2, 3]), (7, &[1, 2, 3])], CHAIN),
        false,
    ),
    (
        "too large a load of two cuts",
        SMALL,
        (
            &[0, 1],
            &[(6, &[0, 2, 3]), (7, &[1, 2, 3]), (1, &[0, 2, 3])],
            &[(true, &[0]), (false, &[1, 3]), (false, &[1, 3])],
        ),
        false,
    ),
    (
        "a sum that is less than twice the join",
        SMALL,
        (&[0, 1], &[(6, &[0, 2, 3])], &[(true, &[0])]),
        false,
    ),
    (
        "an even number of terminals inside",
        SMALL,
        (
            &[0, 1],
            &[(6, &[0, 2, 3]), (8, &[5])],
            &[(true, &[0]), (true, &[3])],
        ),
        false,
    ),
    (
        "a cut that lacks an edge",
        SMALL,
        (&[0, 1], &[(6, &[0, 2]), (8, &[1, 2, 3])], CHAIN),
        false,
    ),
    (
        "a cut with an edge more",
        SMALL,
        (&[0, 1], &[(6, &[0, 2, 3, 5]), (8, &[1, 2, 3])], CHAIN),
        false,
    ),
    (
        "a growth less",
        SMALL,
        (&[0, 1], CUTS, &[(true, &[0])]),
        false,
    ),
    (
        "a growth more",
        SMALL,
        (
            &[0, 1],
            CUTS,
            &[(true, &[0]), (false, &[1, 3]), (true, &[])],
        ),
        false,
    ),
    (
        "a node that is none",
        SMALL,
        (&[0, 1], CUTS, &[(true, &[0]), (false, &[1, 3, 5])]),
        false,
    ),
];

#[test]
fn proposals_are_judged(rt: HostRuntime) -> Result<(), Fail> {
    for (name, graph, row, wanted) in &ROWS {
        let is_proved = judged(&rt, rt.alloc(), graph, row)?;
        expect(&rt, name, is_proved == *wanted);
    }
    Ok(())
}
