// Minimum T-joins on drawn graphs: what is proposed, beside the matching.

ghost use Rattle.sg_graph_text.specs.Network.{IsNetwork};

use super::facts::expect;
use super::graphs::{Family, drawn};
use super::proposals::assert_good;
use rand_core::utils::NextWord;
use rand_pcg::Pcg32;
use sg_graph_text::Network;
use sg_regions::propose;
use sg_tjoin::{least_join, matched_join};
use std::alloc::{AllocError, Global};
use std::process::Abort;
use std::test::Fail;

// What is proposed has to be good, and the T-join to weigh what that of the matching weighs.
fn assert_network(rt: &impl Abort, alloc: Global, network: &Network) -> Result<(), AllocError>
    requires { IsNetwork network.now.web network.now.terminals }
{
    let (web, terminals) = (&network.web, &network.terminals);
    assert_good(rt, alloc, web, terminals, "a graph")?;
    let answered = least_join(alloc, web, terminals)?.weight;
    let matched = matched_join(alloc, web, terminals)?.weight;
    expect(rt, "weight of the matching", answered == matched);
    Ok(())
}

// The same for a drawn graph.
fn assert_drawn(
    rt: &impl Abort,
    alloc: Global,
    family: Family,
    law: u32,
    draws: &mut Pcg32,
) -> Result<(), AllocError> {
    let network = drawn(rt, alloc, family, law, draws)?;
    assert_network(rt, alloc, &network)
}

// The same for graphs, each with the law of its weights.
fn assert_all(
    rt: &impl Abort,
    alloc: Global,
    seed: u64,
    graphs: &[(Family, u32)],
) -> Result<(), AllocError> {
    let mut draws = Pcg32::new(seed, 54);
    for (family, law) in graphs {
        assert_drawn(rt, alloc, *family, *law, &mut draws)?;
    }
    Ok(())
}

#[test]
fn drawn_webs(rt: HostRuntime) -> Result<(), Fail> {
    let mut draws = Pcg32::new(44, 54);
    for trial in 0..150u32 {
        let nodes = 1 + trial % 25;
        let more = draws.next_word() % (2 * nodes);
        let family = Family::Tree { nodes, more };
        assert_drawn(&rt, rt.alloc(), family, trial % 5, &mut draws)?;
    }
    Ok(())
}

// A node of more than 128 arcs is a hub. Heaps of hubs are in use where regions cover one and give it up again.
static HUBS: [(Family, u32); 12] = [
    (
        Family::Star {
            nodes: 180,
            has_rim: false,
        },
        3,
    ),
    (
        Family::Star {
            nodes: 180,
            has_rim: true,
        },
        3,
    ),
    (
        Family::Star {
            nodes: 181,
            has_rim: false,
        },
        3,
    ),
    (
        Family::Star {
            nodes: 181,
            has_rim: true,
        },
        3,
    ),
    (Family::Hubs { hubs: 1 }, 1),
    (Family::Hubs { hubs: 1 }, 3),
    (Family::Hubs { hubs: 2 }, 1),
    (Family::Hubs { hubs: 2 }, 3),
    (Family::Hubs { hubs: 3 }, 1),
    (Family::Hubs { hubs: 3 }, 3),
    (Family::Hubs { hubs: 5 }, 1),
    (Family::Hubs { hubs: 5 }, 3),
];

#[test]
fn hubs(rt: HostRuntime) -> Result<(), Fail> {
    Ok(assert_all(&rt, rt.alloc(), 51, &HUBS)?)
}

// On so many nodes, few blossoms are made, and few events taken.
fn assert_few_steps(
    rt: &impl Abort,
    alloc: Global,
    network: &Network,
    nodes: u32,
) -> Result<(), AllocError> {
    let growth = propose(alloc, &network.web, &network.terminals)?.growth;
    expect(rt, "few blossoms", growth.blossoms <= 2);
    expect(rt, "few events", growth.events <= 3 * u64::from(nodes));
    Ok(())
}

// The same for a star whose weights are all 1.
fn assert_few_steps_in_star(
    rt: &impl Abort,
    alloc: Global,
    nodes: u32,
    draws: &mut Pcg32,
) -> Result<(), AllocError> {
    let family = Family::Star {
        nodes,
        has_rim: false,
    };
    let network = drawn(rt, alloc, family, 1, draws)?;
    assert_few_steps(rt, alloc, &network, nodes)
}

// Regions that touch one bare node, of no more than 16 arcs, meet there two by two. Were it a wall, all would be proposed
// too, but each would take the free pair there over, and blossoms would be nested round the node.
#[test]
fn bare_nodes(rt: HostRuntime) -> Result<(), Fail> {
    let mut draws = Pcg32::new(53, 54);
    for nodes in 13..18 {
        assert_few_steps_in_star(&rt, rt.alloc(), nodes, &mut draws)?;
    }
    Ok(())
}

#[test]
fn stars(rt: HostRuntime) -> Result<(), Fail> {
    let mut draws = Pcg32::new(45, 54);
    for trial in 0..40u32 {
        let family = Family::Star {
            nodes: 2 + trial,
            has_rim: trial % 2 == 0,
        };
        assert_drawn(&rt, rt.alloc(), family, trial % 5, &mut draws)?;
    }
    Ok(())
}

// Two grids, and two trees with more edges.
static LARGE: [(Family, u32); 4] = [
    (Family::Grid { rows: 12, cols: 12 }, 1),
    (
        Family::Tree {
            nodes: 150,
            more: 300,
        },
        1,
    ),
    (Family::Grid { rows: 12, cols: 12 }, 4),
    (
        Family::Tree {
            nodes: 150,
            more: 300,
        },
        4,
    ),
];

// The matching is never asked where the proposal is good, and so runs on large graphs here alone.
#[test]
fn large_webs(rt: HostRuntime) -> Result<(), Fail> {
    Ok(assert_all(&rt, rt.alloc(), 46, &LARGE)?)
}
