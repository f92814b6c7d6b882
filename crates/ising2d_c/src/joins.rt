// The calls on a weighted graph by numbers. Beside another status than 0 no result is written, and beside
// another than 1 no line.
ghost use Rattle.std.specs.Prelude.{◌≡◌, ◌≢◌, ◌⊎◌, ◌<◌, length};
ghost use Rattle.sg_base.specs.Limits.{spin_limit, table_limit};
ghost use Rattle.sg_graph_text.specs.Graph.{terminals_fault, terminals_of};
ghost use Rattle.sg_tjoin.specs.Allowance.{table_bytes};
ghost use Rattle.sg_calls.specs.Crossing.{Shows, TellsRefusal};
ghost use Rattle.sg_calls.specs.Joins.{HandsJoins, IsJoinVerdict, IsMinimumJoin, join_lists, SomeTablesExceed};
ghost use Rattle.sg_calls.specs.Networks.{GivesWeb, IsStatedFault, IsWebFault, lists_test, terminal_lists, web_by, web_numbers};
ghost use Rattle.sg_calls.specs.Proofs.{HandsNest, lists_fault, nest_lists};

use sg_calls::{
    GivenLists, GivenNest, GivenWeb, NO_PROOF, Unanswered, fill, join_of, joins_of, judge_join,
    refuse,
};
use sg_cli::Status;
use std::alloc::Global;

/// The weight of a minimum T-join, of how many edges it is, and of how many regions over how many nodes a nest is that
/// proves it.
#[repr(C)]
#[derive(Clone, Copy)]
pub struct JoinNumbers {
    pub weight: i64,
    pub edge_count: usize,
    pub region_count: usize,
    pub node_count: usize,
}

/// Finds a minimum T-join of the terminals in a weighted graph, and a nest of regions that proves it.
#[unsafe(no_mangle)]
pub extern "C" fn ising2d_c_join(
    alloc: Global,
    nodes: u32,
    ends: &[u32],
    weights: &[i64],
    terminals: &[u32],
    answer: &mut JoinNumbers,
    edges: &mut [u32],
    parents: &mut [u32],
    radii: &mut [u64],
    regions: &mut [u32],
    at_radii: &mut [u64],
    line: &mut [u8],
    line_written: &mut usize,
) -> u8
    ensures given { (result ≡ 0) ⊎ (result ≡ 5) → GivesWeb (web_numbers nodes ends.now weights.now) (terminals_fault nodes terminals.now) }
    ensures found { result ≡ 0 → IsMinimumJoin (web_by (web_numbers nodes ends.now weights.now)) (terminals_of nodes terminals.now) answer.new.weight (λ join nest.
        Shows join edges.old edges.new × (answer.new.edge_count ≡ length join)
        × HandsNest nest (nest_lists parents.old radii.old regions.old at_radii.old) (nest_lists parents.new radii.new regions.new at_radii.new) answer.new.region_count answer.new.node_count) }
    ensures refused { result ≡ 1 → TellsRefusal (IsWebFault (web_numbers nodes ends.now weights.now) (terminals_fault nodes terminals.now)) line.old line.new line_written.new }
    ensures too_large { result ≡ 5 → table_limit < table_bytes (length (terminals_of nodes terminals.now)) nodes }
    ensures large { result ≡ 5 → spin_limit < nodes }
    ensures codes { (result ≡ 0) ⊎ ((result ≡ 1) ⊎ ((result ≡ 5) ⊎ (result ≡ 6))) }
    ensures kept { result ≢ 0 → (answer.new ≡ answer.old) × (edges.new ≡ edges.old) × (parents.new ≡ parents.old) × (radii.new ≡ radii.old)
        × (regions.new ≡ regions.old) × (at_radii.new ≡ at_radii.old) }
    ensures kept_line { result ≢ 1 → (line.new ≡ line.old) × (line_written.new ≡ line_written.old) }
{
    let given = GivenWeb {
        nodes,
        ends,
        weights,
    };
    match join_of(alloc, &given, terminals) {
        Ok((found, rows)) => {
            *answer = JoinNumbers {
                weight: found.weight,
                edge_count: found.edges.len(),
                region_count: rows.parents.len(),
                node_count: rows.regions.len(),
            };
            fill(found.edges.as_slice(), edges);
            fill(rows.parents.as_slice(), parents);
            fill(rows.radii.as_slice(), radii);
            fill(rows.regions.as_slice(), regions);
            fill(rows.at_radii.as_slice(), at_radii);
            Status::Done.exit_code()
        }
        Err(Unanswered::Fault(fault)) => refuse(alloc, &fault, line, line_written),
        Err(Unanswered::TablesTooLarge) => NO_PROOF,
    }
}

/// Judges whether the edges are a minimum T-join of the terminals in a weighted graph, by a nest.
#[unsafe(no_mangle)]
pub extern "C" fn ising2d_c_join_check(
    alloc: Global,
    nodes: u32,
    ends: &[u32],
    weights: &[i64],
    terminals: &[u32],
    edges: &[u32],
    parents: &[u32],
    radii: &[u64],
    regions: &[u32],
    at_radii: &[u64],
    line: &mut [u8],
    line_written: &mut usize,
) -> u8
    ensures given { (result ≡ 0) ⊎ (result ≡ 3) → GivesWeb (web_numbers nodes ends.now weights.now) (terminals_fault nodes terminals.now) }
    ensures found { (result ≡ 0) ⊎ (result ≡ 3) → IsJoinVerdict (web_by (web_numbers nodes ends.now weights.now)) (terminals_of nodes terminals.now) edges.now
        (nest_lists parents.now radii.now regions.now at_radii.now) result }
    ensures refused { result ≡ 1 → TellsRefusal (IsStatedFault (web_numbers nodes ends.now weights.now) (terminals_fault nodes terminals.now) (lists_fault (nest_lists parents.now radii.now regions.now at_radii.now))) line.old line.new line_written.new }
    ensures codes { (result ≡ 0) ⊎ ((result ≡ 1) ⊎ ((result ≡ 3) ⊎ (result ≡ 6))) }
    ensures kept_line { result ≢ 1 → (line.new ≡ line.old) × (line_written.new ≡ line_written.old) }
{
    let given = GivenWeb {
        nodes,
        ends,
        weights,
    };
    let nest = GivenNest {
        parents,
        radii,
        regions,
        at_radii,
    };
    match judge_join(alloc, &given, terminals, edges, &nest) {
        Ok(code) => code,
        Err(fault) => refuse(alloc, &fault, line, line_written),
    }
}

/// Finds a minimum T-join of each list of terminals in a weighted graph.
#[unsafe(no_mangle)]
pub extern "C" fn ising2d_c_joins(
    alloc: Global,
    nodes: u32,
    ends: &[u32],
    weights: &[i64],
    starts: &[usize],
    terminals: &[u32],
    join_weights: &mut [i64],
    edge_starts: &mut [usize],
    edges: &mut [u32],
    edge_count: &mut usize,
    line: &mut [u8],
    line_written: &mut usize,
) -> u8
    ensures given { (result ≡ 0) ⊎ (result ≡ 5) → GivesWeb (web_numbers nodes ends.now weights.now) (lists_test nodes starts.now terminals.now) }
    ensures found { result ≡ 0 → HandsJoins (web_by (web_numbers nodes ends.now weights.now)) (terminal_lists nodes starts.now terminals.now)
        (join_lists join_weights.old edge_starts.old edges.old) (join_lists join_weights.new edge_starts.new edges.new) edge_count.new }
    ensures refused { result ≡ 1 → TellsRefusal (IsWebFault (web_numbers nodes ends.now weights.now) (lists_test nodes starts.now terminals.now)) line.old line.new line_written.new }
    ensures too_large { result ≡ 5 → SomeTablesExceed table_limit (terminal_lists nodes starts.now terminals.now) nodes }
    ensures large { result ≡ 5 → spin_limit < nodes }
    ensures codes { (result ≡ 0) ⊎ ((result ≡ 1) ⊎ ((result ≡ 5) ⊎ (result ≡ 6))) }
    ensures kept { result ≢ 0 → (join_weights.new ≡ join_weights.old) × (edge_starts.new ≡ edge_starts.old) × (edges.new ≡ edges.old)
        × (edge_count.new ≡ edge_count.old) }
    ensures kept_line { result ≢ 1 → (line.new ≡ line.old) × (line_written.new ≡ line_written.old) }
{
    let given = GivenWeb {
        nodes,
        ends,
        weights,
    };
    let lists = GivenLists {
        starts,
        entries: terminals,
    };
    match joins_of(alloc, &given, &lists) {
        Ok(found) => {
            fill(found.weights.as_slice(), join_weights);
            fill(found.starts.as_slice(), edge_starts);
            fill(found.edges.as_slice(), edges);
            *edge_count = found.edges.len();
            Status::Done.exit_code()
        }
        Err(Unanswered::Fault(fault)) => refuse(alloc, &fault, line, line_written),
        Err(Unanswered::TablesTooLarge) => NO_PROOF,
    }
}
