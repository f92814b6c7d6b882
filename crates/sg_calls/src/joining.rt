// Minimum T-joins of the graph of some numbers, as they cross to a caller, and the judge of what a caller states.
ghost use Rattle.std.specs.Prelude.{◌≡◌, ◌<◌, ◌≤◌, ◌⊎◌, length, IfErr, IfOk};
ghost use Rattle.sg_base.specs.Limits.{forced_limit, table_limit};
ghost use Rattle.sg_model.specs.Faults.{OrNoMemory};
ghost use Rattle.sg_draft.specs.Tests.{Refuses};
ghost use Rattle.sg_graph.specs.Incidence.{list_at};
ghost use Rattle.sg_graph.specs.Join.{AreTerminals};
ghost use Rattle.sg_graph.specs.Walk.{IsConnectedWeb};
ghost use Rattle.sg_graph.specs.Web.{total_weight};
ghost use Rattle.sg_graph_text.specs.Graph.{terminals_fault, terminals_of};
ghost use Rattle.sg_tjoin.specs.Allowance.{IfTooLarge, table_bytes};
ghost use Rattle.sg_calls.specs.Graphs.{IsUnanswered};
ghost use Rattle.sg_calls.specs.Joins.{AreLeastJoins, AreTerminalLists, HasJoinRows, IsJoinVerdict, IsMinimumJoin, join_lists, join_weights, SomeTablesExceed};
ghost use Rattle.sg_calls.specs.Networks.{GivesWeb, IsStatedFault, IsWebFault, lists_test, terminal_lists, web_by, web_numbers_of};
ghost use Rattle.sg_calls.specs.Proofs.{AreRowsOf, lists_fault, nest_given, nest_lists};

use super::held::Held;
use super::nests::{GivenNest, NestRows, check_lists, nest_by, rows_of_nest};
use super::networks::{GivenWeb, network_of};
use super::tables::joined;
use super::terminal_lists::{GivenLists, many_of};
use super::unanswered::Unanswered;
use sg_base::{Lists, Numbers, TABLE_LIMIT};
use sg_cli::Status;
use sg_graph::{EdgeList, Terminals, Web};
use sg_graph_text::Network;
use sg_model::Fault;
use sg_nest::proves;
use sg_tjoin::{Joiner, LeastJoin, Unproved, least_weight_within};
use std::alloc::{AllocError, Global};

/// A minimum T-join of the terminals in the graph of these numbers, and the nest that proves it as rows, where one
/// was found.
pub fn join_of(
    alloc: Global,
    given: &GivenWeb,
    terminals: &[u32],
) -> Result<(LeastJoin, NestRows), Unanswered>
    ensures given { IfOk result (λ _. GivesWeb (web_numbers_of given.now) (terminals_fault given.now.nodes terminals.now)) }
    ensures gives { IfOk result (λ found. IsMinimumJoin (web_by (web_numbers_of given.now)) (terminals_of given.now.nodes terminals.now) found.0.weight (λ edges nest.
        (found.0.edges ≡ edges) × AreRowsOf (nest_lists found.1.parents.items found.1.radii.items found.1.regions.items found.1.at_radii.items) nest)) }
    ensures refuses { IfErr result (IsUnanswered (IsWebFault (web_numbers_of given.now) (terminals_fault given.now.nodes terminals.now))
        (GivesWeb (web_numbers_of given.now) (terminals_fault given.now.nodes terminals.now)
        × (table_limit < table_bytes (length (terminals_of given.now.nodes terminals.now)) given.now.nodes))) }
{
    let network = network_of(alloc, given, terminals)?;
    let network = Held { value: network };
    let join = least_weight_within(
        alloc,
        &network.value.web,
        &network.value.terminals,
        TABLE_LIMIT,
    )?;
    let rows = rows_of_nest(alloc, &join.nest)?;
    Ok((join, rows))
}

/// T-joins as rows: the weight of each, the place of its first edge with the number of all behind them, and the
/// edges of all.
#[derive(Drop)]
pub struct JoinRows {
    pub weights: Numbers<i64>,
    pub starts: Vec<usize>,
    pub edges: Vec<u32>,
}

/// A minimum T-join of each list of terminals in the graph of these numbers, as rows.
pub fn joins_of(alloc: Global, given: &GivenWeb, lists: &GivenLists) -> Result<JoinRows, Unanswered>
    ensures given { IfOk result (λ _. GivesWeb (web_numbers_of given.now) (lists_test given.now.nodes lists.now.starts.now lists.now.entries.now)) }
    ensures gives { IfOk result (λ rows. HasJoinRows (web_by (web_numbers_of given.now)) (terminal_lists given.now.nodes lists.now.starts.now lists.now.entries.now)
        (join_lists rows.weights rows.starts.items rows.edges.items)) }
    ensures refuses { IfErr result (IsUnanswered (IsWebFault (web_numbers_of given.now) (lists_test given.now.nodes lists.now.starts.now lists.now.entries.now))
        (GivesWeb (web_numbers_of given.now) (lists_test given.now.nodes lists.now.starts.now lists.now.entries.now)
        × SomeTablesExceed table_limit (terminal_lists given.now.nodes lists.now.starts.now lists.now.entries.now) given.now.nodes)) }
{
    let many = many_of(alloc, given, lists)?;
    let many = Held { value: many };
    let found = least_joins(alloc, &many.value.web, &many.value.lists)?;
    let (starts, edges) = joined(alloc, &found.joins)?;
    Ok(JoinRows {
        weights: found.weights,
        starts,
        edges,
    })
}

// Minimum T-joins, each as its list of edges, and what they weigh.
#[derive(Drop)]
struct LeastJoins {
    joins: Lists<u32>,
    weights: Numbers<i64>,
}

// A minimum T-join of each list of terminals, with its weight, in the order of the lists.
fn least_joins(alloc: Global, web: &Web, lists: &Lists<u32>) -> Result<LeastJoins, Unproved>
    requires connected { IsConnectedWeb web.now }
    requires lists { AreTerminalLists web.now lists.now }
    requires light { total_weight web.now ≤ forced_limit }
    ensures least { IfOk result (λ found. AreLeastJoins web.now lists.now found.joins) }
    ensures weights { IfOk result (λ found. found.weights ≡ join_weights web.now found.joins) }
    ensures too_large { IfErr result (IfTooLarge (SomeTablesExceed table_limit lists.now web.now.nodes)) }
{
    let mut joiner = Held {
        value: Joiner::new(web),
    };
    let mut found = Held {
        value: LeastJoins {
            joins: Lists::new(alloc),
            weights: Numbers::new(alloc),
        },
    };
    for i in 0..lists.len() {
        let terminals = terminals_at(alloc, lists, i)?;
        let join = joiner
            .value
            .least_weight_within(alloc, &terminals, TABLE_LIMIT)?;
        let join = Held { value: join };
        found.value.joins.push(join.value.edges.as_slice())?;
        found.value.weights.push(join.value.weight)?;
    }
    Ok(found.into_value())
}

// The terminals of a list.
fn terminals_at(alloc: Global, lists: &Lists<u32>, i: usize) -> Result<Terminals, AllocError>
    requires { i < length lists.now }
    ensures { IfOk result (λ terminals. terminals ≡ list_at lists.now i) }
{
    Ok(Terminals::from_vec(Vec::from_slice(alloc, lists.at(i))?))
}

/// How a call ends that judges whether these edges are a minimum T-join of the terminals by the nest that these
/// numbers state.
pub fn judge_join(
    alloc: Global,
    given: &GivenWeb,
    terminals: &[u32],
    edges: &[u32],
    nest: &GivenNest,
) -> Result<u8, Fault>
    ensures given { IfOk result (λ _. GivesWeb (web_numbers_of given.now) (terminals_fault given.now.nodes terminals.now)) }
    ensures gives { IfOk result (IsJoinVerdict (web_by (web_numbers_of given.now)) (terminals_of given.now.nodes terminals.now) edges.now (nest_given nest.now)) }
    ensures codes { IfOk result (λ code. (code ≡ 0) ⊎ (code ≡ 3)) }
    ensures refuses { IfErr result (IsStatedFault (web_numbers_of given.now) (terminals_fault given.now.nodes terminals.now) (lists_fault (nest_given nest.now))) }
{
    let network = network_of(alloc, given, terminals)?;
    join_verdict(alloc, &network, edges, nest)
}

// The same of a connected graph and its terminals.
fn join_verdict(
    alloc: Global,
    network: &Network,
    edges: &[u32],
    nest: &GivenNest,
) -> Result<u8, Fault>
    requires { AreTerminals network.now.web network.now.terminals }
    ensures gives { IfOk result (IsJoinVerdict network.now.web network.now.terminals edges.now (nest_given nest.now)) }
    ensures codes { IfOk result (λ code. (code ≡ 0) ⊎ (code ≡ 3)) }
    ensures refuses { IfErr result (OrNoMemory (Refuses (lists_fault (nest_given nest.now)))) }
{
    check_lists(nest)?;
    let edges = EdgeList::from_vec(Vec::from_slice(alloc, edges)?);
    let nest = nest_by(alloc, nest)?;
    let nest = Held { value: nest };
    if proves(alloc, &network.web, &network.terminals, &edges, &nest.value)? {
        Ok(Status::Done.exit_code())
    } else {
        Ok(Status::No.exit_code())
    }
}
