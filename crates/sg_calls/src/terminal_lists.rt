// Many lists of terminals by numbers, for one weighted graph.
ghost use Rattle.std.specs.Prelude.{◌≡◌, ◌%◌, ◌<◌, ◌≤◌, ℕ, length, None, IfErr, IfOk};
ghost use Rattle.sg_base.specs.Limits.{large_spin_limit, sum_limit};
ghost use Rattle.sg_model.specs.Faults.{OrNoMemory};
ghost use Rattle.sg_draft.specs.Tests.{Refuses};
ghost use Rattle.sg_graph.specs.Incidence.{list_at};
ghost use Rattle.sg_graph.specs.Walk.{IsConnectedWeb};
ghost use Rattle.sg_graph.specs.Web.{total_weight};
ghost use Rattle.sg_calls.specs.Crossing.{DividesEntries};
ghost use Rattle.sg_calls.specs.Joins.{AreTerminalLists};
ghost use Rattle.sg_calls.specs.Networks.{GivesWeb, IsWebFault, list_count, list_faults, lists_test, terminal_lists, web_by, web_numbers_of};

use super::networks::{GivenWeb, check_place, check_web, joined_web};
use super::starts::{entries_at, wrong_start};
use sg_base::Lists;
use sg_graph::Web;
use sg_graph_text::list_terminals;
use sg_model::Fault;
use std::alloc::Global;

// The number of the starts in the line of a refusal.
const LIST_STARTS: u32 = 19;

/// Lists of terminals as a caller gives them: for each the place of its first terminal, with the number of all
/// behind them; and the terminals of all lists.
#[derive(Drop)]
pub struct GivenLists<'a> {
    pub starts: &'a [usize],
    pub entries: &'a [u32],
}

/// A connected weighted graph, and many lists of its nodes.
#[derive(Drop)]
pub struct ManyTerminals {
    pub web: Web,
    pub lists: Lists<u32>,
}

/// The connected graph of these numbers, with the terminals of each list.
///
/// # Errors
/// The first that is wrong, in this order: those of [`check_web`], `BadMember` for the starts, `BadTerminal` and
/// `OddTerminals` of the first list that is wrong, and those of [`joined_web`].
pub fn many_of(alloc: Global, given: &GivenWeb, lists: &GivenLists) -> Result<ManyTerminals, Fault>
    ensures gives { IfOk result (λ _. GivesWeb (web_numbers_of given.now) (lists_test given.now.nodes lists.now.starts.now lists.now.entries.now)) }
    ensures web { IfOk result (λ many. many.web ≡ web_by (web_numbers_of given.now)) }
    ensures lists { IfOk result (λ many. many.lists ≡ terminal_lists given.now.nodes lists.now.starts.now lists.now.entries.now) }
    ensures sound { IfOk result (λ many. AreTerminalLists many.web many.lists) }
    ensures light { IfOk result (λ many. total_weight many.web ≤ sum_limit) }
    ensures connected { IfOk result (λ many. IsConnectedWeb many.web) }
    ensures refuses { IfErr result (IsWebFault (web_numbers_of given.now) (lists_test given.now.nodes lists.now.starts.now lists.now.entries.now)) }
{
    check_web(given)?;
    let lists = lists_of(alloc, given.nodes, lists.starts, lists.entries)?;
    let web = joined_web(alloc, given)?;
    Ok(ManyTerminals { web, lists })
}

// The terminals of each list, rising.
fn lists_of(
    alloc: Global,
    nodes: u32,
    starts: &[usize],
    entries: &[u32],
) -> Result<Lists<u32>, Fault>
    requires { nodes ≤ large_spin_limit }
    ensures value { IfOk result (λ lists. lists ≡ terminal_lists nodes starts.now entries.now) }
    ensures even { IfOk result (λ lists. (k : ℕ) → k < length lists → length (list_at lists k) % 2 ≡ 0) }
    ensures passes { IfOk result (λ _. lists_test nodes starts.now entries.now ≡ None) }
    ensures refuses { IfErr result (OrNoMemory (Refuses (lists_test nodes starts.now entries.now))) }
{
    let count = starts.len().saturating_sub(1);
    check_place(LIST_STARTS, wrong_start(starts, count, entries.len()))?;
    divided(alloc, nodes, starts, entries)
}

// The same of starts that divide the entries.
fn divided(
    alloc: Global,
    nodes: u32,
    starts: &[usize],
    entries: &[u32],
) -> Result<Lists<u32>, Fault>
    requires nodes { nodes ≤ large_spin_limit }
    requires division { DividesEntries starts.now (list_count starts.now) (length entries.now) }
    ensures value { IfOk result (λ lists. lists ≡ terminal_lists nodes starts.now entries.now) }
    ensures even { IfOk result (λ lists. (k : ℕ) → k < length lists → length (list_at lists k) % 2 ≡ 0) }
    ensures passes { IfOk result (λ _. list_faults nodes starts.now entries.now ≡ None) }
    ensures refuses { IfErr result (OrNoMemory (Refuses (list_faults nodes starts.now entries.now))) }
{
    let mut lists = Lists::new(alloc);
    for k in 0..starts.len() - 1 {
        let terminals = list_terminals(alloc, nodes, entries_at(starts, entries, k))?;
        lists.push(terminals.as_slice())?;
    }
    Ok(lists)
}
