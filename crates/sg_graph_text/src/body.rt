ghost use Rattle.std.specs.Prelude.{◌≡◌, ◌<◌, ◌≤◌, [], List, true, None, Some, length, IfOk, IfErr, OnOk};
ghost use Rattle.sg_base.specs.Limits.{bond_limit, spin_limit};
ghost use Rattle.sg_graph.specs.Web.{IsEdge};
ghost use Rattle.sg_reader.specs.Body.{says_end};
ghost use Rattle.sg_reader.specs.Ended.{RefusesRecords, StatesToEnd, Fails, HoldsSome, RefusesNext, TakesNext};
ghost use Rattle.sg_reader.specs.Kept.{Kept};
ghost use Rattle.sg_graph_text.specs.Graph.{body_fault, body_graph, edge_fault, edge_of, IsGraphText, says_edge, says_term, HoldsGraph};

use super::graph::GraphText;
use super::terminals::list_terminals;
use sg_draft::{Limits, check_bond_count};
use sg_graph::{Edge, Edges, Terminals};
use sg_model::{Fault, Refusal};
use sg_reader::{Gather, Link, Range, Row, Rows, list_once, read_link, read_to_end};
use std::alloc::Global;

const EDGE: &[u8] = b"edge";

const TERM: &[u8] = b"term";

/// What the records of a graph have given so far.
#[derive(Drop)]
pub(crate) struct GraphBody {
    nodes: u32,
    terms: bool,
    edges: Edges,
    entries: Option<Terminals>,
}

// The edge of a record `edge,A,B,W`, where `m` edges precede it.
fn read_edge(row: &Row, n: u32, m: usize) -> Result<Edge, Refusal>
    requires some { 1 ≤ n }
    requires few { m ≤ bond_limit }
    ensures passes { IfOk result (λ e. edge_fault n m row.now ≡ None) }
    ensures value { IfOk result (λ e. e ≡ edge_of row.now) }
    ensures sound { IfOk result (IsEdge n) }
    ensures room { IfOk result (λ e. m < bond_limit) }
    ensures refused { IfErr result (λ e. edge_fault n m row.now ≡ Some e) }
{
    let Link { u, v, value } = read_link(row, n, Range::at_least(0))?;
    check_bond_count(Limits::of_program(), m + 1)?;
    Ok(Edge {
        a: u,
        b: v,
        w: value,
    })
}

impl GraphBody {
    fn new(alloc: Global, nodes: u32, terms: bool) -> Self
        requires some { 1 ≤ nodes }
        requires few { nodes ≤ spin_limit }
        ensures nodes { result.nodes ≡ nodes }
        ensures terms { result.terms ≡ terms }
        ensures holds { HoldsGraph result [] result }
    {
        GraphBody {
            nodes,
            terms,
            edges: Edges::new(alloc),
            entries: None,
        }
    }

    fn take_edge(&mut self, row: &Row) -> Result<(), Fault>
        requires held { HoldsSome HoldsGraph self.old }
        requires word { says_edge row.now ≡ true }
        ensures taken { OnOk result (TakesNext (λ s. body_fault s.terms s.nodes) HoldsGraph self.old row.now self.new) }
        ensures fault { IfErr result (RefusesNext (λ s. body_fault s.terms s.nodes) HoldsGraph self.old row.now) }
    {
        let edge = read_edge(row, self.nodes, self.edges.len())?;
        self.edges.push(edge)?;
        Ok(())
    }

    fn take_term(&mut self, alloc: Global, row: &Row) -> Result<(), Fault>
        requires allowed { self.old.terms ≡ true }
        requires word { says_term row.now ≡ true }
        ensures taken { OnOk result (TakesNext (λ s. body_fault s.terms s.nodes) HoldsGraph self.old row.now self.new) }
        ensures fault { IfErr result (RefusesNext (λ s. body_fault s.terms s.nodes) HoldsGraph self.old row.now) }
    {
        let entries = list_once(alloc, row, self.entries.is_some())?;
        self.entries = Some(entries);
        Ok(())
    }

    // The graph, where `row` is the `end` behind the records that were taken.
    fn graph(self, alloc: Global, row: &Row) -> Result<GraphText, Fault>
        requires end { says_end row.now ≡ true }
        requires held { HoldsSome HoldsGraph self }
        ensures passes { IfOk result (λ g. (start : _) (body : List Kept) → HoldsGraph start body self
            → body_fault start.terms start.nodes body row.now ≡ None) }
        ensures value { IfOk result (λ g. (start : _) (body : List Kept) → HoldsGraph start body self
            → g ≡ body_graph start.nodes body) }
        ensures sound { IfOk result IsGraphText }
        ensures fault { IfErr result (RefusesNext (λ s. body_fault s.terms s.nodes) HoldsGraph self row.now) }
    {
        row.check_shape(1)?;
        let entries = self.entries.unwrap_or(Terminals::new(alloc));
        let terminals = list_terminals(alloc, self.nodes, entries.as_slice())?;
        Ok(GraphText {
            nodes: self.nodes,
            edges: self.edges,
            terminals,
        })
    }
}

impl Gather for GraphBody {
    ghost tests = { λ start. body_fault start.terms start.nodes };

    ghost holds = { HoldsGraph };

    fn take(&mut self, alloc: Global, row: &Row) -> Result<(), Fault> {
        if row.begins(EDGE) {
            self.take_edge(row)
        } else if self.terms && row.begins(TERM) {
            self.take_term(alloc, row)
        } else {
            Err(Fault::Refused(Refusal::UnknownKind { at: row.at() }))
        }
    }
}

/// Reads the records of a graph of `n` nodes behind the first, up to its `end`, and gives the graph.
/// `terms` says whether a record of terminals may appear.
///
/// # Errors
/// The first test that a record fails, `UnknownKind` for a record of no kind, `BadTerminal` and
/// `OddTerminals` at the `end`; `Unended` where the records run out.
pub(crate) fn read_body(
    alloc: Global,
    records: &mut Rows<'_>,
    row: &mut Row,
    n: u32,
    terms: bool,
) -> Result<GraphText, Fault>
    requires some { 1 ≤ n }
    requires few { n ≤ spin_limit }
    ensures read { IfOk result (λ g. StatesToEnd (body_fault terms n) (body_graph n) records.old g records.new) }
    ensures sound { IfOk result IsGraphText }
    ensures fault { IfErr result (Fails (RefusesRecords (body_fault terms n) records.old) records.old records.new) }
{
    let mut body = GraphBody::new(alloc, n, terms);
    read_to_end(alloc, records, row, &mut body)?;
    let graph = body.graph(alloc, row)?;
    Ok(graph)
}
