ghost use Rattle.std.specs.Prelude.{◌≡◌, ◌≤◌, ◌∷◌, None, IfOk, IfErr};
ghost use Rattle.sg_base.specs.Limits.{spin_limit};
ghost use Rattle.sg_reader.specs.Ended.{Fails};
ghost use Rattle.sg_reader.specs.Tests.{size_in};
ghost use Rattle.sg_graph_text.specs.Graph.{IsGraphText, size_fault, ReadsGraph, RefusesGraph};

use super::body::read_body;
use super::graph::GraphText;
use super::size::read_size;
use sg_model::{Fault, Refusal};
use sg_reader::{Row, Rows};
use std::alloc::Global;

// The number of nodes, in the first record.
fn next_size(rows: &mut Rows<'_>, row: &mut Row, terms: bool) -> Result<u32, Fault>
    ensures split { IfOk result (λ n. rows.old ≡ row.new ∷ rows.new) }
    ensures passes { IfOk result (λ n. size_fault row.new ≡ None) }
    ensures value { IfOk result (λ n. n ≡ size_in row.new 1) }
    ensures some { IfOk result (λ n. 1 ≤ n) }
    ensures few { IfOk result (λ n. n ≤ spin_limit) }
    ensures fault { IfErr result (Fails (RefusesGraph terms rows.old) rows.old rows.new) }
{
    if !rows.next(row)? {
        return Err(Fault::Refused(Refusal::Unended));
    }
    let nodes = read_size(row)?;
    Ok(nodes)
}

/// Reads a graph from the records of a text. Those behind its `end` are left. `terms` says whether
/// terminals may be given.
///
/// The records count as those of an instance do.
///
/// - The first record is `graph,N` with the number of nodes.
/// - Then come the edges, each `edge,A,B,W` with its ends and its weight, which is not negative; both
///   ends may be one node, and edges may be parallel.
/// - Where `terms` is set, a record `term,T,..` gives the terminals, in any order; without one there
///   are none.
/// - The record `end` ends the graph.
///
/// # Errors
/// The refusal of the first record that fails a test, and of its tests the first that fails: of the
/// first record `UnknownKind`, `BadShape`, `BadNumber`, `TooManySpins` above 2048 nodes; of an edge
/// `BadShape`, `BadNumber`, `TooManyBonds` above 6144 edges; of the terminals `BadShape` where they
/// are given a second time, `BadNumber`; of another record `UnknownKind`; of the `end` `BadShape`,
/// then `BadTerminal` with the first terminal that is no node or is listed earlier, then
/// `OddTerminals`. What follows that record is left. `Unended` where the records run out.
/// `NoMemory` may come at any time, and some records are left then, perhaps none.
///
/// The time is linear in the bytes and the nodes, and the memory is that of the graph and of the
/// longest record.
pub fn read_graph(alloc: Global, rows: &mut Rows<'_>, terms: bool) -> Result<GraphText, Fault>
    ensures read { IfOk result (λ g. ReadsGraph terms rows.old g rows.new) }
    ensures sound { IfOk result IsGraphText }
    ensures fault { IfErr result (Fails (RefusesGraph terms rows.old) rows.old rows.new) }
{
    let mut row = Row::new(alloc);
    let nodes = next_size(rows, &mut row, terms)?;
    read_body(alloc, rows, &mut row, nodes, terms)
}
