// Minimum T-joins among those that have an edge, or that do not: proposed by repairs, and judged.
ghost use Rattle.std.specs.Prelude.{◌≡◌, ◌<◌, ◌≤◌, ◌^◌, ◌&&◌, ℕ, false, length, pos, All, IfOk, IfSome, IsTrue};
ghost use Rattle.std.specs.List.Sorted.{IsStrictlyIncreasing};
ghost use Rattle.sg_base.specs.Limits.{forced_limit};
ghost use Rattle.sg_base.specs.Ends.{is_end};
ghost use Rattle.sg_base.specs.Parity.{xor};
ghost use Rattle.sg_base.specs.Sets.{holds, is_marked};
ghost use Rattle.sg_graph.specs.Join.{AreTerminals, IsLeastJoin};
ghost use Rattle.sg_graph.specs.Web.{edge_at, edge_count, total_weight, weight_of};
ghost use Rattle.sg_bonds.specs.JoinsWith.{IsLeastBeside, IsLeastJoinWith, turned_at};

use super::NoMemory;
use sg_base::{all_below, flip, places};
use sg_graph::{EdgeList, Terminals, Web, turn_ends};
use sg_nest::{Judge, Nest};
use sg_repairs::Repairs;
use std::alloc::Global;

/// A weighted graph and its terminals, with a judge of T-joins.
#[derive(Drop)]
pub(crate) struct JudgedWeb {
    pub web: Web,
    pub terminals: Terminals,
    pub judge: Judge,
}

/// The minimum T-join that the finished regions prove; nothing if they prove none. The graph is
/// unchanged afterwards.
pub(crate) fn join_of(
    alloc: Global,
    judged: &mut JudgedWeb,
    repairs: &Repairs,
) -> Result<Option<EdgeList>, NoMemory>
    requires { AreTerminals judged.old.web judged.old.terminals }
    ensures web { judged.new.web ≡ judged.old.web }
    ensures terminals { judged.new.terminals ≡ judged.old.terminals }
    ensures least { IfOk result (λ found. IfSome found (IsLeastJoin judged.old.web judged.old.terminals)) }
{
    let marks = join_marks(alloc, &judged.web, repairs)?;
    whole_join(alloc, judged, repairs.nest(), &marks)
}

/// A minimum T-join among those that contain the edge (`has`) or avoid it; nothing if the proposal
/// proves none. The graph is unchanged afterwards.
///
/// The finished regions prove a minimum T-join. If it contains or avoids the edge as required, it is
/// the answer. Else the regions are repaired for the graph without the edge, and the T-join that they
/// prove there is the answer, with the edge added if it was required. A loop edge needs no repair.
pub(crate) fn join_with(
    alloc: Global,
    judged: &mut JudgedWeb,
    repairs: &mut Repairs,
    edge: u32,
    has: bool,
) -> Result<Option<EdgeList>, NoMemory>
    requires edge { edge < edge_count judged.old.web }
    requires terminals { AreTerminals judged.old.web judged.old.terminals }
    requires light { total_weight judged.old.web ≤ forced_limit }
    ensures web { judged.new.web ≡ judged.old.web }
    ensures terminals { judged.new.terminals ≡ judged.old.terminals }
    ensures join { IfOk result (λ found. IfSome found
        (IsLeastJoinWith judged.old.web judged.old.terminals edge has)) }
{
    let mut marks = join_marks(alloc, &judged.web, repairs)?;
    if marks[edge as usize] == has {
        return whole_join(alloc, judged, repairs.nest(), &marks);
    }
    let Some(turn) = repairs.turn(edge)? else {
        return turned_join(alloc, judged, repairs.nest(), &mut marks, edge, has);
    };
    turn_marks(&mut marks, turn.walk.as_slice());
    turned_join(alloc, judged, &turn.nest, &mut marks, edge, has)
}

/// What a T-join weighs.
pub(crate) fn weight(web: &Web, edges: &EdgeList) -> i64
    requires rising { IsStrictlyIncreasing edges.now }
    requires below { All (λ e. e < edge_count web.now) edges.now }
    ensures { result ≡ pos (weight_of web.now edges.now) }
{
    web.weight(edges.as_slice()) as i64
}

// A mark for each edge, set for those of the T-join that the finished regions prove.
fn join_marks(alloc: Global, web: &Web, repairs: &Repairs) -> Result<Vec<bool>, NoMemory>
    ensures count { IfOk result (λ marks. length marks.items ≡ edge_count web.now) }
    ensures few { edge_count web.now ≤ 2 ^ 24 }
{
    let mut marks = vec![in alloc; false; web.edges().len()]?;
    turn_marks(&mut marks, repairs.join().as_slice());
    Ok(marks)
}

// Turns the marks at the places of the list, if it names no others.
fn turn_marks(marks: &mut [bool], list: &[u32])
    ensures { length marks.new ≡ length marks.old }
{
    if all_below(list, marks.len()) {
        flip(marks, list);
    }
}

// The marked edges, if the nest proves that they are a minimum T-join.
fn whole_join(
    alloc: Global,
    judged: &mut JudgedWeb,
    nest: &Nest,
    marks: &[bool],
) -> Result<Option<EdgeList>, NoMemory>
    requires count { length marks.now ≡ edge_count judged.old.web }
    requires few { edge_count judged.old.web ≤ 2 ^ 24 }
    requires terminals { AreTerminals judged.old.web judged.old.terminals }
    ensures web { judged.new.web ≡ judged.old.web }
    ensures terminals { judged.new.terminals ≡ judged.old.terminals }
    ensures least { IfOk result (λ found. IfSome found (IsLeastJoin judged.old.web judged.old.terminals)) }
    ensures join { IfOk result (λ found. IfSome found (λ edges. (k : ℕ) → k < edge_count judged.old.web →
        IsLeastJoinWith judged.old.web judged.old.terminals k (is_marked marks.now k) edges)) }
{
    let edges = places(alloc, marks)?;
    if !judged
        .judge
        .proves(&judged.web, &judged.terminals, &edges, nest)?
    {
        return Ok(None);
    }
    Ok(Some(edges))
}

// The marked edges, with the edge as is said, if the nest proves them least without it.
fn turned_join(
    alloc: Global,
    judged: &mut JudgedWeb,
    nest: &Nest,
    marks: &mut [bool],
    edge: u32,
    has: bool,
) -> Result<Option<EdgeList>, NoMemory>
    requires edge { edge < edge_count judged.old.web }
    requires count { length marks.old ≡ edge_count judged.old.web }
    requires few { edge_count judged.old.web ≤ 2 ^ 24 }
    requires terminals { AreTerminals judged.old.web judged.old.terminals }
    requires light { total_weight judged.old.web ≤ forced_limit }
    ensures web { judged.new.web ≡ judged.old.web }
    ensures terminals { judged.new.terminals ≡ judged.old.terminals }
    ensures join { IfOk result (λ found. IfSome found
        (IsLeastJoinWith judged.old.web judged.old.terminals edge has)) }
{
    marks[edge as usize] = false;
    let rest = places(alloc, marks)?;
    let ends = terminals_turned(alloc, &judged.web, &judged.terminals, edge, has)?;
    if !proves_beside(&mut judged.web, &mut judged.judge, edge, &ends, &rest, nest)? {
        return Ok(None);
    }
    marks[edge as usize] = has;
    Ok(Some(places(alloc, marks)?))
}

// The terminals, toggled at both ends of the edge if the T-join must contain it.
fn terminals_turned(
    alloc: Global,
    web: &Web,
    terminals: &Terminals,
    edge: u32,
    has: bool,
) -> Result<Terminals, NoMemory>
    requires edge { edge < edge_count web.now }
    requires terminals { AreTerminals web.now terminals.now }
    ensures { IfOk result (λ turned. turned ≡ turned_at web.now terminals.now edge has) }
{
    let mut marks = vec![in alloc; false; web.nodes() as usize]?;
    turn_terminals(web, terminals.as_slice(), edge, has, &mut marks);
    places(alloc, &marks)
}

// Marks the terminals, with no mark set before, and toggles the marks at the ends of the edge if the
// T-join must contain it.
fn turn_terminals(web: &Web, terminals: &[u32], edge: u32, has: bool, marks: &mut [bool])
    requires edge { edge < edge_count web.now }
    requires terminals { AreTerminals web.now terminals.now }
    requires nodes { length marks.old ≡ web.now.nodes }
    requires bare { (x : ℕ) → is_marked marks.old x ≡ false }
    ensures count { length marks.new ≡ length marks.old }
    ensures turned { (x : ℕ) → x < web.now.nodes → is_marked marks.new x
        ≡ xor (holds terminals.now x) (has && is_end (edge_at web.now edge).a (edge_at web.now edge).b x) }
{
    flip(marks, terminals);
    if has {
        turn_ends(web, &[edge], marks);
    }
}

// Whether the edges are proved to be a minimum T-join of the terminals in the graph where the edge
// weighs as much as all edges together, so that no height climbs past it. The graph is unchanged
// afterwards.
fn proves_beside(
    web: &mut Web,
    judge: &mut Judge,
    edge: u32,
    terminals: &Terminals,
    edges: &EdgeList,
    nest: &Nest,
) -> Result<bool, NoMemory>
    requires edge { edge < edge_count web.old }
    requires terminals { AreTerminals web.old terminals.now }
    requires rising { IsStrictlyIncreasing edges.now }
    requires below { All (λ e. e < edge_count web.old) edges.now }
    requires light { total_weight web.old ≤ forced_limit }
    ensures web { web.new ≡ web.old }
    ensures least { IfOk result (λ yes. IsTrue yes → IsLeastBeside web.old terminals.now edge edges.now) }
{
    let far = web.weight(edges.as_slice()) as i64;
    let weight = web.set_weight(edge, far);
    let verdict = judge.proves(web, terminals, edges, nest);
    web.set_weight(edge, weight);
    verdict
}
