ghost use Rattle.std.specs.Prelude.{◌≡◌, ℕ, ◌<◌, ◌≤◌, ◌%◌, ◌++◌, ◌∷◌, [], length, true, false, IfOk, OnOk, MatchOption, All, slice_index, ◌+◌, cond};
ghost use Rattle.sg_graph.specs.Web.{edge_count};
ghost use Rattle.sg_graph.specs.Walk.{IsConnectedWeb};
ghost use Rattle.sg_graph.specs.Incidence.{AreIncident, EndsAt, list_at};
ghost use Rattle.sg_postman.specs.Tour.{end_of};
ghost use Rattle.sg_postman.specs.Tracing.{left_of, open_ends, one_less, onward, to_go, AreTried, IsEulerTour, IsUsedUp, IsTracing};
ghost use Rattle.sg_postman.specs.declared.steps.Step.{Step};

use super::{NoMemory, Step};
use sg_graph::{Incidence, Web};
use std::alloc::Global;

/// A closed trail from node 0 that uses each copy of each edge once, for a connected graph whose copies
/// have even degrees, in time linear in nodes, edges and copies: of each node's edges, those before the
/// first that may have a copy left are never looked at again. `left` has the number of copies of each
/// edge, and counts them down.
///
/// The trail `out` continues over copies that are left. If its node has none, its last step moves to
/// the trail `back`, reversed. Degrees are even, so `back` starts just there and is a trail from node
/// 0 at all times: nothing is spliced, and nothing is reversed in the end.
pub fn trace(alloc: Global, web: &Web, left: &mut [u32]) -> Result<Vec<Step>, NoMemory>
    requires connected { IsConnectedWeb web.now }
    requires count { length left.old ≡ edge_count web.now }
    requires some { (e : ℕ) → e < edge_count web.now → 0 < left_of left.old e }
    requires even { (x : ℕ) → x < web.now.nodes → open_ends web.now left.old x % 2 ≡ 0 }
    ensures { IfOk result (λ steps. IsEulerTour web.now (left_of left.old) steps.items) }
{
    let incidence = Incidence::new(alloc, web)?;
    let mut tried = vec![in alloc; 0usize; web.nodes() as usize]?;
    let mut out: Vec<Step> = Vec::new(alloc);
    let mut back: Vec<Step> = Vec::new(alloc);
    let mut going = true;
    while going {
        going = advance(web, &incidence, left, &mut tried, &mut out, &mut back)?;
    }
    Ok(back)
}

// One step out or back, and whether there may be more.
fn advance(
    web: &Web,
    incidence: &Incidence,
    left: &mut [u32],
    tried: &mut Vec<usize>,
    out: &mut Vec<Step>,
    back: &mut Vec<Step>,
) -> Result<bool, NoMemory>
    requires incident { AreIncident web.now incidence.now }
    requires tried { AreTried incidence.now left.old tried.old.items }
    requires tracing { (copies : ℕ → ℕ) × IsTracing web.now copies left.old out.old.items back.old.items }
    ensures tried { OnOk result (AreTried incidence.now left.new tried.new.items) }
    ensures tracing { OnOk result ((copies : ℕ → ℕ) → IsTracing web.now copies left.old out.old.items back.old.items
        → IsTracing web.now copies left.new out.new.items back.new.items) }
    ensures falls { IfOk result (λ more. to_go left.new out.new.items + cond more 1 0 ≤ to_go left.old out.old.items) }
    ensures done { IfOk result (λ more. more ≡ false → (out.new.items ≡ []) × IsUsedUp web.now left.new 0) }
{
    let node = standing(out.as_slice());
    let _nodes = web.nodes();
    match open_edge(incidence, left, tried, node) {
        Some(edge) => {
            go(web, left, out, edge)?;
            Ok(true)
        }
        None => {
            let more = retreat(out, back)?;
            Ok(more)
        }
    }
}

// The node that steps from node 0 lead to.
fn standing(steps: &[Step]) -> u32
    ensures { result ≡ end_of 0 steps.now }
{
    match steps.last() {
        Some(step) => step.to,
        None => 0,
    }
}

// An edge at the node of which a copy is left. The search continues where the last one stopped.
fn open_edge(incidence: &Incidence, left: &[u32], tried: &mut Vec<usize>, node: u32) -> Option<u32>
    requires node { node < length incidence.now }
    requires edges { All (λ e. e < length left.now) (list_at incidence.now node) }
    requires tried { AreTried incidence.now left.now tried.old.items }
    ensures tried { AreTried incidence.now left.now tried.new.items }
    ensures found { MatchOption result
        ((k : ℕ) → k < length (list_at incidence.now node)
        → left_of left.now (slice_index (list_at incidence.now node) k) ≡ 0)
        (λ e. (k : ℕ) × (k < length (list_at incidence.now node))
        × (slice_index (list_at incidence.now node) k ≡ e) × (0 < left_of left.now e)) }
{
    let here = incidence.at(node);
    let place = open_place(here, left, tried[node as usize]);
    tried[node as usize] = place;
    if place < here.len() {
        Some(here[place])
    } else {
        None
    }
}

// The first place from this one on whose edge has a copy left, or where the edges end.
fn open_place(edges: &[u32], left: &[u32], from: usize) -> usize
    requires { All (λ e. e < length left.now) edges.now }
    ensures spent { (k : ℕ) → from ≤ k → k < result → left_of left.now (slice_index edges.now k) ≡ 0 }
    ensures open { result < length edges.now → 0 < left_of left.now (slice_index edges.now result) }
{
    let mut place = from;
    while place < edges.len() && left[edges[place] as usize] == 0 {
        place += 1;
    }
    place
}

// Goes on over an edge of which a copy is left.
fn go(web: &Web, left: &mut [u32], out: &mut Vec<Step>, edge: u32) -> Result<(), NoMemory>
    requires count { length left.old ≡ edge_count web.now }
    requires ends { EndsAt web.now (end_of 0 out.old.items) edge }
    requires some { 0 < left_of left.old edge }
    ensures out { OnOk result (out.new.items ≡ out.old.items ++ onward web.now out.old.items edge ∷ []) }
    ensures left { OnOk result (left.new ≡ one_less left.old edge) }
{
    let node = standing(out.as_slice());
    let to = web.edges().as_slice()[edge as usize].other(node);
    out.push(Step { edge, to })?;
    left[edge as usize] -= 1;
    Ok(())
}

// Takes the last step out back, and says whether there was one.
fn retreat(out: &mut Vec<Step>, back: &mut Vec<Step>) -> Result<bool, NoMemory>
    ensures more { IfOk result (λ more. more ≡ true → (s : Step) × (out.old.items ≡ out.new.items ++ s ∷ [])
        × (back.new.items ≡ back.old.items ++ record { edge = s.edge; to = end_of 0 out.new.items } ∷ [])) }
    ensures none { IfOk result (λ more. more ≡ false
        → (out.old.items ≡ []) × (out.new.items ≡ []) × (back.new.items ≡ back.old.items)) }
{
    match out.pop() {
        Some(step) => {
            let to = standing(out.as_slice());
            back.push(Step {
                edge: step.edge,
                to,
            })?;
            Ok(true)
        }
        None => Ok(false),
    }
}
