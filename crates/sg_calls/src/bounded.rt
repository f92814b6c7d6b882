// Bounds of the costs of bonds that a caller keeps: the graph with them, what is wrong with others, and how
// they go back.
ghost use Rattle.std.specs.Prelude.{◌≡◌, ◌<◌, ◌≤◌, length, find, int_le, nat_lt, not, position, All, None, Some, IfErr, IfOk, OnOk};
ghost use Rattle.std.specs.List.{range_with_len};
ghost use Rattle.sg_base.specs.Limits.{sum_limit};
ghost use Rattle.sg_draft.specs.Limits.{large_limits};
ghost use Rattle.sg_model.specs.Energy.{weight};
ghost use Rattle.sg_model.specs.Ising.{bond_count};
ghost use Rattle.sg_bonds.specs.Bounds.{no_bound};
ghost use Rattle.sg_calls.specs.BondCosts.{IsBoundsFault, SaysBounds, bound_by as bound_numbered, bound_lists, bounds_by, bounds_fault, is_above as is_not_below, wrong_asked as wrong_asked_of, wrong_high as wrong_high_of, wrong_low as wrong_low_of};
ghost use Rattle.sg_calls.specs.Graphs.{IsFitGraph, numbers_of};

use super::graphs::{Given, fit_graph};
use super::networks::check_place;
use sg_bonds::Bound;
use sg_draft::Limits;
use sg_model::{Fault, Refusal};
use sg_planar::Planar;
use std::alloc::{AllocError, Global};

// The numbers of the asked bonds, of the lower bounds and of the upper ones in the line of a refusal.
const ASKED: u32 = 14;

const LOW: u32 = 15;

const HIGH: u32 = 16;

/// A graph that is fit for a planar solver, and bounds of the costs of its bonds. Its drop is one call, as that of `Held`.
pub struct BoundedGraph {
    pub planar: Planar,
    pub bounds: Vec<Bound>,
}

impl Drop for BoundedGraph {
    fn drop(self) {
        let BoundedGraph {
            planar: _planar,
            bounds: _bounds,
        } = self;
    }
}

impl BoundedGraph {
    /// Its bounds; the graph is dropped.
    pub fn into_bounds(self) -> Vec<Bound>
        ensures { result.items ≡ self.bounds.items }
    {
        let BoundedGraph {
            planar: _planar,
            bounds,
        } = self;
        bounds
    }
}

/// The graph of these numbers with the bounds of a caller, who asks for some of its bonds.
///
/// # Errors
/// Those of [`fit_graph`], and then the first that is wrong of the asked bonds, the lower bounds and the upper
/// ones: `BadMember` with its entry.
pub fn bounded_graph(
    alloc: Global,
    given: &Given,
    asked: &[u32],
    low: &[i64],
    high: &[i64],
) -> Result<BoundedGraph, Fault>
    ensures given { IfOk result (λ graph. IsFitGraph large_limits (numbers_of given.now) graph.planar.instance) }
    ensures sum { IfOk result (λ graph. weight graph.planar.instance ≤ sum_limit) }
    ensures bounds { IfOk result (λ graph. graph.bounds.items ≡ bounds_by (bound_lists low.now high.now)) }
    ensures count { IfOk result (λ graph. length graph.bounds.items ≡ bond_count graph.planar.instance) }
    ensures asked { IfOk result (λ graph. All (λ k. k < bond_count graph.planar.instance) asked.now) }
    ensures low { IfOk result (λ graph. length low.now ≡ bond_count graph.planar.instance) }
    ensures high { IfOk result (λ graph. length high.now ≡ bond_count graph.planar.instance) }
    ensures passes { IfOk result (λ graph. bounds_fault (bond_count graph.planar.instance) asked.now (bound_lists low.now high.now) ≡ None) }
    ensures refuses { IfErr result (IsBoundsFault large_limits (numbers_of given.now) asked.now (bound_lists low.now high.now)) }
{
    let planar = fit_graph(alloc, Limits::large(), given)?;
    let mut graph = BoundedGraph {
        planar,
        bounds: Vec::new(alloc),
    };
    check_bounds(bonds_in(&graph.planar), asked, low, high)?;
    graph.bounds = joined_bounds(alloc, low, high)?;
    Ok(graph)
}

// How many bonds the instance has.
fn bonds_in(planar: &Planar) -> usize
    ensures { result ≡ bond_count planar.now.instance }
{
    planar.instance().bonds().len()
}

/// Writes bounds into the lists of a caller.
pub fn write_bounds(bounds: &[Bound], low: &mut [i64], high: &mut [i64])
    requires low { length low.old ≡ length bounds.now }
    requires high { length high.old ≡ length bounds.now }
    ensures { SaysBounds (bound_lists low.new high.new) bounds.now }
{
    for k in 0..bounds.len() {
        low[k] = bounds[k].low;
        high[k] = bounds[k].high;
    }
}

// The tests of the asked bonds and of the bounds, where there are so many bonds.
fn check_bounds(count: usize, asked: &[u32], low: &[i64], high: &[i64]) -> Result<(), Refusal>
    ensures asked { OnOk result (All (λ k. k < count) asked.now) }
    ensures low { OnOk result (length low.now ≡ count) }
    ensures high { OnOk result (length high.now ≡ count) }
    ensures passes { OnOk result (bounds_fault count asked.now (bound_lists low.now high.now) ≡ None) }
    ensures refused { IfErr result (λ e. bounds_fault count asked.now (bound_lists low.now high.now) ≡ Some e) }
{
    check_place(ASKED, wrong_asked(count, asked))?;
    check_place(LOW, wrong_low(count, low))?;
    check_place(HIGH, wrong_high(count, low, high))?;
    Ok(())
}

// The first asked number that is none of so many bonds.
fn wrong_asked(count: usize, asked: &[u32]) -> Option<usize>
    ensures { result ≡ wrong_asked_of count asked.now }
{
    asked.iter().position(|bond| !is_bond(count, *bond))
}

// Whether this is the number of one of so many bonds.
fn is_bond(count: usize, bond: u32) -> bool
    ensures { result ≡ nat_lt bond count }
{
    (bond as usize) < count
}

// The first lower bound that is below -1; the whole list where there is not one for each bond.
fn wrong_low(count: usize, low: &[i64]) -> Option<usize>
    ensures value { result ≡ wrong_low_of count low.now }
    ensures count { result ≡ None → length low.now ≡ count }
{
    if low.len() != count {
        return Some(0);
    }
    first_low(low)
}

// The first lower bound that is below -1.
fn first_low(low: &[i64]) -> Option<usize>
    ensures { result ≡ position (λ bound. not (int_le no_bound bound)) low.now }
{
    low.iter().position(|bound| !is_lower(*bound))
}

// Whether a lower bound is -1 or more.
fn is_lower(bound: i64) -> bool
    ensures { result ≡ int_le no_bound bound }
{
    -1 <= bound
}

// The first upper bound that is below the lower one; the whole list where there is not one for each bond.
fn wrong_high(count: usize, low: &[i64], high: &[i64]) -> Option<usize>
    requires { length low.now ≡ count }
    ensures value { result ≡ wrong_high_of count (bound_lists low.now high.now) }
    ensures count { result ≡ None → length high.now ≡ count }
{
    if high.len() != count {
        return Some(0);
    }
    first_crossed(count, low, high)
}

// The first upper bound that is below the lower one.
fn first_crossed(count: usize, low: &[i64], high: &[i64]) -> Option<usize>
    requires low { length low.now ≡ count }
    requires high { length high.now ≡ count }
    ensures { result ≡ find (λ k. not (is_not_below (bound_numbered (bound_lists low.now high.now) k))) (range_with_len 0 count) }
{
    (0..count).find(|k| !is_above(bound_by(low, high, *k)))
}

// Whether the upper bound is -1, or no less than the lower one.
fn is_above(bound: Bound) -> bool
    ensures { result ≡ is_not_below bound }
{
    bound.high == -1 || bound.low <= bound.high
}

// The bounds of each bond.
fn joined_bounds(alloc: Global, low: &[i64], high: &[i64]) -> Result<Vec<Bound>, AllocError>
    requires { length high.now ≡ length low.now }
    ensures { IfOk result (λ bounds. bounds.items ≡ bounds_by (bound_lists low.now high.now)) }
{
    (0..low.len())
        .map(|k| bound_by(low, high, k))
        .collect(alloc)
}

// The bounds of bond `k`.
fn bound_by(low: &[i64], high: &[i64], k: usize) -> Bound
    requires within { k < length low.now }
    requires count { length high.now ≡ length low.now }
    ensures { result ≡ bound_numbered (bound_lists low.now high.now) k }
{
    Bound {
        low: low[k],
        high: high[k],
    }
}
