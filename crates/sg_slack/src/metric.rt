ghost use Rattle.std.specs.Prelude.{◌≡◌, ◌↔◌, ℕ, ◌<◌, ◌≤◌, IsTrue};
ghost use Rattle.sg_base.specs.Limits.{cost_limit};
ghost use Rattle.sg_slack.specs.Fit.{IsEvenCost, IsFitCost, IsFitRow, AreFit, IsNoShortcut, IsDirect};
ghost use Rattle.sg_slack.specs.Metric.{IsMetric, cost};

use super::Costs;
use sg_base::COST_LIMIT;

/// Whether an engine takes these costs: those of an even number of leaves, even numbers from 0 to
/// [`COST_LIMIT`], the same both ways, 0 from a leaf to itself, and no way over a third leaf is cheaper than
/// the direct one.
///
/// It does not allocate. Cost: proportional to the third power of the number of leaves.
pub fn is_metric(costs: &Costs) -> bool
    ensures { IsTrue result ↔ IsMetric costs.now }
{
    if costs.size() % 2 != 0 {
        return false;
    }
    are_fit(costs) && are_direct(costs)
}

// Whether a cost is an even number within the bound.
fn is_even_cost(cost: i64) -> bool
    ensures { IsTrue result ↔ IsEvenCost cost }
{
    if cost < 0 {
        return false;
    }
    let number = cost as u64;
    number % 2 == 0 && number <= COST_LIMIT as u64
}

// Whether the cost of two leaves is such a number, and the same both ways.
fn is_fit(costs: &Costs, u: u32, v: u32) -> bool
    requires u { u < costs.now.size }
    requires v { v < costs.now.size }
    ensures { IsTrue result ↔ IsFitCost costs.now u v }
{
    is_even_cost(costs.cost(u, v)) && costs.cost(u, v) == costs.cost(v, u)
}

// Whether all costs of a leaf are fit, and it is joined to itself for nothing.
fn is_fit_row(costs: &Costs, u: u32) -> bool
    requires { u < costs.now.size }
    ensures { IsTrue result ↔ IsFitRow costs.now u }
{
    if costs.cost(u, u) != 0 {
        return false;
    }
    for v in 0..costs.size() {
        if !is_fit(costs, u, v) {
            return false;
        }
    }
    true
}

// Whether all costs are fit.
fn are_fit(costs: &Costs) -> bool
    ensures { IsTrue result ↔ AreFit costs.now }
{
    for u in 0..costs.size() {
        if !is_fit_row(costs, u) {
            return false;
        }
    }
    true
}

// The cost of two leaves without its sign.
fn number_of(costs: &Costs, u: u32, v: u32) -> u64
    requires u { u < costs.now.size }
    requires v { v < costs.now.size }
    requires fit { AreFit costs.now }
    ensures value { result ≡ cost costs.now u v }
    ensures small { result ≤ cost_limit }
{
    costs.cost(u, v) as u64
}

// Whether it is nowhere nearer from one leaf over another than direct.
fn is_no_shortcut(costs: &Costs, u: u32, v: u32) -> bool
    requires u { u < costs.now.size }
    requires v { v < costs.now.size }
    requires fit { AreFit costs.now }
    ensures { IsTrue result ↔ IsNoShortcut costs.now u v }
{
    let half = number_of(costs, u, v);
    for w in 0..costs.size() {
        if half + number_of(costs, v, w) < number_of(costs, u, w) {
            return false;
        }
    }
    true
}

// Whether it is over no other leaf nearer from a leaf than direct.
fn is_direct(costs: &Costs, u: u32) -> bool
    requires u { u < costs.now.size }
    requires fit { AreFit costs.now }
    ensures { IsTrue result ↔ IsDirect costs.now u }
{
    for v in 0..costs.size() {
        if !is_no_shortcut(costs, u, v) {
            return false;
        }
    }
    true
}

// Whether that holds from each leaf.
fn are_direct(costs: &Costs) -> bool
    requires { AreFit costs.now }
    ensures { IsTrue result ↔ ((u : ℕ) → u < costs.now.size → IsDirect costs.now u) }
{
    for u in 0..costs.size() {
        if !is_direct(costs, u) {
            return false;
        }
    }
    true
}
