// The costs of chosen bonds, by bounds that the caller keeps from call to call.
ghost use Rattle.std.specs.Prelude.{◌≡◌, length, IfErr, IfOk};
ghost use Rattle.sg_base.specs.Limits.{table_limit};
ghost use Rattle.sg_draft.specs.Limits.{large_limits};
ghost use Rattle.sg_bonds.specs.Bounds.{ForcedTablesExceed};
ghost use Rattle.sg_calls.specs.BondCosts.{BoundLists, FindsCosts, IsBoundsFault, SaysBounds, bound_lists};
ghost use Rattle.sg_calls.specs.Graphs.{Finds, IsFitGraph, IsTooLarge, IsUnanswered, numbers_of};

use super::bounded::bounded_graph;
use super::graphs::Given;
use super::unanswered::Unanswered;
use sg_base::TABLE_LIMIT;
use sg_bonds::{Bound, costs_of};
use std::alloc::Global;

/// The bounds when the costs of the asked bonds of the graph of these numbers are known.
pub fn bond_costs(
    alloc: Global,
    given: &Given,
    asked: &[u32],
    low: &[i64],
    high: &[i64],
) -> Result<Vec<Bound>, Unanswered>
    ensures gives { IfOk result (λ bounds. (after : BoundLists) → SaysBounds after bounds.items → Finds (IsFitGraph large_limits (numbers_of given.now))
        (FindsCosts asked.now (bound_lists low.now high.now) after)) }
    ensures low { IfOk result (λ bounds. length low.now ≡ length bounds.items) }
    ensures high { IfOk result (λ bounds. length high.now ≡ length bounds.items) }
    ensures refuses { IfErr result (IsUnanswered (IsBoundsFault large_limits (numbers_of given.now) asked.now (bound_lists low.now high.now))
        (IsTooLarge (numbers_of given.now) (ForcedTablesExceed table_limit))) }
{
    let mut graph = bounded_graph(alloc, given, asked, low, high)?;
    costs_of(alloc, &graph.planar, asked, &mut graph.bounds, TABLE_LIMIT)?;
    Ok(graph.into_bounds())
}
