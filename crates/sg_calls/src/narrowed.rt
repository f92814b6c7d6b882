// Bounds of the costs of all bonds at once.
ghost use Rattle.std.specs.Prelude.{◌≡◌, [], length, IfErr, IfOk};
ghost use Rattle.sg_base.specs.Limits.{table_limit};
ghost use Rattle.sg_draft.specs.Limits.{large_limits};
ghost use Rattle.sg_bonds.specs.Weakened.{WeakenedTablesExceed};
ghost use Rattle.sg_calls.specs.BondCosts.{BoundLists, DecidesBonds, IsBoundsFault, SaysBounds, bound_lists};
ghost use Rattle.sg_calls.specs.Graphs.{Finds, IsFitGraph, IsTooLarge, IsUnanswered, numbers_of};

use super::bounded::bounded_graph;
use super::graphs::Given;
use super::unanswered::Unanswered;
use sg_base::TABLE_LIMIT;
use sg_bonds::{Bound, bond_bounds};
use std::alloc::Global;

/// The narrowed bounds of the graph of these numbers.
pub fn cost_bounds(
    alloc: Global,
    given: &Given,
    rounds: u32,
    low: &[i64],
    high: &[i64],
) -> Result<Vec<Bound>, Unanswered>
    ensures gives { IfOk result (λ bounds. (after : BoundLists) → SaysBounds after bounds.items → Finds (IsFitGraph large_limits (numbers_of given.now))
        (DecidesBonds (bound_lists low.now high.now) after)) }
    ensures low { IfOk result (λ bounds. length low.now ≡ length bounds.items) }
    ensures high { IfOk result (λ bounds. length high.now ≡ length bounds.items) }
    ensures refuses { IfErr result (IsUnanswered (IsBoundsFault large_limits (numbers_of given.now) [] (bound_lists low.now high.now))
        (IsTooLarge (numbers_of given.now) (WeakenedTablesExceed table_limit))) }
{
    let mut graph = bounded_graph(alloc, given, &[], low, high)?;
    bond_bounds(alloc, &graph.planar, &mut graph.bounds, rounds, TABLE_LIMIT)?;
    Ok(graph.into_bounds())
}
