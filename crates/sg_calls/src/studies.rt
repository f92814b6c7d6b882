// Studies of a graph: what is found of it, as it crosses to a caller.
ghost use Rattle.std.specs.Prelude.{◌≡◌, IfOk, IfErr};
ghost use Rattle.sg_bonds.specs.Cluster.{AreClusters};
ghost use Rattle.sg_bonds.specs.Cost.{AreCosts};
ghost use Rattle.sg_bonds.specs.Weakened.{WeakenedTablesExceed};
ghost use Rattle.sg_calls.specs.Proofs.{AreRows, AreRowsOf, loop_lists, nest_lists};
ghost use Rattle.sg_calls.specs.Graphs.{Finds, IsFitFault, IsFitGraph, IsTooLarge, IsUnanswered, IsWallFault, numbers_of};
ghost use Rattle.sg_calls.specs.Grounds.{IsExact, IsGround, IsNested, IsWallAtSeam};
ghost use Rattle.sg_draft.specs.Limits.{large_limits, program_limits};
ghost use Rattle.sg_ground.specs.Allowance.{TablesExceed};
ghost use Rattle.sg_base.specs.Limits.{table_limit};
ghost use Rattle.sg_wall.specs.Wall.{WallTablesExceed};

use super::graphs::{Given, fit_graph};
use super::held::Held;
use super::nests::{NestRows, rows_of_nest};
use super::rows::{Rows, rows_of};
use super::unanswered::Unanswered;
use sg_base::TABLE_LIMIT;
use sg_bonds::{CostList, clusters_within, costs};
use sg_draft::Limits;
use sg_ground::{Answer, NestedState, nested_state, solve_within};
use sg_model::{ClusterList, Fault, Refusal};
use sg_wall::{WallAnswer, wall_within};
use std::alloc::Global;

/// A ground state of the graph of these numbers, and the loops that prove it as rows.
pub fn ground_of(alloc: Global, given: &Given) -> Result<(Answer, Rows), Unanswered>
    ensures gives { IfOk result (λ found. Finds (IsFitGraph large_limits (numbers_of given.now)) (λ inst. IsGround inst found.0.energy (λ s loops.
        (found.0.spins ≡ s) × AreRows (loop_lists found.1.weights.items found.1.starts.items found.1.bonds.items) loops))) }
    ensures refuses { IfErr result (IsUnanswered (IsFitFault large_limits (numbers_of given.now))
        (IsTooLarge (numbers_of given.now) (TablesExceed table_limit))) }
{
    let planar = fit_graph(alloc, Limits::large(), given)?;
    let planar = Held { value: planar };
    let answer = solve_within(alloc, &planar.value, TABLE_LIMIT)?;
    let rows = rows_of(alloc, answer.loops.as_slice())?;
    Ok((answer, rows))
}

/// A ground state of the graph of these numbers, and the nest that proves it as rows, where one was found.
pub fn nest_of(alloc: Global, given: &Given) -> Result<(NestedState, NestRows), Unanswered>
    ensures gives { IfOk result (λ found. Finds (IsFitGraph large_limits (numbers_of given.now)) (λ inst. IsNested inst found.0.energy (λ s nest.
        (found.0.spins ≡ s) × AreRowsOf (nest_lists found.1.parents.items found.1.radii.items found.1.regions.items found.1.at_radii.items) nest))) }
    ensures refuses { IfErr result (IsUnanswered (IsFitFault large_limits (numbers_of given.now))
        (IsTooLarge (numbers_of given.now) (TablesExceed table_limit))) }
{
    let planar = fit_graph(alloc, Limits::large(), given)?;
    let planar = Held { value: planar };
    let state = nested_state(alloc, &planar.value, TABLE_LIMIT)?;
    let rows = rows_of_nest(alloc, &state.nest)?;
    Ok((state, rows))
}

/// The energies of the wall at the seam of the graph of these numbers.
pub fn wall_of(alloc: Global, given: &Given) -> Result<WallAnswer, Unanswered>
    ensures gives { IfOk result (λ found. Finds (IsFitGraph large_limits (numbers_of given.now))
        (λ inst. IsWallAtSeam inst found.periodic found.antiperiodic found.difference)) }
    ensures refuses { IfErr result (IsUnanswered (IsWallFault large_limits (numbers_of given.now))
        (IsTooLarge (numbers_of given.now) (WallTablesExceed table_limit))) }
{
    let planar = fit_graph(alloc, Limits::large(), given)?;
    let planar = Held { value: planar };
    if planar.value.instance().seam().is_empty() {
        return Err(Unanswered::Fault(Fault::Refused(Refusal::NoSeam)));
    }
    Ok(wall_within(alloc, &planar.value, TABLE_LIMIT)?)
}

/// The cost of each bond of the graph of these numbers.
pub fn costs_of(alloc: Global, given: &Given) -> Result<CostList, Fault>
    ensures gives { IfOk result (λ found. Finds (IsFitGraph program_limits (numbers_of given.now)) (λ inst. IsExact (AreCosts inst) (λ c. found ≡ c))) }
    ensures refuses { IfErr result (IsFitFault program_limits (numbers_of given.now)) }
{
    let planar = fit_graph(alloc, Limits::of_program(), given)?;
    let planar = Held { value: planar };
    Ok(costs(alloc, &planar.value)?)
}

/// The cluster of each spin of the graph of these numbers.
pub fn clusters_of(alloc: Global, given: &Given) -> Result<ClusterList, Unanswered>
    ensures gives { IfOk result (λ found. Finds (IsFitGraph large_limits (numbers_of given.now)) (λ inst. IsExact (AreClusters inst) (λ c. found ≡ c))) }
    ensures refuses { IfErr result (IsUnanswered (IsFitFault large_limits (numbers_of given.now))
        (IsTooLarge (numbers_of given.now) (WeakenedTablesExceed table_limit))) }
{
    let planar = fit_graph(alloc, Limits::large(), given)?;
    let planar = Held { value: planar };
    Ok(clusters_within(alloc, &planar.value, TABLE_LIMIT)?)
}
