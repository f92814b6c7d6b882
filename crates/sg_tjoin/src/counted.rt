// Minimum T-joins with the count of the steps that they took.
ghost use Rattle.std.specs.Prelude.{◌≡◌, ◌+◌, ◌<◌, ◌*◌, ◌%◌, ◌≤◌, [], length, pos, sum_by, IfErr, IfOk, IfSome, MatchOption};
ghost use Rattle.sg_graph.specs.Join.{AreTerminals, IsLeastJoin};
ghost use Rattle.sg_graph.specs.OddCut.{CutsPack, odd_cut_weight};
ghost use Rattle.sg_graph.specs.Walk.{IsConnectedWeb};
ghost use Rattle.sg_graph.specs.Web.{total_weight, weight_of};
ghost use Rattle.sg_nest.specs.Nest.{NestProves};
ghost use Rattle.sg_base.specs.Limits.{forced_limit};
ghost use Rattle.sg_regions.specs.Places.{place_count};
ghost use Rattle.sg_regions.specs.Steps.{Accounts};
ghost use Rattle.sg_tjoin.specs.Allowance.{IfTooLarge, table_bytes as bytes_of};
ghost use Rattle.sg_tjoin.specs.Counted.{HasMatched, IsAccounted, step_limit, steps_of};

use super::allowance::{Unproved, matched_within};
use super::judged::judged_join;
use super::matchings::Matchings;
use super::nested::nested_join;
use super::{Join, LeastJoin};
use sg_graph::{Terminals, Web};
use sg_regions::Regions;
use std::alloc::Global;

/// How many steps were taken: by growing regions, and by matchings. It takes no bytes.
///
/// A step of growing regions is a blossom that is made or taken apart, or an event, at which the duals change. A step of a
/// matching is one `shrink`, `expand` or `raise` of its blossoms.
#[derive(Drop)]
pub struct Taken {
    pub regions: Regions,
    pub matching: Matchings,
}

impl Taken {
    /// Before the first step.
    pub fn new() -> Taken
        ensures { steps_of result ≡ 0 }
    {
        Taken {
            regions: Regions::new(),
            matching: Matchings::new(),
        }
    }
}

/// The T-join of [`least_join_within`](super::least_join_within), and the count of the steps that it took: at
/// most `step_limit`, whatever answers.
///
/// The counts are those of the regions and of the matching themselves (`TakesRuns`, `matched_join_counted`).
/// A T-join with terminals is accounted for: at least one event, or a run of the matching.
pub fn least_join_counted(
    alloc: Global,
    web: &Web,
    terminals: &Terminals,
    most_bytes: u64,
    steps: &mut Taken,
) -> Result<Join, Unproved>
    requires connected { IsConnectedWeb web.now }
    requires terminals { AreTerminals web.now terminals.now }
    requires even { length terminals.now % 2 ≡ 0 }
    requires light { total_weight web.now ≤ forced_limit }
    ensures least { IfOk result (λ j. IsLeastJoin web.now terminals.now j.edges) }
    ensures weight { IfOk result (λ j. j.weight ≡ pos (weight_of web.now j.edges)) }
    ensures packs { IfOk result (λ j. CutsPack web.now terminals.now j.cuts) }
    ensures bare { IfOk result (λ j. terminals.now ≡ [] → (j.edges ≡ []) × (j.cuts ≡ [])) }
    ensures tight { IfOk result (λ j. sum_by odd_cut_weight j.cuts ≡ 2 * weight_of web.now j.edges) }
    ensures too_large { IfErr result (IfTooLarge (most_bytes < bytes_of (length terminals.now) web.now.nodes)) }
    ensures steps { IfOk result
        (λ _. steps_of steps.new ≤ steps_of steps.old + step_limit (length terminals.now) (place_count web.now)) }
    ensures accounted { IfOk result (λ _. IsAccounted (length terminals.now) 0 steps.old steps.new) }
{
    if let Some(join) = judged_join(alloc, web, terminals, &mut steps.regions)? {
        return Ok(join);
    }
    matched_within(alloc, web, terminals, most_bytes, &mut steps.matching)
}

/// The T-join of [`least_weight_within`](super::least_weight_within), and the count of the steps that it
/// took: at most `step_limit`, whatever answers.
///
/// Each T-join is accounted for: each blossom of its nest and at least one event, or a run of the
/// matching.
pub fn least_weight_counted(
    alloc: Global,
    web: &Web,
    terminals: &Terminals,
    most_bytes: u64,
    steps: &mut Taken,
) -> Result<LeastJoin, Unproved>
    requires connected { IsConnectedWeb web.now }
    requires terminals { AreTerminals web.now terminals.now }
    requires even { length terminals.now % 2 ≡ 0 }
    requires light { total_weight web.now ≤ forced_limit }
    ensures least { IfOk result (λ j. IsLeastJoin web.now terminals.now j.edges) }
    ensures weight { IfOk result (λ j. j.weight ≡ pos (weight_of web.now j.edges)) }
    ensures proves { IfOk result (λ j. IfSome j.nest (NestProves web.now terminals.now j.edges)) }
    ensures too_large { IfErr result (IfTooLarge (most_bytes < bytes_of (length terminals.now) web.now.nodes)) }
    ensures steps { IfOk result
        (λ _. steps_of steps.new ≤ steps_of steps.old + step_limit (length terminals.now) (place_count web.now)) }
    ensures accounted { IfOk result (λ j. MatchOption j.nest (HasMatched steps.old steps.new)
        (λ n. Accounts (length terminals.now) (length n.regions) steps.old.regions steps.new.regions)) }
{
    if let Some(join) = nested_join(alloc, web, terminals, &mut steps.regions)? {
        return Ok(join);
    }
    let join = matched_within(alloc, web, terminals, most_bytes, &mut steps.matching)?;
    Ok(LeastJoin {
        edges: join.edges,
        weight: join.weight,
        nest: None,
    })
}
