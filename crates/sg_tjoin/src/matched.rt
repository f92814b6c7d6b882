ghost use Rattle.std.specs.Prelude.{◌≡◌, ◌+◌, ◌*◌, ◌%◌, ◌<◌, ◌≤◌, [], length, pos, sum_by, IfOk};
ghost use Rattle.sg_graph.specs.Join.{AreTerminals, IsLeastJoin};
ghost use Rattle.sg_graph.specs.OddCut.{CutsPack, odd_cut_weight};
ghost use Rattle.sg_graph.specs.Walk.{IsConnectedWeb};
ghost use Rattle.sg_graph.specs.Web.{total_weight, weight_of};
ghost use Rattle.sg_base.specs.Limits.{forced_limit};
ghost use Rattle.sg_slack.specs.Matching.{sum_of_duals};

use super::matching::matching;
use super::matchings::Matchings;
use super::tables::terminal_tables;
use super::walks::odd_edges;
use super::weight::weight;
use super::{Join, NoMemory};
use sg_arena::Arena;
use sg_graph::{Terminals, Web};
use sg_moat::levels;
use std::alloc::Global;

/// A T-join, and the family of nested sets by which a matching proves it.
#[derive(Drop)]
pub struct MatchedJoin {
    pub join: Join,
    pub family: Arena,
}

/// A minimum T-join of the terminals, by a least matching of them at twice their distances and
/// without a proposal, with the odd cuts that prove it.
///
/// Cost: for `k` terminals in a graph of `n` nodes and `m` edges, `k` searches in `k (n + m) log
/// m`, the matching in at most `2 k^2` steps of `k^2`, and the cuts as `sg_moat::levels` says.
/// Memory: `12 k n + 8 k^2` bytes for the tables (`table_bytes`), and what the cuts take.
/// [`matched_join_within`](super::matched_join_within) does the same within an allowance, and
/// [`matched_join_counted`] counts the steps.
pub fn matched_join(alloc: Global, web: &Web, terminals: &Terminals) -> Result<Join, NoMemory>
    requires connected { IsConnectedWeb web.now }
    requires terminals { AreTerminals web.now terminals.now }
    requires even { length terminals.now % 2 ≡ 0 }
    requires light { total_weight web.now ≤ forced_limit }
    ensures least { IfOk result (λ j. IsLeastJoin web.now terminals.now j.edges) }
    ensures weight { IfOk result (λ j. j.weight ≡ pos (weight_of web.now j.edges)) }
    ensures packs { IfOk result (λ j. CutsPack web.now terminals.now j.cuts) }
    ensures bare { IfOk result (λ j. terminals.now ≡ [] → (j.edges ≡ []) × (j.cuts ≡ [])) }
    ensures tight { IfOk result (λ j. sum_by odd_cut_weight j.cuts ≡ 2 * weight_of web.now j.edges) }
{
    let mut steps = Matchings::new();
    Ok(matched_join_counted(alloc, web, terminals, &mut steps)?.join)
}

/// The T-join of [`matched_join`], with the family of sets that the matching handed back, and the count of
/// its steps.
///
/// The family has counted its steps itself, at most `2 k^2`, and just these are added. The weights of the
/// cuts sum to its duals, so it is the family by which the T-join is proved.
pub fn matched_join_counted(
    alloc: Global,
    web: &Web,
    terminals: &Terminals,
    steps: &mut Matchings,
) -> Result<MatchedJoin, NoMemory>
    requires connected { IsConnectedWeb web.now }
    requires terminals { AreTerminals web.now terminals.now }
    requires even { length terminals.now % 2 ≡ 0 }
    requires light { total_weight web.now ≤ forced_limit }
    ensures least { IfOk result (λ m. IsLeastJoin web.now terminals.now m.join.edges) }
    ensures weight { IfOk result (λ m. m.join.weight ≡ pos (weight_of web.now m.join.edges)) }
    ensures packs { IfOk result (λ m. CutsPack web.now terminals.now m.join.cuts) }
    ensures bare { IfOk result (λ m. terminals.now ≡ [] → (m.join.edges ≡ []) × (m.join.cuts ≡ [])) }
    ensures tight { IfOk result (λ m. sum_by odd_cut_weight m.join.cuts ≡ 2 * weight_of web.now m.join.edges) }
    ensures duals { IfOk result (λ m. sum_by odd_cut_weight m.join.cuts ≡ sum_of_duals m.family) }
    ensures bounded { IfOk result (λ m. m.family.steps ≤ 2 * length terminals.now * length terminals.now) }
    ensures counted { IfOk result (λ m. steps.new.steps ≡ steps.old.steps + m.family.steps) }
    ensures runs { IfOk result (λ _. steps.new.runs ≡ steps.old.runs + 1) }
{
    let _edges = web.edges();
    let nodes = terminals.as_slice();
    let tables = terminal_tables(alloc, web, nodes)?;
    let matched = matching(alloc, nodes, &tables)?;
    let edges = odd_edges(alloc, web, nodes, &tables, matched.mates.as_slice())?;
    let weight = weight(web, &edges);
    let cuts = levels(alloc, web, terminals, &tables, &matched.family)?;
    steps.add(&matched.family);
    Ok(MatchedJoin {
        join: Join {
            edges,
            weight,
            cuts,
        },
        family: matched.family,
    })
}
