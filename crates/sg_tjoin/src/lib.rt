//! Minimum T-joins on any weighted graph, with the packing of odd cuts that proves them (Edmonds and
//! Johnson 1973).
//!
//! For a physicist: in the dual graph of a planar spin glass the terminals are the frustrated faces, an
//! edge weighs the `|J|` of the bond that it crosses, and the bonds that a ground state breaks are a
//! minimum T-join. [`least_join`] finds one on every connected weighted graph, planar or not. Regions
//! that grow on the graph propose one with its odd cuts, and a proved judge says whether the cuts prove
//! it. If there is no proposal or the verdict is no, they grow again in the reverse order. If that is
//! rejected too, [`matched_join`] answers: the terminals are matched at costs of twice their distances,
//! and an edge belongs to the T-join if it is in an odd number of the mates' shortest walks. The duals
//! of the matching become odd cuts that weigh twice as much as the T-join, and by [`cuts_bound_joins`]
//! no T-join weighs less.
//!
//! For the next engineer: nothing here looks into the proposer, the judges or the engine. `judged` hands on
//! what `sg_join_check` says yes to, and `nested` what `sg_nest` does; these two are the only places where a
//! second proposal is asked for. `matched` is the way by a matching: `tables` searches from each terminal
//! over one incidence, `matching` lets the engine match them, `walks` marks what the mates' walks cross, and
//! `sg_moat` draws the cuts. That a T-join is least follows from the cuts alone: no T-join is taken apart
//! into walks. The tables grow as the product of terminals and nodes, so callers with large graphs use the
//! functions of `allowance`, which refuse tables that take more than is allowed; the others leave that to the
//! allocator. All are calls of `counted`, whose functions take a count of steps ([`Taken`]) and add to it
//! what the growing regions and the matching have counted themselves: at most `step_limit`. A [`Joiner`] keeps
//! what depends on the graph alone, for many lists of terminals.
#![tactic(auto)]

mod allowance;
mod counted;
mod joiner;
mod judged;
mod law;
mod matched;
mod matching;
mod matchings;
mod nested;
mod tables;
mod walks;
mod weight;

ghost use Rattle.std.specs.Prelude.{◌≡◌, ◌*◌, ◌%◌, ◌≤◌, [], length, pos, sum_by, IfOk, IfSome};
ghost use Rattle.sg_graph.specs.Join.{AreTerminals, IsLeastJoin};
ghost use Rattle.sg_graph.specs.OddCut.{CutsPack, odd_cut_weight};
ghost use Rattle.sg_graph.specs.Walk.{IsConnectedWeb};
ghost use Rattle.sg_graph.specs.Web.{total_weight, weight_of};
ghost use Rattle.sg_nest.specs.Nest.{NestProves};
ghost use Rattle.sg_base.specs.Limits.{forced_limit};

pub use allowance::{
    Unproved, least_join_within, least_weight_within, matched_join_within, table_bytes,
    tables_are_bounded,
};
pub use counted::{Taken, least_join_counted, least_weight_counted};
pub use joiner::Joiner;
pub use judged::judged_join;
pub use law::cuts_bound_joins;
pub use matched::{MatchedJoin, matched_join, matched_join_counted};
pub use matchings::Matchings;
pub use nested::nested_join;
use sg_graph::{Cuts, EdgeList, Terminals, Web};
use sg_nest::Nest;
use std::alloc::{AllocError, Global};

/// The allocator had no memory left.
pub type NoMemory = AllocError;

/// A T-join, its weight, and weighted odd cuts whose weights sum to twice that.
#[derive(Drop)]
pub struct Join {
    pub edges: EdgeList,
    pub weight: i64,
    pub cuts: Cuts,
}

/// A minimum T-join of the terminals, with the odd cuts that prove it.
///
/// The edges rise, and a node meets an odd number of their ends exactly where it is a terminal. Each
/// cut holds all edges that leave some set with an odd number of terminals, and no edge is loaded
/// with more than twice its weight. Without terminals there is no edge, and no cut.
///
/// Cost: that of `sg_regions::propose` and of the judge, linear in the graph and the cuts; as much
/// again for the retry if these have no answer, and that of `matched_join` if the retry has none. It
/// is [`least_join_counted`] with any tables allowed, which hands out the count of the steps.
pub fn least_join(alloc: Global, web: &Web, terminals: &Terminals) -> Result<Join, NoMemory>
    requires connected { IsConnectedWeb web.now }
    requires terminals { AreTerminals web.now terminals.now }
    requires even { length terminals.now % 2 ≡ 0 }
    requires light { total_weight web.now ≤ forced_limit }
    ensures least { IfOk result (λ j. IsLeastJoin web.now terminals.now j.edges) }
    ensures weight { IfOk result (λ j. j.weight ≡ pos (weight_of web.now j.edges)) }
    ensures packs { IfOk result (λ j. CutsPack web.now terminals.now j.cuts) }
    ensures bare { IfOk result (λ j. terminals.now ≡ [] → (j.edges ≡ []) × (j.cuts ≡ [])) }
    ensures tight { IfOk result (λ j. sum_by odd_cut_weight j.cuts ≡ 2 * weight_of web.now j.edges) }
{
    let _edges = web.edges();
    match least_join_within(alloc, web, terminals, u64::MAX) {
        Ok(join) => Ok(join),
        Err(Unproved::NoMemory) => Err(AllocError),
        Err(Unproved::TablesTooLarge) => unreachable!(),
    }
}

/// A T-join and its weight, with a nest of regions that proves it, where one was found.
#[derive(Drop)]
pub struct LeastJoin {
    pub edges: EdgeList,
    pub weight: i64,
    pub nest: Option<Nest>,
}

/// A minimum T-join of the terminals, and its weight, for callers that print no cuts: none are
/// made, since the regions that grow on the graph prove it themselves, as a nest. That there is a
/// nest no clause says.
///
/// Cost: that of `sg_regions::propose_nest` and of `sg_nest::proves`, as much again for the retry if these
/// have no answer, and that of [`matched_join`] if the retry has none. [`least_weight_counted`] counts the
/// steps.
pub fn least_weight(alloc: Global, web: &Web, terminals: &Terminals) -> Result<LeastJoin, NoMemory>
    requires connected { IsConnectedWeb web.now }
    requires terminals { AreTerminals web.now terminals.now }
    requires even { length terminals.now % 2 ≡ 0 }
    requires light { total_weight web.now ≤ forced_limit }
    ensures least { IfOk result (λ j. IsLeastJoin web.now terminals.now j.edges) }
    ensures weight { IfOk result (λ j. j.weight ≡ pos (weight_of web.now j.edges)) }
    ensures proves { IfOk result (λ j. IfSome j.nest (NestProves web.now terminals.now j.edges)) }
{
    let _edges = web.edges();
    match least_weight_within(alloc, web, terminals, u64::MAX) {
        Ok(join) => Ok(join),
        Err(Unproved::NoMemory) => Err(AllocError),
        Err(Unproved::TablesTooLarge) => unreachable!(),
    }
}
