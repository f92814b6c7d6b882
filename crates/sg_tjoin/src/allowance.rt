// What the tables of the matching fallback take, and minimum T-joins for which no more than so much is
// allowed.
ghost use Rattle.std.specs.Prelude.{◌≡◌, ◌<◌, ◌+◌, ◌*◌, ◌%◌, ◌≤◌, ℕ, List, [], length, pos, sum_by, Err, IfErr, IfOk, IfSome};
ghost use Rattle.sg_graph.specs.Join.{AreTerminals, IsLeastJoin};
ghost use Rattle.sg_graph.specs.OddCut.{CutsPack, odd_cut_weight};
ghost use Rattle.sg_graph.specs.Walk.{IsConnectedWeb};
ghost use Rattle.sg_graph.specs.Web.{Graph, IsWeb, total_weight, weight_of};
ghost use Rattle.sg_nest.specs.Nest.{NestProves};
ghost use Rattle.sg_base.specs.Limits.{forced_limit};
ghost use Rattle.sg_tjoin.specs.declared.allowance.Unproved.TheVariants.{TablesTooLarge as AreTooLarge};
ghost use Rattle.sg_tjoin.specs.Allowance.{IfTooLarge, table_bytes as bytes_of};

use super::counted::{Taken, least_join_counted, least_weight_counted};
use super::matched::matched_join_counted;
use super::matchings::Matchings;
use super::{Join, LeastJoin};
use sg_graph::{Terminals, Web};
use std::alloc::{AllocError, Global};

/// Why a call with an allowance has no minimum T-join.
#[derive(Clone, Copy, Debug, PartialEq, Eq)]
pub enum Unproved {
    /// The allocator had no memory left.
    NoMemory,
    /// No proposal was accepted, and the tables of the matching fallback take more bytes than are allowed.
    TablesTooLarge,
}

impl From<AllocError> for Unproved {
    ghost use Rattle.std.specs.Prelude.{◌≡◌};
    ghost use Rattle.sg_tjoin.specs.declared.allowance.Unproved.TheVariants.{NoMemory as OutOfMemory};

    ghost from_gives = { λ _ e. e ≡ OutOfMemory };

    fn from(_: AllocError) -> Self {
        Unproved::NoMemory
    }
}

/// How many bytes the tables of [`matched_join`] take for these terminals.
pub fn table_bytes(web: &Web, terminals: &Terminals) -> u64
    requires { AreTerminals web.now terminals.now }
    ensures { result ≡ bytes_of (length terminals.now) web.now.nodes }
{
    let _edges = web.edges();
    let nodes = u64::from(web.nodes());
    let count = terminals.len() as u64;
    count * (12 * nodes + 8 * count)
}

/// In a graph of `most` nodes or fewer the tables take at most `20 most^2` bytes: of 8192 nodes, as many
/// faces as an instance of the program has at most, less than `sg_base::TABLE_LIMIT`, and of 2^24, as many as any
/// graph has, less than 2^64.
///
/// It computes nothing: a caller cites this call.
pub fn tables_are_bounded()
    ensures { (g : Graph) (terminals : List ℕ) (most : ℕ) → AreTerminals g terminals → g.nodes ≤ most →
        bytes_of (length terminals) g.nodes ≤ 20 * (most * most) }
{}

/// The T-join of [`matched_join`], where its tables take no more than `most_bytes`. Where they take
/// more, and only there, they are too large, and nothing is allocated.
pub fn matched_join_within(
    alloc: Global,
    web: &Web,
    terminals: &Terminals,
    most_bytes: u64,
) -> Result<Join, Unproved>
    requires connected { IsConnectedWeb web.now }
    requires terminals { AreTerminals web.now terminals.now }
    requires even { length terminals.now % 2 ≡ 0 }
    requires light { total_weight web.now ≤ forced_limit }
    ensures least { IfOk result (λ j. IsLeastJoin web.now terminals.now j.edges) }
    ensures weight { IfOk result (λ j. j.weight ≡ pos (weight_of web.now j.edges)) }
    ensures packs { IfOk result (λ j. CutsPack web.now terminals.now j.cuts) }
    ensures bare { IfOk result (λ j. terminals.now ≡ [] → (j.edges ≡ []) × (j.cuts ≡ [])) }
    ensures tight { IfOk result (λ j. sum_by odd_cut_weight j.cuts ≡ 2 * weight_of web.now j.edges) }
    ensures too_large { IfErr result (IfTooLarge (most_bytes < bytes_of (length terminals.now) web.now.nodes)) }
    ensures refused { most_bytes < bytes_of (length terminals.now) web.now.nodes → result ≡ Err AreTooLarge }
{
    let mut steps = Matchings::new();
    matched_within(alloc, web, terminals, most_bytes, &mut steps)
}

// The same, with the count of its steps.
pub fn matched_within(
    alloc: Global,
    web: &Web,
    terminals: &Terminals,
    most_bytes: u64,
    steps: &mut Matchings,
) -> Result<Join, Unproved>
    requires connected { IsConnectedWeb web.now }
    requires terminals { AreTerminals web.now terminals.now }
    requires even { length terminals.now % 2 ≡ 0 }
    requires light { total_weight web.now ≤ forced_limit }
    ensures least { IfOk result (λ j. IsLeastJoin web.now terminals.now j.edges) }
    ensures weight { IfOk result (λ j. j.weight ≡ pos (weight_of web.now j.edges)) }
    ensures packs { IfOk result (λ j. CutsPack web.now terminals.now j.cuts) }
    ensures bare { IfOk result (λ j. terminals.now ≡ [] → (j.edges ≡ []) × (j.cuts ≡ [])) }
    ensures tight { IfOk result (λ j. sum_by odd_cut_weight j.cuts ≡ 2 * weight_of web.now j.edges) }
    ensures too_large { IfErr result (IfTooLarge (most_bytes < bytes_of (length terminals.now) web.now.nodes)) }
    ensures refused { most_bytes < bytes_of (length terminals.now) web.now.nodes → result ≡ Err AreTooLarge }
    ensures steps { IfOk result (λ _. steps.new.steps ≤ steps.old.steps + 2 * length terminals.now * length terminals.now) }
    ensures runs { IfOk result (λ _. steps.new.runs ≡ steps.old.runs + 1) }
{
    if most_bytes < table_bytes(web, terminals) {
        return Err(Unproved::TablesTooLarge);
    }
    Ok(matched_join_counted(alloc, web, terminals, steps)?.join)
}

/// The T-join of [`least_join`](super::least_join), where the tables of its fallback may take
/// `most_bytes`.
pub fn least_join_within(
    alloc: Global,
    web: &Web,
    terminals: &Terminals,
    most_bytes: u64,
) -> Result<Join, Unproved>
    requires connected { IsConnectedWeb web.now }
    requires terminals { AreTerminals web.now terminals.now }
    requires even { length terminals.now % 2 ≡ 0 }
    requires light { total_weight web.now ≤ forced_limit }
    ensures least { IfOk result (λ j. IsLeastJoin web.now terminals.now j.edges) }
    ensures weight { IfOk result (λ j. j.weight ≡ pos (weight_of web.now j.edges)) }
    ensures packs { IfOk result (λ j. CutsPack web.now terminals.now j.cuts) }
    ensures bare { IfOk result (λ j. terminals.now ≡ [] → (j.edges ≡ []) × (j.cuts ≡ [])) }
    ensures tight { IfOk result (λ j. sum_by odd_cut_weight j.cuts ≡ 2 * weight_of web.now j.edges) }
    ensures too_large { IfErr result (IfTooLarge (most_bytes < bytes_of (length terminals.now) web.now.nodes)) }
{
    let mut steps = Taken::new();
    least_join_counted(alloc, web, terminals, most_bytes, &mut steps)
}

/// The T-join of [`least_weight`](super::least_weight), where the tables of its fallback may take
/// `most_bytes`.
pub fn least_weight_within(
    alloc: Global,
    web: &Web,
    terminals: &Terminals,
    most_bytes: u64,
) -> Result<LeastJoin, Unproved>
    requires connected { IsConnectedWeb web.now }
    requires terminals { AreTerminals web.now terminals.now }
    requires even { length terminals.now % 2 ≡ 0 }
    requires light { total_weight web.now ≤ forced_limit }
    ensures least { IfOk result (λ j. IsLeastJoin web.now terminals.now j.edges) }
    ensures weight { IfOk result (λ j. j.weight ≡ pos (weight_of web.now j.edges)) }
    ensures proves { IfOk result (λ j. IfSome j.nest (NestProves web.now terminals.now j.edges)) }
    ensures too_large { IfErr result (IfTooLarge (most_bytes < bytes_of (length terminals.now) web.now.nodes)) }
{
    let mut steps = Taken::new();
    least_weight_counted(alloc, web, terminals, most_bytes, &mut steps)
}
