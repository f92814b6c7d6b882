ghost use Rattle.std.specs.Prelude.{◌≡◌, ◌≤◌, ◌+◌, ◌*◌, ◌^◌, [], IfOk, None, length, replicate, vec_capacity};
ghost use Rattle.sg_arena.specs.Changes.{OnlyLeaves};
ghost use Rattle.sg_arena.specs.Family.{leaf_count};

use super::mates::derive_mates;
use super::{Edge, Engine, Matched, Mates, NoMemory, Stage, TreeEdge};
use sg_arena::{Arena, Link};
use sg_base::Steps;
use sg_slack::{Costs, Mark, Near};
use std::alloc::Global;
use std::sync::ledger::Ledger;

// The names of the nodes of leaves, with room for more names.
fn leaf_names(alloc: Global, arena: &Arena, k: u32, room: usize) -> Result<Vec<usize>, NoMemory>
    requires leaves { k ≡ leaf_count arena.now }
    requires room { k ≤ room }
    ensures items { IfOk result (λ names. names.items ≡ arena.now.leaf_nodes) }
    ensures room { IfOk result (λ names. room ≤ vec_capacity names) }
{
    let mut names = Vec::with_capacity(alloc, room)?;
    for leaf in 0..k {
        names.push_reserved(arena.leaf_node(leaf));
    }
    Ok(names)
}

// No pair under each name below the room.
fn no_pairs(alloc: Global, room: usize) -> Result<Vec<Option<Edge>>, NoMemory>
    ensures { IfOk result (λ pairs. pairs.items ≡ replicate room None) }
{
    Ok(vec![in alloc; None; room]?)
}

// An arena of leaves alone, no pair under each of its names, and the names of its leaves.
#[derive(Drop)]
struct Alone {
    arena: Arena,
    pairs: Vec<Option<Edge>>,
    exposed: Vec<usize>,
}

// So many leaves, none of which has a pair.
fn leaves_alone(alloc: Global, k: u32) -> Result<Alone, NoMemory>
    requires { k ≤ 2 ^ 24 }
    ensures leaves { IfOk result (λ x. leaf_count x.arena ≡ k) }
    ensures alone { IfOk result (λ x. OnlyLeaves x.arena) }
    ensures fresh { IfOk result (λ x. x.arena.steps ≡ 0) }
    ensures pairs { IfOk result (λ x. x.pairs.items ≡ replicate (length x.arena.nodes) None) }
    ensures exposed { IfOk result (λ x. x.exposed.items ≡ x.arena.leaf_nodes) }
    ensures room { IfOk result (λ x. length x.arena.nodes ≤ vec_capacity x.exposed) }
{
    let arena = Arena::open(alloc, k)?;
    let room = arena.room();
    let pairs = no_pairs(alloc, room)?;
    let exposed = leaf_names(alloc, &arena, k, room)?;
    Ok(Alone {
        arena,
        pairs,
        exposed,
    })
}

// Lists that a step fills.
#[derive(Drop)]
struct Lists {
    edges: Vec<TreeEdge>,
    outer: Vec<usize>,
    inner: Vec<usize>,
    cycle: Vec<Link>,
    ring: Vec<Link>,
}

// Empty lists, with room for so many names, and for the links of all of them and of one more.
fn empty_lists(alloc: Global, room: usize) -> Result<Lists, NoMemory>
    ensures empty { IfOk result (λ lists. lists.edges.items ≡ []) }
    ensures edges { IfOk result (λ lists. room ≤ vec_capacity lists.edges) }
    ensures outer { IfOk result (λ lists. room + 1 ≤ vec_capacity lists.outer) }
    ensures inner { IfOk result (λ lists. room ≤ vec_capacity lists.inner) }
    ensures cycle { IfOk result (λ lists. 2 * room + 1 ≤ vec_capacity lists.cycle) }
    ensures ring { IfOk result (λ lists. 2 * room + 1 ≤ vec_capacity lists.ring) }
{
    let edges = Vec::with_capacity(alloc, room)?;
    let outer = Vec::with_capacity(alloc, room + 1)?;
    let inner = Vec::with_capacity(alloc, room)?;
    let cycle = Vec::with_capacity(alloc, 2 * room + 1)?;
    let ring = Vec::with_capacity(alloc, 2 * room + 1)?;
    Ok(Lists {
        edges,
        outer,
        inner,
        cycle,
        ring,
    })
}

// Tables by leaf.
#[derive(Drop)]
struct Tables {
    tops: Vec<usize>,
    totals: Vec<i64>,
    marks: Vec<Mark>,
    mates: Vec<u32>,
}

// The tables over so many leaves.
fn tables_of(alloc: Global, k: u32) -> Result<Tables, NoMemory>
    ensures tops { IfOk result (λ tables. length tables.tops.items ≡ k) }
    ensures totals { IfOk result (λ tables. length tables.totals.items ≡ k) }
    ensures marks { IfOk result (λ tables. length tables.marks.items ≡ k) }
    ensures mates { IfOk result (λ tables. length tables.mates.items ≡ k) }
{
    let count = k as usize;
    let tops = vec![in alloc; 0usize; count]?;
    let totals = vec![in alloc; 0i64; count]?;
    let marks = vec![in alloc; Mark::Free; count]?;
    let mates = vec![in alloc; 0u32; count]?;
    Ok(Tables {
        tops,
        totals,
        marks,
        mates,
    })
}

impl Engine {
    ghost use Rattle.std.specs.Prelude.{◌≡◌, ℕ, ◌+◌, ◌*◌, ◌≤◌, List, IfOk};
    ghost use Rattle.sg_arena.specs.Changes.{OnlyLeaves};
    ghost use Rattle.sg_arena.specs.Family.{IsFamily, leaf_count};
    ghost use Rattle.sg_match.specs.Engine.{IsEngine};
    ghost use Rattle.sg_match.specs.Steps.{steps_left};
    ghost use Rattle.sg_slack.specs.Matching.{IsMatching, IsPairing, NoSlackIsNegative, pairing_cost, sum_of_duals};
    ghost use Rattle.sg_slack.specs.Metric.{IsMetric, cost};

    /// An engine over these costs, which it keeps, with all the memory that it will need. Each leaf
    /// is an unpaired top with dual 0.
    ///
    /// Cost: proportional to the number of leaves.
    pub fn open(alloc: Global, costs: Costs) -> Result<Engine, NoMemory>
        requires { IsMetric costs }
        ensures table { IfOk result (λ e. e.table ≡ costs) }
        ensures leaves { IfOk result (λ e. OnlyLeaves e.family) }
        ensures engine { IfOk result IsEngine }
        ensures fresh { IfOk result (λ e. e.family.steps ≡ 0) }
        ensures left { IfOk result (λ e. steps_left e + costs.size ≡ 2 * costs.size * costs.size) }
    {
        let k = costs.size();
        let tables = tables_of(alloc, k)?;
        let alone = leaves_alone(alloc, k)?;
        let lists = empty_lists(alloc, alone.arena.room())?;
        let near = Near::open(alloc, costs)?;
        Ok(Engine {
            near,
            arena: alone.arena,
            pairs: alone.pairs,
            exposed: alone.exposed,
            root: None,
            edges: lists.edges,
            tops: tables.tops,
            totals: tables.totals,
            marks: tables.marks,
            outer: lists.outer,
            inner: lists.inner,
            cycle: lists.cycle,
            ring: lists.ring,
            mates: tables.mates,
        })
    }

    /// The sets of leaves with their duals, as they stand.
    ///
    /// Cost: constant.
    pub fn family(&self) -> &Arena
        ensures value { result.now ≡ self.now.family }
        ensures engine { IsEngine self.now }
    {
        &self.arena
    }

    /// A perfect matching of least cost, with the sets and duals that prove it. It does not
    /// allocate.
    ///
    /// Each leaf has a mate. No slack is negative, mates have slack 0, and each set is left by
    /// exactly one pair of mates; so the mates cost as much as all duals together, and no pairing
    /// costs less ([`sg_slack::matching_is_least`]). The method is that of Edmonds (1965).
    ///
    /// For `k` leaves the family has taken at most `2 k^2` steps when it is returned, with those before
    /// this call, where a step is one `shrink`, `expand` or `raise`. The family counts them itself, so they
    /// cannot be counted elsewhere, and the caller's count grows by just those of this call. The bound is a
    /// promise of this call: what comes from elsewhere takes no such steps.
    ///
    /// Cost: a step takes time proportional to the square of the number of leaves.
    pub fn run<L: Ledger>(mut self, steps: &mut Steps<L>) -> Matched
        ensures counted { steps.new ≤ steps.old + 2 * self.table.size * self.table.size }
        ensures alike { steps.new + self.family.steps ≡ steps.old + result.family.steps }
        ensures bounded { result.family.steps ≤ 2 * self.table.size * self.table.size }
        ensures leaves { leaf_count result.family ≡ self.table.size }
        ensures family { IsFamily result.family }
        ensures slack { NoSlackIsNegative result.family (cost self.table) }
        ensures matching { IsMatching result.family (cost self.table) result.mates }
        ensures duals { pairing_cost (cost self.table) result.mates ≡ sum_of_duals result.family }
        ensures least { (other : List ℕ) → IsPairing self.table.size other → pairing_cost (cost self.table) result.mates ≤ pairing_cost (cost self.table) other }
    {
        let _family = self.family();
        while let Stage::InnerZero { node } = self.advance(steps) {
            self.expand(node, steps);
        }
        let Engine {
            arena,
            pairs,
            mut ring,
            mut mates,
            ..
        } = self;
        derive_mates(&arena, &pairs, &mut ring, &mut mates);
        Matched {
            mates: Mates::from_vec(mates),
            family: arena,
        }
    }
}
