// Minimum T-joins of one list of terminals after another, on one graph.
ghost use Rattle.std.specs.Prelude.{◌≡◌, ◌<◌, ◌%◌, ◌≤◌, length, pos, IfErr, IfOk, IfSome};
ghost use Rattle.sg_graph.specs.Join.{AreTerminals, IsLeastJoin};
ghost use Rattle.sg_graph.specs.Walk.{IsConnectedWeb};
ghost use Rattle.sg_graph.specs.Web.{total_weight, weight_of};
ghost use Rattle.sg_nest.specs.Nest.{NestProves};
ghost use Rattle.sg_base.specs.Limits.{forced_limit};
ghost use Rattle.sg_tjoin.specs.Allowance.{IfTooLarge, table_bytes as bytes_of};

use super::LeastJoin;
use super::allowance::{Unproved, matched_within};
use super::matchings::Matchings;
use super::nested::nested_join;
use sg_graph::{Terminals, Web};
use sg_regions::KeptRegions;
use std::alloc::Global;
use std::marker::Model;

/// Minimum T-joins on one graph, for one list of terminals after another. It keeps what the proposals need of the
/// graph, and its contracts see the graph alone.
#[derive(Drop)]
pub struct Joiner<'a> {
    web: &'a Web,
    regions: KeptRegions,
}

impl<'a> Model for Joiner<'a> {
    ghost use Rattle.sg_graph.specs.Web.{Graph};

    ghost Value = { Graph };

    ghost view = { λ j. j.web.now };
}

impl<'a> Joiner<'a> {
    /// For T-joins on this graph. It does not allocate.
    pub fn new(web: &'a Web) -> Self
        ensures { result ≡ web.now }
    {
        Joiner {
            web,
            regions: KeptRegions::new(),
        }
    }

    /// The T-join of [`least_weight_within`](super::least_weight_within): earlier calls change nothing that is
    /// promised of it.
    ///
    /// Cost: as that call, but what depends on the graph alone is made in the first call, and kept.
    pub fn least_weight_within(
        &mut self,
        alloc: Global,
        terminals: &Terminals,
        most_bytes: u64,
    ) -> Result<LeastJoin, Unproved>
        requires connected { IsConnectedWeb self.old }
        requires terminals { AreTerminals self.old terminals.now }
        requires even { length terminals.now % 2 ≡ 0 }
        requires light { total_weight self.old ≤ forced_limit }
        ensures least { IfOk result (λ j. IsLeastJoin self.old terminals.now j.edges) }
        ensures weight { IfOk result (λ j. j.weight ≡ pos (weight_of self.old j.edges)) }
        ensures proves { IfOk result (λ j. IfSome j.nest (NestProves self.old terminals.now j.edges)) }
        ensures too_large { IfErr result (IfTooLarge (most_bytes < bytes_of (length terminals.now) self.old.nodes)) }
        ensures same { self.new ≡ self.old }
    {
        let web = self.web;
        least_weight_by(alloc, web, terminals, most_bytes, &mut self.regions)
    }
}

// The T-join by these regions, or else by the matching.
fn least_weight_by(
    alloc: Global,
    web: &Web,
    terminals: &Terminals,
    most_bytes: u64,
    regions: &mut KeptRegions,
) -> Result<LeastJoin, Unproved>
    requires connected { IsConnectedWeb web.now }
    requires terminals { AreTerminals web.now terminals.now }
    requires even { length terminals.now % 2 ≡ 0 }
    requires light { total_weight web.now ≤ forced_limit }
    ensures least { IfOk result (λ j. IsLeastJoin web.now terminals.now j.edges) }
    ensures weight { IfOk result (λ j. j.weight ≡ pos (weight_of web.now j.edges)) }
    ensures proves { IfOk result (λ j. IfSome j.nest (NestProves web.now terminals.now j.edges)) }
    ensures too_large { IfErr result (IfTooLarge (most_bytes < bytes_of (length terminals.now) web.now.nodes)) }
{
    if let Some(join) = nested_join(alloc, web, terminals, regions)? {
        return Ok(join);
    }
    let mut steps = Matchings::new();
    let join = matched_within(alloc, web, terminals, most_bytes, &mut steps)?;
    Ok(LeastJoin {
        edges: join.edges,
        weight: join.weight,
        nest: None,
    })
}
