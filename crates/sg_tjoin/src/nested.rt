ghost use Rattle.std.specs.Prelude.{◌≡◌, length, pos, IfOk, IfSome, MatchOption};
ghost use Rattle.sg_graph.specs.Join.{AreTerminals, IsLeastJoin};
ghost use Rattle.sg_graph.specs.Web.{weight_of};
ghost use Rattle.sg_nest.specs.Nest.{NestProves};
ghost use Rattle.sg_regions.specs.Places.{place_count};
ghost use Rattle.sg_regions.specs.Steps.{Accounts, RegionSteps, TakesRuns};

use super::weight::weight;
use super::{LeastJoin, NoMemory};
use sg_graph::{Terminals, Web};
use sg_nest::proves;
use sg_regions::{NestProposal, Proposer};
use std::alloc::Global;

/// What is proposed, where its nest proves it: at first, or else in a retry; nothing where neither does. The
/// proposer counts the steps of both, and among them each blossom of the nest.
#[tactic(auto, using(sg_regions::proofs::Runs::takes_both, sg_regions::proofs::Runs::accounts_later))]
pub fn nested_join<R: Proposer<NestProposal>>(
    alloc: Global,
    web: &Web,
    terminals: &Terminals,
    proposer: &mut R,
) -> Result<Option<LeastJoin>, NoMemory>
    requires { AreTerminals web.now terminals.now }
    ensures least { IfOk result (λ found. IfSome found (λ j. IsLeastJoin web.now terminals.now j.edges)) }
    ensures weight { IfOk result (λ found. IfSome found (λ j. j.weight ≡ pos (weight_of web.now j.edges))) }
    ensures proves { IfOk result (λ found. IfSome found
        (λ j. IfSome j.nest (NestProves web.now terminals.now j.edges))) }
    ensures steps { IfOk result
        (λ _. TakesRuns 4 (length terminals.now) (place_count web.now) (R.steps proposer.old) (R.steps proposer.new)) }
    ensures counted { IfOk result (λ found. IfSome found (λ j. MatchOption j.nest ⊥
        (λ n. Accounts (length terminals.now) (length n.regions) (R.steps proposer.old) (R.steps proposer.new)))) }
{
    let first = proposer.propose(alloc, web, terminals)?;
    if let Some(join) = accepted(alloc, web, terminals, first)? {
        return Ok(Some(join));
    }
    let second = proposer.propose_again(alloc, web, terminals)?;
    accepted(alloc, web, terminals, second)
}

// The T-join of a proposal, where its nest proves it.
fn accepted(
    alloc: Global,
    web: &Web,
    terminals: &Terminals,
    proposal: Option<NestProposal>,
) -> Result<Option<LeastJoin>, NoMemory>
    requires { AreTerminals web.now terminals.now }
    ensures least { IfOk result (λ found. IfSome found (λ j. IsLeastJoin web.now terminals.now j.edges)) }
    ensures weight { IfOk result (λ found. IfSome found (λ j. j.weight ≡ pos (weight_of web.now j.edges))) }
    ensures proves { IfOk result (λ found. IfSome found
        (λ j. IfSome j.nest (NestProves web.now terminals.now j.edges))) }
    ensures counted { (old new : RegionSteps) →
        IfSome proposal (λ p. Accounts (length terminals.now) (length p.nest.regions) old new) →
        IfOk result (λ found. IfSome found (λ j. MatchOption j.nest ⊥
        (λ n. Accounts (length terminals.now) (length n.regions) old new))) }
{
    let Some(proposal) = proposal else {
        return Ok(None);
    };
    if !proves(alloc, web, terminals, &proposal.edges, &proposal.nest)? {
        return Ok(None);
    }
    let weight = weight(web, &proposal.edges);
    Ok(Some(LeastJoin {
        edges: proposal.edges,
        weight,
        nest: Some(proposal.nest),
    }))
}
