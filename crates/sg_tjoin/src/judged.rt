ghost use Rattle.std.specs.Prelude.{◌≡◌, ◌<◌, ◌*◌, [], length, pos, sum_by, IfOk, IfSome};
ghost use Rattle.sg_graph.specs.Join.{AreTerminals, IsLeastJoin};
ghost use Rattle.sg_graph.specs.OddCut.{CutsPack, odd_cut_weight};
ghost use Rattle.sg_graph.specs.Web.{weight_of};
ghost use Rattle.sg_regions.specs.Places.{place_count};
ghost use Rattle.sg_regions.specs.Steps.{Accounts, RegionSteps, TakesRuns};

use super::weight::weight;
use super::{Join, NoMemory};
use sg_graph::{Terminals, Web};
use sg_join_check::{Proposal, proves_least};
use sg_regions::Proposer;
use std::alloc::Global;

/// What is proposed, where there are terminals and the judge says yes to it: at first, or else in a retry; nothing
/// where it says yes to neither. The proposer counts the steps of both.
#[tactic(auto, using(sg_regions::proofs::Runs::takes_both, sg_regions::proofs::Runs::accounts_later))]
pub fn judged_join<R: Proposer<Proposal>>(
    alloc: Global,
    web: &Web,
    terminals: &Terminals,
    proposer: &mut R,
) -> Result<Option<Join>, NoMemory>
    requires { AreTerminals web.now terminals.now }
    ensures least { IfOk result (λ found. IfSome found (λ j. IsLeastJoin web.now terminals.now j.edges)) }
    ensures weight { IfOk result (λ found. IfSome found (λ j. j.weight ≡ pos (weight_of web.now j.edges))) }
    ensures packs { IfOk result (λ found. IfSome found (λ j. CutsPack web.now terminals.now j.cuts)) }
    ensures bare { IfOk result (λ found. IfSome found
        (λ j. terminals.now ≡ [] → (j.edges ≡ []) × (j.cuts ≡ []))) }
    ensures tight { IfOk result (λ found. IfSome found
        (λ j. sum_by odd_cut_weight j.cuts ≡ 2 * weight_of web.now j.edges)) }
    ensures steps { IfOk result
        (λ _. TakesRuns 4 (length terminals.now) (place_count web.now) (R.steps proposer.old) (R.steps proposer.new)) }
    ensures counted { IfOk result (λ found. IfSome found
        (λ _. Accounts (length terminals.now) 0 (R.steps proposer.old) (R.steps proposer.new))) }
{
    if terminals.is_empty() {
        return Ok(None);
    }
    let first = proposer.propose(alloc, web, terminals)?;
    if let Some(join) = accepted(alloc, web, terminals, first)? {
        return Ok(Some(join));
    }
    let second = proposer.propose_again(alloc, web, terminals)?;
    accepted(alloc, web, terminals, second)
}

// The T-join of a proposal, where the judge says yes to it.
fn accepted(
    alloc: Global,
    web: &Web,
    terminals: &Terminals,
    proposal: Option<Proposal>,
) -> Result<Option<Join>, NoMemory>
    requires terminals { AreTerminals web.now terminals.now }
    requires some { 0 < length terminals.now }
    ensures least { IfOk result (λ found. IfSome found (λ j. IsLeastJoin web.now terminals.now j.edges)) }
    ensures weight { IfOk result (λ found. IfSome found (λ j. j.weight ≡ pos (weight_of web.now j.edges))) }
    ensures packs { IfOk result (λ found. IfSome found (λ j. CutsPack web.now terminals.now j.cuts)) }
    ensures bare { IfOk result (λ found. IfSome found
        (λ j. terminals.now ≡ [] → (j.edges ≡ []) × (j.cuts ≡ []))) }
    ensures tight { IfOk result (λ found. IfSome found
        (λ j. sum_by odd_cut_weight j.cuts ≡ 2 * weight_of web.now j.edges)) }
    ensures counted { (old new : RegionSteps) → IfSome proposal (λ _. Accounts (length terminals.now) 0 old new) →
        IfOk result (λ found. IfSome found (λ _. Accounts (length terminals.now) 0 old new)) }
{
    let Some(proposal) = proposal else {
        return Ok(None);
    };
    if !proves_least(alloc, web, terminals, &proposal)? {
        return Ok(None);
    }
    let weight = weight(web, &proposal.edges);
    Ok(Some(Join {
        edges: proposal.edges,
        weight,
        cuts: proposal.cuts,
    }))
}
