// The retry: it is made if and only if the first proposal is rejected.

ghost use Rattle.sg_graph_text.specs.Network.{IsNetwork};
ghost use Rattle.sg_ground.specs.Nested.{FitsWeb};

use super::facts::expect;
use super::graphs::{Family, drawn};
use super::instances::triangles;
use rand_pcg::Pcg32;
use sg_graph::{Terminals, Web};
use sg_graph_text::Network;
use sg_ground::{State, ground_state, nest_by};
use sg_join_check::Proposal;
use sg_planar::Planar;
use sg_regions::{NestProposal, Proposer, Regions};
use sg_tjoin::{judged_join, nested_join};
use std::alloc::{AllocError, Global};
use std::process::Abort;
use std::test::Fail;

// Growing regions whose first proposal is kept back, and where they are mute the second one too.
#[derive(Drop)]
struct Silent {
    is_mute: bool,
    regions: Regions,
}

// Before the first proposal.
fn withheld(is_mute: bool) -> Silent {
    Silent {
        is_mute,
        regions: Regions::new(),
    }
}

impl Proposer<Proposal> for Silent {
    ghost steps = { λ s. s.regions };

    fn propose(
        &mut self,
        _alloc: Global,
        _web: &Web,
        _terminals: &Terminals,
    ) -> Result<Option<Proposal>, AllocError> {
        Ok(None)
    }

    fn propose_again(
        &mut self,
        alloc: Global,
        web: &Web,
        terminals: &Terminals,
    ) -> Result<Option<Proposal>, AllocError> {
        if self.is_mute {
            return Ok(None);
        }
        self.regions.propose_again(alloc, web, terminals)
    }
}

impl Proposer<NestProposal> for Silent {
    ghost steps = { λ s. s.regions };

    fn propose(
        &mut self,
        _alloc: Global,
        _web: &Web,
        _terminals: &Terminals,
    ) -> Result<Option<NestProposal>, AllocError> {
        Ok(None)
    }

    fn propose_again(
        &mut self,
        alloc: Global,
        web: &Web,
        terminals: &Terminals,
    ) -> Result<Option<NestProposal>, AllocError> {
        if self.is_mute {
            return Ok(None);
        }
        self.regions.propose_again(alloc, web, terminals)
    }
}

// Whether there are T-joins of a proposer that is mute or not: with cuts, and with a nest.
fn are_joined(alloc: Global, network: &Network, is_mute: bool) -> Result<(bool, bool), AllocError>
    requires { IsNetwork network.now.web network.now.terminals }
{
    let (web, terminals) = (&network.web, &network.terminals);
    let mut proposer = withheld(is_mute);
    let has_cuts = judged_join(alloc, web, terminals, &mut proposer)?.is_some();
    let has_nest = nested_join(alloc, web, terminals, &mut proposer)?.is_some();
    Ok((has_cuts, has_nest))
}

// The second proposal is taken, with cuts and with a nest; and where there is none, there is no
// T-join.
fn assert_second(rt: &impl Abort, alloc: Global, network: &Network) -> Result<(), AllocError>
    requires { IsNetwork network.now.web network.now.terminals }
{
    let with_second = are_joined(alloc, network, false)?;
    expect(rt, "the second is taken", with_second == (true, true));
    let without = are_joined(alloc, network, true)?;
    expect(rt, "there is none", without == (false, false));
    Ok(())
}

#[test]
fn second_proposals(rt: HostRuntime) -> Result<(), Fail> {
    let mut draws = Pcg32::new(49, 54);
    let grid = Family::Grid { rows: 6, cols: 6 };
    let network = drawn(&rt, rt.alloc(), grid, 3, &mut draws)?;
    Ok(assert_second(&rt, rt.alloc(), &network)?)
}

// Whether a nest over all components is proposed that proves the state.
fn has_nest(
    alloc: Global,
    planar: &Planar,
    state: &State,
    mut proposer: Silent,
) -> Result<bool, AllocError>
    requires { FitsWeb planar.now.instance }
{
    Ok(nest_by(alloc, planar, state, &mut proposer)?.is_some())
}

// The second nest over all components is taken; and where there is none, there is no nest.
fn assert_second_nest(rt: &impl Abort, alloc: Global, planar: &Planar) -> Result<(), AllocError> {
    let inst = planar.instance();
    let is_small = inst.n() as usize + inst.bonds().len() <= 1 << 24;
    expect(rt, "size", is_small);
    let state = ground_state(alloc, planar)?;
    let with_second = has_nest(alloc, planar, &state, withheld(false))?;
    let without = has_nest(alloc, planar, &state, withheld(true))?;
    expect(rt, "the second is taken", with_second && !without);
    Ok(())
}

#[test]
fn second_nests(rt: HostRuntime) -> Result<(), Fail> {
    let mut draws = Pcg32::new(50, 54);
    let planar = triangles(rt.alloc(), 0, &mut draws)?;
    Ok(assert_second_nest(&rt, rt.alloc(), &planar)?)
}
