// Ground states with the nests of regions that prove them, and the judge of such proofs.
ghost use Rattle.std.specs.Prelude.{◌≡◌, ◌↔◌, ◌<◌, ◌≤◌, ◌^◌, ℕ, map, length, All, IfErr, IfOk, IfSome, IsTrue};
ghost use Rattle.sg_model.specs.Connected.{IsConnected, LeastsUp};
ghost use Rattle.sg_model.specs.Broken.{is_broken};
ghost use Rattle.sg_model.specs.Energy.{energy, IsGroundState};
ghost use Rattle.sg_model.specs.Ising.{IsBond};
ghost use Rattle.sg_model.specs.Spins.{IsAssignment};
ghost use Rattle.sg_planar.specs.Fit.{IsPlanar};
ghost use Rattle.sg_graph.specs.Join.{AreTerminals, IsLeastJoin};
ghost use Rattle.sg_dual.specs.Dual.{dual_web, frustrated_faces};
ghost use Rattle.sg_nest.specs.Nest.{NestProves};
ghost use Rattle.sg_regions.specs.Steps.{TakesRuns};
ghost use Rattle.sg_tjoin.specs.Allowance.{IfTooLarge};
ghost use Rattle.sg_tjoin.specs.Counted.{steps_of};
ghost use Rattle.sg_ground.specs.Allowance.{TablesExceed};
ghost use Rattle.sg_ground.specs.Counted.{AddsSteps, dual_places, frustrated_count, nest_steps};
ghost use Rattle.sg_ground.specs.Nested.{IsNestedState, FitsWeb, ProvesByNest, broken_bonds as bonds_broken};

use super::NoMemory;
use super::answer::NestedState;
use super::state::{State, ground_state_counted};
use super::whole::whole_state;
use sg_base::places;
use sg_dual::dual;
use sg_graph::{Terminals, Web};
use sg_model::{Bond, BondList, Instance, Spins};
use sg_nest::{Nest, proves};
use sg_planar::Planar;
use sg_regions::{NestProposal, Proposer, Regions};
use sg_tjoin::{Taken, Unproved};
use std::alloc::Global;

// The most spins and bonds together of an instance whose faces are sure to be few enough for a
// `Web`.
const MOST_TOGETHER: usize = 1 << 24;

/// A ground state with the least spin of each component up, its energy, and a proof of linear size: a
/// nest of regions over the faces.
///
/// [`proves_by_nest`] judges such a proof. Nodes are the faces by their labels, and a radius is in
/// quarters of the unit of the couplings. That there is a nest no clause says: there is none where no
/// proposal is accepted, nor for several components of more than 2^24 spins and bonds together, and the
/// ground state is found without it, if the tables of the matching fallback take no more than `most_bytes`
/// for each component.
///
/// Cost: that of [`ground_state`]; of an instance that is not connected also that of
/// `sg_regions::propose_nest` on the frustrated faces of all components, of the judge, and as much again
/// for the retry if it says no.
pub fn nested_state(
    alloc: Global,
    planar: &Planar,
    most_bytes: u64,
) -> Result<NestedState, Unproved>
    ensures ground_state { IfOk result (λ a. IsGroundState planar.now.instance a.spins) }
    ensures first_up { IfOk result (λ a. LeastsUp planar.now.instance a.spins) }
    ensures energy { IfOk result (λ a. a.energy ≡ energy planar.now.instance a.spins) }
    ensures proves { IfOk result (λ a. IfSome a.nest (ProvesByNest planar.now a.spins a.energy)) }
    ensures too_large { IfErr result (IfTooLarge (TablesExceed most_bytes planar.now.instance)) }
    ensures planar { IsPlanar planar.now }
{
    let mut steps = Taken::new();
    nested_state_counted(alloc, planar, most_bytes, &mut steps)
}

/// The state of [`nested_state`], and the count of the steps that it took: at most those of
/// [`solve_counted`](super::solve_counted), and those of growing regions on the dual of all components.
pub fn nested_state_counted(
    alloc: Global,
    planar: &Planar,
    most_bytes: u64,
    steps: &mut Taken,
) -> Result<NestedState, Unproved>
    ensures ground_state { IfOk result (λ a. IsGroundState planar.now.instance a.spins) }
    ensures first_up { IfOk result (λ a. LeastsUp planar.now.instance a.spins) }
    ensures energy { IfOk result (λ a. a.energy ≡ energy planar.now.instance a.spins) }
    ensures proves { IfOk result (λ a. IfSome a.nest (ProvesByNest planar.now a.spins a.energy)) }
    ensures too_large { IfErr result (IfTooLarge (TablesExceed most_bytes planar.now.instance)) }
    ensures steps { IfOk result
        (λ _. AddsSteps (nest_steps planar.now) planar.now (steps_of steps.old) (steps_of steps.new)) }
    ensures planar { IsPlanar planar.now }
{
    nested(alloc, planar, most_bytes, steps)
}

// The same, as one record.
#[tactic(auto, using(crate::proofs::CountedSteps::any_whole))]
fn nested(
    alloc: Global,
    planar: &Planar,
    most_bytes: u64,
    steps: &mut Taken,
) -> Result<NestedState, Unproved>
    ensures state { IfOk result (λ a. IsNestedState planar.now a.spins a.energy a.nest) }
    ensures too_large { IfErr result (IfTooLarge (TablesExceed most_bytes planar.now.instance)) }
    ensures steps { IfOk result
        (λ _. AddsSteps (nest_steps planar.now) planar.now (steps_of steps.old) (steps_of steps.new)) }
    ensures planar { IsPlanar planar.now }
{
    if planar.is_connected() {
        whole_state(alloc, planar, most_bytes, steps)
    } else {
        nested_apart(alloc, planar, most_bytes, steps)
    }
}

// The state of an instance of several components, with a nest over the faces of all of them, where that
// proves it.
#[tactic(auto, using(crate::proofs::CountedSteps::adds_nest))]
fn nested_apart(
    alloc: Global,
    planar: &Planar,
    most_bytes: u64,
    steps: &mut Taken,
) -> Result<NestedState, Unproved>
    ensures state { IfOk result (λ a. IsNestedState planar.now a.spins a.energy a.nest) }
    ensures too_large { IfErr result (IfTooLarge (TablesExceed most_bytes planar.now.instance)) }
    ensures steps { IfOk result
        (λ _. AddsSteps (nest_steps planar.now) planar.now (steps_of steps.old) (steps_of steps.new)) }
    ensures planar { IsPlanar planar.now }
{
    let is_small = fits_web(planar);
    let state = ground_state_counted(alloc, planar, most_bytes, steps)?;
    let nest = nest_over_all(alloc, planar, &state, is_small, &mut steps.regions)?;
    Ok(NestedState {
        spins: state.spins,
        energy: state.energy,
        nest,
    })
}

// A nest over the faces of all components that proves the state, if these fit a `Web` and the
// proposal or the retry has one.
fn nest_over_all(
    alloc: Global,
    planar: &Planar,
    state: &State,
    is_small: bool,
    regions: &mut Regions,
) -> Result<Option<Nest>, NoMemory>
    requires { IsTrue is_small → FitsWeb planar.now.instance }
    ensures proves { IfOk result (λ found. IfSome found (ProvesByNest planar.now state.now.spins state.now.energy)) }
    ensures steps { IfOk result
        (λ _. TakesRuns 4 (frustrated_count planar.now) (dual_places planar.now) regions.old regions.new) }
{
    if !is_small {
        return Ok(None);
    }
    nest_by(alloc, planar, state, regions)
}

/// A nest over the faces of all components that proves the state, if the proposal or the retry has one.
/// The proposer counts the steps of both.
#[tactic(auto, using(crate::proofs::CountedSteps::first_runs, crate::proofs::CountedSteps::both_runs))]
pub fn nest_by<R: Proposer<NestProposal>>(
    alloc: Global,
    planar: &Planar,
    state: &State,
    proposer: &mut R,
) -> Result<Option<Nest>, NoMemory>
    requires { FitsWeb planar.now.instance }
    ensures proves { IfOk result (λ found. IfSome found (ProvesByNest planar.now state.now.spins state.now.energy)) }
    ensures steps { IfOk result (λ _. TakesRuns 4 (frustrated_count planar.now) (dual_places planar.now)
        (R.steps proposer.old) (R.steps proposer.new)) }
{
    let (web, frustrated) = whole_dual(alloc, planar)?;
    let first = proposer.propose(alloc, &web, &frustrated)?;
    if let Some(nest) = accepted(alloc, planar, state, first)? {
        return Ok(Some(nest));
    }
    let second = proposer.propose_again(alloc, &web, &frustrated)?;
    accepted(alloc, planar, state, second)
}

// The nest of a proposal, where it proves the state.
fn accepted(
    alloc: Global,
    planar: &Planar,
    state: &State,
    proposal: Option<NestProposal>,
) -> Result<Option<Nest>, NoMemory>
    requires { FitsWeb planar.now.instance }
    ensures { IfOk result (λ found. IfSome found (ProvesByNest planar.now state.now.spins state.now.energy)) }
{
    let Some(proposal) = proposal else {
        return Ok(None);
    };
    if !proves_by_nest(alloc, planar, state.energy, &state.spins, &proposal.nest)? {
        return Ok(None);
    }
    Ok(Some(proposal.nest))
}

// Whether spins and bonds together are few enough for all faces to be nodes of a graph.
fn fits_web(planar: &Planar) -> bool
    ensures small { IsTrue result → FitsWeb planar.now.instance }
    ensures planar { IsPlanar planar.now }
{
    let inst = planar.instance();
    inst.n() as usize + inst.bonds().len() <= MOST_TOGETHER
}

/// Whether the spins have the energy, and the nest over the faces proves that no assignment has less.
/// The instance need not be connected.
///
/// It takes time linear in spins, bonds and regions, but for what `sg_nest::proves` says. The only error
/// is running out of memory.
pub fn proves_by_nest(
    alloc: Global,
    planar: &Planar,
    stated: i64,
    spins: &Spins,
    nest: &Nest,
) -> Result<bool, NoMemory>
    requires { FitsWeb planar.now.instance }
    ensures proves { IfOk result (λ yes. IsTrue yes ↔ ProvesByNest planar.now spins.now stated nest.now) }
    ensures least { IfOk result (λ yes. IsTrue yes → IsGroundState planar.now.instance spins.now) }
    ensures planar { IsPlanar planar.now }
{
    if !is_assignment(planar, spins) {
        return Ok(false);
    }
    if !has_energy(planar, stated, spins) {
        return Ok(false);
    }
    proves_broken(alloc, planar, spins, nest)
}

// Whether there is a spin for each of the instance.
fn is_assignment(planar: &Planar, spins: &Spins) -> bool
    ensures value { IsTrue result ↔ IsAssignment planar.now.instance spins.now }
    ensures planar { IsPlanar planar.now }
{
    spins.as_slice().len() == planar.instance().n() as usize
}

// Whether the spins have this energy.
fn has_energy(planar: &Planar, stated: i64, spins: &Spins) -> bool
    requires { IsAssignment planar.now.instance spins.now }
    ensures { IsTrue result ↔ (energy planar.now.instance spins.now ≡ stated) }
{
    planar.instance().energy(spins) == i128::from(stated)
}

// Whether the nest proves the bonds that the spins break a minimum T-join.
fn proves_broken(
    alloc: Global,
    planar: &Planar,
    spins: &Spins,
    nest: &Nest,
) -> Result<bool, NoMemory>
    requires assignment { IsAssignment planar.now.instance spins.now }
    requires small { FitsWeb planar.now.instance }
    ensures proves { IfOk result (λ yes. IsTrue yes ↔ NestProves (dual_web planar.now.instance planar.now.faces)
        (frustrated_faces planar.now.instance planar.now.faces) (bonds_broken planar.now.instance spins.now) nest.now) }
    ensures least { IfOk result (λ yes. IsTrue yes → IsGroundState planar.now.instance spins.now) }
{
    let (web, frustrated) = whole_dual(alloc, planar)?;
    let broken = broken_bonds(alloc, planar.instance(), spins)?;
    proves(alloc, &web, &frustrated, &broken, nest)
}

// The dual, and the frustrated faces.
fn whole_dual(alloc: Global, planar: &Planar) -> Result<(Web, Terminals), NoMemory>
    requires { FitsWeb planar.now.instance }
    ensures web { IfOk result (λ d. d.0 ≡ dual_web planar.now.instance planar.now.faces) }
    ensures frustrated { IfOk result (λ d. d.1 ≡ frustrated_faces planar.now.instance planar.now.faces) }
    ensures terminals { IfOk result (λ d. AreTerminals d.0 d.1) }
    ensures planar { IsPlanar planar.now }
{
    dual(alloc, planar.instance(), planar.faces())
}

// The bonds that the spins break.
fn broken_bonds(alloc: Global, inst: &Instance, spins: &Spins) -> Result<BondList, NoMemory>
    requires { IsAssignment inst.now spins.now }
    ensures { IfOk result (λ broken. broken ≡ bonds_broken inst.now spins.now) }
{
    let marks = broken_marks(alloc, inst.bonds().as_slice(), spins)?;
    places(alloc, &marks)
}

// For each bond whether the spins break it.
fn broken_marks(alloc: Global, bonds: &[Bond], spins: &Spins) -> Result<Vec<bool>, NoMemory>
    requires { All (IsBond (length spins.now)) bonds.now }
    ensures { IfOk result (λ marks. marks.items ≡ map (is_broken spins.now) bonds.now) }
{
    let mut marks = Vec::new(alloc);
    for bond in bonds {
        marks.push(breaks(bond, spins))?;
    }
    Ok(marks)
}

// Whether the spins break the bond.
fn breaks(bond: &Bond, spins: &Spins) -> bool
    requires { IsBond (length spins.now) bond.now }
    ensures { result ≡ is_broken spins.now bond.now }
{
    let like = spins.at(bond.u as usize) == spins.at(bond.v as usize);
    (bond.j < 0) == like
}
