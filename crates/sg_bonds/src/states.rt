// Least states with a product at a bond, by regions that are repaired for one bond after another.
ghost use Rattle.std.specs.Prelude.{◌≡◌, ◌<◌, ◌≤◌, ◌+ℤ◌, ◌-ℤ◌, ℤ, pos, unsigned_abs, IfOk, IfSome};
ghost use Rattle.sg_base.specs.Limits.{forced_limit};
ghost use Rattle.sg_model.specs.Ising.{bond_at, bond_count};
ghost use Rattle.sg_model.specs.Connected.{IsConnected};
ghost use Rattle.sg_model.specs.Spins.{IsAssignment, IsUpOrDown};
ghost use Rattle.sg_model.specs.Energy.{IsGroundState, energy, weight};
ghost use Rattle.sg_planar.specs.BrokenLists.{BreaksExactly};
ghost use Rattle.sg_planar.specs.Fit.{IsPlanar};
ghost use Rattle.sg_graph.specs.Join.{AreTerminals, IsJoin, IsLeastJoin};
ghost use Rattle.sg_graph.specs.Web.{edge_count, total_weight, weight_of};
ghost use Rattle.sg_dual.specs.Dual.{dual_web, frustrated_faces};
ghost use Rattle.sg_bonds.specs.Cost.{IsLeastWith};
ghost use Rattle.sg_bonds.specs.JoinsWith.{IsDualOf, IsLeastJoinWith, breaks_with};
ghost use Rattle.sg_bonds.specs.Turned.{HasBroken};

use super::NoMemory;
use super::joins::{JudgedWeb, join_of, join_with, weight};
use sg_dual::dual;
use sg_graph::EdgeList;
use sg_ground::State;
use sg_model::{Bond, BondList, Instance};
use sg_nest::Judge;
use sg_planar::{Planar, spin_walk};
use sg_repairs::Repairs;
use std::alloc::Global;
use std::marker::Model;

// The dual of an instance, and its finished regions.
#[derive(Drop)]
struct Finder {
    judged: JudgedWeb,
    repairs: Repairs,
}

// A T-join and its weight.
#[derive(Drop)]
struct WeighedEdges {
    edges: EdgeList,
    weight: i64,
}

/// The bonds that some assignment breaks, and its energy.
#[derive(Drop)]
pub struct LeastBroken {
    pub energy: i64,
    pub bonds: BondList,
}

/// States of an instance that are least among those with some product at some bond, found without a
/// new ground state.
///
/// The broken bonds of such a state are a minimum T-join of the frustrated faces among those that have
/// the bond, or that do not. Regions have once grown on the dual; for each bond they are repaired, and
/// what they then propose is judged. An instance of several components has no regions.
pub struct BondStates<'a> {
    planar: &'a Planar,
    finder: Option<Finder>,
}

// An explicit `Drop`: otherwise every early return of an owner drops each field, and the prover pays for each.
impl<'a> Drop for BondStates<'a> {
    fn drop(self) {
        let BondStates {
            planar: _,
            finder: _finder,
        } = self;
    }
}

impl<'a> Model for BondStates<'a> {
    ghost use Rattle.std.specs.Prelude.{IfSome};
    ghost use Rattle.sg_planar.specs.Fit.{Embedding};
    ghost use Rattle.sg_bonds.specs.JoinsWith.{IsDualOf};

    ghost Value = { Embedding };

    ghost view = { λ s. s.planar.now };

    ghost invariant = { λ s. IfSome s.finder (λ f. IsDualOf s.planar.now f.judged.web f.judged.terminals) };
}

impl<'a> BondStates<'a> {
    /// Grows the regions of the instance. The only error is running out of memory.
    pub fn new(alloc: Global, planar: &'a Planar) -> Result<Self, NoMemory>
        ensures { IfOk result (λ states. states ≡ planar.now) }
    {
        let finder = make_finder(alloc, planar)?;
        Ok(BondStates { planar, finder })
    }

    /// What an assignment of the least energy among those with this product at the bond breaks, or nothing where
    /// the regions do not prove one: a caller then has another way. The only error is running out of
    /// memory, and what was asked before changes no answer.
    ///
    /// Cost: that of a repair and of the judge.
    pub fn least_with(
        &mut self,
        alloc: Global,
        bond: u32,
        wanted: i64,
    ) -> Result<Option<LeastBroken>, NoMemory>
        requires bond_in { bond < bond_count self.old.instance }
        requires up_or_down { IsUpOrDown wanted }
        ensures same { self.new ≡ self.old }
        ensures least { IfOk result (λ found. IfSome found
            (λ t. IsLeastWith self.old.instance bond wanted t.energy)) }
        ensures breaks { IfOk result (λ found. IfSome found
            (λ t. HasBroken self.old.instance t.energy t.bonds)) }
    {
        let has = breaks(self.planar.instance().bonds().at(bond as usize), wanted);
        let Some(join) = self.join_with(alloc, bond, has)? else {
            return Ok(None);
        };
        Ok(Some(broken_by(self.planar, bond, has, join)))
    }

    /// A ground state, or nothing where the regions prove none. The only error is running out of
    /// memory.
    pub(crate) fn ground_state(&mut self, alloc: Global) -> Result<Option<State>, NoMemory>
        ensures same { self.new ≡ self.old }
        ensures ground_state { IfOk result (λ found. IfSome found
            (λ s. IsGroundState self.old.instance s.spins)) }
        ensures energy { IfOk result (λ found. IfSome found
            (λ s. s.energy ≡ energy self.old.instance s.spins)) }
    {
        let Some(edges) = self.join(alloc)? else {
            return Ok(None);
        };
        Ok(Some(state_breaking(alloc, self.planar, &edges)?))
    }

    // A minimum T-join of the frustrated faces.
    fn join(&mut self, alloc: Global) -> Result<Option<EdgeList>, NoMemory>
        ensures same { self.new ≡ self.old }
        ensures connected { IfOk result (λ found. IfSome found (λ _. IsConnected self.old.instance)) }
        ensures least { IfOk result (λ found. IfSome found (IsLeastJoin
            (dual_web self.old.instance self.old.faces) (frustrated_faces self.old.instance self.old.faces))) }
    {
        let Some(finder) = &mut self.finder else {
            return Ok(None);
        };
        join_of(alloc, &mut finder.judged, &finder.repairs)
    }

    // A minimum T-join of the frustrated faces among those that have the bond, or that do not.
    fn join_with(
        &mut self,
        alloc: Global,
        bond: u32,
        has: bool,
    ) -> Result<Option<WeighedEdges>, NoMemory>
        requires bond_in { bond < bond_count self.old.instance }
        ensures same { self.new ≡ self.old }
        ensures connected { IfOk result (λ found. IfSome found (λ _. IsConnected self.old.instance)) }
        ensures join { IfOk result (λ found. IfSome found (λ j. IsLeastJoinWith
            (dual_web self.old.instance self.old.faces) (frustrated_faces self.old.instance self.old.faces) bond has j.edges)) }
        ensures weight { IfOk result (λ found. IfSome found (λ j.
            j.weight ≡ pos (weight_of (dual_web self.old.instance self.old.faces) j.edges))) }
    {
        let Some(finder) = &mut self.finder else {
            return Ok(None);
        };
        weighed_join_with(alloc, finder, bond, has)
    }
}

// A minimum T-join among those that have the edge, or that do not.
fn weighed_join_with(
    alloc: Global,
    finder: &mut Finder,
    edge: u32,
    has: bool,
) -> Result<Option<WeighedEdges>, NoMemory>
    requires edge { edge < edge_count finder.old.judged.web }
    requires terminals { AreTerminals finder.old.judged.web finder.old.judged.terminals }
    requires light { total_weight finder.old.judged.web ≤ forced_limit }
    ensures web { finder.new.judged.web ≡ finder.old.judged.web }
    ensures terminals { finder.new.judged.terminals ≡ finder.old.judged.terminals }
    ensures join { IfOk result (λ found. IfSome found (λ j.
        IsLeastJoinWith finder.old.judged.web finder.old.judged.terminals edge has j.edges)) }
    ensures weight { IfOk result (λ found. IfSome found (λ j. j.weight ≡ pos (weight_of finder.old.judged.web j.edges))) }
{
    let Some(edges) = join_with(alloc, &mut finder.judged, &mut finder.repairs, edge, has)? else {
        return Ok(None);
    };
    let weight = weight(&finder.judged.web, &edges);
    Ok(Some(WeighedEdges { edges, weight }))
}

// The dual of a connected instance and what its regions propose, if they propose anything.
fn make_finder(alloc: Global, planar: &Planar) -> Result<Option<Finder>, NoMemory>
    ensures { IfOk result (λ found. IfSome found
        (λ f. IsDualOf planar.now f.judged.web f.judged.terminals)) }
{
    if !planar.is_connected() {
        return Ok(None);
    }
    let (web, terminals) = dual(alloc, planar.instance(), planar.faces())?;
    let judge = Judge::new(alloc, &web)?;
    let Some(repairs) = Repairs::new(alloc, &web, &terminals)? else {
        return Ok(None);
    };
    let judged = JudgedWeb {
        web,
        terminals,
        judge,
    };
    Ok(Some(Finder { judged, repairs }))
}

/// Whether spins with this product break the bond.
pub(crate) fn breaks(bond: &Bond, product: i64) -> bool
    ensures { result ≡ breaks_with bond.now product }
{
    if bond.j < 0 {
        product == 1
    } else {
        product == -1
    }
}

// What breaks just a minimum T-join among those that have the bond, or that do not.
fn broken_by(planar: &Planar, bond: u32, has: bool, join: WeighedEdges) -> LeastBroken
    requires connected { IsConnected planar.now.instance }
    requires bond_in { bond < bond_count planar.now.instance }
    requires join { IsLeastJoinWith (dual_web planar.now.instance planar.now.faces)
        (frustrated_faces planar.now.instance planar.now.faces) bond has join.edges }
    requires weight { join.weight ≡ pos (weight_of (dual_web planar.now.instance planar.now.faces) join.edges) }
    ensures least { (p : ℤ) → IsUpOrDown p → breaks_with (bond_at planar.now.instance bond) p ≡ has →
        IsLeastWith planar.now.instance bond p result.energy }
    ensures breaks { HasBroken planar.now.instance result.energy result.bonds }
{
    let energy = broken_energy(planar.instance(), join.weight);
    LeastBroken {
        energy,
        bonds: join.edges,
    }
}

// The energy where the broken bonds weigh so much: twice that, less the weight of all bonds.
fn broken_energy(inst: &Instance, broken: i64) -> i64
    requires sum { weight inst.now ≤ forced_limit }
    requires light { unsigned_abs broken ≤ forced_limit }
    ensures { result ≡ (broken +ℤ broken) -ℤ pos (weight inst.now) }
{
    let all = inst.weight() as i64;
    broken + broken - all
}

// The state that breaks the edges of a T-join.
fn state_breaking(alloc: Global, planar: &Planar, edges: &EdgeList) -> Result<State, NoMemory>
    requires connected { IsConnected planar.now.instance }
    requires join { IsJoin (dual_web planar.now.instance planar.now.faces)
        (frustrated_faces planar.now.instance planar.now.faces) edges.now }
    ensures assignment { IfOk result (λ s. IsAssignment planar.now.instance s.spins) }
    ensures breaks { IfOk result (λ s. BreaksExactly planar.now.instance s.spins edges.now) }
    ensures energy { IfOk result (λ s. s.energy ≡ energy planar.now.instance s.spins) }
    ensures planar { IsPlanar planar.now }
{
    let inst = planar.instance();
    let spins = spin_walk(alloc, planar, edges)?;
    let energy = inst.energy(&spins) as i64;
    Ok(State { spins, energy })
}
