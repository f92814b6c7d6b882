// General graphs by numbers. No number is trusted: each is tested, and the first fault is named.
ghost use Rattle.std.specs.Prelude.{◌≡◌, ◌*◌, ◌<◌, ◌≤◌, find, length, not, All, None, IfErr, IfOk, OnOk};
ghost use Rattle.std.specs.List.{range_with_len};
ghost use Rattle.sg_base.specs.Limits.{large_bond_limit, large_spin_limit};
ghost use Rattle.sg_draft.specs.Bonds.{IsAmong, is_among as is_among_spins, self_fault};
ghost use Rattle.sg_draft.specs.Draft.{draft_fault, drafted};
ghost use Rattle.sg_ground.specs.Nested.{FitsWeb};
ghost use Rattle.sg_calls.specs.Graphs.{bond_by as bond_numbered, bonds_by, graph_draft, IsFitFault, IsFitGraph, IsGraph, IsGraphFault, lists_by, numbers_of, wrong_bond as wrong_bond_of};
ghost use Rattle.sg_calls.specs.Crossing.{DividesEntries};

use super::starts::{entries_at, wrong_start};
use sg_draft::{Limits, build_general, check_general, is_among, unless};
use sg_model::{Bond, BondList, Bonds, Fault, Instance, Refusal, Rotation};
use sg_planar::Planar;
use std::alloc::{AllocError, Global};

/// The numbers of a general graph: its spins, two ends for each bond and its coupling, the darts of
/// each spin from its start on, and the bonds of the seam.
#[derive(Drop)]
pub struct Given<'a> {
    pub n: u32,
    pub ends: &'a [u32],
    pub couplings: &'a [i64],
    pub starts: &'a [usize],
    pub darts: &'a [u32],
    pub seam: &'a [u32],
}

/// The graph of these numbers, within the limits and fit for a planar solver.
pub fn fit_graph(alloc: Global, most: Limits, given: &Given) -> Result<Planar, Fault>
    requires spins { most.spins ≤ large_spin_limit }
    requires bonds { most.bonds ≤ large_bond_limit }
    ensures gives { IfOk result (λ planar. IsFitGraph most (numbers_of given.now) planar.instance) }
    ensures small { IfOk result (λ planar. FitsWeb planar.instance) }
    ensures refuses { IfErr result (IsFitFault most (numbers_of given.now)) }
{
    let instance = graph_of(alloc, most, given)?;
    Planar::test(alloc, instance)
}

/// The graph of these numbers, within the limits.
///
/// # Errors
/// The first that is wrong, in this order: `BadMember` for the number of spins, `TooManySpins`,
/// `BadMember` for the bonds and for the starts of the darts, `TooManyBonds`, `SelfBond`,
/// `BadRotation`, `BadSeam`.
pub fn graph_of(alloc: Global, most: Limits, given: &Given) -> Result<Instance, Fault>
    requires spins { most.spins ≤ large_spin_limit }
    requires bonds { most.bonds ≤ large_bond_limit }
    ensures gives { IfOk result (IsGraph most (numbers_of given.now)) }
    ensures small { IfOk result FitsWeb }
    ensures refuses { IfErr result (IsGraphFault most (numbers_of given.now)) }
{
    check_graph(most, given)?;
    let bonds = bonds_of(alloc, given.ends, given.couplings)?;
    let rotation = rotation_of(alloc, given.n, given.starts, given.darts)?;
    let cut = BondList::from_vec(Vec::from_slice(alloc, given.seam)?);
    build_general(alloc, given.n, bonds, rotation, Some(cut))
}

// The tests of the numbers in front of those of each bond.
fn check_graph(most: Limits, given: &Given) -> Result<(), Refusal>
    requires { most.bonds ≤ large_bond_limit }
    ensures some { OnOk result (1 ≤ given.now.n) }
    ensures spins { OnOk result (given.now.n ≤ most.spins) }
    ensures few { OnOk result (length given.now.couplings.now ≤ most.bonds) }
    ensures count { OnOk result (length given.now.ends.now ≡ 2 * length given.now.couplings.now) }
    ensures among { OnOk result (All (IsAmong given.now.n) (bonds_by given.now.ends.now given.now.couplings.now)) }
    ensures division { OnOk result (DividesEntries given.now.starts.now given.now.n (length given.now.darts.now)) }
    ensures passes { OnOk result (draft_fault most (graph_draft (numbers_of given.now)) ≡ self_fault (bonds_by given.now.ends.now given.now.couplings.now)) }
    ensures says { OnOk result (drafted (graph_draft (numbers_of given.now)) ≡ record {
      n = given.now.n;
      bonds = bonds_by given.now.ends.now given.now.couplings.now;
      rotation = lists_by given.now.n given.now.starts.now given.now.darts.now;
      seam = given.now.seam.now;
    }) }
    ensures refused { IfErr result (λ e. draft_fault most (graph_draft (numbers_of given.now)) ≡ Some e) }
{
    let bad = wrong_bond(given.n, given.ends, given.couplings);
    let bonds = unless(bad, given.couplings.len());
    let start = wrong_start(given.starts, given.n as usize, given.darts.len());
    match check_general(most, Some(u64::from(given.n)), bonds, start, None) {
        Ok(_) => Ok(()),
        Err(refusal) => Err(refusal),
    }
}

// The first bond that does not join two of the spins with a coupling; the whole list where there are
// not two ends for each.
fn wrong_bond(n: u32, ends: &[u32], couplings: &[i64]) -> Option<usize>
    ensures value { result ≡ wrong_bond_of n ends.now couplings.now }
    ensures count { result ≡ None → length ends.now ≡ 2 * length couplings.now }
    ensures among { result ≡ None → All (IsAmong n) (bonds_by ends.now couplings.now) }
{
    if ends.len() % 2 != 0 || ends.len() / 2 != couplings.len() {
        return Some(0);
    }
    first_unjoined(n, ends, couplings)
}

// The first bond that does not join two of the spins with a coupling.
fn first_unjoined(n: u32, ends: &[u32], couplings: &[i64]) -> Option<usize>
    requires { length ends.now ≡ 2 * length couplings.now }
    ensures { result ≡ find (λ k. not (is_among_spins n (bond_numbered ends.now couplings.now k))) (range_with_len 0 (length couplings.now)) }
{
    (0..couplings.len()).find(|k| !is_among(u64::from(n), bond_by(ends, couplings, *k)))
}

// The bonds.
fn bonds_of(alloc: Global, ends: &[u32], couplings: &[i64]) -> Result<Bonds, AllocError>
    requires { length ends.now ≡ 2 * length couplings.now }
    ensures { IfOk result (λ bonds. bonds ≡ bonds_by ends.now couplings.now) }
{
    let mut bonds = Bonds::new(alloc);
    for k in 0..couplings.len() {
        bonds.push(bond_by(ends, couplings, k))?;
    }
    Ok(bonds)
}

// Bond `k`.
fn bond_by(ends: &[u32], couplings: &[i64], k: usize) -> Bond
    requires count { length ends.now ≡ 2 * length couplings.now }
    requires within { k < length couplings.now }
    ensures { result ≡ bond_numbered ends.now couplings.now k }
{
    Bond {
        u: ends[2 * k],
        v: ends[2 * k + 1],
        j: couplings[k],
    }
}

// The darts of each spin.
fn rotation_of(
    alloc: Global,
    n: u32,
    starts: &[usize],
    darts: &[u32],
) -> Result<Rotation, AllocError>
    requires { DividesEntries starts.now n (length darts.now) }
    ensures { IfOk result (λ rotation. rotation ≡ lists_by n starts.now darts.now) }
{
    let mut rotation = Rotation::new(alloc);
    for spin in 0..n as usize {
        rotation.push(entries_at(starts, darts, spin))?;
    }
    Ok(rotation)
}
