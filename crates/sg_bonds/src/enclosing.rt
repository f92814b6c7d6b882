// Bounds of the costs of all bonds at once, by ground states of weakened instances.
ghost use Rattle.std.specs.Prelude.{◌≡◌, ◌≤◌, length, All, IfErr, OnOk};
ghost use Rattle.sg_base.specs.Limits.{sum_limit};
ghost use Rattle.sg_model.specs.Ising.{bond_count};
ghost use Rattle.sg_model.specs.Spins.{IsAssignment};
ghost use Rattle.sg_model.specs.Energy.{IsGroundState, weight};
ghost use Rattle.sg_tjoin.specs.Allowance.{IfTooLarge};
ghost use Rattle.sg_bonds.specs.Bounds.{AreBounds, Decides, Narrows};
ghost use Rattle.sg_bonds.specs.Flipped.{AreNamedParts};
ghost use Rattle.sg_bonds.specs.Study.{IsStudy};
ghost use Rattle.sg_bonds.specs.Weakened.{FitsWeakened, WeakenedTablesExceed, amount_at, weakened};

use super::NoMemory;
use super::amounts::{PartLimits, Turn, halve, renew, shrink};
use super::bounds::Bound;
use super::deciding::{are_decided, even_bound, mark_bounds, raised};
use super::flipping::{Parts, note_parts, parts_between, single_spins};
use super::telling::rigid_marks;
use super::weaken::{Study, Weakened, ask, fits, scale_for};
use sg_ground::ground_state_within;
use sg_model::Spins;
use sg_planar::Planar;
use sg_tjoin::Unproved;
use std::alloc::Global;

/// Narrows bounds of the costs of all bonds at once: if the bounds that are passed hold, so do these, none is
/// looser, each bond has an upper bound, and the bounds tell which bonds are rigid. How tight they are is not
/// promised, nor that more rounds make them tighter.
///
/// A round weakens each rigid bond by some part of its upper bound in the direction that a ground state
/// satisfies. If the spins still are a ground state, each bond costs at least twice its amount, by the law
/// `weakened_bounds`. Else what is flipped in another one bounds costs from above, and the amounts shrink
/// there. Before that flips of single spins bound the costs from above.
///
/// Cost: that of [`super::clusters`], unless the bounds passed decide each bond, and two ground states and one
/// for each round.
pub fn bond_bounds(
    alloc: Global,
    planar: &Planar,
    bounds: &mut [Bound],
    rounds: u32,
    most_bytes: u64,
) -> Result<(), Unproved>
    requires sum { weight planar.now.instance ≤ sum_limit }
    requires count { length bounds.old ≡ bond_count planar.now.instance }
    ensures narrows { Narrows planar.now.instance bounds.old bounds.new }
    ensures decided { OnOk result (AreBounds planar.now.instance bounds.old → All Decides bounds.new) }
    ensures too_large { IfErr result (IfTooLarge (WeakenedTablesExceed most_bytes planar.now.instance)) }
{
    let _instance = planar.instance();
    decide_all(alloc, planar, most_bytes, bounds)?;
    let least = ground_state_within(alloc, planar, most_bytes)?;
    let study = Study {
        planar,
        least: &least,
        most_bytes,
    };
    narrow_by_rounds(alloc, &study, rounds, bounds)?;
    Ok(())
}

// Tells by the bounds which bonds are rigid.
fn decide_all(
    alloc: Global,
    planar: &Planar,
    most_bytes: u64,
    bounds: &mut [Bound],
) -> Result<(), Unproved>
    requires sum { weight planar.now.instance ≤ sum_limit }
    requires count { length bounds.old ≡ bond_count planar.now.instance }
    ensures narrows { Narrows planar.now.instance bounds.old bounds.new }
    ensures decided { OnOk result (AreBounds planar.now.instance bounds.old → All Decides bounds.new) }
    ensures too_large { IfErr result (IfTooLarge (WeakenedTablesExceed most_bytes planar.now.instance)) }
{
    if are_decided(bounds) {
        return Ok(());
    }
    let marks = rigid_marks(alloc, planar, most_bytes)?;
    mark_bounds(planar.instance(), &marks, bounds);
    Ok(())
}

// Narrows the bounds by so many ground states of weakened instances.
fn narrow_by_rounds(
    alloc: Global,
    study: &Study,
    rounds: u32,
    bounds: &mut [Bound],
) -> Result<(), Unproved>
    requires study { IsStudy study.now }
    requires count { length bounds.old ≡ bond_count study.now.planar.now.instance }
    ensures narrows { Narrows study.now.planar.now.instance bounds.old bounds.new }
    ensures too_large { IfErr result (IfTooLarge (WeakenedTablesExceed study.now.most_bytes study.now.planar.now.instance)) }
{
    let inst = study.planar.instance();
    let singles = single_spins(alloc, inst, &study.least.spins)?;
    note_parts(inst, &study.least.spins, &singles, bounds);
    let mut amounts = vec![in alloc; 0u64; inst.bonds().len()]?;
    weaken_all(alloc, study, rounds, &singles, &mut amounts, bounds)
}

// Weakens the bonds so often, by amounts that begin anew once lower bounds have risen.
fn weaken_all(
    alloc: Global,
    study: &Study,
    rounds: u32,
    parts: &Parts,
    amounts: &mut [u64],
    bounds: &mut [Bound],
) -> Result<(), Unproved>
    requires study { IsStudy study.now }
    requires parts { AreNamedParts study.now.planar.now.instance parts.now }
    requires amounts { length amounts.old ≡ bond_count study.now.planar.now.instance }
    requires count { length bounds.old ≡ bond_count study.now.planar.now.instance }
    ensures narrows { Narrows study.now.planar.now.instance bounds.old bounds.new }
    ensures too_large { IfErr result (IfTooLarge (WeakenedTablesExceed study.now.most_bytes study.now.planar.now.instance)) }
{
    let inst = study.planar.instance();
    let scale = scale_for(inst);
    let limits = PartLimits { inst, parts, scale };
    let mut turn = Turn {
        place: 0,
        is_over: true,
    };
    for _ in 0..rounds {
        turn = renew(alloc, &limits, bounds, turn, amounts)?;
        turn.is_over = weaken_once(alloc, study, scale, amounts, bounds)?;
    }
    Ok(())
}

// Weakens the bonds by these amounts. If the spins still are a ground state, lower bounds rise; else upper
// bounds and amounts fall. Whether they are.
fn weaken_once(
    alloc: Global,
    study: &Study,
    scale: u64,
    amounts: &mut [u64],
    bounds: &mut [Bound],
) -> Result<bool, Unproved>
    requires study { IsStudy study.now }
    requires some { 1 ≤ scale }
    requires amounts { length amounts.old ≡ bond_count study.now.planar.now.instance }
    requires count { length bounds.old ≡ bond_count study.now.planar.now.instance }
    ensures amounts { length amounts.new ≡ length amounts.old }
    ensures narrows { Narrows study.now.planar.now.instance bounds.old bounds.new }
    ensures too_large { IfErr result (IfTooLarge (WeakenedTablesExceed study.now.most_bytes study.now.planar.now.instance)) }
{
    if !fits(study.planar.instance(), scale, amounts) {
        halve(amounts);
        return Ok(false);
    }
    match ask(alloc, study, scale, amounts)? {
        Weakened::Least => {
            raise(study, scale, amounts, bounds);
            Ok(true)
        }
        Weakened::Other(spins) => {
            note_other(alloc, study, scale, &spins, amounts, bounds)?;
            Ok(false)
        }
    }
}

// Lowers upper bounds by what another assignment flips, and the amounts there.
fn note_other(
    alloc: Global,
    study: &Study,
    scale: u64,
    other: &Spins,
    amounts: &mut [u64],
    bounds: &mut [Bound],
) -> Result<(), NoMemory>
    requires study { IsStudy study.now }
    requires other { IsAssignment study.now.planar.now.instance other.now }
    requires amounts { length amounts.old ≡ bond_count study.now.planar.now.instance }
    requires count { length bounds.old ≡ bond_count study.now.planar.now.instance }
    ensures amounts { length amounts.new ≡ length amounts.old }
    ensures narrows { Narrows study.now.planar.now.instance bounds.old bounds.new }
{
    let inst = study.planar.instance();
    let least = &study.least.spins;
    let parts = &parts_between(alloc, inst, least, other)?;
    note_parts(inst, least, parts, bounds);
    shrink(alloc, &PartLimits { inst, parts, scale }, amounts)
}

// Raises the lower bound of each bond that was weakened.
fn raise(study: &Study, scale: u64, amounts: &[u64], bounds: &mut [Bound])
    requires study { IsStudy study.now }
    requires some { 1 ≤ scale }
    requires least { IsGroundState (weakened study.now.planar.now.instance scale study.now.least.now.spins (amount_at amounts.now)) study.now.least.now.spins }
    requires fits { FitsWeakened study.now.planar.now.instance scale (amount_at amounts.now) }
    requires amounts { length amounts.now ≡ bond_count study.now.planar.now.instance }
    requires count { length bounds.old ≡ bond_count study.now.planar.now.instance }
    ensures { Narrows study.now.planar.now.instance bounds.old bounds.new }
{
    let count = study.planar.instance().bonds().len();
    for k in 0..count {
        bounds[k] = raised(bounds[k], even_bound(amounts[k], scale));
    }
}
