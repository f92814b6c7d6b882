// Which bonds are rigid, without their costs: told by the ground states of weakened instances, and by other
// ground states.
ghost use Rattle.std.specs.Prelude.{◌≡◌, ◌↔◌, ◌⊎◌, ◌<◌, ◌≤◌, [], ◌∷◌, ◌++◌, true, length, IfErr, IfOk, OnOk};
ghost use Rattle.sg_base.specs.Limits.{sum_limit};
ghost use Rattle.sg_model.specs.Ising.{bond_count};
ghost use Rattle.sg_model.specs.Spins.{IsAssignment};
ghost use Rattle.sg_model.specs.Energy.{IsGroundState, energy, weight};
ghost use Rattle.sg_tjoin.specs.Allowance.{IfTooLarge};
ghost use Rattle.sg_planar.specs.Walk.{has};
ghost use Rattle.sg_bonds.specs.declared.telling.Told.TheVariants.{Free, Rigid, Unknown};
ghost use Rattle.sg_bonds.specs.Cost.{IsRigid};
ghost use Rattle.sg_bonds.specs.Cluster.{HasRigid};
ghost use Rattle.sg_bonds.specs.Study.{IsStudy};
ghost use Rattle.sg_bonds.specs.Told.{AreTold};
ghost use Rattle.sg_bonds.specs.Weakened.{FitsWeakened, WeakenedTablesExceed, amount_at, weakened};

use super::NoMemory;
use super::bounds::is_turned;
use super::weaken::{Study, Weakened, ask, decide, fits, scale_for};
use sg_ground::{State, nested_state};
use sg_model::{Instance, Spins};
use sg_nest::Nest;
use sg_planar::Planar;
use sg_tjoin::Unproved;
use sg_windows::Explorer;
use std::alloc::Global;

/// What is told of a bond.
#[derive(Clone, Copy)]
pub(crate) enum Told {
    /// It costs more than 0.
    Rigid,
    /// It costs 0.
    Free,
    /// Nothing yet.
    Unknown,
}

// What a weakened ground state has told.
#[derive(Clone, Copy)]
enum Step {
    // All bonds that were weakened are rigid.
    AllRigid,
    // Some are free.
    SomeFree,
    // Nothing.
    Stuck,
}

// The bonds that are weakened together: those whose number, scattered, leaves `place` when divided by
// `count`.
#[derive(Clone, Copy)]
struct Group {
    count: u32,
    place: u32,
}

/// For each bond whether it is rigid.
///
/// All bonds of which nothing is known are weakened a little in the direction that a ground state likes. If it
/// still is a ground state, they are all rigid; else a new one has the same energy as before, and what it
/// turns is free. Before that other ground states are proposed, and most free bonds found by them.
pub(crate) fn rigid_marks(
    alloc: Global,
    planar: &Planar,
    most_bytes: u64,
) -> Result<Vec<bool>, Unproved>
    requires sum { weight planar.now.instance ≤ sum_limit }
    ensures count { IfOk result (λ set. length set.items ≡ bond_count planar.now.instance) }
    ensures rigid { IfOk result (λ set. HasRigid planar.now.instance (has set.items)) }
    ensures too_large { IfErr result (IfTooLarge (WeakenedTablesExceed most_bytes planar.now.instance)) }
{
    let found = nested_state(alloc, planar, most_bytes)?;
    let least = State {
        spins: found.spins,
        energy: found.energy,
    };
    let study = Study {
        planar,
        least: &least,
        most_bytes,
    };
    marks_of(alloc, &study, &found.nest)
}

// For each bond whether it is rigid.
fn marks_of(alloc: Global, study: &Study, nest: &Option<Nest>) -> Result<Vec<bool>, Unproved>
    requires study { IsStudy study.now }
    ensures count { IfOk result (λ set. length set.items ≡ bond_count study.now.planar.now.instance) }
    ensures rigid { IfOk result (λ set. HasRigid study.now.planar.now.instance (has set.items)) }
    ensures too_large { IfErr result (IfTooLarge (WeakenedTablesExceed study.now.most_bytes study.now.planar.now.instance)) }
{
    let mut told = vec![in alloc; Told::Unknown; study.planar.instance().bonds().len()]?;
    explore(alloc, study, nest, &mut told)?;
    tell(alloc, study, &mut told)?;
    gather(alloc, study, &told)
}

// Tells of the bonds that other ground states turn, as such are proposed, if there is a nest to begin with.
fn explore(
    alloc: Global,
    study: &Study,
    nest: &Option<Nest>,
    told: &mut [Told],
) -> Result<(), NoMemory>
    requires study { IsStudy study.now }
    requires told { AreTold study.now.planar.now.instance told.old }
    ensures told { OnOk result (AreTold study.now.planar.now.instance told.new) }
{
    let Some(nest) = nest else {
        return Ok(());
    };
    let scale = scale_for(study.planar.instance());
    let spins = &study.least.spins;
    let mut explorer = Explorer::new(alloc, study.planar, scale, spins, nest)?;
    follow(alloc, study, &mut explorer, told)
}

// Tells of the bonds that the proposed states turn.
fn follow(
    alloc: Global,
    study: &Study,
    explorer: &mut Explorer,
    told: &mut [Told],
) -> Result<(), NoMemory>
    requires study { IsStudy study.now }
    requires told { AreTold study.now.planar.now.instance told.old }
    ensures told { OnOk result (AreTold study.now.planar.now.instance told.new) }
{
    for _ in 0..u64::MAX {
        match explorer.next(alloc)? {
            Some(spins) => compare_proposed(study, &spins, told),
            None => return Ok(()),
        }
    }
    Ok(())
}

// What a proposed state tells, if it is one.
fn compare_proposed(study: &Study, spins: &Spins, told: &mut [Told])
    requires study { IsStudy study.now }
    requires told { AreTold study.now.planar.now.instance told.old }
    ensures { AreTold study.now.planar.now.instance told.new }
{
    if spins.as_slice().len() == study.planar.instance().n() as usize {
        let _step = compare(study, spins, told);
    }
}

// Tells of the bonds, of all but few.
fn tell(alloc: Global, study: &Study, told: &mut [Told]) -> Result<(), Unproved>
    requires study { IsStudy study.now }
    requires told { AreTold study.now.planar.now.instance told.old }
    ensures told { OnOk result (AreTold study.now.planar.now.instance told.new) }
    ensures too_large { IfErr result (IfTooLarge (WeakenedTablesExceed study.now.most_bytes study.now.planar.now.instance)) }
{
    let mut group = Group { count: 1, place: 0 };
    for _ in 0..u64::MAX {
        match ask_group(alloc, study, group, told)? {
            Step::SomeFree => {}
            Step::AllRigid => group = next(group),
            Step::Stuck => group = halved(group),
        }
        if group.place >= group.count {
            break;
        }
    }
    Ok(())
}

// The group behind this one.
fn next(group: Group) -> Group {
    Group {
        count: group.count,
        place: group.place.saturating_add(1),
    }
}

// Half of a group. Behind so many halves none is left.
fn halved(group: Group) -> Group {
    if group.count >= 1 << 24 {
        return next(group);
    }
    Group {
        count: 2 * group.count,
        place: group.place,
    }
}

// Weakens the bonds of a group of which nothing is known.
fn ask_group(
    alloc: Global,
    study: &Study,
    group: Group,
    told: &mut [Told],
) -> Result<Step, Unproved>
    requires study { IsStudy study.now }
    requires told { AreTold study.now.planar.now.instance told.old }
    ensures told { OnOk result (AreTold study.now.planar.now.instance told.new) }
    ensures too_large { IfErr result (IfTooLarge (WeakenedTablesExceed study.now.most_bytes study.now.planar.now.instance)) }
{
    let amounts = amounts_of(alloc, group, told)?;
    if !has_amount(&amounts) {
        return Ok(Step::AllRigid);
    }
    let scale = scale_for(study.planar.instance());
    if !fits(study.planar.instance(), scale, &amounts) {
        return Ok(Step::Stuck);
    }
    weaken_bonds(alloc, study, scale, &amounts, told)
}

// Weakens bonds by these amounts, and tells of them.
fn weaken_bonds(
    alloc: Global,
    study: &Study,
    scale: u64,
    amounts: &[u64],
    told: &mut [Told],
) -> Result<Step, Unproved>
    requires study { IsStudy study.now }
    requires told { AreTold study.now.planar.now.instance told.old }
    requires fits { FitsWeakened study.now.planar.now.instance scale (amount_at amounts.now) }
    requires count { length amounts.now ≡ bond_count study.now.planar.now.instance }
    ensures told { OnOk result (AreTold study.now.planar.now.instance told.new) }
    ensures too_large { IfErr result (IfTooLarge (WeakenedTablesExceed study.now.most_bytes study.now.planar.now.instance)) }
{
    match ask(alloc, study, scale, amounts)? {
        Weakened::Least => {
            stiffen(study, scale, amounts, told);
            Ok(Step::AllRigid)
        }
        Weakened::Other(spins) => Ok(compare(study, &spins, told)),
    }
}

// What another state tells: if it has the energy of the ground state, the bonds that it turns are free.
fn compare(study: &Study, spins: &Spins, told: &mut [Told]) -> Step
    requires study { IsStudy study.now }
    requires assignment { IsAssignment study.now.planar.now.instance spins.now }
    requires told { AreTold study.now.planar.now.instance told.old }
    ensures { AreTold study.now.planar.now.instance told.new }
{
    if study.planar.instance().energy(spins) != i128::from(study.least.energy) {
        return Step::Stuck;
    }
    free(study.planar.instance(), &study.least.spins, spins, told);
    Step::SomeFree
}

// For each bond 1 if it is in the group and nothing is known of it, and else 0.
fn amounts_of(alloc: Global, group: Group, told: &[Told]) -> Result<Vec<u64>, NoMemory>
    ensures { IfOk result (λ amounts. length amounts.items ≡ length told.now) }
{
    let mut amounts = Vec::with_capacity(alloc, told.len())?;
    for (k, entry) in told.iter().enumerate() {
        let asks = matches!(entry, Told::Unknown) && is_in(group, k as u64);
        amounts.push(u64::from(asks))?;
    }
    Ok(amounts)
}

// Whether a bond is in a group.
fn is_in(group: Group, bond: u64) -> bool {
    let scattered = bond.wrapping_mul(0x9E37_79B9_7F4A_7C15) >> 32;
    group.count < 2 || scattered % u64::from(group.count) == u64::from(group.place)
}

// Whether some amount is not 0.
fn has_amount(amounts: &[u64]) -> bool {
    for amount in amounts {
        if *amount > 0 {
            return true;
        }
    }
    false
}

// The bonds that were weakened are rigid.
fn stiffen(study: &Study, scale: u64, amounts: &[u64], told: &mut [Told])
    requires study { IsStudy study.now }
    requires least { IsGroundState (weakened study.now.planar.now.instance scale study.now.least.now.spins (amount_at amounts.now)) study.now.least.now.spins }
    requires count { length amounts.now ≡ bond_count study.now.planar.now.instance }
    requires told { AreTold study.now.planar.now.instance told.old }
    ensures { AreTold study.now.planar.now.instance told.new }
{
    let count = study.planar.instance().bonds().len();
    for k in 0..count {
        told[k] = stiffened(told[k], amounts[k]);
    }
}

// What is told of a bond that was weakened by this amount.
fn stiffened(told: Told, amount: u64) -> Told
    ensures { (result ≡ told) ⊎ ((1 ≤ amount) × (result ≡ Rigid)) }
{
    if amount > 0 { Told::Rigid } else { told }
}

// What is known of a bond once a ground state flips it, or none does.
fn freed(told: Told, is_turned: bool) -> Told
    ensures { (result ≡ told) ⊎ ((is_turned ≡ true) × (result ≡ Free)) }
{
    if is_turned { Told::Free } else { told }
}

// Each bond that another ground state flips is free.
fn free(inst: &Instance, least: &Spins, turned: &Spins, told: &mut [Told])
    requires ground_state { IsGroundState inst.now least.now }
    requires assignment { IsAssignment inst.now turned.now }
    requires level { energy inst.now turned.now ≡ energy inst.now least.now }
    requires told { AreTold inst.now told.old }
    ensures { AreTold inst.now told.new }
{
    for (k, bond) in inst.bonds().as_slice().iter().enumerate() {
        let turns = is_turned(least, turned, bond);
        told[k] = freed(told[k], turns);
    }
}

// Whether each bond is rigid, by what is told, and else by a ground state of its own.
fn gather(alloc: Global, study: &Study, told: &[Told]) -> Result<Vec<bool>, Unproved>
    requires study { IsStudy study.now }
    requires told { AreTold study.now.planar.now.instance told.now }
    ensures count { IfOk result (λ set. length set.items ≡ bond_count study.now.planar.now.instance) }
    ensures rigid { IfOk result (λ set. HasRigid study.now.planar.now.instance (has set.items)) }
    ensures too_large { IfErr result (IfTooLarge (WeakenedTablesExceed study.now.most_bytes study.now.planar.now.instance)) }
{
    let mut set = Vec::new(alloc);
    for bond in 0..study.planar.instance().bonds().len() {
        let mark = is_rigid(alloc, study, bond as u32, told)?;
        add_mark(&mut set, mark)?;
    }
    Ok(set)
}

// Adds the mark of the next bond.
fn add_mark(set: &mut Vec<bool>, mark: bool) -> Result<(), NoMemory>
    ensures { OnOk result (set.new.items ≡ set.old.items ++ mark ∷ []) }
{
    set.push(mark)?;
    Ok(())
}

// Whether a bond is rigid.
fn is_rigid(alloc: Global, study: &Study, bond: u32, told: &[Told]) -> Result<bool, Unproved>
    requires study { IsStudy study.now }
    requires bond_in { bond < bond_count study.now.planar.now.instance }
    requires told { AreTold study.now.planar.now.instance told.now }
    ensures rigid { IfOk result (λ found. (found ≡ true) ↔ IsRigid study.now.planar.now.instance bond) }
    ensures too_large { IfErr result (IfTooLarge (WeakenedTablesExceed study.now.most_bytes study.now.planar.now.instance)) }
{
    match told[bond as usize] {
        Told::Rigid => Ok(true),
        Told::Free => Ok(false),
        Told::Unknown => decide(alloc, study, bond),
    }
}
