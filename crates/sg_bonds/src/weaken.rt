// Ground states where bonds are weakened, and what they tell by the law `weakened_bounds`.
ghost use Rattle.std.specs.Prelude.{◌≡◌, ◌↔◌, ◌+◌, ◌*◌, ◌<◌, ◌≤◌, ◌^◌, ◌-ℤ◌, ◌*ℤ◌, ◌≤ℤ◌, length, pos, true, IfErr, IfOk, IsTrue, unsigned_abs};
ghost use Rattle.sg_base.specs.Limits.{forced_limit, sum_limit};
ghost use Rattle.sg_base.specs.Sums.{sum_below};
ghost use Rattle.sg_model.specs.Ising.{IsBond, bond_at, bond_count};
ghost use Rattle.sg_model.specs.Spins.{IsUpOrDown};
ghost use Rattle.sg_model.specs.Energy.{product, weight};
ghost use Rattle.sg_tjoin.specs.Allowance.{IfTooLarge};
ghost use Rattle.sg_bonds.specs.Cost.{IsRigid};
ghost use Rattle.sg_bonds.specs.Study.{IsStudy};
ghost use Rattle.sg_bonds.specs.Weakened.{FitsWeakened, IsWeakened, WeakenedTablesExceed, amount_at, weakened, weakened_coupling as coupling_weakened, weakened_couplings as couplings_weakened};

use super::NoMemory;
use sg_base::{FORCED_LIMIT, SUM_LIMIT};
use sg_ground::{State, ground_state_within};
use sg_model::{Bond, Couplings, Instance, Spins};
use sg_planar::Planar;
use sg_tjoin::Unproved;
use std::alloc::Global;

// The largest scale. With more than there are bonds, each weakened ground state tells something.
const MOST_SCALE: u64 = 1 << 20;

/// A planar instance with one of its ground states, and the bytes that the tables of the matching fallback
/// may take for each component.
#[derive(Drop)]
pub(crate) struct Study<'a> {
    pub(crate) planar: &'a Planar,
    pub(crate) least: &'a State,
    pub(crate) most_bytes: u64,
}

/// What a ground state of a weakened instance tells of the old one.
#[derive(Drop)]
pub(crate) enum Weakened {
    /// It still is a ground state.
    Least,
    /// These spins have less energy where the bonds are weakened.
    Other(Spins),
}

/// A scale for the couplings: the largest that keeps their sum within its limit, at most 2^20.
pub(crate) fn scale_for(inst: &Instance) -> u64
    requires { weight inst.now ≤ sum_limit }
    ensures some { 1 ≤ result }
    ensures sum { result * weight inst.now ≤ sum_limit }
{
    let weight = inst.weight() as u64;
    if weight == 0 {
        return MOST_SCALE;
    }
    lesser(SUM_LIMIT as u64 / weight, MOST_SCALE)
}

// The lesser of two numbers.
fn lesser(a: u64, b: u64) -> u64
    ensures first { result ≤ a }
    ensures second { result ≤ b }
    ensures some { 1 ≤ a → 1 ≤ b → 1 ≤ result }
{
    if a < b { a } else { b }
}

/// The product of the two spins of a bond.
pub(crate) fn product_at(spins: &Spins, bond: &Bond) -> i64
    requires { IsBond (length spins.now) bond.now }
    ensures up_or_down { IsUpOrDown result }
    ensures value { product spins.now bond.now ≡ result }
{
    if spins.at(bond.u as usize) == spins.at(bond.v as usize) {
        1
    } else {
        -1
    }
}

// The coupling times the scale.
fn scaled(coupling: i64, scale: u64) -> i64
    requires { scale * unsigned_abs coupling < 2 ^ 63 }
    ensures { result ≡ pos scale *ℤ coupling }
{
    (i128::from(scale) * i128::from(coupling)) as i64
}

// A coupling, weaker by the amount in the direction of the product.
fn weaker(coupling: i64, product: i64, amount: i64) -> i64
    requires up_or_down { IsUpOrDown product }
    requires not_negative { pos 0 ≤ℤ amount }
    requires size { unsigned_abs coupling + unsigned_abs amount < 2 ^ 63 }
    ensures { result ≡ coupling -ℤ (amount *ℤ product) }
{
    if product == 1 {
        coupling - amount
    } else {
        coupling + amount
    }
}

// The coupling times the scale, weaker by the amount in the direction that the spins satisfy.
fn weakened_coupling(bond: &Bond, spins: &Spins, scale: u64, amount: u64) -> i64
    requires joined { IsBond (length spins.now) bond.now }
    requires size { scale * unsigned_abs bond.now.j + amount < 2 ^ 63 }
    ensures { result ≡ coupling_weakened scale spins.now bond.now amount }
{
    weaker(
        scaled(bond.j, scale),
        product_at(spins, bond),
        amount as i64,
    )
}

// The weakened couplings of all bonds.
fn weakened_couplings(
    alloc: Global,
    study: &Study,
    scale: u64,
    amounts: &[u64],
) -> Result<Couplings, NoMemory>
    requires study { IsStudy study.now }
    requires fits { FitsWeakened study.now.planar.now.instance scale (amount_at amounts.now) }
    requires count { length amounts.now ≡ bond_count study.now.planar.now.instance }
    ensures { IfOk result (λ list. list ≡ couplings_weakened study.now.planar.now.instance scale study.now.least.now.spins
        (amount_at amounts.now) (bond_count study.now.planar.now.instance)) }
{
    let mut list = Couplings::new(alloc);
    for (k, bond) in study
        .planar
        .instance()
        .bonds()
        .as_slice()
        .iter()
        .enumerate()
    {
        let coupling = weakened_coupling(bond, &study.least.spins, scale, amounts[k]);
        list.push(coupling)?;
    }
    Ok(list)
}

// The weakened instance, with the same drawing.
fn weaker_copy(
    alloc: Global,
    study: &Study,
    scale: u64,
    amounts: &[u64],
) -> Result<Planar, NoMemory>
    requires study { IsStudy study.now }
    requires fits { FitsWeakened study.now.planar.now.instance scale (amount_at amounts.now) }
    requires count { length amounts.now ≡ bond_count study.now.planar.now.instance }
    ensures { IfOk result (λ weaker. weaker.instance ≡ weakened study.now.planar.now.instance scale study.now.least.now.spins (amount_at amounts.now)) }
{
    let couplings = weakened_couplings(alloc, study, scale, amounts)?;
    let _instance = study.planar.instance();
    let copy = study.planar.negated()?;
    Ok(copy.with_couplings(&couplings))
}

/// Whether the ground state still is one where the bonds are weakened by these amounts, and else a state that
/// has less energy there.
///
/// Cost: one ground state.
pub(crate) fn ask(
    alloc: Global,
    study: &Study,
    scale: u64,
    amounts: &[u64],
) -> Result<Weakened, Unproved>
    requires study { IsStudy study.now }
    requires fits { FitsWeakened study.now.planar.now.instance scale (amount_at amounts.now) }
    requires count { length amounts.now ≡ bond_count study.now.planar.now.instance }
    ensures found { IfOk result (IsWeakened study.now.planar.now.instance scale study.now.least.now.spins (amount_at amounts.now)) }
    ensures too_large { IfErr result (IfTooLarge (WeakenedTablesExceed study.now.most_bytes study.now.planar.now.instance)) }
{
    let copy = weaker_copy(alloc, study, scale, amounts)?;
    let state = ground_state_within(alloc, &copy, study.most_bytes)?;
    if copy.instance().energy(&study.least.spins) == i128::from(state.energy) {
        return Ok(Weakened::Least);
    }
    Ok(Weakened::Other(state.spins))
}

/// Whether these amounts fit: with the scaled couplings they add up to no more than a solver takes.
pub(crate) fn fits(inst: &Instance, scale: u64, amounts: &[u64]) -> bool
    requires sum { weight inst.now ≤ sum_limit }
    requires count { length amounts.now ≡ bond_count inst.now }
    ensures { IsTrue result → FitsWeakened inst.now scale (amount_at amounts.now) }
{
    let scaled = i128::from(scale) * inst.weight();
    let few = inst.bonds().len();
    prove!(few <= 1 << 24);
    scaled + total(amounts) <= FORCED_LIMIT
}

// The sum of the amounts.
fn total(amounts: &[u64]) -> i128
    requires few { length amounts.now ≤ 2 ^ 24 }
    ensures value { result ≡ pos (sum_below (amount_at amounts.now) (length amounts.now)) }
    ensures size { sum_below (amount_at amounts.now) (length amounts.now) ≤ 2 ^ 24 * 2 ^ 64 }
{
    let mut sum: i128 = 0;
    for amount in amounts {
        sum += i128::from(*amount);
    }
    sum
}

/// Whether one bond is rigid: it is if the ground state still is one where all couplings are doubled and this
/// one is then weakened by 1.
///
/// Cost: one ground state.
pub(crate) fn decide(alloc: Global, study: &Study, bond: u32) -> Result<bool, Unproved>
    requires study { IsStudy study.now }
    requires bond_in { bond < bond_count study.now.planar.now.instance }
    ensures rigid { IfOk result (λ found. (found ≡ true) ↔ IsRigid study.now.planar.now.instance bond) }
    ensures too_large { IfErr result (IfTooLarge (WeakenedTablesExceed study.now.most_bytes study.now.planar.now.instance)) }
{
    let mut amounts = vec![in alloc; 0u64; study.planar.instance().bonds().len()]?;
    amounts[bond as usize] = 1;
    match ask(alloc, study, 2, &amounts)? {
        Weakened::Least => Ok(true),
        Weakened::Other(_) => Ok(false),
    }
}
