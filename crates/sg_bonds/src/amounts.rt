// Proposals of amounts by which bonds are weakened. Nothing is proved of them but how many there are, since
// what is concluded from them is judged by a ground state.
ghost use Rattle.std.specs.Prelude.{◌≡◌, length};
ghost use Rattle.sg_model.specs.Ising.{bond_count};
ghost use Rattle.sg_bonds.specs.Flipped.{ArePartNames, AreNamedParts};

use super::NoMemory;
use super::bounds::Bound;
use super::flipping::Parts;
use sg_model::Instance;
use std::alloc::Global;

/// Which half of the bonds is weakened, and whether their lower bounds have risen, so that the next half follows.
#[derive(Clone, Copy)]
pub(crate) struct Turn {
    pub(crate) place: u32,
    pub(crate) is_over: bool,
}

/// What the amounts of a part are to stay below: what is gained by flipping it, times the scale.
#[derive(Drop)]
pub(crate) struct PartLimits<'a> {
    pub(crate) inst: &'a Instance,
    pub(crate) parts: &'a Parts,
    pub(crate) scale: u64,
}

/// New amounts when a turn is over: at the bonds of the next half a quarter of the upper bound, times the scale,
/// but together no more than the gain of a part.
pub(crate) fn renew(
    alloc: Global,
    limits: &PartLimits,
    bounds: &[Bound],
    turn: Turn,
    amounts: &mut [u64],
) -> Result<Turn, NoMemory>
    requires parts { AreNamedParts limits.now.inst.now limits.now.parts.now }
    requires amounts { length amounts.old ≡ bond_count limits.now.inst.now }
    requires bounds { length bounds.now ≡ bond_count limits.now.inst.now }
    ensures { length amounts.new ≡ length amounts.old }
{
    if !turn.is_over {
        return Ok(turn);
    }
    begin(bounds, limits.scale, turn.place, amounts);
    shrink(alloc, limits, amounts)?;
    Ok(Turn {
        place: turn.place.wrapping_add(1),
        is_over: false,
    })
}

// The first amounts of a turn.
fn begin(bounds: &[Bound], scale: u64, place: u32, amounts: &mut [u64])
    requires { length bounds.now ≡ length amounts.old }
    ensures { length amounts.new ≡ length amounts.old }
{
    for k in 0..amounts.len() {
        amounts[k] = first_amount(bounds[k].high, scale, is_in(k as u64, place));
    }
}

// Whether a bond is in the half of a turn. Halves are scattered.
fn is_in(bond: u64, place: u32) -> bool {
    let scattered = bond.wrapping_mul(0x9E37_79B9_7F4A_7C15) >> 40;
    scattered % 2 == u64::from(place % 2)
}

// A quarter of an upper bound, times the scale.
fn first_amount(high: i64, scale: u64, is_in: bool) -> u64 {
    if high <= 0 || !is_in {
        return 0;
    }
    scale.saturating_mul(high as u64) / 4
}

/// All amounts become half as large.
pub(crate) fn halve(amounts: &mut [u64])
    ensures { length amounts.new ≡ length amounts.old }
{
    for k in 0..amounts.len() {
        amounts[k] /= 2;
    }
}

/// Lowers the amounts of the bonds between two parts, if together they exceed what is gained by flipping one
/// of these: in proportion, and by half.
pub(crate) fn shrink(
    alloc: Global,
    limits: &PartLimits,
    amounts: &mut [u64],
) -> Result<(), NoMemory>
    requires parts { AreNamedParts limits.now.inst.now limits.now.parts.now }
    requires amounts { length amounts.old ≡ bond_count limits.now.inst.now }
    ensures { length amounts.new ≡ length amounts.old }
{
    let parts = limits.parts;
    let mut taken = vec![in alloc; 0u64; parts.gains.len()]?;
    add_amounts(limits.inst, &parts.names, amounts, &mut taken);
    for (k, bond) in limits.inst.bonds().as_slice().iter().enumerate() {
        let first = parts.names[bond.u as usize] as usize;
        let second = parts.names[bond.v as usize] as usize;
        let part = if taken[first] < taken[second] {
            first
        } else {
            second
        };
        if first != second {
            amounts[k] = lowered_amount(amounts[k], taken[part], parts.gains[part], limits.scale);
        }
    }
    Ok(())
}

// Adds the amounts to the parts that their bonds connect.
fn add_amounts(inst: &Instance, names: &[u32], amounts: &[u64], taken: &mut [u64])
    requires names { ArePartNames inst.now names.now }
    requires taken { length taken.old ≡ inst.now.n }
    requires amounts { length amounts.now ≡ bond_count inst.now }
    ensures { length taken.new ≡ length taken.old }
{
    for (k, bond) in inst.bonds().as_slice().iter().enumerate() {
        let first = names[bond.u as usize] as usize;
        let second = names[bond.v as usize] as usize;
        if first != second {
            taken[first] = taken[first].saturating_add(amounts[k]);
            taken[second] = taken[second].saturating_add(amounts[k]);
        }
    }
}

// An amount, lower if all of a part's exceed half of the gain, times the scale.
fn lowered_amount(amount: u64, taken: u64, gain: i64, scale: u64) -> u64 {
    let room = scale.saturating_mul(gain.max(0) as u64) / 2;
    if taken <= room {
        return amount;
    }
    let share = u128::from(amount) * u128::from(room) / u128::from(taken);
    (share / 2) as u64
}
