// Least states with a product at a bond: repairs have to prove them, else `costs` would solve a new
// ground state for each bond and nobody notice.

ghost use Rattle.std.specs.Prelude.{◌≡◌, ◌<◌};
ghost use Rattle.sg_model.specs.Ising.{bond_count};
ghost use Rattle.sg_model.specs.Spins.{IsUpOrDown};

use super::facts::expect;
use sg_bonds::{BondStates, LeastBroken};
use sg_planar::Planar;
use std::alloc::{AllocError, Global};
use std::process::Abort;

// Asks for a product at a bond, notes the answer if a repair proves one, and says whether it does.
fn ask(
    alloc: Global,
    planar: &Planar,
    states: &mut BondStates,
    bond: u32,
    wanted: i64,
    found: &mut Vec<LeastBroken>,
) -> Result<bool, AllocError>
    requires states { states.old ≡ planar.now }
    requires bond_in { bond < bond_count planar.now.instance }
    requires up_or_down { IsUpOrDown wanted }
    ensures { states.new ≡ planar.now }
{
    match states.least_with(alloc, bond, wanted)? {
        Some(state) => {
            found.push(state)?;
            Ok(true)
        }
        None => Ok(false),
    }
}

// Asks for both products at the first bond and each so many bonds on, notes the answers, and says whether repairs
// prove them all.
fn ask_all(
    alloc: Global,
    planar: &Planar,
    states: &mut BondStates,
    found: &mut Vec<LeastBroken>,
    step: usize,
) -> Result<bool, AllocError>
    requires { states.old ≡ planar.now }
    ensures { states.new ≡ planar.now }
{
    for bond in 0..planar.instance().bonds().len() {
        if step > 1 && bond % step != 0 {
            continue;
        }
        let is_like = ask(alloc, planar, states, bond as u32, 1, found)?;
        let is_unlike = ask(alloc, planar, states, bond as u32, -1, found)?;
        if !is_like || !is_unlike {
            return Ok(false);
        }
    }
    Ok(true)
}

// Whether two lists of states are the same.
fn are_alike(first: &[LeastBroken], second: &[LeastBroken]) -> bool {
    for (one, other) in first.iter().zip(second) {
        if one.energy != other.energy || one.bonds.as_slice() != other.bonds.as_slice() {
            return false;
        }
    }
    first.len() == second.len()
}

// Whether repairs prove all states, and the same ones when they are asked again.
fn are_kept(
    alloc: Global,
    planar: &Planar,
    states: &mut BondStates,
    step: usize,
) -> Result<bool, AllocError>
    requires { states.old ≡ planar.now }
{
    let mut first = Vec::new(alloc);
    let mut second = Vec::new(alloc);
    let all_first = ask_all(alloc, planar, states, &mut first, step)?;
    let all_second = ask_all(alloc, planar, states, &mut second, step)?;
    Ok(all_first && all_second && are_alike(&first, &second))
}

// Whether repairs prove all states of an instance, asked twice.
fn are_proved(alloc: Global, planar: &Planar, step: usize) -> Result<bool, AllocError> {
    let mut states = BondStates::new(alloc, planar)?;
    are_kept(alloc, planar, &mut states, step)
}

/// All these states have to be proved by repairs.
pub fn assert_repaired(
    rt: &impl Abort,
    alloc: Global,
    planar: &Planar,
    step: usize,
    about: &str,
) -> Result<(), AllocError> {
    let is_proved = are_proved(alloc, planar, step)?;
    expect(rt, about, is_proved);
    Ok(())
}
