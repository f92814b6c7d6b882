// The answer of a part in the numbers of the whole.

ghost use Rattle.std.specs.Prelude.{◌≡◌, ◌<◌, ◌++◌, length, map, All, IfOk, OnOk};
ghost use Rattle.std.specs.List.Sorted.{IsStrictlyIncreasing};
ghost use Rattle.sg_model.specs.Spins.{IsUpOrDown};
ghost use Rattle.sg_ground.specs.Placed.{WritesAt, loop_in_whole, numbered};

use super::NoMemory;
use sg_check::{Loop, Loops};
use sg_model::{BondList, Spins};
use std::alloc::Global;

// Writes the values of a part to the places of its spins.
pub fn place_values(values: &mut [i8], places: &[u32], part: &[i8])
    requires rising { IsStrictlyIncreasing places.now }
    requires below { All (λ x. x < length values.old) places.now }
    requires count { length part.now ≡ length places.now }
    ensures { WritesAt places.now part.now values.old values.new }
{
    for (i, place) in places.iter().enumerate() {
        values[*place as usize] = part[i];
    }
}

// Adds the loops of a part, each through the same bonds by their numbers in the whole.
pub fn place_loops(
    alloc: Global,
    loops: &mut Loops,
    part: &[Loop],
    bonds: &[u32],
) -> Result<(), NoMemory>
    requires below { All (λ l. All (λ i. i < length bonds.now) l.bonds) part.now }
    ensures { OnOk result (loops.new ≡ loops.old ++ map (loop_in_whole bonds.now) part.now) }
{
    for entry in part {
        loops.push(Loop {
            y: entry.y,
            bonds: bond_numbers(alloc, entry.bonds.as_slice(), bonds)?,
        })?;
    }
    Ok(())
}

// The numbers of bonds in the whole, by their numbers in a part.
fn bond_numbers(alloc: Global, list: &[u32], bonds: &[u32]) -> Result<BondList, NoMemory>
    requires below { All (λ i. i < length bonds.now) list.now }
    ensures { IfOk result (λ numbers. numbers ≡ map (numbered bonds.now) list.now) }
{
    let mut numbers = BondList::new(alloc);
    for i in list {
        numbers.push(bonds[*i as usize])?;
    }
    Ok(numbers)
}

// The values as spins.
pub fn spins_of(alloc: Global, values: &[i8]) -> Result<Spins, NoMemory>
    requires { All IsUpOrDown values.now }
    ensures { IfOk result (λ spins. spins ≡ values.now) }
{
    let mut spins = Spins::new(alloc);
    for value in values {
        spins.push(*value)?;
    }
    Ok(spins)
}
