ghost use Rattle.std.specs.Prelude.{◌≡◌, ◌≢◌, ◌+◌, ◌<◌, ℕ, length, slice_index, All, IfOk, OnOk};
ghost use Rattle.sg_model.specs.Ising.{bond_count};
ghost use Rattle.sg_planar.specs.Walk.{has};
ghost use Rattle.sg_planar.specs.Naming.{AllNamed, NamedTo, self_named};

use super::NoMemory;
use super::breadth_first::walk;
use sg_model::Instance;
use std::alloc::Global;

/// The spins that have their own name, rising.
pub(super) fn own_names(alloc: Global, inst: &Instance, names: &[u32]) -> Result<Vec<u32>, NoMemory>
    requires { length names.now ≡ inst.now.n }
    ensures { IfOk result (λ list. list.items ≡ self_named names.now) }
{
    let mut list = Vec::new(alloc);
    for spin in 0..inst.n() {
        if names[spin as usize] == spin {
            list.push(spin)?;
        }
    }
    Ok(list)
}

/// For each spin the least spin that it reaches over the bonds of the set, which holds `true` at each
/// of its bonds: in time linear in the spins and bonds. The only error is running out of memory.
pub fn names(alloc: Global, inst: &Instance, set: &[bool]) -> Result<Vec<u32>, NoMemory>
    requires { length set.now ≡ bond_count inst.now }
    ensures { IfOk result (λ names. AllNamed inst.now (has set.now) names.items) }
{
    let mut marks = vec![in alloc; false; inst.n() as usize]?;
    let mut names = vec![in alloc; 0u32; inst.n() as usize]?;
    name_all(alloc, inst, set, &mut marks, &mut names)?;
    Ok(names)
}

// Names all spins, over marks that are not set.
fn name_all(
    alloc: Global,
    inst: &Instance,
    set: &[bool],
    marks: &mut [bool],
    names: &mut [u32],
) -> Result<(), NoMemory>
    requires set_length { length set.now ≡ bond_count inst.now }
    requires start { NamedTo inst.now (has set.now) marks.old names.old 0 }
    ensures { OnOk result (AllNamed inst.now (has set.now) names.new) }
{
    let mut order = Vec::new(alloc);
    for spin in 0..inst.n() {
        name_from(inst, set, spin, marks, &mut order, names)?;
    }
    Ok(())
}

// Names the spins that this one reaches, unless it has a name.
fn name_from(
    inst: &Instance,
    set: &[bool],
    spin: u32,
    marks: &mut [bool],
    order: &mut Vec<u32>,
    names: &mut [u32],
) -> Result<(), NoMemory>
    requires spin_in { spin < inst.now.n }
    requires set_length { length set.now ≡ bond_count inst.now }
    requires named { NamedTo inst.now (has set.now) marks.old names.old spin }
    ensures { OnOk result (NamedTo inst.now (has set.now) marks.new names.new (spin + 1)) }
{
    if !marks[spin as usize] {
        walk(inst, set, spin, marks, order)?;
        give(order, spin, names);
    }
    Ok(())
}

// Gives the spins of the order one name.
fn give(order: &[u32], name: u32, names: &mut [u32])
    requires { All (λ x. x < length names.old) order.now }
    ensures given { (k : ℕ) → k < length order.now →
        slice_index names.new (slice_index order.now k) ≡ name }
    ensures others { (x : ℕ) → ((k : ℕ) → k < length order.now → slice_index order.now k ≢ x) →
        slice_index names.new x ≡ slice_index names.old x }
{
    for spin in order {
        names[*spin as usize] = name;
    }
}
