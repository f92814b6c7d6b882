ghost use Rattle.std.specs.Prelude.{◌≡◌, ℕ, ◌<◌, pos, length, map, vec_len, All, IfOk};
ghost use Rattle.std.specs.List.Sorted.{IsStrictlyIncreasing};
ghost use Rattle.sg_base.specs.Sets.{is_marked};
ghost use Rattle.sg_model.specs.Ising.{bond_count};
ghost use Rattle.sg_model.specs.Rotation.{dart_count, darts_of, tail};
ghost use Rattle.sg_model.specs.Connected.{IsConnected};
ghost use Rattle.sg_model.specs.Spins.{IsAssignment, spin};
ghost use Rattle.sg_model.specs.Broken.{is_negative};
ghost use Rattle.sg_planar.specs.BrokenLists.{BreaksExactly, FitsFaces};
ghost use Rattle.sg_planar.specs.Following.{HeadsSet, IsWalkOrder, TellsDown, is_unlike, value_of};

use super::{NoMemory, Planar, head, walk};
use sg_base::flip;
use sg_model::{Bond, BondList, Instance, Spins};
use std::alloc::Global;

/// The assignment of a connected instance with spin 0 up that breaks the bonds of the list and no
/// others, in time linear in the spins and bonds.
///
/// Each face has as many darts of bonds of the list as darts of negative bonds, up to an even number,
/// where a bond with the face on both of its sides counts twice. In the plane such lists are the
/// broken bonds of the assignments (Bieche, Maynard, Rammal and Uhry 1980): a walk over the bonds
/// from spin 0 continues to an opposite spin if the bond is negative or broken, and not both.
pub fn spin_walk(alloc: Global, planar: &Planar, broken: &BondList) -> Result<Spins, NoMemory>
    requires connected { IsConnected planar.now.instance }
    requires rising { IsStrictlyIncreasing broken.now }
    requires below { All (λ k. k < bond_count planar.now.instance) broken.now }
    requires fits { FitsFaces planar.now.instance planar.now.faces broken.now }
    ensures assignment { IfOk result (λ s. IsAssignment planar.now.instance s) }
    ensures first_up { IfOk result (λ s. spin s 0 ≡ pos 1) }
    ensures breaks { IfOk result (λ s. BreaksExactly planar.now.instance s broken.now) }
{
    let inst = planar.instance();
    let unlike = unlike_bonds(alloc, inst, broken)?;
    let order = walk_order(alloc, inst)?;
    let down = follow(alloc, inst, &unlike, &order)?;
    values(alloc, &down)
}

// For each bond whether it is negative.
fn negative_bonds(alloc: Global, bonds: &[Bond]) -> Result<Vec<bool>, NoMemory>
    ensures { IfOk result (λ marks. marks.items ≡ map is_negative bonds.now) }
{
    let mut marks = Vec::new(alloc);
    for bond in bonds {
        marks.push(bond.j < 0)?;
    }
    Ok(marks)
}

/// For each bond whether it is to join opposite spins.
pub(crate) fn unlike_bonds(
    alloc: Global,
    inst: &Instance,
    broken: &BondList,
) -> Result<Vec<bool>, NoMemory>
    requires rising { IsStrictlyIncreasing broken.now }
    requires below { All (λ k. k < bond_count inst.now) broken.now }
    ensures lengths { IfOk result (λ marks. vec_len marks ≡ bond_count inst.now) }
    ensures marks { IfOk result (λ marks. (k : ℕ) → k < bond_count inst.now →
        is_marked marks.items k ≡ is_unlike inst.now broken.now k) }
{
    let mut unlike = negative_bonds(alloc, inst.bonds().as_slice())?;
    flip(&mut unlike, broken.as_slice());
    Ok(unlike)
}

// All spins in the order of a walk from spin 0.
fn walk_order(alloc: Global, inst: &Instance) -> Result<Vec<u32>, NoMemory>
    requires { IsConnected inst.now }
    ensures { IfOk result (λ order. IsWalkOrder inst.now order.items) }
{
    let all = vec![in alloc; true; inst.bonds().len()]?;
    let mut marks = vec![in alloc; false; inst.n() as usize]?;
    let mut order = Vec::new(alloc);
    walk(inst, &all, 0, &mut marks, &mut order)?;
    Ok(order)
}

// The darts that leave a spin, in their cyclic order.
fn darts_from(inst: &Instance, spin: u32) -> &[u32]
    requires { spin < inst.now.n }
    ensures value { result.now ≡ darts_of inst.now spin }
    ensures leave { All (λ d. (d < dart_count inst.now) × (tail inst.now d ≡ spin)) result.now }
{
    inst.rotation().at(spin as usize)
}

// Sets the neighbours of a spin: unlike it over the bonds that ask for it.
fn set_heads(inst: &Instance, unlike: &[bool], spin: u32, down: &mut [bool])
    requires spin_in { spin < inst.now.n }
    requires bonds { length unlike.now ≡ bond_count inst.now }
    requires spins { length down.old ≡ inst.now.n }
    ensures { HeadsSet inst.now (is_marked unlike.now) spin (darts_of inst.now spin) down.old down.new }
{
    for dart in darts_from(inst, spin) {
        let to = head(inst, *dart);
        down[to as usize] = down[spin as usize] != unlike[(*dart / 2) as usize];
    }
}

// For each spin whether it is down, if spin 0 is up and the bonds are followed.
fn follow(
    alloc: Global,
    inst: &Instance,
    unlike: &[bool],
    order: &[u32],
) -> Result<Vec<bool>, NoMemory>
    requires bonds { length unlike.now ≡ bond_count inst.now }
    requires order { IsWalkOrder inst.now order.now }
    ensures { IfOk result (λ down. TellsDown inst.now (is_marked unlike.now) down.items) }
{
    let mut down = vec![in alloc; false; inst.n() as usize]?;
    for spin in order {
        set_heads(inst, unlike, *spin, &mut down);
    }
    Ok(down)
}

// The spins by whether they are down.
fn values(alloc: Global, down: &[bool]) -> Result<Spins, NoMemory>
    ensures { IfOk result (λ s. s ≡ map value_of down.now) }
{
    let mut spins = Spins::new(alloc);
    for is_down in down {
        spins.push(if *is_down { -1 } else { 1 })?;
    }
    Ok(spins)
}
