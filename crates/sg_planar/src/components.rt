ghost use Rattle.std.specs.Prelude.{◌≡◌, ◌<◌, ◌≤◌, ◌^◌, ◌+◌, ◌*◌, ◌/◌, ◌%◌, map, length, slice_index, All, IfOk};
ghost use Rattle.sg_model.specs.Ising.{bond_at, bond_count};
ghost use Rattle.sg_model.specs.Rotation.{darts_of};
ghost use Rattle.sg_model.specs.Connected.{IsConnected, all_bonds};
ghost use Rattle.sg_model.specs.WellFormed.{IsInstance};
ghost use Rattle.sg_faces.specs.Faces.{IsFaceLabels, Labelling};
ghost use Rattle.sg_planar.specs.Naming.{AllNamed};
ghost use Rattle.sg_planar.specs.Fit.{IsPlanar};
ghost use Rattle.sg_planar.specs.declared.components.Division.TheVariants.{Whole};
ghost use Rattle.sg_planar.specs.Parts.{AreParts, IsDivision, IsPart, restricted};
ghost use Rattle.sg_planar.specs.Splitting.{ArePlaces, IsClosedPart, IsSplit, placed_bond, placed_darts};

use super::dealing::{Dealt, deal};
use super::{Components, NoMemory, Planar};
use sg_base::{Numbers, Records};
use sg_faces::trace;
use sg_model::{Bond, BondList, Bonds, DartList, Instance, Rotation};
use std::alloc::Global;

/// Numbers of spins.
pub type SpinNumbers = Numbers<u32>;

/// Parts of an instance, in the order of their least spins.
pub type PartList = Records<Part>;

/// One component of an instance: its spins, the bonds between them, and an instance of its own, which
/// numbers both by their places in these lists.
#[derive(Drop)]
pub struct Part {
    pub spins: SpinNumbers,
    pub bonds: BondList,
    pub planar: Planar,
}

// Spins and bonds dealt out by the least spin of their component. A spin that is no such has empty
// lists.
#[derive(Drop)]
struct Split {
    spins: Dealt,
    bonds: Dealt,
}

/// How an instance falls into its components.
#[derive(Drop)]
pub enum Division {
    /// It is one component, which is the instance itself.
    Whole,
    /// It is several, each an instance of its own.
    Several(PartList),
}

/// The components of an instance. Of one that is connected nothing is copied, and the answer takes the
/// same time for each; of another the parts are made, as `parts` makes them. The only error is running
/// out of memory.
pub fn divide(alloc: Global, planar: &Planar) -> Result<Division, NoMemory>
    ensures division { IfOk result (IsDivision planar.now.instance) }
    ensures whole { IfOk result (λ d. IsConnected planar.now.instance → d ≡ Whole) }
{
    if planar.is_connected() {
        return Ok(Division::Whole);
    }
    Ok(Division::Several(parts(alloc, planar)?))
}

/// The components of an instance, each as an instance of its own, in the order of their least spins.
///
/// Spins and bonds are dealt out by the least spin of their component, which the instance knows, so
/// that all parts together take time and memory linear in the spins and bonds. Each part is connected
/// and drawn on a sphere as the whole is: its spins and faces are at most two more than its bonds, by
/// Euler's formula, and summed over the parts they are just that. The only error is running out of
/// memory.
pub fn parts(alloc: Global, planar: &Planar) -> Result<PartList, NoMemory>
    ensures { IfOk result (AreParts planar.now.instance) }
{
    let names = planar.components().names.as_slice();
    let split = deal_out(alloc, planar.instance(), names)?;
    parts_of(alloc, planar, names, &split)
}

// For each bond the least spin of its component.
fn bond_names(alloc: Global, bonds: &[Bond], names: &[u32]) -> Result<Vec<u32>, NoMemory>
    requires { All (λ b. b.u < length names.now) bonds.now }
    ensures { IfOk result (λ labels. labels.items ≡ map (λ b. slice_index names.now b.u) bonds.now) }
{
    let mut labels = Vec::new(alloc);
    for bond in bonds {
        labels.push(names[bond.u as usize])?;
    }
    Ok(labels)
}

// Spins and bonds by the names of their components.
fn deal_out(alloc: Global, inst: &Instance, names: &[u32]) -> Result<Split, NoMemory>
    requires { AllNamed inst.now all_bonds names.now }
    ensures { IfOk result (λ split. IsSplit inst.now names.now
        split.spins.lists.items split.spins.places.items split.bonds.lists.items split.bonds.places.items) }
{
    let labels = bond_names(alloc, inst.bonds().as_slice(), names)?;
    let spins = deal(alloc, names, inst.n() as usize)?;
    let bonds = deal(alloc, &labels, inst.n() as usize)?;
    Ok(Split { spins, bonds })
}

// The bonds of the list, each between the places of its ends.
fn placed_bonds(
    alloc: Global,
    inst: &Instance,
    list: &[u32],
    places: &[u32],
) -> Result<Bonds, NoMemory>
    requires places { length places.now ≡ inst.now.n }
    requires below { All (λ k. k < bond_count inst.now) list.now }
    ensures { IfOk result (λ bonds. bonds ≡ map (λ k. placed_bond places.now (bond_at inst.now k)) list.now) }
{
    let mut bonds = Bonds::new(alloc);
    for k in list {
        let bond = inst.bonds().at(*k as usize);
        bonds.push(Bond {
            u: places[bond.u as usize],
            v: places[bond.v as usize],
            j: bond.j,
        })?;
    }
    Ok(bonds)
}

// The darts of the list, by the places of their bonds.
fn placed_list(alloc: Global, darts: &[u32], places: &[u32]) -> Result<DartList, NoMemory>
    requires below { All (λ d. d / 2 < length places.now) darts.now }
    requires small { All (λ p. p < 2 ^ 24) places.now }
    ensures { IfOk result (λ list. list ≡ placed_darts places.now darts.now) }
{
    let mut list = DartList::new(alloc);
    for dart in darts {
        list.push(2 * places[(*dart / 2) as usize] + *dart % 2)?;
    }
    Ok(list)
}

// The darts of the spins of the list, by the places of their bonds.
fn placed_rotation(
    alloc: Global,
    inst: &Instance,
    spins: &[u32],
    places: &[u32],
) -> Result<Rotation, NoMemory>
    requires spins { All (λ x. x < inst.now.n) spins.now }
    requires places { length places.now ≡ bond_count inst.now }
    requires small { All (λ p. p < 2 ^ 24) places.now }
    ensures { IfOk result (λ lists. lists ≡ map (λ x. placed_darts places.now (darts_of inst.now x)) spins.now) }
{
    let mut rotation = Rotation::new(alloc);
    for spin in spins {
        let darts = inst.rotation().at(*spin as usize);
        let placed = placed_list(alloc, darts, places)?;
        rotation.push(placed.as_slice())?;
    }
    Ok(rotation)
}

// The instance of a part. Its lists are a rotation, so that nothing is to be tested.
fn part_instance(
    alloc: Global,
    inst: &Instance,
    spins: &SpinNumbers,
    bonds: &BondList,
    spin_places: &[u32],
    bond_places: &[u32],
) -> Result<Instance, NoMemory>
    requires instance { IsInstance inst.now }
    requires closed { IsClosedPart inst.now spins.now bonds.now }
    requires spin_places { ArePlaces spins.now spin_places.now inst.now.n }
    requires bond_places { ArePlaces bonds.now bond_places.now (bond_count inst.now) }
    ensures { IfOk result (λ part. part ≡ restricted inst.now spins.now bonds.now) }
{
    let list = placed_bonds(alloc, inst, bonds.as_slice(), spin_places)?;
    let rotation = placed_rotation(alloc, inst, spins.as_slice(), bond_places)?;
    Ok(Instance::of_parts(spins.len() as u32, list, rotation, BondList::new(alloc)))
}

// The planar instance of a connected instance, which is drawn on a sphere.
fn planar_of(alloc: Global, instance: Instance) -> Result<Planar, NoMemory>
    requires connected { IsConnected instance }
    requires planar { (faces : Labelling) → IsFaceLabels instance faces →
        IsPlanar (record { instance = instance; faces = faces }) }
    ensures instance { IfOk result (λ p. p.instance ≡ instance) }
    ensures planar { IfOk result IsPlanar }
{
    let faces = trace(alloc, &instance)?;
    let components = Components::whole(alloc, &instance)?;
    Ok(Planar::of(instance, faces, components))
}

// The part of the component with this least spin.
fn part_from(
    alloc: Global,
    planar: &Planar,
    names: &[u32],
    split: &Split,
    least: u32,
) -> Result<Part, NoMemory>
    requires split { IsSplit planar.now.instance names.now split.now.spins.lists.items
        split.now.spins.places.items split.now.bonds.lists.items split.now.bonds.places.items }
    requires least_in { least < planar.now.instance.n }
    requires least_own { slice_index names.now least ≡ least }
    ensures { IfOk result (IsPart planar.now.instance least) }
{
    let inst = planar.instance();
    let spins = split.spins.lists[least as usize].clone()?;
    let bonds = split.bonds.lists[least as usize].clone()?;
    let instance = part_instance(
        alloc,
        inst,
        &spins,
        &bonds,
        &split.spins.places,
        &split.bonds.places,
    )?;
    let planar = planar_of(alloc, instance)?;
    Ok(Part {
        spins,
        bonds,
        planar,
    })
}

// The parts of all components.
fn parts_of(
    alloc: Global,
    planar: &Planar,
    names: &[u32],
    split: &Split,
) -> Result<PartList, NoMemory>
    requires { IsSplit planar.now.instance names.now split.now.spins.lists.items
        split.now.spins.places.items split.now.bonds.lists.items split.now.bonds.places.items }
    ensures { IfOk result (AreParts planar.now.instance) }
{
    let mut parts = PartList::new(alloc);
    for spin in 0..planar.instance().n() {
        if names[spin as usize] == spin {
            parts.push(part_from(alloc, planar, names, split, spin)?)?;
        }
    }
    Ok(parts)
}
