ghost use Rattle.std.specs.Prelude.{◌≡◌, ◌<◌, ◌/◌, ◌&&◌, false, not, length, OnOk};
ghost use Rattle.sg_base.specs.Sets.{is_marked};
ghost use Rattle.sg_model.specs.Ising.{bond_count};
ghost use Rattle.sg_model.specs.Rotation.{darts_of, dart_count, head_of};
ghost use Rattle.sg_planar.specs.Walk.{IsClosed, IsWalked, has};
ghost use Rattle.sg_planar.specs.Search.{Visits};

use super::NoMemory;
use sg_model::Instance;

/// Marks the spins that `root` reaches over the bonds of the set, and lists them in the order in
/// which a breadth-first search finds them. The set holds `true` at each of its bonds. Spins may be
/// marked before, but no bond of the set joins a marked spin with one that is not. The time is
/// linear in the listed spins and their bonds. If an allocation fails, the marks are unspecified.
pub fn walk(
    inst: &Instance,
    set: &[bool],
    root: u32,
    marks: &mut [bool],
    order: &mut Vec<u32>,
) -> Result<(), NoMemory>
    requires root_in { root < inst.now.n }
    requires lengths { length marks.old ≡ inst.now.n }
    requires set_length { length set.now ≡ bond_count inst.now }
    requires free { is_marked marks.old root ≡ false }
    requires closed { IsClosed inst.now (has set.now) marks.old }
    ensures { OnOk result (IsWalked inst.now (has set.now) root marks.old marks.new order.new.items) }
{
    order.clear();
    order.push(root)?;
    marks[root as usize] = true;
    // Each spin is found once at most.
    for next in 0..inst.n() as usize {
        if next == order.len() {
            break;
        }
        let spin = order[next];
        visit(inst, set, spin, marks, order)?;
    }
    Ok(())
}

/// The spin that a dart leads to.
pub fn head(inst: &Instance, dart: u32) -> u32
    requires { dart < dart_count inst.now }
    ensures value { result ≡ head_of inst.now dart }
    ensures below { result < inst.now.n }
{
    let bond = inst.bonds().at((dart / 2) as usize);
    if dart % 2 == 0 { bond.v } else { bond.u }
}

// Whether the dart is one of the set that leads to a spin without a mark.
fn leads_on(set: &[bool], marks: &[bool], dart: u32, to: u32) -> bool
    requires dart_in { dart / 2 < length set.now }
    requires to_in { to < length marks.now }
    ensures { result ≡ (has set.now (dart / 2) && not (is_marked marks.now to)) }
{
    set[(dart / 2) as usize] && !marks[to as usize]
}

// Marks the neighbours of a spin, and notes those that were not marked.
fn visit(
    inst: &Instance,
    set: &[bool],
    spin: u32,
    marks: &mut [bool],
    order: &mut Vec<u32>,
) -> Result<(), NoMemory>
    requires spin_in { spin < inst.now.n }
    requires lengths { length marks.old ≡ inst.now.n }
    requires set_length { length set.now ≡ bond_count inst.now }
    ensures { OnOk result (Visits inst.now (has set.now) spin (darts_of inst.now spin)
        marks.old marks.new order.old.items order.new.items) }
{
    for dart in inst.rotation().at(spin as usize) {
        let to = head(inst, *dart);
        if leads_on(set, marks, *dart, to) {
            order.push(to)?;
            marks[to as usize] = true;
        }
    }
    Ok(())
}
