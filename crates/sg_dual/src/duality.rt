ghost use Rattle.std.specs.Prelude.{◌≡◌, ◌≤◌, ◌<◌, ◌^◌, ◌%◌, ℕ, pos, length, map, vec_len, unsigned_abs, IfOk};
ghost use Rattle.std.specs.List.{range_with_len};
ghost use Rattle.sg_model.specs.Ising.{bond_count};
ghost use Rattle.sg_model.specs.Energy.{weight};
ghost use Rattle.sg_model.specs.WellFormed.{IsInstance};
ghost use Rattle.sg_model.specs.Connected.{IsConnected as IsConnectedInstance};
ghost use Rattle.sg_faces.specs.Faces.{IsFaceLabels};
ghost use Rattle.sg_graph.specs.Join.{AreTerminals};
ghost use Rattle.sg_graph.specs.Walk.{IsConnectedWeb};
ghost use Rattle.sg_base.specs.Sets.{is_marked};
ghost use Rattle.sg_dual.specs.Dual.{dual_edge, dual_web, is_frustrated, frustrated_faces};

use super::NoMemory;
use sg_base::places;
use sg_faces::Faces;
use sg_graph::{Edge, Edges, Terminals, Web};
use sg_model::{Bond, Instance};
use std::alloc::Global;

/// The dual of an instance and its frustrated faces, in time linear in the bonds.
///
/// Node `f` is face `f`. Edge `k` joins the faces of the darts `2k` and `2k + 1`, the same where the
/// bond has one face on both of its sides, and weighs the size of the coupling of bond `k`. A face is
/// frustrated if an odd number of its darts belong to negative bonds. The dual of a connected
/// instance is connected, on every surface.
pub fn dual(alloc: Global, inst: &Instance, faces: &Faces) -> Result<(Web, Terminals), NoMemory>
    requires labels { IsFaceLabels inst.now faces.now }
    requires few { faces.now.count ≤ 2 ^ 24 }
    requires light { weight inst.now ≤ 2 ^ 60 }
    ensures web { IfOk result (λ d. d.0 ≡ dual_web inst.now faces.now) }
    ensures frustrated { IfOk result (λ d. d.1 ≡ frustrated_faces inst.now faces.now) }
    ensures terminals { IfOk result (λ d. AreTerminals d.0 d.1) }
    ensures even { IfOk result (λ d. length d.1 % 2 ≡ 0) }
    ensures connected { IfOk result (λ d. IsConnectedInstance inst.now → IsConnectedWeb d.0) }
{
    let edges = dual_edges(alloc, inst, faces)?;
    let terminals = frustrated(alloc, inst, faces)?;
    Ok((Web::new(faces.count(), edges), terminals))
}

// The size of a coupling.
fn size(bond: &Bond) -> i64
    requires { unsigned_abs bond.now.j < 2 ^ 63 }
    ensures { result ≡ pos (unsigned_abs bond.now.j) }
{
    if bond.j < 0 { -bond.j } else { bond.j }
}

// The edges of the dual, in the order of the bonds.
fn dual_edges(alloc: Global, inst: &Instance, faces: &Faces) -> Result<Edges, NoMemory>
    requires { IsFaceLabels inst.now faces.now }
    ensures edges { IfOk result
        (λ edges. edges ≡ map (dual_edge inst.now faces.now) (range_with_len 0 (bond_count inst.now))) }
    ensures instance { IsInstance inst.now }
{
    let mut edges = Edges::new(alloc);
    edges.reserve(inst.bonds().len())?;
    for (k, bond) in inst.bonds().as_slice().iter().enumerate() {
        let dart = 2 * k as u32;
        edges.push(Edge {
            a: faces.of(dart),
            b: faces.of(dart + 1),
            w: size(bond),
        })?;
    }
    Ok(edges)
}

// The frustrated faces, rising.
fn frustrated(alloc: Global, inst: &Instance, faces: &Faces) -> Result<Terminals, NoMemory>
    requires labels { IsFaceLabels inst.now faces.now }
    requires few { faces.now.count ≤ 2 ^ 24 }
    ensures { IfOk result (λ terminals. terminals ≡ frustrated_faces inst.now faces.now) }
{
    let marks = frustration(alloc, inst, faces)?;
    let terminals = places(alloc, &marks)?;
    Ok(terminals)
}

// For each face whether it is frustrated.
fn frustration(alloc: Global, inst: &Instance, faces: &Faces) -> Result<Vec<bool>, NoMemory>
    requires { IsFaceLabels inst.now faces.now }
    ensures lengths { IfOk result (λ marks. vec_len marks ≡ faces.now.count) }
    ensures marks { IfOk result (λ marks. (f : ℕ) → f < faces.now.count →
        is_marked marks.items f ≡ is_frustrated inst.now faces.now f) }
{
    let bonds = inst.bonds().as_slice();
    let mut marks = vec![in alloc; false; faces.count() as usize]?;
    for dart in 0..2 * bonds.len() {
        if bonds[dart / 2].j < 0 {
            let face = faces.of(dart as u32) as usize;
            marks[face] = !marks[face];
        }
    }
    Ok(marks)
}
