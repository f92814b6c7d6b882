// The drawing of a cylinder, and sample after sample on it: couplings that are drawn, and the energy of
// the domain wall.
ghost use Rattle.std.specs.Prelude.{◌≡◌, ◌≤◌, ◌^◌, ℕ, length, All, IfOk, OnOk, unsigned_abs};
ghost use Rattle.sg_model.specs.Energy.{weight};
ghost use Rattle.sg_laws.specs.Stream.{Draws, IsDraw};
ghost use Rattle.sg_lattice.specs.declared.kind.Kind.TheVariants.{Cylinder};
ghost use Rattle.sg_lattice.specs.Tables.{lattice};
ghost use Rattle.sg_ensemble.specs.Samples.{DrawsSamples, IsFitWithWall, IsCylinder, IsSpherical, IsStudied, draw_count};

use super::NoMemory;
use sg_lattice::{Kind, bond_count, build};
use sg_laws::{Disorder, draws};
use sg_model::{Couplings, Fault};
use sg_planar::Planar;
use sg_wall::wall;
use std::alloc::{AllocError, Global};

/// The cylinder of a size with its faces and components, before any coupling is drawn.
pub fn drawing_of(alloc: Global, rows: u32, cols: u32) -> Result<Planar, NoMemory>
    requires size { IsStudied rows cols }
    requires spherical { IsSpherical rows cols }
    ensures { IfOk result (λ p. IsCylinder rows cols p.instance) }
{
    let bare = build(
        alloc,
        Kind::Cylinder,
        rows,
        cols,
        no_couplings(alloc, rows, cols)?,
    )?;
    match Planar::test(alloc, bare) {
        Ok(drawing) => Ok(drawing),
        Err(Fault::NoMemory) => Err(AllocError),
        Err(Fault::Refused(_)) => unreachable!(),
    }
}

// The coupling 0 for each bond of a cylinder.
fn no_couplings(alloc: Global, rows: u32, cols: u32) -> Result<Couplings, NoMemory>
    requires { IsStudied rows cols }
    ensures count { IfOk result (λ j. length j ≡ draw_count rows cols) }
    ensures range { IfOk result (λ j. All IsDraw j) }
{
    let zeros = vec![in alloc; 0i64; draw_total(rows, cols)]?;
    Ok(Couplings::from_vec(zeros))
}

// The number of bonds of a cylinder.
fn draw_total(rows: u32, cols: u32) -> usize
    requires { IsStudied rows cols }
    ensures { result ≡ draw_count rows cols }
{
    bond_count(Kind::Cylinder, rows, cols) as usize
}

/// The cylinder with the next draws of the law as its couplings, on the same drawing, which is moved. The
/// law continues after these draws. If an allocation fails, it has made none of them, and the drawing is
/// gone.
pub fn next_sample(
    alloc: Global,
    law: &mut Box<dyn Disorder>,
    drawing: Planar,
    rows: u32,
    cols: u32,
) -> Result<Planar, NoMemory>
    requires size { IsStudied rows cols }
    requires cylinder { IsCylinder rows cols drawing.instance }
    ensures sample { IfOk result (λ p. p.instance ≡ lattice Cylinder rows cols (next law.old (draw_count rows cols))) }
    ensures small { IfOk result (λ p. weight p.instance ≤ 2 ^ 32) }
    ensures rest { OnOk result (Draws (draw_count rows cols) (next law.old) (next law.new)) }
    ensures made { DrawsSamples rows cols 1 (next law.old) (next law.new) }
    ensures title { title law.new ≡ title law.old }
    ensures seeds { (s c : ℕ) → seeded law.new s c ≡ seeded law.old s c }
{
    know_counts(law);
    let drawn = draws(alloc, law, draw_total(rows, cols))?;
    let couplings = Couplings::from_vec(drawn);
    Ok(drawing.with_couplings(&couplings))
}

/// That the lists of draws are as long as they should be, which a law tells with its name.
pub fn know_counts(law: &Box<dyn Disorder>)
    ensures { (c : ℕ) → length (next law.now c) ≡ c }
{
    let _name = law.name();
}

/// The energy of the domain wall of an instance of a small sum.
pub fn seam_wall(alloc: Global, planar: &Planar) -> Result<i64, NoMemory>
    requires { weight planar.now.instance ≤ 2 ^ 32 }
    ensures wall { IfOk result (λ d. IsFitWithWall planar.now.instance d) }
    ensures size { IfOk result (λ d. unsigned_abs d ≤ 2 ^ 33) }
{
    let _instance = planar.instance();
    Ok(wall(alloc, planar)?.difference)
}
