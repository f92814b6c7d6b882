ghost use Rattle.std.specs.Prelude.{◌≡◌, ◌≤◌, ◌*◌, ◌^◌, ℕ, All, IfOk, OnOk, unsigned_abs};
ghost use Rattle.sg_laws.specs.Stream.{Draws};
ghost use Rattle.sg_base.specs.Limits.{sample_limit};
ghost use Rattle.sg_ensemble.specs.Samples.{AreWalls, DrawsSamples, IsCylinder, IsSpherical, IsStudied, draw_count, int_sum, square_sum};

use super::drawing::{drawing_of, know_counts, next_sample, seam_wall};
use super::sums::{sum, sum_of_squares};
use super::{CostList, NoMemory};
use sg_laws::Disorder;
use sg_planar::Planar;
use std::alloc::Global;

/// The wall energies of an ensemble, in the order of the samples, their sum, and the sum of their
/// squares.
#[derive(Drop)]
pub struct EnsembleAnswer {
    pub walls: CostList,
    pub sum: i64,
    pub squares: i128,
}

/// The energies of the domain walls of so many cylinders, from 1 to 1000, each of which has the next
/// draws of the law as its couplings, in the order of its bonds. The only error is running out of
/// memory; the law has then made some of the draws.
///
/// The cylinder must be drawn on a sphere, which `Planar::test` tells of one with any couplings; callers
/// that have such a `Planar` use `ensemble_on`. Cost: one drawing, and two ground states for each sample;
/// memory for one sample at a time.
pub fn ensemble(
    alloc: Global,
    law: &mut Box<dyn Disorder>,
    rows: u32,
    cols: u32,
    count: u32,
) -> Result<EnsembleAnswer, NoMemory>
    requires size { IsStudied rows cols }
    requires spherical { IsSpherical rows cols }
    requires some { 1 ≤ count }
    requires few { count ≤ sample_limit }
    ensures walls { IfOk result (λ a. AreWalls rows cols count (next law.old (count * draw_count rows cols)) a.walls) }
    ensures sum { IfOk result (λ a. a.sum ≡ int_sum a.walls) }
    ensures squares { IfOk result (λ a. a.squares ≡ square_sum a.walls) }
    ensures rest { OnOk result (Draws (count * draw_count rows cols) (next law.old) (next law.new)) }
    ensures made { DrawsSamples rows cols count (next law.old) (next law.new) }
    ensures title { title law.new ≡ title law.old }
    ensures seeds { (s c : ℕ) → seeded law.new s c ≡ seeded law.old s c }
{
    know_counts(law);
    let drawing = drawing_of(alloc, rows, cols)?;
    ensemble_on(alloc, law, drawing, rows, cols, count)
}

/// The same on a drawing that the caller has and gives up: a cylinder of this size, with any couplings.
/// They do not come into the ensemble.
pub fn ensemble_on(
    alloc: Global,
    law: &mut Box<dyn Disorder>,
    drawing: Planar,
    rows: u32,
    cols: u32,
    count: u32,
) -> Result<EnsembleAnswer, NoMemory>
    requires size { IsStudied rows cols }
    requires cylinder { IsCylinder rows cols drawing.instance }
    requires some { 1 ≤ count }
    requires few { count ≤ sample_limit }
    ensures walls { IfOk result (λ a. AreWalls rows cols count (next law.old (count * draw_count rows cols)) a.walls) }
    ensures sum { IfOk result (λ a. a.sum ≡ int_sum a.walls) }
    ensures squares { IfOk result (λ a. a.squares ≡ square_sum a.walls) }
    ensures rest { OnOk result (Draws (count * draw_count rows cols) (next law.old) (next law.new)) }
    ensures made { DrawsSamples rows cols count (next law.old) (next law.new) }
    ensures title { title law.new ≡ title law.old }
    ensures seeds { (s c : ℕ) → seeded law.new s c ≡ seeded law.old s c }
{
    let walls = walls(alloc, law, drawing, rows, cols, count)?;
    Ok(EnsembleAnswer {
        sum: sum(walls.as_slice()),
        squares: sum_of_squares(walls.as_slice()),
        walls,
    })
}

// The wall energies of so many samples, all on one drawing.
fn walls(
    alloc: Global,
    law: &mut Box<dyn Disorder>,
    drawing: Planar,
    rows: u32,
    cols: u32,
    count: u32,
) -> Result<CostList, NoMemory>
    requires size { IsStudied rows cols }
    requires cylinder { IsCylinder rows cols drawing.instance }
    ensures walls { IfOk result (AreWalls rows cols count (next law.old (count * draw_count rows cols))) }
    ensures small { IfOk result (λ walls. All (λ d. unsigned_abs d ≤ 2 ^ 33) walls) }
    ensures rest { OnOk result (Draws (count * draw_count rows cols) (next law.old) (next law.new)) }
    ensures made { DrawsSamples rows cols count (next law.old) (next law.new) }
    ensures title { title law.new ≡ title law.old }
    ensures seeds { (s c : ℕ) → seeded law.new s c ≡ seeded law.old s c }
{
    know_counts(law);
    let mut walls = CostList::new(alloc);
    let mut sample = drawing;
    for _ in 0..count {
        sample = next_sample(alloc, law, sample, rows, cols)?;
        let wall = seam_wall(alloc, &sample)?;
        walls.push(wall)?;
    }
    Ok(walls)
}
