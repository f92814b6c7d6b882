ghost use Rattle.std.specs.Prelude.{◌≡◌, ◌≤◌, ◌-◌, ◌*◌, ℕ, IfOk, OnErr, OnOk};
ghost use Rattle.sg_laws.specs.Stream.{Draws};
ghost use Rattle.sg_base.specs.Limits.{sample_limit, spin_limit, width_limit};
ghost use Rattle.sg_ensemble.specs.Samples.{DrawsSamples, IsCylinder, IsSpherical, IsStudied, draw_count};
ghost use Rattle.sg_ensemble.specs.Widths.{AreWidths, IsWidth, StopsAtWidth};

use super::NoMemory;
use super::samples::{EnsembleAnswer, ensemble, ensemble_on};
use sg_base::Numbers;
use sg_laws::{Disorder, start};
use sg_planar::Planar;
use std::alloc::Global;

/// What is kept of the wall energies of one width: their sum, and the sum of their squares.
#[derive(Clone, Copy, Debug)]
pub struct Width {
    pub cols: u32,
    pub sum: i64,
    pub squares: i128,
}

/// Widths, in their order.
pub type WidthList = Numbers<Width>;

/// The ensembles of the cylinders of 3 to `max_cols` columns, from 3 to 64, each of so many samples,
/// from 1 to 1000. The law is seeded anew for each width. The only error is running out of memory; the
/// law has then been seeded for some width, and has made the draws of some of its samples.
///
/// Cost: that of `ensemble` for each width; memory for one sample at a time.
pub fn widths(
    alloc: Global,
    law: &mut Box<dyn Disorder>,
    seed: u64,
    rows: u32,
    max_cols: u32,
    count: u32,
) -> Result<WidthList, NoMemory>
    requires has_row { 1 ≤ rows }
    requires closes { 3 ≤ max_cols }
    requires narrow { max_cols ≤ width_limit }
    requires spins { rows * max_cols ≤ spin_limit }
    requires some { 1 ≤ count }
    requires few { count ≤ sample_limit }
    requires spherical { (cols : ℕ) → 3 ≤ cols → cols ≤ max_cols → IsSpherical rows cols }
    ensures widths { IfOk result (AreWidths rows count (seeded law.old seed) (max_cols - 2)) }
    ensures rest { OnOk result (Draws (count * draw_count rows max_cols) (seeded law.old seed) (next law.new)) }
    ensures stopped { OnErr result (StopsAtWidth rows max_cols count (seeded law.old seed) (next law.new)) }
    ensures title { title law.new ≡ title law.old }
    ensures seeds { (s c : ℕ) → seeded law.new s c ≡ seeded law.old s c }
{
    let mut widths = WidthList::new(alloc);
    for cols in 3..max_cols + 1 {
        let width = one_width(alloc, law, seed, rows, cols, count)?;
        widths.push(width)?;
    }
    Ok(widths)
}

// The ensemble of one width, with the law from its seed on.
fn one_width(
    alloc: Global,
    law: &mut Box<dyn Disorder>,
    seed: u64,
    rows: u32,
    cols: u32,
    count: u32,
) -> Result<Width, NoMemory>
    requires size { IsStudied rows cols }
    requires spherical { IsSpherical rows cols }
    requires some { 1 ≤ count }
    requires few { count ≤ sample_limit }
    ensures width { IfOk result (IsWidth rows cols count (seeded law.old seed)) }
    ensures rest { OnOk result (Draws (count * draw_count rows cols) (seeded law.old seed) (next law.new)) }
    ensures made { DrawsSamples rows cols count (seeded law.old seed) (next law.new) }
    ensures title { title law.new ≡ title law.old }
    ensures seeds { (s c : ℕ) → seeded law.new s c ≡ seeded law.old s c }
{
    start(law, seed);
    let found = ensemble(alloc, law, rows, cols, count)?;
    Ok(width_of(cols, &found))
}

/// One width of `widths`, from 1 to 1000 samples with the next draws of the law, on a drawing that the caller
/// has and gives up: a cylinder of this size, with any couplings. The only error is running out of memory;
/// the law has then made the draws of some samples.
pub fn width_on(
    alloc: Global,
    law: &mut Box<dyn Disorder>,
    drawing: Planar,
    rows: u32,
    cols: u32,
    count: u32,
) -> Result<Width, NoMemory>
    requires size { IsStudied rows cols }
    requires cylinder { IsCylinder rows cols drawing.instance }
    requires some { 1 ≤ count }
    requires few { count ≤ sample_limit }
    ensures width { IfOk result (IsWidth rows cols count (next law.old)) }
    ensures rest { OnOk result (Draws (count * draw_count rows cols) (next law.old) (next law.new)) }
    ensures made { DrawsSamples rows cols count (next law.old) (next law.new) }
    ensures title { title law.new ≡ title law.old }
    ensures seeds { (s c : ℕ) → seeded law.new s c ≡ seeded law.old s c }
{
    let found = ensemble_on(alloc, law, drawing, rows, cols, count)?;
    Ok(width_of(cols, &found))
}

// What is kept of an ensemble.
fn width_of(cols: u32, found: &EnsembleAnswer) -> Width
    ensures columns { result.cols ≡ cols }
    ensures sum { result.sum ≡ found.now.sum }
    ensures squares { result.squares ≡ found.now.squares }
{
    Width {
        cols,
        sum: found.sum,
        squares: found.squares,
    }
}
