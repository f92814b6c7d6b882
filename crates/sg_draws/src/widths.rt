// What `widths` answers.
ghost use Rattle.std.specs.Prelude.{◌≡◌, ◌≤◌, ◌-◌, ℕ, map, IfErr, IfOk, OnOk};
ghost use Rattle.sg_lattice.specs.declared.kind.Kind.TheVariants.{Cylinder};
ghost use Rattle.sg_planar.specs.Fit.{IsFit, IsUnfit};
ghost use Rattle.sg_ensemble.specs.Widths.{AreWidths, IsWidth};
ghost use Rattle.sg_report.specs.Ensembles.{widths_text as widths_bytes};
ghost use Rattle.sg_words.specs.Command.{IsAllowedSize};
ghost use Rattle.sg_base.specs.Limits.{width_limit, sample_limit};
ghost use Rattle.sg_report.specs.Exit.{IsReply};
ghost use Rattle.sg_draws.specs.Drawn.{AnswersWidths, AreFitWidths, IsWidthFault, drawn_lattice};
ghost use Rattle.sg_report.specs.declared.status.Status.TheVariants.{Done as IsDone};
ghost use Rattle.sg_model.specs.Faults.{OrNoMemory};

use super::drawn::drawn_planar;
use sg_ensemble::{Width, WidthList, width_on};
use sg_lattice::Kind;
use sg_laws::{Disorder, start};
use sg_model::Fault;
use sg_report::{NoMemory, Reply, done, refuse_fault, widths_text};
use sg_words::Size;
use std::alloc::Global;

/// The sums over an ensemble for each width from 3 columns to those of the size, each with the draws
/// of the law after the seed, or the refusal of the least width whose first sample is not fit.
pub fn widths_reply(
    alloc: Global,
    law: &mut Box<dyn Disorder>,
    seed: u64,
    size: Size,
    count: u32,
) -> Result<Reply, NoMemory>
    requires size { IsAllowedSize Cylinder size }
    requires narrow { size.cols ≤ width_limit }
    requires some { 1 ≤ count }
    requires few { count ≤ sample_limit }
    ensures served { IfOk result (λ reply.
        AnswersWidths size count (seeded law.old seed) reply.text.items reply.status) }
    ensures replied { IfOk result (λ reply. IsReply reply.status) }
{
    match sums(alloc, law, seed, size, count) {
        Ok(found) => sums_reply(alloc, found.as_slice()),
        Err(fault) => refuse_fault(alloc, &fault),
    }
}

// The sums of each width, or the fault of the least one whose first sample is not fit.
fn sums(
    alloc: Global,
    law: &mut Box<dyn Disorder>,
    seed: u64,
    size: Size,
    count: u32,
) -> Result<WidthList, Fault>
    requires size { IsAllowedSize Cylinder size }
    requires narrow { size.cols ≤ width_limit }
    requires some { 1 ≤ count }
    requires few { count ≤ sample_limit }
    ensures fit { OnOk result (AreFitWidths size (seeded law.old seed)) }
    ensures widths { IfOk result (AreWidths size.rows count (seeded law.old seed) (size.cols - 2)) }
    ensures unfit { IfErr result (IsWidthFault size (seeded law.old seed)) }
{
    let mut widths = WidthList::new(alloc);
    for cols in 3..size.cols + 1 {
        let narrower = Size {
            rows: size.rows,
            cols,
        };
        match sums_of(alloc, law, seed, narrower, count) {
            Ok(width) => widths.push(width)?,
            Err(fault) => return Err(fault),
        }
    }
    Ok(widths)
}

// The sums of one width, on the drawing of its first sample, or the fault of that.
fn sums_of(
    alloc: Global,
    law: &mut Box<dyn Disorder>,
    seed: u64,
    size: Size,
    count: u32,
) -> Result<Width, Fault>
    requires size { IsAllowedSize Cylinder size }
    requires some { 1 ≤ count }
    requires few { count ≤ sample_limit }
    ensures fit { OnOk result (IsFit (drawn_lattice Cylinder size (seeded law.old seed))) }
    ensures width { IfOk result (IsWidth size.rows size.cols count (seeded law.old seed)) }
    ensures unfit { IfErr result (OrNoMemory (IsUnfit (drawn_lattice Cylinder size (seeded law.old seed)))) }
    ensures seeds { (s c : ℕ) → seeded law.new s c ≡ seeded law.old s c }
{
    match drawn_planar(alloc, law, seed, Kind::Cylinder, size) {
        Ok(first) => {
            start(law, seed);
            Ok(width_on(alloc, law, first, size.rows, size.cols, count)?)
        }
        Err(fault) => Err(fault),
    }
}

// The text of these sums.
fn sums_reply(alloc: Global, widths: &[Width]) -> Result<Reply, NoMemory>
    ensures printed { IfOk result (λ reply. reply.text.items
        ≡ widths_bytes (map (λ w. w.cols) widths.now) (map (λ w. w.sum) widths.now) (map (λ w. w.squares) widths.now)) }
    ensures done { IfOk result (λ reply. reply.status ≡ IsDone) }
    ensures replied { IfOk result (λ reply. IsReply reply.status) }
{
    let text = text_of(alloc, widths)?;
    Ok(done(text))
}

// The text of these widths.
fn text_of(alloc: Global, widths: &[Width]) -> Result<Vec<u8>, NoMemory>
    ensures { IfOk result (λ text. text.items
        ≡ widths_bytes (map (λ w. w.cols) widths.now) (map (λ w. w.sum) widths.now) (map (λ w. w.squares) widths.now)) }
{
    let found = columns_of(alloc, widths)?;
    widths_text(alloc, &found.cols, &found.sums, &found.squares)
}

// The widths as three columns.
#[derive(Drop)]
struct Columns {
    cols: Vec<u32>,
    sums: Vec<i64>,
    squares: Vec<i128>,
}

// What each width has, column by column.
fn columns_of(alloc: Global, widths: &[Width]) -> Result<Columns, NoMemory>
    ensures cols { IfOk result (λ found. found.cols.items ≡ map (λ w. w.cols) widths.now) }
    ensures sums { IfOk result (λ found. found.sums.items ≡ map (λ w. w.sum) widths.now) }
    ensures squares { IfOk result (λ found. found.squares.items ≡ map (λ w. w.squares) widths.now) }
{
    let mut cols = Vec::with_capacity(alloc, widths.len())?;
    let mut sums = Vec::with_capacity(alloc, widths.len())?;
    let mut squares = Vec::with_capacity(alloc, widths.len())?;
    for width in widths {
        cols.push(width.cols)?;
        sums.push(width.sum)?;
        squares.push(width.squares)?;
    }
    Ok(Columns {
        cols,
        sums,
        squares,
    })
}
