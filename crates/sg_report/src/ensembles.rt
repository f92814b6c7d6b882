// Ensembles of domain walls.
ghost use Rattle.std.specs.Prelude.{◌≡◌, ◌++◌, length, IfOk, OnOk};
ghost use Rattle.std.specs.List.{flat_map, enumerate_from};
ghost use Rattle.sg_report.specs.Ensembles.{ensemble_text as ensemble_bytes, sample_line, width_line, widths_text as widths_bytes};

use super::NoMemory;
use super::line::push_line;
use std::alloc::Global;

/// The text of an ensemble: the wall energy of each sample, in their order, their sum, and the sum of
/// their squares.
pub fn ensemble_text(
    alloc: Global,
    walls: &[i64],
    sum: i64,
    squares: i128,
) -> Result<Vec<u8>, NoMemory>
    ensures { IfOk result (λ text. text.items ≡ ensemble_bytes walls.now sum squares) }
{
    let mut text = wall_lines(alloc, walls)?;
    push_line(&mut text, b"sum", &[i128::from(sum)])?;
    push_line(&mut text, b"squares", &[squares])?;
    text.extend_from_slice(b"end\n")?;
    Ok(text)
}

// The lines of all samples.
fn wall_lines(alloc: Global, walls: &[i64]) -> Result<Vec<u8>, NoMemory>
    ensures { IfOk result (λ text. text.items ≡ flat_map (λ p. sample_line p.0 p.1) (enumerate_from 0 walls.now)) }
{
    let mut text = Vec::new(alloc);
    for (sample, wall) in walls.iter().enumerate() {
        push_sample(&mut text, sample, *wall)?;
    }
    Ok(text)
}

// Adds the line of a sample.
fn push_sample(text: &mut Vec<u8>, sample: usize, wall: i64) -> Result<(), NoMemory>
    ensures { OnOk result (text.new.items ≡ text.old.items ++ sample_line sample wall) }
{
    push_line(text, b"wall", &[sample as i128, i128::from(wall)])
}

/// The text of a study over widths: for each width, in their order, the sum and the sum of squares of
/// its wall energies.
pub fn widths_text(
    alloc: Global,
    cols: &[u32],
    sums: &[i64],
    squares: &[i128],
) -> Result<Vec<u8>, NoMemory>
    requires sums { length sums.now ≡ length cols.now }
    requires squares { length squares.now ≡ length cols.now }
    ensures { IfOk result (λ text. text.items ≡ widths_bytes cols.now sums.now squares.now) }
{
    let mut text = Vec::new(alloc);
    for (place, width) in cols.iter().enumerate() {
        push_width(&mut text, *width, sums[place], squares[place])?;
    }
    text.extend_from_slice(b"end\n")?;
    Ok(text)
}

// Adds the line of a width.
fn push_width(text: &mut Vec<u8>, cols: u32, sum: i64, squares: i128) -> Result<(), NoMemory>
    ensures { OnOk result (text.new.items ≡ text.old.items ++ width_line cols sum squares) }
{
    push_line(
        text,
        b"width",
        &[i128::from(cols), i128::from(sum), squares],
    )
}
