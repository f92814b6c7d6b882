// What is drawn from a law of disorder: instances, and the summaries of samples.
ghost use Rattle.std.specs.Prelude.{◌≡◌, ◌++◌, ◌+ℤ◌, ℤ, IfOk, OnOk};
ghost use Rattle.std.specs.Fmt.{signed_decimal};
ghost use Rattle.std.specs.List.{flat_map};
ghost use Rattle.sg_report.specs.Line.{listed_number};
ghost use Rattle.sg_report.specs.Samples.{couplings_line, instance_text as instance_bytes, kind_word, sample_text as sample_bytes};

use super::NoMemory;
use super::line::{push_entry, push_line};
use itoa::Buffer;
use sg_lattice::Kind;
use sg_model::Couplings;
use std::alloc::Global;

/// The text of a lattice with its couplings, as it is read: the kind with the rows and columns, one
/// line with all couplings, left out where there is no bond, and `end`.
pub fn instance_text(
    alloc: Global,
    kind: Kind,
    rows: u32,
    cols: u32,
    j: &Couplings,
) -> Result<Vec<u8>, NoMemory>
    ensures { IfOk result (λ text. text.items ≡ instance_bytes kind rows cols j.now) }
{
    let mut text = Vec::new(alloc);
    push_line(
        &mut text,
        word_of(kind),
        &[i128::from(rows), i128::from(cols)],
    )?;
    push_couplings(&mut text, j.as_slice())?;
    text.extend_from_slice(b"end\n")?;
    Ok(text)
}

// The word of a kind.
fn word_of(kind: Kind) -> &'static [u8]
    ensures { result.now ≡ kind_word kind }
{
    match kind {
        Kind::Square => b"square",
        Kind::Triangular => b"triangular",
        Kind::Hexagonal => b"hexagonal",
        Kind::Cylinder => b"cylinder",
    }
}

// Adds the line of the couplings, if there is one.
fn push_couplings(text: &mut Vec<u8>, j: &[i64]) -> Result<(), NoMemory>
    ensures { OnOk result (text.new.items ≡ text.old.items ++ couplings_line j.now) }
{
    match j.split_first() {
        Some((first, others)) => {
            push_number(text, *first)?;
            push_all(text, others)?;
            text.push(b'\n')?;
            Ok(())
        }
        None => Ok(()),
    }
}

// Adds a comma and a number for each of these.
fn push_all(text: &mut Vec<u8>, numbers: &[i64]) -> Result<(), NoMemory>
    ensures { OnOk result (text.new.items ≡ text.old.items ++ flat_map listed_number numbers.now) }
{
    for number in numbers {
        push_entry(text, i128::from(*number))?;
    }
    Ok(())
}

// Adds a number without a comma.
fn push_number(text: &mut Vec<u8>, number: i64) -> Result<(), NoMemory>
    ensures { OnOk result (text.new.items ≡ text.old.items ++ signed_decimal number) }
{
    let mut buffer = Buffer::new();
    text.extend_from_slice(buffer.format(number).as_bytes())?;
    Ok(())
}

/// The summary of a sample: its spins and bonds, the sum of the couplings' sizes, its least energy,
/// and the weight of the bonds that are broken then, half of energy and sum together.
pub fn sample_text(
    alloc: Global,
    spins: u32,
    bonds: u32,
    sum: i64,
    energy: i64,
) -> Result<Vec<u8>, NoMemory>
    requires even { (half : ℤ) × (half +ℤ half ≡ energy +ℤ sum) }
    ensures { (broken : ℤ) → broken +ℤ broken ≡ energy +ℤ sum →
        IfOk result (λ text. text.items ≡ sample_bytes spins bonds sum energy broken) }
{
    let broken = half_of(energy, sum);
    let mut text = Vec::new(alloc);
    push_line(&mut text, b"spins", &[i128::from(spins)])?;
    push_line(&mut text, b"bonds", &[i128::from(bonds)])?;
    push_line(&mut text, b"sum", &[i128::from(sum)])?;
    push_line(&mut text, b"energy", &[i128::from(energy)])?;
    push_line(&mut text, b"broken", &[broken])?;
    text.extend_from_slice(b"end\n")?;
    Ok(text)
}

// Half of an even sum.
fn half_of(energy: i64, sum: i64) -> i128
    ensures { (half : ℤ) → half +ℤ half ≡ energy +ℤ sum → result ≡ half }
{
    (i128::from(energy) + i128::from(sum)) / 2
}
