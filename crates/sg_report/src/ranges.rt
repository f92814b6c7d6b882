// Turning couplings and largest cuts.
ghost use Rattle.std.specs.Prelude.{◌≡◌, ◌++◌, length, IfOk, OnOk};
ghost use Rattle.sg_report.specs.Ranges.{maxcut_text as maxcut_bytes, place_end, ranges_text as ranges_bytes, turn_line};

use super::NoMemory;
use super::answers::{push_loops, push_spins};
use super::line::{push_entries, push_line};
use sg_check::Loops;
use sg_model::Spins;
use std::alloc::Global;

/// The text of the turning couplings of all bonds, in their order, each with where the coupling of the
/// bond lies: above it, at it or below it.
pub fn ranges_text(alloc: Global, couplings: &[i64], turns: &[i64]) -> Result<Vec<u8>, NoMemory>
    requires { length couplings.now ≡ length turns.now }
    ensures { IfOk result (λ text. text.items ≡ ranges_bytes couplings.now turns.now) }
{
    let mut text = Vec::new(alloc);
    for (bond, turn) in turns.iter().enumerate() {
        push_turn(&mut text, bond, couplings[bond], *turn)?;
    }
    text.extend_from_slice(b"end\n")?;
    Ok(text)
}

// Adds the line of a bond with its turning coupling.
fn push_turn(text: &mut Vec<u8>, bond: usize, coupling: i64, turn: i64) -> Result<(), NoMemory>
    ensures { OnOk result (text.new.items ≡ text.old.items ++ turn_line bond coupling turn) }
{
    push_entries(text, b"turn", &[bond as i128, i128::from(turn)])?;
    text.extend_from_slice(place_end(coupling, turn))?;
    Ok(())
}

// The end of a line: where a coupling lies.
fn place_end(coupling: i64, turn: i64) -> &'static [u8]
    ensures { result.now ≡ place_end coupling turn }
{
    if coupling > turn {
        b",above\n"
    } else if coupling < turn {
        b",below\n"
    } else {
        b",at\n"
    }
}

/// The text of a cut: its weight, its two sides as spins, and the loops that prove that no cut weighs
/// more, in their order.
pub fn maxcut_text(
    alloc: Global,
    weight: i64,
    spins: &Spins,
    loops: &Loops,
) -> Result<Vec<u8>, NoMemory>
    ensures { IfOk result (λ text. text.items ≡ maxcut_bytes weight spins.now loops.now) }
{
    let mut text = Vec::new(alloc);
    push_line(&mut text, b"cut", &[i128::from(weight)])?;
    text.extend_from_slice(b"spins")?;
    push_spins(&mut text, spins.as_slice())?;
    text.push(b'\n')?;
    push_loops(&mut text, loops.as_slice())?;
    text.extend_from_slice(b"end\n")?;
    Ok(text)
}
