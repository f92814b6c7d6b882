// Energies, spins and the loops that prove them.
ghost use Rattle.std.specs.Prelude.{◌≡◌, ◌++◌, pos, map, IfOk, OnOk};
ghost use Rattle.std.specs.List.{flat_map};
ghost use Rattle.sg_report.specs.Line.{listed_number};
ghost use Rattle.sg_report.specs.Text.{energy_text as energy_bytes, ground_text as ground_bytes, loop_line, state_lines};

use super::NoMemory;
use super::line::{push_entries, push_entry, push_line};
use sg_check::{Loop, Loops};
use sg_model::Spins;
use std::alloc::Global;

/// The text of an energy and the spins that have it.
pub fn energy_text(alloc: Global, energy: i64, spins: &Spins) -> Result<Vec<u8>, NoMemory>
    ensures { IfOk result (λ text. text.items ≡ energy_bytes energy spins.now) }
{
    let mut text = Vec::new(alloc);
    push_state(&mut text, energy, spins)?;
    text.extend_from_slice(b"end\n")?;
    Ok(text)
}

/// The text of an energy, the spins that have it, and the loops that prove it, in their order.
pub fn ground_text(
    alloc: Global,
    energy: i64,
    spins: &Spins,
    loops: &Loops,
) -> Result<Vec<u8>, NoMemory>
    ensures { IfOk result (λ text. text.items ≡ ground_bytes energy spins.now loops.now) }
{
    let room = spins.len().saturating_mul(3);
    let mut text = Vec::with_capacity(alloc, room.saturating_add(room_for(loops.as_slice())))?;
    push_state(&mut text, energy, spins)?;
    push_loops(&mut text, loops.as_slice())?;
    text.extend_from_slice(b"end\n")?;
    Ok(text)
}

// Adds the lines of an energy and of the spins that have it.
fn push_state(text: &mut Vec<u8>, energy: i64, spins: &Spins) -> Result<(), NoMemory>
    ensures { OnOk result (text.new.items ≡ text.old.items ++ state_lines energy spins.now) }
{
    push_line(text, b"energy", &[i128::from(energy)])?;
    text.extend_from_slice(b"spins")?;
    push_spins(text, spins.as_slice())?;
    text.push(b'\n')?;
    Ok(())
}

// Adds a comma and a value for each spin.
pub fn push_spins(text: &mut Vec<u8>, spins: &[i8]) -> Result<(), NoMemory>
    ensures { OnOk result (text.new.items ≡ text.old.items ++ flat_map listed_number spins.now) }
{
    for value in spins {
        push_entry(text, i128::from(*value))?;
    }
    Ok(())
}

// Adds the line of each loop.
pub fn push_loops(text: &mut Vec<u8>, loops: &[Loop]) -> Result<(), NoMemory>
    ensures { OnOk result (text.new.items ≡ text.old.items ++ flat_map loop_line loops.now) }
{
    for entry in loops {
        push_loop(text, entry)?;
    }
    Ok(())
}

// Adds the line of a loop.
fn push_loop(text: &mut Vec<u8>, entry: &Loop) -> Result<(), NoMemory>
    ensures { OnOk result (text.new.items ≡ text.old.items ++ loop_line entry.now) }
{
    push_entries(text, b"loop", &[i128::from(entry.y)])?;
    push_bonds(text, entry.bonds.as_slice())?;
    text.push(b'\n')?;
    Ok(())
}

/// Adds a comma and a number for each bond, or for each edge.
pub fn push_bonds(text: &mut Vec<u8>, bonds: &[u32]) -> Result<(), NoMemory>
    ensures { OnOk result (text.new.items ≡ text.old.items ++ flat_map listed_number (map pos bonds.now)) }
{
    for bond in bonds {
        push_entry(text, i128::from(*bond))?;
    }
    Ok(())
}

/// About how many bytes the lines of loops take, so that a text is not moved as it grows. Nothing is
/// promised of it.
pub fn room_for(loops: &[Loop]) -> usize {
    let mut room = 64usize;
    for entry in loops {
        let bonds = entry.bonds.len().saturating_mul(5);
        room = room.saturating_add(bonds.saturating_add(20));
    }
    room
}
