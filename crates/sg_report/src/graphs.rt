// Joins and closed walks in a weighted graph, with the cuts that prove them.
ghost use Rattle.std.specs.Prelude.{◌≡◌, ◌++◌, pos, map, codes, IfOk, OnOk};
ghost use Rattle.std.specs.List.{flat_map};
ghost use Rattle.sg_report.specs.Line.{line};
ghost use Rattle.sg_report.specs.Graphs.{cut_line, postman_text as postman_bytes, step_line, tjoin_text as tjoin_bytes};

use super::NoMemory;
use super::answers::{push_bonds, room_for};
use super::line::{push_entries, push_line};
use sg_check::{Loop, Loops};
use std::alloc::Global;

/// The text of a T-join: its weight, its edges, and the cuts in their order. A cut is passed as a
/// loop with its weight, and with edges in place of bonds.
pub fn tjoin_text(
    alloc: Global,
    weight: i64,
    edges: &[u32],
    cuts: &Loops,
) -> Result<Vec<u8>, NoMemory>
    ensures { IfOk result (λ text. text.items ≡ tjoin_bytes weight edges.now cuts.now) }
{
    let room = edges.len().saturating_mul(5);
    let mut text = Vec::with_capacity(alloc, room.saturating_add(room_for(cuts.as_slice())))?;
    push_line(&mut text, b"weight", &[i128::from(weight)])?;
    push_edges(&mut text, edges)?;
    push_cuts(&mut text, cuts.as_slice())?;
    text.extend_from_slice(b"end\n")?;
    Ok(text)
}

/// The text of a closed walk: its weight, its steps, each the number of an edge and the node that it
/// leads to, and the cuts in their order, passed as for a T-join.
pub fn postman_text(
    alloc: Global,
    weight: i64,
    steps: &[(u32, u32)],
    cuts: &Loops,
) -> Result<Vec<u8>, NoMemory>
    ensures { IfOk result (λ text. text.items ≡ postman_bytes weight steps.now cuts.now) }
{
    let room = steps.len().saturating_mul(15);
    let mut text = Vec::with_capacity(alloc, room.saturating_add(room_for(cuts.as_slice())))?;
    push_line(&mut text, b"weight", &[i128::from(weight)])?;
    push_steps(&mut text, steps)?;
    push_cuts(&mut text, cuts.as_slice())?;
    text.extend_from_slice(b"end\n")?;
    Ok(text)
}

// Adds the line of the edges of a T-join.
fn push_edges(text: &mut Vec<u8>, edges: &[u32]) -> Result<(), NoMemory>
    ensures { OnOk result (text.new.items ≡ text.old.items ++ line (codes "edges") (map pos edges.now)) }
{
    text.extend_from_slice(b"edges")?;
    push_bonds(text, edges)?;
    text.push(b'\n')?;
    Ok(())
}

// Adds the line of each step.
fn push_steps(text: &mut Vec<u8>, steps: &[(u32, u32)]) -> Result<(), NoMemory>
    ensures { OnOk result (text.new.items ≡ text.old.items ++ flat_map step_line steps.now) }
{
    for step in steps {
        push_line(text, b"step", &[i128::from(step.0), i128::from(step.1)])?;
    }
    Ok(())
}

// Adds the line of each cut.
fn push_cuts(text: &mut Vec<u8>, cuts: &[Loop]) -> Result<(), NoMemory>
    ensures { OnOk result (text.new.items ≡ text.old.items ++ flat_map cut_line cuts.now) }
{
    for cut in cuts {
        push_cut(text, cut)?;
    }
    Ok(())
}

// Adds the line of a cut.
fn push_cut(text: &mut Vec<u8>, cut: &Loop) -> Result<(), NoMemory>
    ensures { OnOk result (text.new.items ≡ text.old.items ++ cut_line cut.now) }
{
    push_entries(text, b"cut", &[i128::from(cut.y)])?;
    push_bonds(text, cut.bonds.as_slice())?;
    text.push(b'\n')?;
    Ok(())
}
