// Walls, costs of bonds, clusters.
ghost use Rattle.std.specs.Prelude.{◌≡◌, ◌++◌, IfOk, OnOk};
ghost use Rattle.sg_report.specs.Text.{bonds_text as bonds_bytes, cluster_line, clusters_text as clusters_bytes, cost_line, listed_int, wall_text as wall_bytes};

use super::NoMemory;
use super::line::{push_entries, push_line};
use std::alloc::Global;

/// The text of a wall: the least energy, the least one with the signs of the seam changed, and the
/// second minus the first, in this order.
pub fn wall_text(alloc: Global, wall: [i64; 3]) -> Result<Vec<u8>, NoMemory>
    ensures { IfOk result (λ text. text.items ≡ wall_bytes (listed_int wall 0) (listed_int wall 1) (listed_int wall 2)) }
{
    three_lines(alloc, wall[0], wall[1], wall[2])
}

// The lines of a wall.
fn three_lines(
    alloc: Global,
    periodic: i64,
    antiperiodic: i64,
    difference: i64,
) -> Result<Vec<u8>, NoMemory>
    ensures { IfOk result (λ text. text.items ≡ wall_bytes periodic antiperiodic difference) }
{
    let mut text = Vec::new(alloc);
    push_line(&mut text, b"periodic", &[i128::from(periodic)])?;
    push_line(&mut text, b"antiperiodic", &[i128::from(antiperiodic)])?;
    push_line(&mut text, b"wall", &[i128::from(difference)])?;
    text.extend_from_slice(b"end\n")?;
    Ok(text)
}

// Adds the line of a bond with its cost.
fn push_cost(text: &mut Vec<u8>, bond: usize, cost: i64) -> Result<(), NoMemory>
    ensures { OnOk result (text.new.items ≡ text.old.items ++ cost_line bond cost) }
{
    push_entries(text, b"cost", &[bond as i128, i128::from(cost)])?;
    if cost > 0 {
        text.extend_from_slice(b",rigid\n")?;
    } else {
        text.extend_from_slice(b",loose\n")?;
    }
    Ok(())
}

/// The text of the costs of all bonds, in their order.
pub fn bonds_text(alloc: Global, costs: &[i64]) -> Result<Vec<u8>, NoMemory>
    ensures { IfOk result (λ text. text.items ≡ bonds_bytes costs.now) }
{
    let mut text = Vec::new(alloc);
    for (bond, cost) in costs.iter().enumerate() {
        push_cost(&mut text, bond, *cost)?;
    }
    text.extend_from_slice(b"end\n")?;
    Ok(text)
}

// Adds the line of a spin with its cluster.
fn push_cluster(text: &mut Vec<u8>, spin: usize, cluster: u32) -> Result<(), NoMemory>
    ensures { OnOk result (text.new.items ≡ text.old.items ++ cluster_line spin cluster) }
{
    push_line(text, b"cluster", &[spin as i128, i128::from(cluster)])
}

/// The text of the clusters of all spins, in their order.
pub fn clusters_text(alloc: Global, clusters: &[u32]) -> Result<Vec<u8>, NoMemory>
    ensures { IfOk result (λ text. text.items ≡ clusters_bytes clusters.now) }
{
    let mut text = Vec::new(alloc);
    for (spin, cluster) in clusters.iter().enumerate() {
        push_cluster(&mut text, spin, *cluster)?;
    }
    text.extend_from_slice(b"end\n")?;
    Ok(text)
}
