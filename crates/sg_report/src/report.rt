// Reports, as JSON.
ghost use Rattle.std.specs.Prelude.{◌≡◌, ◌++◌, false, codes, map, IfOk, OnOk, Some};
ghost use Rattle.serde_json.specs.Written.{compact_text, has_float};
ghost use Rattle.serde_json.specs.Data.{no_members, object};
ghost use Rattle.serde_json.specs.View.{members_view, view};
ghost use Rattle.sg_report.specs.Report.{report_text as report_bytes};
ghost use Rattle.sg_report.specs.ReportValue.{loop_value as loop_data, name_value, whole_value};
ghost use Rattle.sg_report.specs.ReportValue.{report_value as report_data, wall_value as wall_data};

use super::NoMemory;
use serde_json::{Map, Value, put};
use sg_check::{Loop, Loops};
use sg_model::Spins;
use std::alloc::Global;

// The members of a report.
#[derive(Clone, Copy)]
struct Members<'a> {
    bonds: u32,
    sum: i64,
    energy: i64,
    spins: &'a [i8],
    loops: &'a [Loop],
    costs: &'a [i64],
    clusters: &'a [u32],
    wall: Option<[i64; 3]>,
}

/// The text of a report: one line, a JSON object without blanks, its members in the order of their
/// names. The energies of the wall are given in the order of `wall_text`.
pub fn report_text(
    alloc: Global,
    bonds: u32,
    sum: i64,
    energy: i64,
    spins: &Spins,
    loops: &Loops,
    costs: &[i64],
    clusters: &[u32],
    wall: Option<[i64; 3]>,
) -> Result<Vec<u8>, NoMemory>
    ensures { IfOk result (λ text. text.items
        ≡ report_bytes bonds sum energy spins.now loops.now costs.now clusters.now wall) }
{
    let members = Members {
        bonds,
        sum,
        energy,
        spins: spins.as_slice(),
        loops: loops.as_slice(),
        costs,
        clusters,
        wall,
    };
    let value = report_value(alloc, &members)?;
    line_of(alloc, &value)
}

// The compact text of a value without floats, as a line.
fn line_of(alloc: Global, value: &Value) -> Result<Vec<u8>, NoMemory>
    requires { has_float (view value.now) ≡ false }
    ensures { IfOk result (λ text. text.items ≡ compact_text (view value.now) ++ codes "\n") }
{
    let mut text = value.to_vec(alloc)?;
    text.push(b'\n')?;
    Ok(text)
}

fn report_value(alloc: Global, members: &Members) -> Result<Value, NoMemory>
    ensures { IfOk result (λ v. view v ≡ report_data members.now.bonds members.now.sum members.now.energy
        members.now.spins.now members.now.loops.now members.now.costs.now members.now.clusters.now members.now.wall) }
{
    let mut map = Map::new(alloc);
    put_members(&mut map, alloc, members)?;
    Ok(Value::Object(map))
}

// Puts the members of a report into a map. It borrows the map, which each exit would drop otherwise, and so does not
// use `json!`; the prover pays for each drop.
fn put_members(
    map: &mut Map<String, Value>,
    alloc: Global,
    members: &Members,
) -> Result<(), NoMemory>
    requires { members_view map.old.entries ≡ no_members }
    ensures { OnOk result (object (members_view map.new.entries) ≡ report_data members.now.bonds members.now.sum members.now.energy
        members.now.spins.now members.now.loops.now members.now.costs.now members.now.clusters.now members.now.wall) }
{
    put(map, alloc, "bonds", Value::from(members.bonds))?;
    let clusters = name_values(alloc, members.clusters)?;
    put(map, alloc, "clusters", Value::Array(clusters))?;
    let costs = number_values(alloc, members.costs)?;
    put(map, alloc, "costs", Value::Array(costs))?;
    put(map, alloc, "energy", Value::from(members.energy))?;
    let loops = loop_values(alloc, members.loops)?;
    put(map, alloc, "loops", Value::Array(loops))?;
    let spins = spin_values(alloc, members.spins)?;
    put(map, alloc, "spins", Value::Array(spins))?;
    put(map, alloc, "sum", Value::from(members.sum))?;
    put(map, alloc, "wall", wall_value(alloc, members.wall)?)
}

fn wall_value(alloc: Global, wall: Option<[i64; 3]>) -> Result<Value, NoMemory>
    ensures { IfOk result (λ v. view v ≡ wall_data wall) }
{
    let Some(energies) = wall else {
        return Ok(Value::Null);
    };
    let mut map = Map::new(alloc);
    put_wall(&mut map, alloc, energies)?;
    Ok(Value::Object(map))
}

// Puts the energies of a domain wall into a map.
fn put_wall(map: &mut Map<String, Value>, alloc: Global, energies: [i64; 3]) -> Result<(), NoMemory>
    requires { members_view map.old.entries ≡ no_members }
    ensures { OnOk result (object (members_view map.new.entries) ≡ wall_data (Some energies)) }
{
    put(map, alloc, "antiperiodic", Value::from(energies[1]))?;
    put(map, alloc, "difference", Value::from(energies[2]))?;
    put(map, alloc, "periodic", Value::from(energies[0]))
}

fn number_values(alloc: Global, numbers: &[i64]) -> Result<Vec<Value>, NoMemory>
    ensures { IfOk result (λ v. map view v.items ≡ map whole_value numbers.now) }
{
    let mut found = Vec::with_capacity(alloc, numbers.len())?;
    for number in numbers {
        found.push(Value::from(*number))?;
    }
    Ok(found)
}

fn spin_values(alloc: Global, spins: &[i8]) -> Result<Vec<Value>, NoMemory>
    ensures { IfOk result (λ v. map view v.items ≡ map whole_value spins.now) }
{
    let mut found = Vec::with_capacity(alloc, spins.len())?;
    for spin in spins {
        found.push(Value::from(*spin))?;
    }
    Ok(found)
}

fn name_values(alloc: Global, names: &[u32]) -> Result<Vec<Value>, NoMemory>
    ensures { IfOk result (λ v. map view v.items ≡ map name_value names.now) }
{
    let mut found = Vec::with_capacity(alloc, names.len())?;
    for name in names {
        found.push(Value::from(*name))?;
    }
    Ok(found)
}

fn loop_value(alloc: Global, entry: &Loop) -> Result<Value, NoMemory>
    ensures { IfOk result (λ v. view v ≡ loop_data entry.now) }
{
    let mut map = Map::new(alloc);
    let bonds = Value::Array(name_values(alloc, entry.bonds.as_slice())?);
    put(&mut map, alloc, "bonds", bonds)?;
    put(&mut map, alloc, "y", Value::from(entry.y))?;
    Ok(Value::Object(map))
}

fn loop_values(alloc: Global, loops: &[Loop]) -> Result<Vec<Value>, NoMemory>
    ensures { IfOk result (λ v. map view v.items ≡ map loop_data loops.now) }
{
    let mut found = Vec::with_capacity(alloc, loops.len())?;
    for entry in loops {
        found.push(loop_value(alloc, entry)?)?;
    }
    Ok(found)
}
