// Laws of disorder other than those of the program: which of them a name means, and what they draw.
ghost use Rattle.std.specs.Prelude.{codes, pos, replicate};

use super::facts::expect;
use sg_laws::{Disorder, PlusMinus, Table, draws, named, start};
use std::alloc::{AllocError, Global};
use std::test::Fail;

// Whether the first of the laws with this name makes these draws after the seed.
fn draws_these(
    alloc: Global,
    laws: Vec<Box<dyn Disorder>>,
    name: &str,
    seed: u64,
    wanted: &[i64],
) -> Result<bool, AllocError> {
    match named(laws, name) {
        Some(law) => {
            let mut law = law;
            start(&mut law, seed);
            Ok(draws(alloc, &mut law, wanted.len())?.as_slice() == wanted)
        }
        None => Ok(false),
    }
}

// Without laws no name is one.
#[test]
fn a_name_without_laws(rt: HostRuntime) -> Result<(), Fail> {
    let none = Vec::new(rt.alloc());
    expect(&rt, "no laws", named(none, "one").is_none());
    Ok(())
}

// A law of the test's own that has the name of another: each draw is 3.
#[derive(Drop)]
struct Threes {}

impl Disorder for Threes {
    ghost title = { λ _. codes "pm" };

    ghost next = { λ _ c. replicate c (pos 3) };

    ghost seeded = { λ _ s c. replicate c (pos 3) };

    fn name(&self) -> &str {
        "pm"
    }

    fn seed(&mut self, seed: u64) {}

    fn draw(&mut self) -> i64 {
        3
    }
}

// The law of the test's own before the one whose name it has.
fn threes_and_another(alloc: Global) -> Result<Vec<Box<dyn Disorder>>, AllocError> {
    let mut laws: Vec<Box<dyn Disorder>> = Vec::new(alloc);
    laws.push(Box::new(alloc, Threes {})?)?;
    laws.push(Box::new(alloc, PlusMinus::new())?)?;
    Ok(laws)
}

#[test]
fn the_first_law_of_a_name(rt: HostRuntime) -> Result<(), Fail> {
    let laws = threes_and_another(rt.alloc())?;
    let is_first = draws_these(rt.alloc(), laws, "pm", 42, &[3])?;
    expect(&rt, "the test's own law", is_first);
    Ok(())
}

// Laws whose draws are the entries of a table, of two and of three.
fn tables(alloc: Global) -> Result<Vec<Box<dyn Disorder>>, AllocError> {
    let mut laws: Vec<Box<dyn Disorder>> = Vec::new(alloc);
    let two = Table::new(String::from_str(alloc, "t")?, vec![in alloc; 2, -3]?);
    laws.push(Box::new(alloc, two)?)?;
    let three = Table::new(String::from_str(alloc, "u")?, vec![in alloc; 2, -3, 5]?);
    laws.push(Box::new(alloc, three)?)?;
    Ok(laws)
}

// The name, the seed, and the draws.
static TABLES: [(&str, u64, &[i64]); 2] = [("t", 1, &[-3, 2, -3]), ("u", 4, &[-3, 5, 2, -3, 5, 2])];

#[test]
fn a_law_of_draws_from_elsewhere(rt: HostRuntime) -> Result<(), Fail> {
    for (name, seed, wanted) in &TABLES {
        let laws = tables(rt.alloc())?;
        let is_wanted = draws_these(rt.alloc(), laws, name, *seed, wanted)?;
        expect(&rt, name, is_wanted);
    }
    Ok(())
}
