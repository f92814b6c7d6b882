ghost use Rattle.std.specs.Prelude.{◌≡◌, ◌+◌, ℕ, ◌∷◌, length, All, IfOk, OnErr, OnOk};
ghost use Rattle.sg_laws.specs.Stream.{Draws, IsDraw};

use super::{Disorder, NoMemory};
use std::alloc::Global;

/// Begins the stream of a seed.
pub fn start(law: &mut Box<dyn Disorder>, seed: u64)
    ensures stream { (c : ℕ) → next law.new c ≡ seeded law.old seed c }
    ensures title { title law.new ≡ title law.old }
    ensures seeds { (s c : ℕ) → seeded law.new s c ≡ seeded law.old s c }
{
    law.seed(seed);
}

/// The next draws of a law, which continues after them. If an allocation fails, it has made none,
/// since the memory for all of them is taken first.
pub fn draws(alloc: Global, law: &mut Box<dyn Disorder>, count: usize) -> Result<Vec<i64>, NoMemory>
    ensures drawn { IfOk result (λ xs. xs.items ≡ next law.old count) }
    ensures count { IfOk result (λ xs. length xs.items ≡ count) }
    ensures range { IfOk result (λ xs. All IsDraw xs.items) }
    ensures rest { OnOk result (Draws count (next law.old) (next law.new)) }
    ensures kept { OnErr result (law.new ≡ law.old) }
    ensures title { title law.new ≡ title law.old }
    ensures seeds { (s c : ℕ) → seeded law.new s c ≡ seeded law.old s c }
{
    know_counts(law);
    let mut found = Vec::with_capacity(alloc, count)?;
    for _ in 0..count {
        let value = next_draw(law);
        found.push_reserved(value);
    }
    Ok(found)
}

// One draw, with the clauses of the law by their names.
fn next_draw(law: &mut Box<dyn Disorder>) -> i64
    ensures stream { (c : ℕ) → next law.old (c + 1) ≡ result ∷ next law.new c }
    ensures range { IsDraw result }
    ensures title { title law.new ≡ title law.old }
    ensures seeds { (s c : ℕ) → seeded law.new s c ≡ seeded law.old s c }
{
    law.draw()
}

// That the lists of draws are as long as they should be, which a law tells with its name.
fn know_counts(law: &Box<dyn Disorder>)
    ensures { (c : ℕ) → length (next law.now c) ≡ c }
{
    let _name = law.name();
}
