// The draws of a law, by which lattices of every size have the couplings that the program draws.
ghost use Rattle.std.specs.Prelude.{◌≡◌, None, Some, IfErr, IfOk, OnOk};
ghost use Rattle.sg_model.specs.Faults.{OrNoMemory};
ghost use Rattle.sg_draft.specs.Tests.{Refuses};
ghost use Rattle.sg_calls.specs.Draws.{draws_by, draws_fault};

use sg_base::LARGE_BOND_LIMIT;
use sg_laws::{Alternate, Disorder, One, PlusMinus, Uniform};
use sg_model::{Fault, Refusal};
use std::alloc::{AllocError, Global};

/// The first draws of the law of this number.
pub fn draws_of(alloc: Global, law: u8, seed: u64, count: usize) -> Result<Vec<i64>, Fault>
    ensures passes { OnOk result (draws_fault law count ≡ None) }
    ensures drawn { IfOk result (λ list. list.items ≡ draws_by law seed count) }
    ensures refuses { IfErr result (OrNoMemory (Refuses (draws_fault law count))) }
{
    check_draws(law, count)?;
    Ok(draws_by_number(alloc, law, seed, count)?)
}

// The tests of the law and of the number of its draws.
fn check_draws(law: u8, count: usize) -> Result<(), Refusal>
    ensures passes { OnOk result (draws_fault law count ≡ None) }
    ensures refused { IfErr result (λ e. draws_fault law count ≡ Some e) }
{
    if law > 3 {
        return Err(Refusal::UnknownLaw);
    }
    if count > LARGE_BOND_LIMIT as usize {
        return Err(Refusal::TooManyBonds {
            m: LARGE_BOND_LIMIT + 1,
        });
    }
    Ok(())
}

// The first draws of one of the four laws.
fn draws_by_number(alloc: Global, law: u8, seed: u64, count: usize) -> Result<Vec<i64>, AllocError>
    ensures { IfOk result (λ list. list.items ≡ draws_by law seed count) }
{
    match law {
        0 => first_draws(alloc, One::new(), seed, count),
        1 => first_draws(alloc, Alternate::new(), seed, count),
        2 => first_draws(alloc, PlusMinus::new(), seed, count),
        _ => first_draws(alloc, Uniform::new(), seed, count),
    }
}

// The first draws of a law after a seed.
fn first_draws<L: Disorder>(
    alloc: Global,
    law: L,
    seed: u64,
    count: usize,
) -> Result<Vec<i64>, AllocError>
    ensures { IfOk result (λ list. list.items ≡ L.seeded law seed count) }
{
    let mut law = law;
    let _name = law.name();
    law.seed(seed);
    next_draws(alloc, &mut law, count)
}

// The next draws of a law.
fn next_draws<L: Disorder>(alloc: Global, law: &mut L, count: usize) -> Result<Vec<i64>, AllocError>
    ensures { IfOk result (λ list. list.items ≡ L.next law.old count) }
{
    let _name = law.name();
    let mut found = Vec::with_capacity(alloc, count)?;
    for _ in 0..count {
        let value = law.draw();
        found.push_reserved(value);
    }
    Ok(found)
}
