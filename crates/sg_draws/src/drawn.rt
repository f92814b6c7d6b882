// Lattices with drawn couplings.
ghost use Rattle.std.specs.Prelude.{◌≡◌, ℕ, length, All, IfErr, IfOk};
ghost use Rattle.sg_lattice.specs.Tables.{bond_total};
ghost use Rattle.sg_laws.specs.Stream.{IsDraw};
ghost use Rattle.sg_planar.specs.Fit.{IsFit, IsPlanar, IsUnfit};
ghost use Rattle.sg_words.specs.Command.{IsAllowedSize};
ghost use Rattle.sg_draws.specs.Drawn.{drawn_couplings, drawn_lattice as lattice_of};
ghost use Rattle.sg_model.specs.Faults.{OrNoMemory};

use sg_lattice::{Kind, bond_count, build};
use sg_laws::{Disorder, draws, start};
use sg_model::{Couplings, Fault, Instance};
use sg_planar::Planar;
use sg_report::NoMemory;
use sg_words::Size;
use std::alloc::Global;

/// The couplings of a lattice: the first draws of the law after the seed, one for each bond in order.
pub fn couplings(
    alloc: Global,
    law: &mut Box<dyn Disorder>,
    seed: u64,
    kind: Kind,
    size: Size,
) -> Result<Couplings, NoMemory>
    requires { IsAllowedSize kind size }
    ensures drawn { IfOk result (λ j. j ≡ drawn_couplings kind size (seeded law.old seed)) }
    ensures count { IfOk result (λ j. length j ≡ bond_total kind size.rows size.cols) }
    ensures range { IfOk result (λ j. All IsDraw j) }
    ensures seeds { (s c : ℕ) → seeded law.new s c ≡ seeded law.old s c }
{
    start(law, seed);
    let count = bond_count(kind, size.rows, size.cols);
    let drawn = draws(alloc, law, count as usize)?;
    Ok(Couplings::from_vec(drawn))
}

/// The lattice with these couplings.
pub fn drawn_lattice(
    alloc: Global,
    law: &mut Box<dyn Disorder>,
    seed: u64,
    kind: Kind,
    size: Size,
) -> Result<Instance, NoMemory>
    requires { IsAllowedSize kind size }
    ensures lattice { IfOk result (λ inst. inst ≡ lattice_of kind size (seeded law.old seed)) }
    ensures seeds { (s c : ℕ) → seeded law.new s c ≡ seeded law.old s c }
{
    let j = couplings(alloc, law, seed, kind, size)?;
    build(alloc, kind, size.rows, size.cols, j)
}

/// The same with its faces, or why it is not fit.
pub fn drawn_planar(
    alloc: Global,
    law: &mut Box<dyn Disorder>,
    seed: u64,
    kind: Kind,
    size: Size,
) -> Result<Planar, Fault>
    requires { IsAllowedSize kind size }
    ensures lattice { IfOk result (λ p. p.instance ≡ lattice_of kind size (seeded law.old seed)) }
    ensures fit { IfOk result (λ p. IsFit p.instance) }
    ensures planar { IfOk result IsPlanar }
    ensures unfit { IfErr result (OrNoMemory (IsUnfit (lattice_of kind size (seeded law.old seed)))) }
    ensures seeds { (s c : ℕ) → seeded law.new s c ≡ seeded law.old s c }
{
    let lattice = drawn_lattice(alloc, law, seed, kind, size)?;
    Planar::test(alloc, lattice)
}
