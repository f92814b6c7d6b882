// What `ensemble` answers.
ghost use Rattle.std.specs.Prelude.{◌≤◌, IfOk};
ghost use Rattle.sg_lattice.specs.declared.kind.Kind.TheVariants.{Cylinder};
ghost use Rattle.sg_ensemble.specs.Samples.{IsCylinder};
ghost use Rattle.sg_words.specs.Command.{IsAllowedSize};
ghost use Rattle.sg_base.specs.Limits.{sample_limit};
ghost use Rattle.sg_report.specs.Exit.{IsReply};
ghost use Rattle.sg_draws.specs.Drawn.{AnswersEnsemble, PrintsEnsemble};

use super::drawn::drawn_planar;
use sg_ensemble::ensemble_on;
use sg_lattice::Kind;
use sg_laws::{Disorder, start};
use sg_planar::Planar;
use sg_report::{NoMemory, Reply, done, ensemble_text, refuse_fault};
use sg_words::Size;
use std::alloc::Global;

/// The wall energies of cylinders whose couplings are the draws of the law after the seed, or the
/// refusal of a first sample that is not fit. That sample is the drawing of all.
pub fn ensemble_reply(
    alloc: Global,
    law: &mut Box<dyn Disorder>,
    seed: u64,
    size: Size,
    count: u32,
) -> Result<Reply, NoMemory>
    requires size { IsAllowedSize Cylinder size }
    requires some { 1 ≤ count }
    requires few { count ≤ sample_limit }
    ensures served { IfOk result (λ reply.
        AnswersEnsemble size count (seeded law.old seed) reply.text.items reply.status) }
    ensures replied { IfOk result (λ reply. IsReply reply.status) }
{
    match drawn_planar(alloc, law, seed, Kind::Cylinder, size) {
        Ok(first) => walls_reply(alloc, law, seed, first, size, count),
        Err(fault) => refuse_fault(alloc, &fault),
    }
}

// The text of an ensemble on this drawing, with the law from its seed on.
fn walls_reply(
    alloc: Global,
    law: &mut Box<dyn Disorder>,
    seed: u64,
    drawing: Planar,
    size: Size,
    count: u32,
) -> Result<Reply, NoMemory>
    requires size { IsAllowedSize Cylinder size }
    requires cylinder { IsCylinder size.rows size.cols drawing.instance }
    requires some { 1 ≤ count }
    requires few { count ≤ sample_limit }
    ensures served { IfOk result (λ reply.
        PrintsEnsemble size count (seeded law.old seed) reply.text.items reply.status) }
    ensures replied { IfOk result (λ reply. IsReply reply.status) }
{
    start(law, seed);
    let found = ensemble_on(alloc, law, drawing, size.rows, size.cols, count)?;
    let text = ensemble_text(alloc, found.walls.as_slice(), found.sum, found.squares)?;
    Ok(done(text))
}
