// What `sample` answers.
ghost use Rattle.std.specs.Prelude.{IfOk};
ghost use Rattle.sg_lattice.specs.declared.kind.Kind.TheVariants.{Square};
ghost use Rattle.sg_planar.specs.Fit.{IsFit};
ghost use Rattle.sg_words.specs.Command.{IsAllowedSize};
ghost use Rattle.sg_report.specs.Exit.{IsReply};
ghost use Rattle.sg_draws.specs.Drawn.{AnswersSample, PrintsSample, drawn_lattice};

use super::drawn::drawn_planar;
use sg_ground::least_energy;
use sg_lattice::Kind;
use sg_laws::Disorder;
use sg_planar::Planar;
use sg_report::{NoMemory, Reply, bond_count, done, refuse_fault, sample_text, size_sum};
use sg_words::Size;
use std::alloc::Global;

/// The least energy of a square lattice whose couplings are the first draws of the law after the
/// seed, or the refusal of a sample that is not fit. Nothing of the sample is kept.
pub fn sample_reply(
    alloc: Global,
    law: &mut Box<dyn Disorder>,
    seed: u64,
    size: Size,
) -> Result<Reply, NoMemory>
    requires { IsAllowedSize Square size }
    ensures served { IfOk result (λ reply.
        AnswersSample (drawn_lattice Square size (seeded law.old seed)) reply.text.items reply.status) }
    ensures replied { IfOk result (λ reply. IsReply reply.status) }
{
    match drawn_planar(alloc, law, seed, Kind::Square, size) {
        Ok(planar) => summary_reply(alloc, &planar),
        Err(fault) => refuse_fault(alloc, &fault),
    }
}

// The summary of a sample that is fit.
fn summary_reply(alloc: Global, planar: &Planar) -> Result<Reply, NoMemory>
    requires { IsFit planar.now.instance }
    ensures served { IfOk result (λ reply. PrintsSample planar.now.instance reply.text.items reply.status) }
    ensures replied { IfOk result (λ reply. IsReply reply.status) }
{
    let instance = planar.instance();
    let energy = least_energy(alloc, planar)?;
    let text = sample_text(
        alloc,
        instance.n(),
        bond_count(instance),
        size_sum(instance),
        energy,
    )?;
    Ok(done(text))
}
