// What a command answers that draws: the refusal of a name that no law has, or what is made of the
// draws.
ghost use Rattle.std.specs.Prelude.{map, IfOk};
ghost use Rattle.sg_laws.specs.Named.{first_named};
ghost use Rattle.sg_words.specs.Command.{IsAllowedDrawing};
ghost use Rattle.sg_report.specs.Exit.{IsReply};
ghost use Rattle.sg_draws.specs.Drawn.{AnswersDraws, AnswersLaw};

use super::ensemble::ensemble_reply;
use super::generate::gen_reply;
use super::sample::sample_reply;
use super::widths::widths_reply;
use sg_laws::{Disorder, named};
use sg_model::Refusal;
use sg_report::{NoMemory, Reply, refuse};
use sg_words::Drawing;
use std::alloc::Global;

/// What is made of the draws of the first law with this name. The laws are dropped.
pub fn draw_reply(
    alloc: Global,
    drawing: Drawing,
    name: &str,
    laws: Vec<Box<dyn Disorder>>,
) -> Result<Reply, NoMemory>
    requires { IsAllowedDrawing drawing }
    ensures served { let known = map (λ law. record { title = title law; stream = seeded law }) laws.items in
        IfOk result (λ reply. AnswersLaw drawing (first_named name.now known) reply.text.items reply.status) }
    ensures replied { IfOk result (λ reply. IsReply reply.status) }
{
    match named(laws, name) {
        Some(law) => {
            let mut law = law;
            law_reply(alloc, drawing, &mut law)
        }
        None => refuse(alloc, &Refusal::UnknownLaw),
    }
}

// What is made of the draws of a law.
fn law_reply(
    alloc: Global,
    drawing: Drawing,
    law: &mut Box<dyn Disorder>,
) -> Result<Reply, NoMemory>
    requires { IsAllowedDrawing drawing }
    ensures served { IfOk result (λ reply. AnswersDraws drawing (seeded law.old) reply.text.items reply.status) }
    ensures replied { IfOk result (λ reply. IsReply reply.status) }
{
    match drawing {
        Drawing::Gen { seed, kind, size } => gen_reply(alloc, law, seed, kind, size),
        Drawing::Sample { seed, size } => sample_reply(alloc, law, seed, size),
        Drawing::Ensemble { seed, size, count } => ensemble_reply(alloc, law, seed, size, count),
        Drawing::Widths { seed, size, count } => widths_reply(alloc, law, seed, size, count),
    }
}
