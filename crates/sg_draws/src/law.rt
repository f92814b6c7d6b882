ghost use Rattle.std.specs.Prelude.{ℕ, List, Option};
ghost use Rattle.sg_laws.specs.Named.{Law};
ghost use Rattle.sg_words.specs.declared.command.Drawing.{Drawing};
ghost use Rattle.sg_report.specs.declared.status.Status.{Status};
ghost use Rattle.sg_report.specs.Same.{IsSameReply};
ghost use Rattle.sg_draws.specs.Drawn.{AnswersLaw};

/// The law of drawings: what a command that draws replies, its status and its text, is settled by the
/// draws. It computes nothing.
///
/// No premise is made about the draws: those for one sample need not be the first of those for more.
pub fn drawings_have_one_reply()
    ensures { (drawing : Drawing) (law : Option Law) (text line : List ℕ) (first second : Status) →
        AnswersLaw drawing law text first → AnswersLaw drawing law line second → IsSameReply first second text line }
{}
