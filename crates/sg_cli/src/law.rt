ghost use Rattle.std.specs.Prelude.{◌≡◌, ℕ, List, Option, Some};
ghost use Rattle.sg_laws.specs.Named.{Law};
ghost use Rattle.sg_words.specs.Command.{command_of};
ghost use Rattle.sg_words.specs.declared.command.Command.TheVariants.{Draw, Read};
ghost use Rattle.sg_words.specs.declared.command.Drawing.{Drawing};
ghost use Rattle.sg_model.specs.Ising.{Ising};
ghost use Rattle.sg_words.specs.declared.command.Reading.{Reading};
ghost use Rattle.sg_words.specs.declared.command.Study.{Study};
ghost use Rattle.sg_report.specs.Same.{IsSameReply};
ghost use Rattle.sg_report.specs.declared.status.Status.{Status};
ghost use Rattle.sg_report.specs.declared.status.Status.TheVariants.{Done};
ghost use Rattle.sg_cli.specs.Served.{AnswersFit, AnswersInput, Served};
ghost use Rattle.sg_cli.specs.Promises.{AnswersWhole};
ghost use Rattle.sg_cli.specs.Settled.{CanBeStudied, HasGot, HasOneText, IsSameKind, SettlesInput};

/// The law of answers: the input settles the reply to it. It computes nothing.
///
/// All replies to one input have one status, and where they refuse one text. Walls, costs, clusters,
/// ranges and verdicts have one text, and so has every command that draws. What else may differ is which
/// ground state, packing, join, cut or walk is printed.
pub fn answers_are_settled()
    ensures settled { (reading : Reading) (bytes text : List ℕ) (status : Status) →
        AnswersInput reading bytes text status → SettlesInput reading bytes text status }
    ensures done { (study : Study) (inst : Ising) (text : List ℕ) (status : Status) →
        AnswersFit study inst text status → CanBeStudied study inst → status ≡ Done }
    ensures one_kind { (reading : Reading) (bytes text line : List ℕ) (first second : Status) →
        AnswersInput reading bytes text first → AnswersInput reading bytes line second →
        IsSameKind first second text line }
    ensures one_text { (reading : Reading) (bytes text line : List ℕ) (first second : Status) → HasOneText reading →
        AnswersInput reading bytes text first → AnswersInput reading bytes line second → text ≡ line }
    ensures one_reply { (drawing : Drawing) (words : List (List ℕ)) (laws : List Law)
        (bytes other text line : List ℕ) (first second : Status) → command_of words ≡ Some (Draw drawing) →
        Served words laws bytes text first → Served words laws other line second → IsSameReply first second text line }

    // Of a run whose source tells its bytes: the sink has got one text, which the bytes settle.
    ensures told { (words : List (List ℕ)) (laws : List Law) (status : Status) (left before after : Option (List ℕ))
        (bytes : List ℕ) (reading : Reading) → AnswersWhole words laws status left before after →
        left ≡ Some bytes → command_of words ≡ Some (Read reading) →
        HasGot (λ text. SettlesInput reading bytes text status) before after }
{}
