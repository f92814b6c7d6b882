ghost use Rattle.sg_model.specs.OneAnswer.{HasOneAnswer};
ghost use Rattle.sg_draft.specs.declared.limits.Limits.{Limits};
ghost use Rattle.sg_draft.specs.Draft.{Draft, IsDraftRefusal, IsDrafted};

/// The law of drafts: within given limits a draft gives one instance at most, or has one refusal at most,
/// and never both. It computes nothing.
pub fn drafts_have_one_answer()
    ensures { (most : Limits) (draft : Draft) → HasOneAnswer (IsDrafted most draft) (IsDraftRefusal most draft) }
{}
