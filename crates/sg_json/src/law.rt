ghost use Rattle.std.specs.Prelude.{ℕ, List};
ghost use Rattle.sg_model.specs.OneAnswer.{HasOneAnswer};
ghost use Rattle.sg_json.specs.ReadJson.{ReadsJson, RefusesJson};

/// The law of JSON texts: bytes give one instance at most, or are refused by one refusal at most, and
/// never both. It computes nothing.
pub fn objects_have_one_answer()
    ensures { (bytes : List ℕ) → HasOneAnswer (ReadsJson bytes) (RefusesJson bytes) }
{}
