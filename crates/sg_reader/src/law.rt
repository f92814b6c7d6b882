ghost use Rattle.std.specs.Prelude.{List};
ghost use Rattle.sg_model.specs.Ising.{Ising};
ghost use Rattle.sg_model.specs.OneAnswer.{HasOneAnswer};
ghost use Rattle.sg_reader.specs.Kept.{Kept};
ghost use Rattle.sg_reader.specs.Ended.{Leaving};
ghost use Rattle.sg_reader.specs.ReadInstance.{IsGiven, ReadsInstance, RefusesInstance};
ghost use Rattle.sg_reader.specs.Result.{ReadsResult, RefusesResult};

/// The law of records: they give one instance or one result at most, with the records that are left, or
/// are refused by one refusal at most, and never both; and the instance that they give is one within the
/// limits of the program. It computes nothing.
pub fn records_have_one_answer()
    ensures instance { (records : List Kept) →
        HasOneAnswer (Leaving (ReadsInstance records)) (Leaving (RefusesInstance records)) }
    ensures given { (records rest : List Kept) (inst : Ising) → ReadsInstance records inst rest → IsGiven inst }
    ensures result { (records : List Kept) →
        HasOneAnswer (Leaving (ReadsResult records)) (Leaving (RefusesResult records)) }
{}
