ghost use Rattle.std.specs.Prelude.{ℕ, List};
ghost use Rattle.sg_model.specs.Ising.{Ising};
ghost use Rattle.sg_model.specs.OneAnswer.{HasOneAnswer};
ghost use Rattle.sg_reader.specs.ReadInstance.{IsGiven};
ghost use Rattle.sg_check.specs.declared.packing.ResultText.{ResultText};
ghost use Rattle.sg_input.specs.Input.{GivesFit, GivesProof, RefusesProof, RefusesText};

/// The law of inputs: bytes give one fit instance at most, or are refused by one refusal at most, and
/// never both; and so for an instance with what is stated as its proof. What they give is an instance
/// within the limits of the program.
///
/// It computes nothing: what is answered to an input that gives an instance is answered to this one, and
/// an input that is refused is answered by nothing else.
pub fn inputs_have_one_answer()
    ensures fit { (bytes : List ℕ) → HasOneAnswer (GivesFit bytes) (RefusesText bytes) }
    ensures instance { (bytes : List ℕ) (inst : Ising) → GivesFit bytes inst → IsGiven inst }
    ensures judged { (bytes : List ℕ) (inst : Ising) (stated : ResultText) → GivesProof bytes inst stated → IsGiven inst }
    ensures proof { (bytes : List ℕ) →
        HasOneAnswer (λ (p : Ising × ResultText). GivesProof bytes p.0 p.1) (RefusesProof bytes) }
{}
