ghost use Rattle.std.specs.Prelude.{ℕ, Bool, List};
ghost use Rattle.sg_model.specs.OneAnswer.{HasOneAnswer};
ghost use Rattle.sg_graph.specs.Web.{Graph};
ghost use Rattle.sg_graph_text.specs.Network.{GivesNetwork, RefusesNetwork};

/// The law of graph texts: bytes give one connected graph with its terminals at most, or are refused by
/// one refusal at most, and never both. It computes nothing.
pub fn networks_have_one_answer()
    ensures { (terms : Bool) (bytes : List ℕ) →
        HasOneAnswer (λ (p : Graph × List ℕ). GivesNetwork terms bytes p.0 p.1) (RefusesNetwork terms bytes) }
{}
