ghost use Rattle.std.specs.Prelude.{ℤ, List};
ghost use Rattle.sg_check.specs.declared.packing.Loop.{Loop};
ghost use Rattle.sg_check.specs.Packing.{Proves};
ghost use Rattle.sg_model.specs.Energy.{IsGroundState, IsLeastEnergy};
ghost use Rattle.sg_model.specs.Ising.{Ising};
ghost use Rattle.sg_model.specs.WellFormed.{IsInstance};

/// The law on which a proof rests, on every instance, planar or not, connected or not: where the
/// spins have the stated energy and a packing of frustrated loops meets it, no assignment has less.
///
/// It computes nothing: a caller that has a proof cites this call in place of a run of the checker.
pub fn packing_proves()
    ensures ground_state { (inst : Ising) (s : List ℤ) (e : ℤ) (loops : List Loop) →
        IsInstance inst → Proves inst s e loops → IsGroundState inst s }
    ensures least_energy { (inst : Ising) (s : List ℤ) (e : ℤ) (loops : List Loop) →
        IsInstance inst → Proves inst s e loops → IsLeastEnergy inst e }
{}
