ghost use Rattle.std.specs.Prelude.{◌≡◌, ◌<◌, ◌-ℤ◌, ◌+ℤ◌, ◌*ℤ◌, ℕ, ℤ, List, pos};
ghost use Rattle.sg_model.specs.Ising.{Ising, bond_at, bond_count};
ghost use Rattle.sg_model.specs.WellFormed.{IsInstance};
ghost use Rattle.sg_model.specs.Spins.{IsAssignment};
ghost use Rattle.sg_model.specs.Energy.{IsGroundState, energy, product};
ghost use Rattle.sg_model.specs.Changes.{negated};
ghost use Rattle.sg_bonds.specs.Cost.{IsCost};
ghost use Rattle.sg_ranges.specs.Turn.{IsTurn, IsTurningPoint};
ghost use Rattle.sg_ranges.specs.Cut.{coupling_sum, cut_weight};

/// Turning couplings on every instance, planar or not: the energies of two assignments differ by an
/// even number, and so twice the coupling less the product of a ground state times the cost is twice
/// a whole number, the turning coupling; it is the only one; and it parts the ground states.
///
/// It computes nothing.
pub fn one_turning_coupling()
    ensures parity { (inst : Ising) (s t : List ℤ) → IsInstance inst → IsAssignment inst s → IsAssignment inst t →
        (d : ℤ) × (energy inst s ≡ energy inst t +ℤ (pos 2 *ℤ d)) }
    ensures one { (inst : Ising) (k : ℕ) (t u : ℤ) → IsInstance inst → k < bond_count inst →
        IsTurn inst k t → IsTurn inst k u → t ≡ u }
    ensures parts { (inst : Ising) (k : ℕ) (t : ℤ) → IsInstance inst → k < bond_count inst →
        IsTurn inst k t → IsTurningPoint inst k t }
    ensures from_cost { (inst : Ising) (k : ℕ) (t c : ℤ) (s : List ℤ) → IsInstance inst → k < bond_count inst →
        IsGroundState inst s → IsCost inst k c →
        t +ℤ t ≡ ((bond_at inst k).j +ℤ (bond_at inst k).j) -ℤ (product s (bond_at inst k) *ℤ c) → IsTurn inst k t }
{}

/// Cuts are energies: where every sign is changed, the energy of an assignment is the sum of all
/// couplings less twice the weight of its cut. It computes nothing.
pub fn cuts_are_energies()
    ensures { (inst : Ising) (s : List ℤ) → IsInstance inst → IsAssignment inst s →
        energy (negated inst) s ≡ coupling_sum inst -ℤ (pos 2 *ℤ cut_weight inst s) }
{}
