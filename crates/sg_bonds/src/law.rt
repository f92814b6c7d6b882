ghost use Rattle.std.specs.Prelude.{◌≡◌, ◌<◌, ◌≤◌, ◌*◌, ◌+ℤ◌, ◌-ℤ◌, ◌*ℤ◌, ◌≤ℤ◌, ℕ, ℤ, Bool, false, List, pos};
ghost use Rattle.sg_base.specs.Limits.{sum_limit};
ghost use Rattle.sg_base.specs.Sets.{holds};
ghost use Rattle.sg_graph.specs.Web.{Graph, edge_count};
ghost use Rattle.sg_model.specs.Ising.{Ising, bond_at, bond_count};
ghost use Rattle.sg_model.specs.WellFormed.{IsInstance};
ghost use Rattle.sg_model.specs.Spins.{IsAssignment, IsUpOrDown, spin};
ghost use Rattle.sg_model.specs.Energy.{IsGroundState, IsLeastEnergy, energy, product, weight};
ghost use Rattle.sg_model.specs.Changes.{with_coupling};
ghost use Rattle.sg_bonds.specs.Cost.{IsCost, IsLeastWith, IsRigid};
ghost use Rattle.sg_bonds.specs.Cluster.{IsCluster};
ghost use Rattle.sg_bonds.specs.JoinsWith.{IsLeastBeside, IsLeastJoinWith, turned_at, with_edge};
ghost use Rattle.sg_bonds.specs.Weakened.{turned_amount, weakened};

/// The law on which `costs` rests, on every instance, planar or not: with the coupling `p m` at
/// bond `k`, where `m` is larger than the sum of all sizes, every ground state has the product `p`
/// there, and the least energy with this product is, in the instance as it was, the new least
/// energy plus `m - p J(k)`.
///
/// It computes nothing.
pub fn forced_minimum()
    ensures forced { (inst : Ising) (k : ℕ) (p : ℤ) (m : ℕ) → IsInstance inst → k < bond_count inst →
        IsUpOrDown p → weight inst < m → (s : List ℤ) →
        IsGroundState (with_coupling inst k (p *ℤ pos m)) s → product s (bond_at inst k) ≡ p }
    ensures minimum { (inst : Ising) (k : ℕ) (p : ℤ) (m : ℕ) → IsInstance inst → k < bond_count inst →
        IsUpOrDown p → weight inst < m → (e : ℤ) →
        IsLeastEnergy (with_coupling inst k (p *ℤ pos m)) e →
        IsLeastWith inst k p ((e +ℤ pos m) -ℤ (p *ℤ (bond_at inst k).j)) }
{}

/// What a cluster means: two spins of one cluster have the same product in all ground states. It
/// holds on every instance, and computes nothing.
pub fn rigid_clusters_agree()
    ensures { (inst : Ising) (i j k : ℕ) → IsInstance inst → IsCluster inst i k → IsCluster inst j k →
        (s t : List ℤ) → IsGroundState inst s → IsGroundState inst t →
        (spin s i *ℤ spin s j) ≡ (spin t i *ℤ spin t j) }
{}

/// The law of weakened ground states, on every instance, planar or not: let `s` be a ground state where all
/// couplings are times some scale, and each bond is weakened by some amount in the direction that `s`
/// satisfies. Then each assignment lies, times the scale, at least twice the sum of the amounts of the bonds
/// that it flips above `s`. So `s` is a ground state of the instance as it was, each bond costs, times the
/// scale, at least twice its amount, and each bond that is weakened is rigid.
///
/// It computes nothing.
pub fn weakened_bounds()
    ensures bound { (inst : Ising) (scale : ℕ) (amount : ℕ → ℕ) (s t : List ℤ) → IsInstance inst →
        IsGroundState (weakened inst scale s amount) s → IsAssignment inst t →
        ((pos scale *ℤ energy inst s) +ℤ pos (2 * turned_amount inst s t amount)) ≤ℤ (pos scale *ℤ energy inst t) }
    ensures ground_state { (inst : Ising) (scale : ℕ) (amount : ℕ → ℕ) (s : List ℤ) → IsInstance inst →
        IsGroundState (weakened inst scale s amount) s → 1 ≤ scale → IsGroundState inst s }
    ensures cost { (inst : Ising) (scale : ℕ) (amount : ℕ → ℕ) (s : List ℤ) (k : ℕ) (c : ℤ) → IsInstance inst →
        IsGroundState (weakened inst scale s amount) s → k < bond_count inst → IsCost inst k c →
        pos (2 * amount k) ≤ℤ (pos scale *ℤ c) }
    ensures rigid { (inst : Ising) (scale : ℕ) (amount : ℕ → ℕ) (s : List ℤ) (k : ℕ) → IsInstance inst →
        IsGroundState (weakened inst scale s amount) s → k < bond_count inst → 1 ≤ amount k →
        weight inst ≤ sum_limit → IsRigid inst k }
{}

/// The law on which repairs rest, on every weighted graph. To require edge `k`, toggle the terminals
/// at its two ends. Let a T-join without edge `k` be minimum for these terminals, whatever edge `k`
/// weighs. Then, with the edge added if it was required, it weighs least among the T-joins that
/// contain (or avoid) the edge.
///
/// Remove the edge from a T-join that contains it: what is left is a T-join of the terminals
/// toggled at its two ends, and weighs the same in both graphs. It computes nothing.
pub fn least_joins_with()
    ensures { (g : Graph) (terminals edges : List ℕ) (k : ℕ) (has : Bool) → k < edge_count g →
        holds edges k ≡ false → IsLeastBeside g (turned_at g terminals k has) k edges →
        IsLeastJoinWith g terminals k has (with_edge g edges k has) }
{}
