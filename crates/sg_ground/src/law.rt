ghost use Rattle.std.specs.Prelude.{ℕ, ℤ, ◌*◌, ◌-ℤ◌, pos, List};
ghost use Rattle.sg_base.specs.Sets.{chosen_below};
ghost use Rattle.sg_model.specs.Broken.{is_broken};
ghost use Rattle.sg_model.specs.Connected.{IsConnected};
ghost use Rattle.sg_model.specs.Energy.{IsGroundState, IsLeastEnergy, weight};
ghost use Rattle.sg_model.specs.Ising.{Ising, bond_at, bond_count};
ghost use Rattle.sg_model.specs.Spins.{IsAssignment};
ghost use Rattle.sg_model.specs.WellFormed.{IsInstance};
ghost use Rattle.sg_check.specs.Loop.{IsFrustratedLoop};
ghost use Rattle.sg_faces.specs.Faces.{IsFaceLabels, Labelling};
ghost use Rattle.sg_planar.specs.BrokenLists.{BreaksExactly};
ghost use Rattle.sg_planar.specs.Fit.{Embedding, IsPlanar};
ghost use Rattle.sg_graph.specs.Join.{IsJoin, IsLeastJoin};
ghost use Rattle.sg_graph.specs.OddCut.{IsOddCut};
ghost use Rattle.sg_graph.specs.Web.{weight_of};
ghost use Rattle.sg_dual.specs.Dual.{dual_web, frustrated_faces};

/// The bonds between the faces of a set and all others, where an odd number of those faces are
/// frustrated, are a frustrated loop (Bieche, Maynard, Rammal and Uhry 1980): they meet each spin
/// evenly, and an odd number of them are negative. So it is on every surface, in every instance.
///
/// It computes nothing: a caller cites this call for cuts from elsewhere.
pub fn odd_cuts_are_loops()
    ensures { (inst : Ising) (faces : Labelling) (bonds : List ℕ) → IsInstance inst → IsFaceLabels inst faces →
        IsOddCut (dual_web inst faces) (frustrated_faces inst faces) bonds → IsFrustratedLoop inst bonds }
{}

/// Broken bonds and joins (Bieche, Maynard, Rammal and Uhry 1980), for all instances with traced
/// faces: each assignment breaks the bonds of a T-join of the frustrated faces; so one that breaks a
/// minimum T-join is a ground state. On the plane some assignment does, where the instance is
/// connected, so twice the weight of a minimum T-join, less that of all bonds, is the least energy.
///
/// It computes nothing: a caller cites this call for joins from elsewhere.
pub fn least_joins_break()
    ensures join { (inst : Ising) (faces : Labelling) (s : List ℤ) →
        IsInstance inst → IsFaceLabels inst faces → IsAssignment inst s →
        IsJoin (dual_web inst faces) (frustrated_faces inst faces)
        (chosen_below (λ k. is_broken s (bond_at inst k)) (bond_count inst)) }
    ensures least { (inst : Ising) (faces : Labelling) (s : List ℤ) (edges : List ℕ) →
        IsInstance inst → IsFaceLabels inst faces → IsAssignment inst s → BreaksExactly inst s edges →
        IsLeastJoin (dual_web inst faces) (frustrated_faces inst faces) edges → IsGroundState inst s }
    ensures energy { (p : Embedding) (edges : List ℕ) → IsPlanar p → IsConnected p.instance →
        IsLeastJoin (dual_web p.instance p.faces) (frustrated_faces p.instance p.faces) edges →
        IsLeastEnergy p.instance (pos (2 * weight_of (dual_web p.instance p.faces) edges) -ℤ pos (weight p.instance)) }
{}
