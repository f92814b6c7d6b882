ghost use Rattle.std.specs.Prelude.{◌≡◌, ℕ, ◌≤◌, List};
ghost use Rattle.sg_arena.specs.Family.{Family, IsFamily, leaf_count};
ghost use Rattle.sg_slack.specs.Matching.{IsPairing, IsMatching, NoSlackIsNegative, pairing_cost, sum_of_duals};

/// The law on which a least matching rests (Edmonds 1965), for all costs and all nested odd sets with
/// duals: where no slack is negative, every pairing costs at least the sum of all duals, since some
/// pair leaves each set. A matching along pairs of slack 0 that leaves each set just once costs
/// exactly this sum, so none costs less.
///
/// It computes nothing: a caller cites this call for what `Engine::run` returns.
pub fn matching_is_least()
    ensures cost { (f : Family) (cost : ℕ → ℕ → ℕ) (mates : List ℕ) →
        IsMatching f cost mates → pairing_cost cost mates ≡ sum_of_duals f }
    ensures bound { (f : Family) (cost : ℕ → ℕ → ℕ) (other : List ℕ) →
        IsFamily f → NoSlackIsNegative f cost → IsPairing (leaf_count f) other →
        sum_of_duals f ≤ pairing_cost cost other }
    ensures least { (f : Family) (cost : ℕ → ℕ → ℕ) (mates other : List ℕ) →
        IsFamily f → NoSlackIsNegative f cost → IsMatching f cost mates →
        IsPairing (leaf_count f) other → pairing_cost cost mates ≤ pairing_cost cost other }
{}
