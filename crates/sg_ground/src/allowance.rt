ghost use Rattle.std.specs.Prelude.{◌≤◌, ◌^◌, ◌-◌};
ghost use Rattle.sg_base.specs.Limits.{bond_limit, spin_limit, table_limit};
ghost use Rattle.sg_model.specs.Ising.{Ising, bond_count};
ghost use Rattle.sg_ground.specs.Allowance.{TablesExceed};

/// Within the limits of the program the tables of the matching fallback take no more than
/// `sg_base::TABLE_LIMIT`, and those of any instance less than 2^64 bytes: `u64::MAX` allows all.
///
/// It computes nothing: a caller cites this call.
pub fn tables_fit()
    ensures program { (inst : Ising) → inst.n ≤ spin_limit → bond_count inst ≤ bond_limit → TablesExceed table_limit inst → ⊥ }
    ensures any { (inst : Ising) → TablesExceed (2 ^ 64 - 1) inst → ⊥ }
{}
