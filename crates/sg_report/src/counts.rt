// Numbers of an instance, as texts print them.
ghost use Rattle.std.specs.Prelude.{◌≡◌, ◌≤◌, pos};
ghost use Rattle.sg_base.specs.Limits.{sum_limit};
ghost use Rattle.sg_model.specs.Energy.{weight};
ghost use Rattle.sg_model.specs.Ising.{bond_count as count_of_bonds};

use sg_model::Instance;

/// The number of bonds.
pub fn bond_count(instance: &Instance) -> u32
    ensures { result ≡ count_of_bonds instance.now }
{
    instance.bonds().len() as u32
}

/// The sum of the couplings' sizes.
pub fn size_sum(instance: &Instance) -> i64
    requires { weight instance.now ≤ sum_limit }
    ensures { result ≡ pos (weight instance.now) }
{
    instance.weight() as i64
}
