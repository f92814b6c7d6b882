// Bounds that tell which bonds are rigid, and lower bounds that rise.
ghost use Rattle.std.specs.Prelude.{◌≡◌, ◌≢◌, ◌⊎◌, ◌+◌, ◌*◌, ◌≤◌, ◌≤ℤ◌, ◌<ℤ◌, ℕ, pos, true, false, length, All, IsTrue};
ghost use Rattle.sg_base.specs.Limits.{forced_limit, sum_limit};
ghost use Rattle.sg_model.specs.Ising.{bond_count};
ghost use Rattle.sg_model.specs.Energy.{weight};
ghost use Rattle.sg_planar.specs.Walk.{has};
ghost use Rattle.sg_bonds.specs.Bounds.{Decides, Narrows, no_bound, risen};
ghost use Rattle.sg_bonds.specs.Cluster.{HasRigid};

use super::bounds::Bound;
use sg_model::Instance;

/// Whether there are upper bounds, and the bounds tell which bonds are rigid.
pub(crate) fn are_decided(bounds: &[Bound]) -> bool
    ensures { IsTrue result → All Decides bounds.now }
{
    for bound in bounds {
        if !is_decided(*bound) {
            return false;
        }
    }
    true
}

// Whether the bound decides its bond.
fn is_decided(bound: Bound) -> bool
    ensures { IsTrue result → Decides bound }
{
    if bound.low >= 2 {
        bound.high != -1
    } else {
        bound.low == 0 && bound.high == 0
    }
}

/// Narrows the bounds of each bond when it is known whether it is rigid, so that they tell it too.
pub(crate) fn mark_bounds(inst: &Instance, marks: &[bool], bounds: &mut [Bound])
    requires sum { weight inst.now ≤ sum_limit }
    requires marks { length marks.now ≡ bond_count inst.now }
    requires rigid { HasRigid inst.now (has marks.now) }
    requires count { length bounds.old ≡ bond_count inst.now }
    ensures narrows { Narrows inst.now bounds.old bounds.new }
    ensures decided { All Decides bounds.new }
{
    let most = most_cost(inst);
    let count = inst.bonds().len();
    for k in 0..count {
        bounds[k] = marked(bounds[k], marks[k], most);
    }
}

// No bond costs more.
fn most_cost(inst: &Instance) -> i64
    requires { weight inst.now ≤ sum_limit }
    ensures { result ≡ pos (2 * weight inst.now) }
{
    2 * inst.weight() as i64
}

// The bounds of a bond that is rigid, or costs nothing; no bond costs more than `most`.
fn marked(bound: Bound, is_rigid: bool, most: i64) -> Bound
    requires some { pos 0 ≤ℤ most }
    ensures free { is_rigid ≡ false → result ≡ record { low = pos 0; high = pos 0 } }
    ensures low { is_rigid ≡ true → ((bound.low <ℤ pos 2) × (result.low ≡ pos 2)) ⊎ ((pos 2 ≤ℤ bound.low) × (result.low ≡ bound.low)) }
    ensures high { is_rigid ≡ true → ((bound.high ≡ no_bound) × (result.high ≡ most)) ⊎ ((bound.high ≢ no_bound) × (result.high ≡ bound.high)) }
    ensures decides { Decides result }
{
    if !is_rigid {
        return Bound { low: 0, high: 0 };
    }
    let low = at_least_two(bound.low);
    let high = some_upper(bound.high, most);
    Bound { low, high }
}

// The number, if it is 2 or more, and else 2.
fn at_least_two(low: i64) -> i64
    ensures { ((low <ℤ pos 2) × (result ≡ pos 2)) ⊎ ((pos 2 ≤ℤ low) × (result ≡ low)) }
{
    if low < 2 { 2 } else { low }
}

// The upper bound, and `most` where there is none.
fn some_upper(high: i64, most: i64) -> i64
    ensures { ((high ≡ no_bound) × (result ≡ most)) ⊎ ((high ≢ no_bound) × (result ≡ high)) }
{
    if high == -1 { most } else { high }
}

/// The bounds of a bond that costs no less than so much.
pub(crate) fn raised(bound: Bound, low: i64) -> Bound
    ensures { (result ≡ bound) ⊎ ((bound.low <ℤ low) × (result ≡ risen bound low)) }
{
    if bound.low < low {
        return Bound {
            low,
            high: bound.high,
        };
    }
    bound
}

/// The least even number that is, times the scale, no less than twice the amount.
pub(crate) fn even_bound(amount: u64, scale: u64) -> i64
    requires some { 1 ≤ scale }
    requires size { amount ≤ forced_limit }
    ensures { (m : ℕ) → amount ≤ scale * m → result ≤ℤ pos (2 * m) }
{
    2 * units(amount, scale) as i64
}

// The least number that is, times the scale, no less than the amount.
fn units(amount: u64, scale: u64) -> u64
    requires { 1 ≤ scale }
    ensures least { (m : ℕ) → amount ≤ scale * m → result ≤ m }
    ensures size { result ≤ amount + 1 }
{
    let whole = amount / scale;
    if amount % scale == 0 {
        whole
    } else {
        whole + 1
    }
}
