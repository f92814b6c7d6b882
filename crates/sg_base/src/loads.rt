ghost use Rattle.std.specs.Prelude.{◌≡◌, ℕ, ◌<◌, ◌+◌, ◌^◌, if◌then◌else◌, length, slice_index, All};
ghost use Rattle.std.specs.List.Sorted.{IsStrictlyIncreasing};
ghost use Rattle.sg_base.specs.Sets.{holds};

/// Adds the weight to the load at each place of a rising list.
pub fn add_weight(loads: &mut [u128], list: &[u32], weight: u64)
    requires rising { IsStrictlyIncreasing list.now }
    requires below { All (λ k. k < length loads.old) list.now }
    requires room { (k : ℕ) → k < length loads.old → slice_index loads.old k < 2 ^ 127 }
    ensures { (k : ℕ) → k < length loads.old → slice_index loads.new k
        ≡ slice_index loads.old k + (if holds list.now k then weight else 0) }
{
    for k in list {
        loads[*k as usize] += u128::from(weight);
    }
}
