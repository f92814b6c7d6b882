ghost use Rattle.std.specs.Prelude.{◌≡◌, ℕ, ◌<◌, ◌↔◌, IsTrue, All};
ghost use Rattle.std.specs.List.Sorted.{IsStrictlyIncreasing};

/// Whether each number of the list is above the one before it.
pub fn is_rising(list: &[u32]) -> bool
    ensures { IsTrue result ↔ IsStrictlyIncreasing list.now }
{
    for i in 1..list.len() {
        if list[i] <= list[i - 1] {
            return false;
        }
    }
    true
}

/// Whether each number of the list is below `count`.
pub fn all_below(list: &[u32], count: usize) -> bool
    ensures { IsTrue result ↔ All (λ k. k < count) list.now }
{
    list.iter().all(|k| (*k as usize) < count)
}
