// Lists of lists as a caller gives them: for each list the place of its first entry.
ghost use Rattle.std.specs.Prelude.{◌≡◌, ◌+◌, ◌<◌, ◌≤◌, ◌^◌, ℕ, length, None, IfSome};
ghost use Rattle.sg_calls.specs.Crossing.{DividesEntries, entries_of, entry, first_fall as first_fall_of, wrong_start as wrong_start_of};

/// The start that is wrong, where so many entries are to be divided among so many items.
pub fn wrong_start(starts: &[usize], items: usize, entries: usize) -> Option<usize>
    requires { items + 1 < 2 ^ 64 }
    ensures value { result ≡ wrong_start_of starts.now items entries }
    ensures division { result ≡ None → DividesEntries starts.now items entries }
{
    if starts.len() != items + 1 || starts[0] != 0 {
        return Some(0);
    }
    first_fall(starts).or((starts[items] != entries).then_some(items))
}

// The first start that is less than the one in front of it.
fn first_fall(starts: &[usize]) -> Option<usize>
    ensures value { result ≡ first_fall_of starts.now }
    ensures within { IfSome result (λ k. k < length starts.now) }
    ensures rises { result ≡ None → (k : ℕ) → k + 1 < length starts.now → entry starts.now k ≤ entry starts.now (k + 1) }
{
    for k in 1..starts.len() {
        if starts[k] < starts[k - 1] {
            return Some(k);
        }
    }
    None
}

/// The entries of item `k`.
pub fn entries_at<'a>(starts: &[usize], joined: &'a [u32], k: usize) -> &'a [u32]
    requires within { k + 1 < length starts.now }
    requires order { entry starts.now k ≤ entry starts.now (k + 1) }
    requires last { entry starts.now (k + 1) ≤ length joined.now }
    ensures { result.now ≡ entries_of starts.now joined.now k }
{
    &joined[starts[k]..starts[k + 1]]
}
