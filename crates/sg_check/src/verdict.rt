/// What the checker finds: that the proof holds, or the first test that fails, with the numbers
/// that show it. Loops, spins and bonds are counted from 0, and the least that fails is named.
#[derive(Clone, Copy)]
pub enum Verdict {
    /// The proof holds: no assignment has less energy.
    Yes,
    /// Number 1: the spins are `found`, which is not the instance's number of spins.
    SpinCount { found: u32 },
    /// Number 2: the spins have the energy `found`, which is not the stated one.
    Energy { found: i128 },
    /// Number 3: the weight of this loop is below 1, or its bonds are none, do not strictly rise,
    /// or are not all bonds of the instance.
    LoopShape { index: u32 },
    /// Number 4: this loop has an odd number of bonds at this spin.
    LoopEven { index: u32, spin: u32 },
    /// Number 5: this loop has an even number of negative bonds.
    LoopSign { index: u32 },
    /// Number 6: the weights of the loops through this bond sum to `load`, above twice the size of
    /// its coupling.
    Load { bond: u32, load: i128 },
    /// Number 7: all weights sum to `found`, and not to `wanted`, the stated energy plus the sizes
    /// of all couplings.
    Sum { found: i128, wanted: i128 },
}
