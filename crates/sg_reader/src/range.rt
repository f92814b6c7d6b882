ghost use Rattle.std.specs.Prelude.{◌≡◌, ◌<◌, ◌≤◌, ◌^◌, Some};
ghost use Rattle.sg_reader.specs.Tests.{any_index, any_number, at_least, is_in, spin_below};

/// The numbers that may appear in a place: from `low` to `high`, both among them.
#[derive(Clone, Copy)]
pub struct Range {
    pub low: i64,
    pub high: i64,
}

impl Range {
    /// The range of a coupling: all numbers that are read.
    pub fn any_number() -> Self
        ensures { result ≡ any_number }
    {
        Range {
            low: -i64::MAX,
            high: i64::MAX,
        }
    }

    /// The range of a dart, or of a bond of a seam.
    pub fn any_index() -> Self
        ensures { result ≡ any_index }
    {
        Range {
            low: 0,
            high: i64::from(u32::MAX),
        }
    }

    /// The range of rows, of columns, and of a number of spins.
    pub fn at_least(least: u32) -> Self
        ensures { result ≡ at_least least }
    {
        Range {
            low: i64::from(least),
            high: i64::MAX,
        }
    }

    /// The range of the spins of an instance of `n`.
    pub fn spin_below(n: u32) -> Self
        requires { 1 ≤ n }
        ensures { result ≡ spin_below n }
    {
        Range {
            low: 0,
            high: i64::from(n) - 1,
        }
    }

    /// Whether a number is in the range.
    pub fn holds(self, number: i64) -> bool
        ensures { result ≡ is_in self (Some number) }
    {
        self.low <= number && number <= self.high
    }
}
