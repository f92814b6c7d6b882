// The steps that growing regions took.
ghost use Rattle.std.specs.Prelude.{◌≡◌, ◌↔◌, ◌+◌, ◌-◌, ◌^◌, ◌≤◌, min, IsTrue};

use super::work::Allowance;

/// How many blossoms were made and taken apart, and how many events were taken, at which duals change.
#[derive(Clone, Copy)]
pub struct Growth {
    pub blossoms: u64,
    pub events: u64,
}

impl Growth {
    /// Where nothing has grown.
    pub fn none() -> Growth
        ensures blossoms { result.blossoms ≡ 0 }
        ensures events { result.events ≡ 0 }
    {
        Growth {
            blossoms: 0,
            events: 0,
        }
    }

    /// Whether no more was done than is allowed.
    pub fn is_within(self, allowed: Allowance) -> bool
        ensures { IsTrue result ↔ (self.blossoms ≤ allowed.blossoms) × (self.events ≤ allowed.work) }
    {
        self.blossoms <= allowed.blossoms && self.events <= allowed.work
    }

    /// Of two runs together, as far as 64 bits count.
    pub fn and(self, other: Growth) -> Growth
        ensures blossoms { result.blossoms ≡ min (self.blossoms + other.blossoms) (2 ^ 64 - 1) }
        ensures events { result.events ≡ min (self.events + other.events) (2 ^ 64 - 1) }
    {
        Growth {
            blossoms: self.blossoms.saturating_add(other.blossoms),
            events: self.events.saturating_add(other.events),
        }
    }
}
