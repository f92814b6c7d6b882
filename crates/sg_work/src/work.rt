// The work that is done and the work that is allowed.
//
// A step of work is an arc that is looked at, a part of a blossom that is moved, a node of a row that
// is passed, a step up a tree, or an event.
ghost use Rattle.std.specs.Prelude.{◌≡◌, ◌+◌, ◌*◌, ◌≤◌, IsFalse, IsTrue};
ghost use Rattle.sg_work.specs.Counts.{event_limit, growth_limit};

use std::marker::Model;

/// What a run may do: blossoms that it makes and takes apart, and steps of work.
#[derive(Clone, Copy)]
pub struct Allowance {
    pub blossoms: u64,
    pub work: u64,
}

impl Allowance {
    /// What is allowed for so many terminals, and so many nodes and darts together: twelve times each
    /// place for each terminal, more than twice what was ever seen, and what a slow way takes at the
    /// least.
    pub fn long(terminals: usize, places: u64) -> Allowance
        ensures blossoms { result.blossoms ≤ growth_limit terminals }
        ensures work { result.work ≤ event_limit terminals places }
    {
        let count = terminals as u64;
        let growing = growing(count, places);
        let slow = cube(count) / 48;
        Allowance {
            blossoms: most_blossoms(terminals),
            work: growing.saturating_add(slow).saturating_add(65536),
        }
    }

    /// The work allowed to trees that grow in batches, before all grow at once: three times what was measured on the
    /// duals of drawn lattices.
    pub fn sliced(terminals: usize, places: u64) -> Allowance
        ensures blossoms { result.blossoms ≤ growth_limit terminals }
        ensures work { result.work ≤ event_limit terminals places }
    {
        Allowance {
            blossoms: most_blossoms(terminals),
            work: places.saturating_mul(24).saturating_add(65536),
        }
    }

    /// What is allowed before another method is tried: of work, some times what is wanted on the duals of drawn
    /// lattices.
    pub fn brief(terminals: usize, places: u64) -> Allowance
        ensures blossoms { result.blossoms ≤ growth_limit terminals }
        ensures work { result.work ≤ event_limit terminals places }
    {
        Allowance {
            blossoms: most_blossoms(terminals),
            work: places.saturating_mul(128).saturating_add(65536),
        }
    }
}

// Twelve times each place for each terminal, and for four more.
fn growing(count: u64, places: u64) -> u64
    ensures { result ≤ 12 * (count + 11) * places }
{
    let times = count.saturating_add(4).saturating_mul(12);
    times.saturating_mul(places)
}

// The third power.
fn cube(count: u64) -> u64
    ensures { result ≤ count * count * count }
{
    count.saturating_mul(count).saturating_mul(count)
}

// From one augmentation to the next fewer blossoms are made than there are terminals, and fewer are taken apart
// than there were; and there are at most as many augmentations and rests as terminals.
fn most_blossoms(terminals: usize) -> u64
    ensures { result ≤ growth_limit terminals }
{
    let count = terminals as u64;
    count.saturating_mul(2).saturating_mul(count)
}

/// The work that is left, and the events that were taken; past its limit there is no proposal.
#[derive(Drop)]
pub struct Work {
    left: u64,
    events: u64,
    most: u64,
}

impl Model for Work {
    ghost use Rattle.std.specs.Prelude.{◌+◌, ◌≤◌};
    ghost use Rattle.sg_work.specs.Counts.{WorkDone};

    ghost Value = { WorkDone };

    ghost view = { λ w. record { events = w.events; most = w.most } };

    ghost invariant = { λ w. w.events + w.left ≤ w.most };
}

impl Work {
    /// So much is left, and no event was taken.
    pub fn new(most: u64) -> Work
        ensures events { result.events ≡ 0 }
        ensures most { result.most ≡ most }
    {
        Work {
            left: most,
            events: 0,
            most,
        }
    }

    /// The steps that are left.
    pub fn left(&self) -> u64 {
        self.left
    }

    /// How many events were taken.
    pub fn events(&self) -> u64
        ensures counted { result ≡ self.now.events }
        ensures within { result ≤ self.now.most }
    {
        self.events
    }

    /// Does so many steps.
    pub fn add(&mut self, steps: usize)
        ensures { self.new ≡ self.old }
    {
        self.left = self.left.saturating_sub(steps as u64);
    }

    /// Does the step of an event. False, and all stays, where none is left.
    pub fn take_event(&mut self) -> bool
        ensures taken { IsTrue result → self.new.events ≡ self.old.events + 1 }
        ensures most { self.new.most ≡ self.old.most }
        ensures stays { IsFalse result → self.new ≡ self.old }
    {
        if self.left == 0 {
            return false;
        }
        self.left -= 1;
        self.events += 1;
        true
    }
}
