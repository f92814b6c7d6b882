// The two traits of the outside, and the answers of their calls.
ghost use Rattle.std.specs.Prelude.{◌≡◌, ℕ, ◌<◌, Bool, List, Option, length};
ghost use Rattle.sg_io.specs.Devices.{read_failed, read_faults, Reads, ReadsWithin, write_failed, write_faults, Writes, WritesWithin};

/// The answer of one read.
#[derive(Clone, Copy, Debug, PartialEq, Eq)]
pub enum Took {
    /// So many bytes, at least one, are now in the front of the buffer.
    Got(usize),
    /// No byte is left.
    End,
    /// The read failed. No byte was taken.
    Failed,
}

/// The answer of one write.
#[derive(Clone, Copy, Debug, PartialEq, Eq)]
pub enum Gave {
    /// So many bytes, at least one, were taken from the front of those offered.
    Took(usize),
    /// The write failed. No byte was taken.
    Failed,
}

/// Where bytes come from.
pub trait Source {
    // The bytes still to come, where the device tells them.
    ghost left: { Self → Option (List ℕ) };

    // The failed calls so far. The number never falls, and stays at the last of its 64 bits.
    ghost faults: { Self → ℕ };

    // Whether the last call failed.
    ghost failed: { Self → Bool };

    /// Moves at least one byte into the front of the buffer, unless no byte is left or the read
    /// fails. What lies in the buffer behind those bytes is open.
    fn read(&mut self, into: &mut [u8]) -> Took
        requires { 0 < length into.old }
        ensures count { ReadsWithin result into.new }
        ensures bytes { Reads result into.new (left self.old) (left self.new) }

        // Exactly the calls that fail are counted.
        ensures counted { faults self.new ≡ read_faults result (faults self.old) }
        ensures last { failed self.new ≡ read_failed result };
}

/// Where bytes go.
pub trait Sink {
    // The bytes written so far, where the device tells them.
    ghost written: { Self → Option (List ℕ) };

    // The failed calls so far. The number never falls, and stays at the last of its 64 bits.
    ghost faults: { Self → ℕ };

    // Whether the last call failed.
    ghost failed: { Self → Bool };

    /// Takes at least one byte from the front of those offered, unless the write fails.
    fn write(&mut self, bytes: &[u8]) -> Gave
        requires { 0 < length bytes.now }
        ensures count { WritesWithin result bytes.now }
        ensures bytes { Writes result bytes.now (written self.old) (written self.new) }

        // Exactly the calls that fail are counted.
        ensures counted { faults self.new ≡ write_faults result (faults self.old) }
        ensures last { failed self.new ≡ write_failed result };
}
