ghost use Rattle.std.specs.Prelude.{◌≡◌, ◌==◌, [], ◌∷◌, ◌++◌, ◌<◌, Some, pos, length, replicate, All, OnOk, OnErr, IfOk, slice_get};
ghost use Rattle.sg_model.specs.Spins.{IsUpOrDown};
ghost use Rattle.sg_model.specs.Codes.{coded};

use super::NoMemory;
use std::alloc::Global;
use std::marker::Model;

/// Spin values in the order of the spins, each 1 (up) or -1 (down).
#[derive(Drop)]
pub struct Spins {
    values: Vec<i8>,
}

impl Model for Spins {
    ghost use Rattle.std.specs.Prelude.{ℤ, List, All};

    ghost Value = { List ℤ };

    ghost use Rattle.sg_model.specs.Spins.{IsUpOrDown};

    ghost view = { λ s. s.values.items };

    ghost invariant = { λ s. All IsUpOrDown s.values.items };
}

impl Spins {
    /// No spins yet. It does not allocate until the first `push`.
    pub fn new(alloc: Global) -> Self
        ensures { result ≡ [] }
    {
        Spins {
            values: Vec::new(alloc),
        }
    }

    /// Adds the value of the next spin. If the allocation fails, the list is unchanged.
    pub fn push(&mut self, value: i8) -> Result<(), NoMemory>
        requires { IsUpOrDown value }
        ensures ok { OnOk result (self.new ≡ self.old ++ value ∷ []) }
        ensures err { OnErr result (self.new ≡ self.old) }
    {
        self.values.push(value)?;
        Ok(())
    }

    /// The number of spins.
    pub fn len(&self) -> usize
        ensures { result ≡ length self.now }
    {
        self.values.len()
    }

    /// Whether there is no spin.
    pub fn is_empty(&self) -> bool
        ensures { result ≡ (length self.now == 0) }
    {
        self.values.is_empty()
    }

    /// The value of spin `i`.
    pub fn at(&self, i: usize) -> i8
        requires { i < length self.now }
        ensures value { slice_get self.now i ≡ Some result }
        ensures up_or_down { IsUpOrDown result }
    {
        self.values[i]
    }

    /// The values of all spins, in order. It does not allocate.
    pub fn as_slice(&self) -> &[i8]
        ensures value { result.now ≡ self.now }
        ensures up_or_down { All IsUpOrDown self.now }
    {
        self.values.as_slice()
    }

    /// `n` spins, all up.
    pub(crate) fn all_up(alloc: Global, n: usize) -> Result<Self, NoMemory>
        ensures { IfOk result (λ s. s ≡ replicate n (pos 1)) }
    {
        Ok(Spins {
            values: vec![in alloc; 1i8; n]?,
        })
    }

    /// Overwrites all values: spin `i` is down where bit `i` of the code, from the lowest, is 1.
    pub(crate) fn assign(&mut self, code: u32)
        ensures value { self.new ≡ coded (length self.old) code }
        ensures count { length self.new ≡ length self.old }
    {
        write_code(&mut self.values, code);
    }
}

// Writes the spins of a code.
fn write_code(values: &mut [i8], code: u32)
    ensures value { values.new ≡ coded (length values.old) code }
    ensures count { length values.new ≡ length values.old }
{
    let mut rest = code;
    for i in 0..values.len() {
        values[i] = if rest % 2 == 0 { 1 } else { -1 };
        rest /= 2;
    }
}
