// The laws without chance.
ghost use Rattle.std.specs.Prelude.{◌≡◌, ℕ, pos, codes, replicate, if◌then◌else◌};
ghost use Rattle.sg_laws.specs.Stream.{alternating};

use super::Disorder;

/// The law `one`: each coupling is 1.
#[derive(Drop)]
pub struct One {}

impl One {
    /// The law. It does not allocate.
    pub fn new() -> One
        ensures title { ⟦<One as Disorder>⟧.title result ≡ codes "one" }
        ensures stream { (c : ℕ) → ⟦<One as Disorder>⟧.next result c ≡ replicate c (pos 1) }
        ensures seeded { (s c : ℕ) → ⟦<One as Disorder>⟧.seeded result s c ≡ replicate c (pos 1) }
    {
        One {}
    }
}

impl Disorder for One {
    ghost title = { λ _. codes "one" };

    ghost next = { λ _ c. replicate c (pos 1) };

    ghost seeded = { λ _ s c. replicate c (pos 1) };

    fn name(&self) -> &str {
        "one"
    }

    fn seed(&mut self, seed: u64) {}

    fn draw(&mut self) -> i64 {
        1
    }
}

/// The law `alternate`: draw `i` after the seed `s` is 1 where `s + i` is even, and -1 where it is
/// odd.
#[derive(Drop)]
pub struct Alternate {
    // 0 where the next draw is 1, and 1 where it is -1.
    parity: u64,
}

impl Alternate {
    /// The law, as after the seed 0. It does not allocate.
    pub fn new() -> Alternate
        ensures title { ⟦<Alternate as Disorder>⟧.title result ≡ codes "alternate" }
        ensures stream { (c : ℕ) → ⟦<Alternate as Disorder>⟧.next result c ≡ alternating 0 c }
        ensures seeded { (s c : ℕ) → ⟦<Alternate as Disorder>⟧.seeded result s c ≡ alternating s c }
    {
        Alternate { parity: 0 }
    }
}

impl Disorder for Alternate {
    ghost title = { λ _. codes "alternate" };

    ghost next = { λ a c. alternating a.parity c };

    ghost seeded = { λ _ s c. alternating s c };

    #[tactic(auto, using(crate::proofs::Alternations::alternating_length))]
    fn name(&self) -> &str {
        "alternate"
    }

    #[tactic(auto, using(crate::proofs::Alternations::alternating_parity))]
    fn seed(&mut self, seed: u64) {
        self.parity = seed % 2;
    }

    fn draw(&mut self) -> i64 {
        if self.parity % 2 == 0 {
            self.parity = 1;
            1
        } else {
            self.parity = 0;
            -1
        }
    }
}
