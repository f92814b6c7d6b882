// The laws over the words of a generator: the 32-bit words of `Lcg64Xsh32`, a permuted congruential
// generator (O'Neill 2014), on stream 54.
ghost use Rattle.std.specs.Prelude.{◌≡◌, ℕ, codes};
ghost use Rattle.sg_laws.specs.Stream.{drawn, seeded_generator, level_of, sign_of};

use super::Disorder;
use rand_core::utils::NextWord;
use rand_pcg::Pcg32;

// The stream of the generator that the laws draw from.
const STREAM: u64 = 54;

/// The law `pm`: draw `i` is 1 where word `i` is even, and -1 where it is odd.
#[derive(Drop)]
pub struct PlusMinus {
    generator: Pcg32,
}

impl PlusMinus {
    /// The law, as after the seed 0. It does not allocate.
    pub fn new() -> PlusMinus
        ensures title { ⟦<PlusMinus as Disorder>⟧.title result ≡ codes "pm" }
        ensures stream { (c : ℕ) → ⟦<PlusMinus as Disorder>⟧.next result c ≡ drawn sign_of c (seeded_generator 0) }
        ensures seeded { (s c : ℕ) → ⟦<PlusMinus as Disorder>⟧.seeded result s c ≡ drawn sign_of c (seeded_generator s) }
    {
        PlusMinus {
            generator: Pcg32::new(0, STREAM),
        }
    }
}

impl Disorder for PlusMinus {
    ghost title = { λ _. codes "pm" };

    ghost next = { λ a c. drawn sign_of c a.generator };

    ghost seeded = { λ _ s c. drawn sign_of c (seeded_generator s) };

    #[tactic(auto, using(crate::proofs::Drawn::drawn_length))]
    fn name(&self) -> &str {
        "pm"
    }

    fn seed(&mut self, seed: u64) {
        self.generator = Pcg32::new(seed, STREAM);
    }

    #[tactic(auto, using(crate::proofs::Drawn::drawn_next))]
    fn draw(&mut self) -> i64 {
        sign(self.generator.next_word())
    }
}

// 1 for an even word, -1 for an odd one.
fn sign(word: u32) -> i64
    ensures { result ≡ sign_of word }
{
    if word % 2 == 0 { 1 } else { -1 }
}

/// The law `uniform`: draw `i` is the rest of word `i` by 2^21, less 2^20.
#[derive(Drop)]
pub struct Uniform {
    generator: Pcg32,
}

impl Uniform {
    /// The law, as after the seed 0. It does not allocate.
    pub fn new() -> Uniform
        ensures title { ⟦<Uniform as Disorder>⟧.title result ≡ codes "uniform" }
        ensures stream { (c : ℕ) → ⟦<Uniform as Disorder>⟧.next result c ≡ drawn level_of c (seeded_generator 0) }
        ensures seeded { (s c : ℕ) → ⟦<Uniform as Disorder>⟧.seeded result s c ≡ drawn level_of c (seeded_generator s) }
    {
        Uniform {
            generator: Pcg32::new(0, STREAM),
        }
    }
}

impl Disorder for Uniform {
    ghost title = { λ _. codes "uniform" };

    ghost next = { λ a c. drawn level_of c a.generator };

    ghost seeded = { λ _ s c. drawn level_of c (seeded_generator s) };

    #[tactic(auto, using(crate::proofs::Drawn::drawn_length))]
    fn name(&self) -> &str {
        "uniform"
    }

    fn seed(&mut self, seed: u64) {
        self.generator = Pcg32::new(seed, STREAM);
    }

    #[tactic(auto, using(crate::proofs::Drawn::drawn_next))]
    fn draw(&mut self) -> i64 {
        i64::from(self.generator.next_word() % 2_097_152) - 1_048_576
    }
}
