ghost use Rattle.std.specs.Prelude.{◌≡◌, ◌+◌, ℕ, ℤ, List, ◌∷◌, length};
ghost use Rattle.sg_laws.specs.Stream.{IsDraw};

/// A law that couplings are drawn from.
///
/// Its meanings: `title`, the bytes of its name; `next count`, the next `count` draws from now on;
/// `seeded seed count`, the first `count` draws after a call of `seed`. None of its calls takes
/// memory.
pub trait Disorder: Drop {
    ghost title: { Self → List ℕ };

    ghost next: { Self → ℕ → List ℤ };

    ghost seeded: { Self → ℕ → ℕ → List ℤ };

    /// The name of the law. Beside it, that the lists of draws are as long as they should be.
    fn name(&self) -> &str
        ensures title { result.now ≡ title self.now }
        ensures next_count { (c : ℕ) → length (next self.now c) ≡ c }
        ensures seeded_count { (s c : ℕ) → length (seeded self.now s c) ≡ c };

    /// Begins the stream of a seed.
    fn seed(&mut self, seed: u64)
        ensures stream { (c : ℕ) → next self.new c ≡ seeded self.old seed c }
        ensures title { title self.new ≡ title self.old }
        ensures seeds { (s c : ℕ) → seeded self.new s c ≡ seeded self.old s c };

    /// The next draw, from -2^20 to 2^20.
    fn draw(&mut self) -> i64
        ensures stream { (c : ℕ) → next self.old (c + 1) ≡ result ∷ next self.new c }
        ensures range { IsDraw result }
        ensures title { title self.new ≡ title self.old }
        ensures seeds { (s c : ℕ) → seeded self.new s c ≡ seeded self.old s c };
}
