ghost use Rattle.std.specs.Prelude.{◌≡◌, ◌<◌, ◌+◌, ◌%◌, ℕ, length, All, string_bytes};
ghost use Rattle.sg_laws.specs.Stream.{IsDraw, round};

use super::Disorder;
use std::marker::Model;

/// A law of draws from elsewhere, gone round and round: draw `i` after the seed `s` is entry
/// `(s mod L + i) mod L` of its `L` draws.
#[derive(Drop)]
pub struct Table {
    name: String,
    draws: Vec<i64>,
    // The next draw.
    place: usize,
}

impl Model for Table {
    ghost use Rattle.std.specs.Prelude.{string_bytes};
    ghost use Rattle.sg_laws.specs.Stream.{Round, IsRound};

    ghost Value = { Round };

    ghost view = { λ t. record { title = string_bytes t.name; draws = t.draws.items; place = t.place } };

    ghost invariant = { λ t. IsRound (record { title = string_bytes t.name; draws = t.draws.items; place = t.place }) };
}

impl Table {
    /// The law of this name with these draws, as after the seed 0. It does not allocate.
    pub fn new(name: String, draws: Vec<i64>) -> Table
        requires some { 0 < length draws.items }
        requires range { All IsDraw draws.items }
        ensures { result ≡ record { title = string_bytes name; draws = draws.items; place = 0 } }
    {
        Table {
            name,
            draws,
            place: 0,
        }
    }
}

impl Disorder for Table {
    ghost title = { λ t. t.title };

    ghost next = { λ t c. round t.draws t.place c };

    ghost seeded = { λ t s c. round t.draws (s % length t.draws) c };

    #[tactic(auto, using(crate::proofs::Rounds::round_length))]
    fn name(&self) -> &str {
        self.name.as_str()
    }

    fn seed(&mut self, seed: u64) {
        let count = self.draws.len();
        self.place = (seed % count as u64) as usize;
    }

    fn draw(&mut self) -> i64 {
        let draw = self.draws[self.place];
        self.place = place_after(&self.draws, self.place);
        draw
    }
}

// The place from which the draws go on behind this one: the first behind the last.
fn place_after(draws: &[i64], place: usize) -> usize
    requires { place < length draws.now }
    ensures below { result < length draws.now }
    ensures same { (c : ℕ) → round draws.now (place + 1) c ≡ round draws.now result c }
{
    let next = place + 1;
    if next < draws.len() { next } else { 0 }
}
