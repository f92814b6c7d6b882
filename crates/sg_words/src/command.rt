ghost use Rattle.std.specs.Prelude.{◌≡◌, ◌≤◌, None, codes, if◌then◌else◌, map, string_bytes, IfSome};
ghost use Rattle.std.specs.Str.{bytes_eq};
ghost use Rattle.sg_lattice.specs.Tables.{least_cols as least_columns};
ghost use Rattle.sg_words.specs.Command.{command_named, command_of, ensemble_of, gen_of, IsAllowed, IsAllowedSize, kind_named, law_word as second_word, sample_of, six_words, size_of_words, widths_of};

use super::numeral::number_in;
use sg_base::{SAMPLE_LIMIT, SPIN_LIMIT, WIDTH_LIMIT};
use sg_lattice::{Kind, least_cols};

/// A command of the program.
#[derive(Clone, Copy)]
pub enum Command {
    /// A command that reads its source to the end.
    Read(Reading),
    /// A command that reads nothing, and draws from the law that the second word names.
    Draw(Drawing),
}

/// What is asked of an input.
#[derive(Clone, Copy)]
pub enum Reading {
    /// A study of an instance that is fit for a planar solver.
    Study(Study),
    /// The verdict on a proof, for an instance of any kind.
    Check,
    /// What is found in a connected weighted graph.
    Graph(GraphTask),
}

/// What is asked of an instance that is fit.
#[derive(Clone, Copy)]
pub enum Study {
    /// The least energy of an instance, and spins that have it.
    Energy,
    /// The least energy, spins that have it, and a packing of frustrated loops that proves it.
    Ground,
    /// The least energy, the least energy with the signs of the seam changed, and their difference.
    Wall,
    /// The cost of each bond.
    Bonds,
    /// The rigid cluster of each spin.
    Clusters,
    /// All of these at once, as one line of JSON.
    Report,
    /// The turning coupling of each bond.
    Ranges,
    /// A largest cut, and a packing of frustrated loops that proves it.
    Maxcut,
}

/// What is asked of a connected weighted graph.
#[derive(Clone, Copy)]
pub enum GraphTask {
    /// A minimum T-join of its terminals, with the odd cuts that prove it.
    TJoin,
    /// A shortest closed walk over every edge, with the odd cuts that prove it.
    Postman,
}

/// What is asked of the draws of a law after a seed.
#[derive(Clone, Copy)]
pub enum Drawing {
    /// A lattice with drawn couplings, as an instance text.
    Gen { seed: u64, kind: Kind, size: Size },
    /// The least energy of a square lattice with drawn couplings.
    Sample { seed: u64, size: Size },
    /// What domain walls cost on so many cylinders with drawn couplings.
    Ensemble { seed: u64, size: Size, count: u32 },
    /// The sums over such an ensemble for each width, from 3 columns to those of the size.
    Widths { seed: u64, size: Size, count: u32 },
}

/// The rows and columns of a lattice.
#[derive(Clone, Copy)]
pub struct Size {
    pub rows: u32,
    pub cols: u32,
}

/// The command that the words after the program's name ask for. It does not allocate.
pub fn parse_command(words: &[String]) -> Option<Command>
    ensures value { result ≡ command_of (map string_bytes words.now) }
    ensures allowed { IfSome result IsAllowed }
{
    match words {
        [word] => command_named(word.as_str()),
        [word, _, seed, rows, cols] => five_words(word, seed, rows, cols),
        [word, _, seed, fourth, fifth, sixth] => six_words(word, seed, fourth, fifth, sixth),
        _ => None,
    }
}

/// The name of a law, where the words have one: the second of them.
pub fn law_word(words: &[String]) -> &str
    ensures { result.now ≡ second_word (map string_bytes words.now) }
{
    match words {
        [_, law, ..] => law.as_str(),
        _ => "",
    }
}

// The command that one word names.
fn command_named(word: &str) -> Option<Command>
    ensures value { result ≡ command_named word.now }
    ensures allowed { IfSome result IsAllowed }
{
    if word == "energy" {
        Some(Command::Read(Reading::Study(Study::Energy)))
    } else if word == "ground" {
        Some(Command::Read(Reading::Study(Study::Ground)))
    } else if word == "wall" {
        Some(Command::Read(Reading::Study(Study::Wall)))
    } else if word == "bonds" {
        Some(Command::Read(Reading::Study(Study::Bonds)))
    } else if word == "clusters" {
        Some(Command::Read(Reading::Study(Study::Clusters)))
    } else if word == "report" {
        Some(Command::Read(Reading::Study(Study::Report)))
    } else if word == "ranges" {
        Some(Command::Read(Reading::Study(Study::Ranges)))
    } else if word == "maxcut" {
        Some(Command::Read(Reading::Study(Study::Maxcut)))
    } else if word == "check" {
        Some(Command::Read(Reading::Check))
    } else if word == "tjoin" {
        Some(Command::Read(Reading::Graph(GraphTask::TJoin)))
    } else if word == "postman" {
        Some(Command::Read(Reading::Graph(GraphTask::Postman)))
    } else {
        None
    }
}

// The command of five words, of which the second is left out.
fn five_words(word: &str, seed: &str, rows: &str, cols: &str) -> Option<Command>
    ensures value { result ≡ (if bytes_eq word.now (codes "sample") then sample_of seed.now rows.now cols.now else None) }
    ensures allowed { IfSome result IsAllowed }
{
    if word == "sample" {
        sample_of(seed, rows, cols)
    } else {
        None
    }
}

// The command of six words, of which the second is left out.
#[tactic(auto, unfolding(crate::specs::Command::six_words))]
fn six_words(word: &str, seed: &str, fourth: &str, fifth: &str, sixth: &str) -> Option<Command>
    ensures value { result ≡ six_words word.now seed.now fourth.now fifth.now sixth.now }
    ensures allowed { IfSome result IsAllowed }
{
    if word == "gen" {
        gen_of(seed, fourth, fifth, sixth)
    } else if word == "ensemble" {
        ensemble_of(seed, fourth, fifth, sixth)
    } else if word == "widths" {
        widths_of(seed, fourth, fifth, sixth)
    } else {
        None
    }
}

// A lattice of a kind.
fn gen_of(seed: &str, kind: &str, rows: &str, cols: &str) -> Option<Command>
    ensures value { result ≡ gen_of seed.now kind.now rows.now cols.now }
    ensures allowed { IfSome result IsAllowed }
{
    let seed = number_in(seed, 0, u64::MAX)?;
    let kind = kind_named(kind)?;
    let size = size_in(kind, SPIN_LIMIT, rows, cols)?;
    Some(Command::Draw(Drawing::Gen { seed, kind, size }))
}

// A sample of the square lattice.
fn sample_of(seed: &str, rows: &str, cols: &str) -> Option<Command>
    ensures value { result ≡ sample_of seed.now rows.now cols.now }
    ensures allowed { IfSome result IsAllowed }
{
    let seed = number_in(seed, 0, u64::MAX)?;
    let size = size_in(Kind::Square, SPIN_LIMIT, rows, cols)?;
    Some(Command::Draw(Drawing::Sample { seed, size }))
}

// An ensemble of so many cylinders.
fn ensemble_of(seed: &str, rows: &str, cols: &str, count: &str) -> Option<Command>
    ensures value { result ≡ ensemble_of seed.now rows.now cols.now count.now }
    ensures allowed { IfSome result IsAllowed }
{
    let seed = number_in(seed, 0, u64::MAX)?;
    let size = size_in(Kind::Cylinder, SPIN_LIMIT, rows, cols)?;
    let count = number_in(count, 1, SAMPLE_LIMIT)? as u32;
    Some(Command::Draw(Drawing::Ensemble { seed, size, count }))
}

// An ensemble for each width from 3 on.
fn widths_of(seed: &str, rows: &str, cols: &str, count: &str) -> Option<Command>
    ensures value { result ≡ widths_of seed.now rows.now cols.now count.now }
    ensures allowed { IfSome result IsAllowed }
{
    let seed = number_in(seed, 0, u64::MAX)?;
    let size = size_in(Kind::Cylinder, WIDTH_LIMIT, rows, cols)?;
    let count = number_in(count, 1, SAMPLE_LIMIT)? as u32;
    Some(Command::Draw(Drawing::Widths { seed, size, count }))
}

// The kind of lattice that a word names.
fn kind_named(word: &str) -> Option<Kind>
    ensures { result ≡ kind_named word.now }
{
    if word == "square" {
        Some(Kind::Square)
    } else if word == "triangular" {
        Some(Kind::Triangular)
    } else if word == "hexagonal" {
        Some(Kind::Hexagonal)
    } else if word == "cylinder" {
        Some(Kind::Cylinder)
    } else {
        None
    }
}

// Rows and columns of a lattice of this kind, with no more columns than `most`, and no more spins than
// the limit.
fn size_in(kind: Kind, most: u32, rows: &str, cols: &str) -> Option<Size>
    ensures value { result ≡ size_of_words (least_columns kind) most rows.now cols.now }
    ensures allowed { IfSome result (IsAllowedSize kind) }
    ensures most { IfSome result (λ size. size.cols ≤ most) }
{
    let rows = number_in(rows, 1, u64::from(SPIN_LIMIT))? as u32;
    let cols = number_in(cols, u64::from(least_cols(kind)), u64::from(most))? as u32;
    if u64::from(rows) * u64::from(cols) <= u64::from(SPIN_LIMIT) {
        Some(Size { rows, cols })
    } else {
        None
    }
}
