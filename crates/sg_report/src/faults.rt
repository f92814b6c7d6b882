// Refusals and verdicts.
ghost use Rattle.std.specs.Prelude.{◌≡◌, ◌≤◌, take, IfOk};
ghost use Rattle.sg_report.specs.Refusals.{refusal_numbers};
ghost use Rattle.sg_report.specs.Text.{refusal_text as refusal_bytes, verdict_text as verdict_bytes};

use super::NoMemory;
use super::line::one_line;
use sg_check::Verdict;
use sg_model::Refusal;
use std::alloc::Global;

/// The line of a refusal: `refused`, its number, and the numbers that it keeps.
pub fn refusal_text(alloc: Global, refusal: &Refusal) -> Result<Vec<u8>, NoMemory>
    ensures { IfOk result (λ text. text.items ≡ refusal_bytes refusal.now) }
{
    let (numbers, count) = numbers_of(refusal);
    one_line(alloc, b"refused", &numbers[..count])
}

// The number of a refusal and those that it keeps, in front of an array, and how many they are.
fn numbers_of(refusal: &Refusal) -> ([i128; 3], usize)
    ensures few { result.1 ≤ 3 }
    ensures numbers { take result.1 result.0 ≡ refusal_numbers refusal.now }
{
    match refusal {
        Refusal::TooLong { limit } => ([1, i128::from(*limit), 0], 2),
        Refusal::Unended => ([2, 0, 0], 1),
        Refusal::BadNumber { at, field } => ([3, i128::from(*at), i128::from(*field)], 3),
        Refusal::UnknownKind { at } => ([4, i128::from(*at), 0], 2),
        Refusal::BadShape { at } => ([5, i128::from(*at), 0], 2),
        Refusal::CouplingCount { found, wanted } => (
            [6, i128::from(*found), i128::from(*wanted)],
            3,
        ),
        Refusal::TooManySpins { n } => ([7, *n, 0], 2),
        Refusal::TooManyBonds { m } => ([8, i128::from(*m), 0], 2),
        Refusal::SelfBond { bond } => ([9, i128::from(*bond), 0], 2),
        Refusal::BadRotation { spin, dart } => ([10, i128::from(*spin), i128::from(*dart)], 3),
        Refusal::BadSeam { bond } => ([11, i128::from(*bond), 0], 2),
        Refusal::Trailing { at } => ([12, i128::from(*at), 0], 2),
        Refusal::SumTooLarge { sum } => ([13, *sum, 0], 2),
        Refusal::NotPlanar { euler } => ([15, i128::from(*euler), 0], 2),
        Refusal::NoSeam => ([16, 0, 0], 1),
        Refusal::UnknownLaw => ([17, 0, 0], 1),
        Refusal::BadJson => ([18, 0, 0], 1),
        Refusal::BadMember { place, item } => ([19, i128::from(*place), i128::from(*item)], 3),
        Refusal::JsonTooLong { limit } => ([20, i128::from(*limit), 0], 2),
        Refusal::OddTerminals { count } => ([21, i128::from(*count), 0], 2),
        Refusal::BadTerminal { node } => ([22, i128::from(*node), 0], 2),
        Refusal::NotJoined { node } => ([23, i128::from(*node), 0], 2),
    }
}

/// The line of a verdict: `yes`, or `no`, the number of the first test that fails, and the numbers
/// that show it.
pub fn verdict_text(alloc: Global, verdict: &Verdict) -> Result<Vec<u8>, NoMemory>
    ensures { IfOk result (λ text. text.items ≡ verdict_bytes verdict.now) }
{
    match verdict {
        Verdict::Yes => one_line(alloc, b"yes", &[]),
        Verdict::SpinCount { found } => one_line(alloc, b"no", &[1, i128::from(*found)]),
        Verdict::Energy { found } => one_line(alloc, b"no", &[2, *found]),
        Verdict::LoopShape { index } => one_line(alloc, b"no", &[3, i128::from(*index)]),
        Verdict::LoopEven { index, spin } => {
            one_line(alloc, b"no", &[4, i128::from(*index), i128::from(*spin)])
        }
        Verdict::LoopSign { index } => one_line(alloc, b"no", &[5, i128::from(*index)]),
        Verdict::Load { bond, load } => one_line(alloc, b"no", &[6, i128::from(*bond), *load]),
        Verdict::Sum { found, wanted } => one_line(alloc, b"no", &[7, *found, *wanted]),
    }
}
