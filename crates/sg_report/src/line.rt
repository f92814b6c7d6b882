// The parts of lines.
ghost use Rattle.std.specs.Prelude.{◌≡◌, [], ◌∷◌, ◌++◌, IfOk, OnOk};
ghost use Rattle.sg_report.specs.Line.{entries, listed_number, line};

use super::NoMemory;
use itoa::Buffer;
use std::alloc::Global;

/// Adds a comma and a number to a text.
pub fn push_entry(text: &mut Vec<u8>, number: i128) -> Result<(), NoMemory>
    ensures { OnOk result (text.new.items ≡ text.old.items ++ listed_number number) }
{
    text.push(b',')?;
    let mut buffer = Buffer::new();
    text.extend_from_slice(buffer.format(number).as_bytes())?;
    Ok(())
}

/// Adds a word and its numbers to a text.
pub fn push_entries(text: &mut Vec<u8>, word: &[u8], numbers: &[i128]) -> Result<(), NoMemory>
    ensures { OnOk result (text.new.items ≡ text.old.items ++ entries word.now numbers.now) }
{
    text.extend_from_slice(word)?;
    for number in numbers {
        push_entry(text, *number)?;
    }
    Ok(())
}

/// Adds a whole line to a text.
pub fn push_line(text: &mut Vec<u8>, word: &[u8], numbers: &[i128]) -> Result<(), NoMemory>
    ensures { OnOk result (text.new.items ≡ text.old.items ++ line word.now numbers.now) }
{
    push_entries(text, word, numbers)?;
    text.push(b'\n')?;
    Ok(())
}

/// The text of one line.
pub fn one_line(alloc: Global, word: &[u8], numbers: &[i128]) -> Result<Vec<u8>, NoMemory>
    ensures { IfOk result (λ text. text.items ≡ line word.now numbers.now) }
{
    let mut text = Vec::new(alloc);
    push_line(&mut text, word, numbers)?;
    Ok(text)
}
