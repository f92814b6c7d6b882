// A whole run for a caller: words and input in, a text and a status out.
ghost use Rattle.sg_calls.specs.Running.{Ends};

use sg_calls::{fill, words_in};
use sg_cli::{Status, answer_with_all_laws};
use std::alloc::{AllocError, Global};

// Where the words are not ended.
const NO_WORDS: u8 = 7;

/// Answers the words to the input, as the program does, and writes the text as far as there is room.
#[unsafe(no_mangle)]
pub extern "C" fn ising2d_c_run(
    alloc: Global,
    words: &[u8],
    input: &[u8],
    out: &mut [u8],
    written: &mut usize,
    whole: &mut usize,
) -> u8
    ensures { Ends words.now input.now out.old out.new written.new whole.new result }
{
    *written = 0;
    *whole = 0;
    let list = match words_in(alloc, words) {
        Ok(Some(list)) => list,
        Ok(None) => return NO_WORDS,
        Err(AllocError) => return Status::NoMemory.exit_code(),
    };
    match answer_with_all_laws(alloc, list.as_slice(), input) {
        Ok(reply) => {
            let text = reply.text.as_slice();
            *written = fill(text, out);
            *whole = text.len();
            reply.status.exit_code()
        }
        Err(AllocError) => Status::NoMemory.exit_code(),
    }
}
