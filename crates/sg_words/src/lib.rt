//! The words of a call: which command they name, and with what numbers.
//!
//! One word names a command that reads its source; five or six words name one that draws from a law,
//! with a seed and a size. Words of any other shape name none. Reading the words does not allocate.
//!
//! For the next engineer: `specs/Command.antt` says which words name which command, as one definition
//! over their bytes; `parse_command` is that definition. A further command is one more variant here, and
//! one more case in `sg_cli` or `sg_draws`.
#![tactic(auto)]

mod command;
mod numeral;

pub use command::{Command, Drawing, GraphTask, Reading, Size, Study, law_word, parse_command};
