//! The words of the command line.
//!
//! `read_words` reads a mode, two numbers and a flag. The command is written as `clap` describes commands, in
//! `specs/Command.antt`; what words ask for is the function of them that `clap` gives for that command (`words_of` in
//! `specs/Words.antt`). The promise: words are refused exactly where `words_of` has nothing, what is read is what
//! `words_of` has, and the numbers lie in their ranges. The one other answer is that memory ran out. Examples that are
//! evaluated show what the definition says (`command_line_examples`).
//!
//! The files: `words` (what may be asked for), `command` (the command, argument by argument), `read`.
#![tactic(auto)]

mod command;
mod read;
mod words;

pub use read::{command_line_examples, read_words};
pub use words::{LEAST_SIZE, MOST_SIZE, MOST_WORKERS, Mode, Words, WordsFault};
