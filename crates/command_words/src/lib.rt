//! The command's words: what they ask for, or that they ask for nothing.
//!
//! - `command` is the command, `numbers` reads numbers, and `words` what the words ask for.
#![tactic(auto)]

mod command;
mod numbers;
mod words;

pub use words::{Call, RunMode, RunOptions, WordsError, read_words};
