//! The words of a command line: which request they ask for, if any.
//!
//! Each command is a simple command of `clap`. What such a command accepts is stated by a grammar of a page, and proved
//! to be what `clap` accepts, for every list of words.
#![tactic(auto)]

mod forms;
mod laws;
mod requests;
mod values;

pub use laws::{rows_come_out, words_ask_for_one};
pub use requests::{Files, Limits, Request, read_words};

#[cfg(test)]
mod tests;
