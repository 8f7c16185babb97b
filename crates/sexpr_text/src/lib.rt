//! The tokens of a text in the parenthesised notation of PDDL (Fox and Long 2003, appendix): parentheses,
//! names, variables, keywords, numbers, marks and the time `#t`, each with the bytes that it spans.
#![tactic(auto)]

mod fault;
mod forms;
pub mod laws;
mod piece;
mod run;
mod scan;
mod token;

pub use fault::LexFault;
pub use forms::{Forms, read_forms};
pub use token::{Token, TokenKind};

#[cfg(test)]
mod tests;
