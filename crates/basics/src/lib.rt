//! What every crate stands on: the words for a check that asks its duties in turn and those of texts, their laws,
//! and lemmas on truth values, natural numbers and lists.
#![tactic(auto)]

pub mod duty_laws;
#[cfg(test)]
mod tests;
pub mod text_laws;
