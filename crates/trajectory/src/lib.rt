//! Formulas over the facts of a state, and trajectory constraints followed state by state.
#![tactic(auto)]

mod automaton;
mod flags;
mod formulas;
pub mod laws;
#[cfg(test)]
mod tests;

pub use automaton::{Automaton, TrailEnd};
pub use formulas::tree_holds;
