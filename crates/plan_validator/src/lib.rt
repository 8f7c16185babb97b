//! Whether a plan is valid, and the first reason why it isn't.
#![tactic(auto)]

mod clashes;
mod conditions;
mod constraints;
mod disturbing;
mod following;
mod judging;
pub mod laws;
mod least;
mod overalls;
mod passing;
mod readings;
mod reasons;
#[cfg(test)]
mod tests;
mod times;
mod verdicts;
mod watching;

pub use verdicts::{Verdict, validate};
