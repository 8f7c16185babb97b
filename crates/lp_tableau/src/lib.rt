//! The simplex method over exact numbers, on dense dictionaries.
#![tactic(auto)]

mod dictionary;
mod laws;
mod outcome;
mod pivot;
mod results;
mod rows;
mod rules;
mod start;
mod tableau;
#[cfg(test)]
mod tests;
mod turn;
mod walk;

pub use dictionary::Dictionary;
pub use laws::{chains_are_one, narrow_chains_are_wide};
pub use outcome::Outcome;
pub use turn::Turn;
