//! The simplex method over exact numbers, on rows without their zeros.
#![tactic(auto)]

mod dictionary;
mod marks;
mod merge;
mod mixed;
mod multipliers;
mod narrow;
mod pivot;
mod products;
mod read_as;
mod results;
mod rows;
mod rules;
mod solving;
mod start;
mod tableau;
mod turn;
mod walk;
mod widening;
mod width;

pub use dictionary::SparseDictionary;
pub use mixed::MixedDictionary;
pub use multipliers::{nonzero_pairs, zeros_prove_nothing};

#[cfg(test)]
mod tests;
