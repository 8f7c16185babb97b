//! A state of a task, by itself.

use exact_lin::Fraction;

/// A state: which facts hold, and the values of the fluents, by their numbers.
#[derive(Drop)]
pub struct State {
    pub facts: Vec<bool>,
    pub fluents: Vec<Fraction>,
}
