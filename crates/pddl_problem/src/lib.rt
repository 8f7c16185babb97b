//! Problems of PDDL, read from the bytes of a file.
//!
//! A text is a problem of a domain exactly where it has tokens, the printed grammar derives them, and nothing is wrong
//! with the names, the types, the forms and the limits of the tree that the text tells. A text that is none is refused for
//! the first of these that it lacks, at the least place of it.
#![tactic(auto)]

mod entries;
mod goals;
mod laws;
mod metrics;
mod phases;
mod problems;
mod read;
mod time_costs;

pub use laws::a_text_is_one_problem;
pub use read::read_problem;

#[cfg(test)]
mod tests;
