//! Domains of PDDL, read from the bytes of a file.
//!
//! A text is a domain exactly where it has tokens, the printed grammar derives them, and nothing is wrong with the names,
//! the types, the forms and the limits of the tree that the text tells. A text that is no domain is refused for the first
//! of these that it lacks, at the least place of it.
#![tactic(auto)]

mod actions;
mod declarations;
mod domains;
mod effects;
mod laws;
mod phases;
mod read;
mod timed;

pub use laws::{a_text_is_one_domain, accepted_domains_keep_to, first_phase_counts};
pub use read::read_domain;

#[cfg(test)]
mod tests;
