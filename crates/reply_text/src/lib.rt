//! The texts of replies, to the byte: what each refusal and each verdict says. A caller adds no byte of its own.
#![tactic(auto)]

mod faults;
mod verdicts;
mod words;

pub use faults::{ground_fault_text, line_fault_text, pddl_fault_text};
pub use verdicts::{reason_text, valid_text, wide_happening_text};

#[cfg(test)]
mod tests;
