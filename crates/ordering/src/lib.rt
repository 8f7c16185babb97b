//! Orderings of steps, built step by step, and the links between steps that touch a common token.
#![tactic(auto)]

mod closing;
mod faults;
pub mod laws;
mod links;
mod orderings;
mod running;
mod snaps;
#[cfg(test)]
mod tests;

pub use faults::OrderFault;
pub use links::link_of;
pub use orderings::StepOrdering;
