//! Linear programs of orderings: rows over the times of the steps, each with its origin.
#![tactic(auto)]

mod base;
mod comparing;
mod durations;
mod faults;
pub mod laws;
mod links;
mod origins;
mod own;
mod placed;
mod rows;
mod steps;
mod watching;

pub use faults::RowsFault;
pub use origins::{Origin, Place};
pub use rows::OriginRow;
