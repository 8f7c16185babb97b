//! Plan files and ordering files: their lines, the words of a line, and the plan or the ordering that they stand for in
//! a task.
#![tactic(auto)]

mod faults;
pub mod laws;
mod lines;
mod names;
mod order_lines;
mod order_words;
mod orders;
mod places;
mod plan_lines;
mod plans;
mod scan;
#[cfg(test)]
mod tests;
mod words;

pub use faults::{LineFault, LineKind};
pub use lines::{Written, next_written};
pub use orders::read_order;
pub use plans::read_plan;
pub use scan::{are_blanks, behind_mark, next_run};
pub use words::{PlanText, read_words};
