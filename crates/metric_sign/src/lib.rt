//! The sign of a metric: whether its total time, its violated preferences and its time costs are to be kept low.
//!
//! A metric that rewards a plan for ending late, or for violating a preference, has no least value that a search could
//! bound. It is refused at the first term whose coefficient in the minimised form is below 0.
#![tactic(auto)]

mod signs;

pub use signs::metric_sign_offence;

#[cfg(test)]
mod tests;
