//! The course along the list of an ordering, and what it tells of the ordering's timed plan.
#![tactic(auto)]

pub mod laws;
