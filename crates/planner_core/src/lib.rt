//! The planner's one call: from the words of the command line to the bytes of the reply.
#![tactic(auto)]

mod fetching;
pub mod laws;
mod reply;
mod session;
mod status;
mod validation;
mod words;

pub use session::run;
pub use status::Status;

#[cfg(test)]
mod tests;
