//! What a program meets outside: files that it fetches by name, and an output that it writes.
//!
//! A program takes a [`Desk`] and a [`Sink`]. [`MemoryDesk`] and [`MemorySink`] hold all in memory
//! and fail where they are told to, for tests and for statements that need every byte.
//! [`HostDesk`] and [`HostSink`] stand over the files and the standard output of the machine.
#![tactic(auto)]

mod desk;
mod host;
mod memory_desk;
mod memory_sink;
mod sink;
mod words;

pub use desk::{Desk, Fetch, LONGEST_FILE};
pub use host::{HostDesk, HostSink};
pub use memory_desk::MemoryDesk;
pub use memory_sink::MemorySink;
pub use sink::{Failed, Sink};
pub use words::machine_words;

#[cfg(test)]
mod tests;
