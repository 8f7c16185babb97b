//! The texts of numbers: how they are written, and what each text stands for.
#![tactic(auto)]

mod compare;
mod digits;
pub mod laws;
mod lowest_terms;
mod print;
mod read;

pub use print::print_number;
pub use read::read_number;

#[cfg(test)]
mod tests;
