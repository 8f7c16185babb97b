//! Value forms: what each fluent has before and after each step of a list, as a linear form over the times of the steps.
#![tactic(auto)]

mod amounts;
mod changes;
mod ends;
mod forms;
pub mod laws;
mod ledgers;
mod list_ledgers;
mod nexts;
mod rates;
mod readings;
mod running;
mod snaps;
#[cfg(test)]
mod tests;
mod whens;

pub use amounts::is_changed;
pub use forms::with_term;
pub use ledgers::Ledger;
pub use list_ledgers::ListLedger;
pub use whens::When;
