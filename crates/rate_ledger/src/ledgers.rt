//! A ledger of a list of steps that grows.

ghost use Rattle.std.specs.Prelude.{◌≡◌, length};

mod growing;

use crate::list_ledgers::ListLedger;
use exact_lin::Fraction;
use sqlite_items::Items;
use std::alloc::Global;

/// The value forms of the fluents of a task along a list of steps that grows. Variable k is the time of step k of the
/// list so far; after the steps come the times of the ends that are still to come, in the order of the starts of their
/// actions. So each step that is pushed gives those ends other numbers, and all forms are made anew.
#[derive(Drop)]
pub struct Ledger {
    pub alloc: Global,
    pub first: Items<Fraction>,
    pub taken: ListLedger,
    pub ghost whole: { length taken.changes ≡ length taken.steps },
}
