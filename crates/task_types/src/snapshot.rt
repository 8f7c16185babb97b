//! What a search knows of a state on its way.

use exact_lin::{ActionId, Fraction};
use sqlite_items::Items;

/// What a search knows after some steps: which facts hold, the value of each fluent that doesn't depend on times (None where it does), the actions that run, in the order of their starts, and how many timed steps are done.
#[derive(Drop)]
pub struct Snapshot {
    pub facts: Items<bool>,
    pub fluents: Items<Option<Fraction>>,
    pub running: Items<ActionId>,
    pub timed_done: u32,
}
