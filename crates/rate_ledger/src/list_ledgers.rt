//! A ledger of a list of steps: what each step that was taken changed.

ghost use Rattle.std.specs.Prelude.{◌<◌, ◌^◌, length};

mod building;
mod values;

use crate::changes::Change;
use exact_lin::{ActionId, SnapId};
use sqlite_items::Items;

/// The value forms of the fluents of a task along a list of steps. Variable k is the time of step k of the whole list;
/// after the steps come the times of the ends that are still to come, in the order of the starts of their actions. Steps
/// are taken one by one, and what each changes is kept.
#[derive(Drop)]
pub struct ListLedger {
    pub steps: Items<SnapId>,
    pub pending: Items<ActionId>,
    pub running: Items<ActionId>,
    pub changes: Items<Items<Change>>,
    pub ghost few: { length steps < 2 ^ 31 },
}
