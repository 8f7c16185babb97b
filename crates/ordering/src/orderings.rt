//! Orderings of steps.

ghost use Rattle.std.specs.Prelude.{◌≡◌, ◌+◌, ◌≤◌, true, length};
ghost use Rattle.task_types.specs.Order.{plan_step_limit};
ghost use Rattle.task_types.specs.Sets.{are_distinct};
ghost use Rattle.task_types.specs.WellMade.{timed_limit};

mod building;
mod refusals;

use exact_lin::{ActionId, SnapId, StepId};
use sqlite_items::Items;

/// A list of steps, each a snap action of one task, with extra pairs of its steps that are set apart. It knows which
/// actions run after its last step, so that a step is taken or refused at once.
#[derive(Drop)]
pub struct StepOrdering {
    steps: Items<SnapId>,
    extra: Items<(StepId, StepId)>,
    running: Items<ActionId>,
    plan_steps: usize,
    timed_steps: usize,
    pub ghost counted: { length steps ≡ plan_steps + timed_steps },
    pub ghost few_plan_steps: { plan_steps ≤ plan_step_limit },
    pub ghost few_timed_steps: { timed_steps ≤ timed_limit },
    pub ghost once: { are_distinct running ≡ true },
}
