//! When a value is asked for.

use exact_lin::StepId;

/// Before a step, after a step, or after all steps of a list.
#[derive(Clone, Copy, Drop)]
pub enum When {
    Before(StepId),
    After(StepId),
    AtEnd,
}
