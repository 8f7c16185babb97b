//! Why a snap action may not come next in an ordering.

ghost use Rattle.std.specs.Prelude.{◌≡◌, ◌==◌, ◌<◌, ◌&&◌, not, nat_lt, length, if◌then◌else◌};
ghost use Rattle.task_types.specs.Order.{may_follow, plan_step_limit};
ghost use Rattle.task_types.specs.Plan.{snap_of};
ghost use Rattle.task_types.specs.Touch.{is_timed};
ghost use Rattle.task_types.specs.Trace.{at};
ghost use Rattle.ordering.specs.Orderings.{order_of, BuiltOver};
ghost use Rattle.ordering.specs.Refusals.{push_refusal, step_refusal};

use crate::faults::OrderFault;
use crate::orderings::StepOrdering;
use crate::running::runs;
use crate::snaps::snap_at;
use exact_lin::{Fraction, SnapId};
use task_types::{Snap, SnapKind, Task};

// The most plan steps of an ordering.
const PLAN_STEP_LIMIT: usize = 128;

impl StepOrdering {
    /// Why a snap action may not come next, if it may not.
    pub(crate) fn refusal(&self, task: &Task, snap: SnapId) -> Option<OrderFault>
        requires over { BuiltOver task.now.parts self.now }
        requires in_range { snap < length task.now.parts.snaps }
        ensures { result ≡ push_refusal task.now.parts (order_of self.now) snap }
    {
        let step = snap_at(task, snap);
        if self.is_full(step.kind) {
            return Some(OrderFault::Limit);
        }
        self.kind_refusal(task, snap, step)
    }

    fn is_full(&self, kind: SnapKind) -> bool
        ensures { result ≡ (not (is_timed kind) && not (nat_lt self.now.plan_steps plan_step_limit)) }
    {
        match kind {
            SnapKind::Timed => false,
            SnapKind::Start | SnapKind::End | SnapKind::Instant => {
                self.plan_steps >= PLAN_STEP_LIMIT
            }
        }
    }

    fn kind_refusal(&self, task: &Task, snap: SnapId, step: &Snap) -> Option<OrderFault>
        requires over { BuiltOver task.now.parts self.now }
        requires is { step.now ≡ snap_of task.now.parts snap }
        ensures { result ≡ step_refusal step.now.kind
            (may_follow task.now.parts self.now.steps snap step.now.kind) }
    {
        match step.kind {
            SnapKind::Start => {
                refused_if(runs(self.running.as_slice(), step), OrderFault::Running)
            }
            SnapKind::End => {
                refused_if(
                    !runs(self.running.as_slice(), step),
                    OrderFault::EndWithoutStart,
                )
            }
            SnapKind::Timed => {
                let is_next = is_moment(task.timed(), self.timed_steps, snap);
                refused_if(!is_next, OrderFault::TilOrder)
            }
            SnapKind::Instant => None,
        }
    }
}

fn refused_if(refused: bool, fault: OrderFault) -> Option<OrderFault>
    ensures { result ≡ (if refused then Some fault else None) }
{
    if refused { Some(fault) } else { None }
}

// Whether the timed step of this number is that snap action.
fn is_moment(timed: &[(Fraction, SnapId)], number: usize, snap: SnapId) -> bool
    ensures { result ≡ at timed.now number (λ t. t.1 == snap) }
{
    match timed.get(number) {
        Some(moment) => moment.1 == snap,
        None => false,
    }
}
