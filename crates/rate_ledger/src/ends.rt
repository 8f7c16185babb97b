//! The variables of the times of steps, and of ends that are still to come.

ghost use Rattle.std.specs.Prelude.{◌≡◌, ◌+◌, ◌<◌, ◌≤◌, ◌^◌, suc, length, drop, take, map, OnSome, IfSome, option_to_list};
ghost use Rattle.std.specs.List.{AllByRecursion};
ghost use Rattle.task_types.specs.Blocking.{start_number};
ghost use Rattle.task_types.specs.Plan.{action_of};
ghost use Rattle.task_types.specs.Sets.{is_in};
ghost use Rattle.task_types.specs.Order.{running};
ghost use Rattle.rate_ledger.specs.Entries.{first_end, place_of, end_variable, own_start};

use crate::snaps::{end_of, snap_of, start_of};
use exact_lin::{ActionId, Id, SnapId, StepId, VarId};
use task_types::{SnapKind, Task};

fn ends(task: &Task, action: ActionId, step: SnapId) -> bool
    ensures { result ≡ is_in step (option_to_list (action_of task.now.parts action).end) }
{
    match end_of(task, action) {
        Some(end) => end == step,
        None => false,
    }
}

// The first step, from number `from` on, that ends an action.
fn first_end(task: &Task, action: ActionId, from: usize, steps: &[SnapId]) -> Option<usize>
    requires { from ≤ length steps.now }
    ensures value { result ≡ first_end task.now.parts action from (drop from steps.now) }
    ensures within { IfSome result (λ n. n < length steps.now) }
{
    let mut at = from;
    while at < steps.len() {
        if ends(task, action, steps[at]) {
            return Some(at);
        }
        at += 1;
    }
    None
}

// The place of an action in a list, which is the list's length where it isn't there.
fn place_of(action: ActionId, actions: &[ActionId]) -> usize
    ensures value { result ≡ place_of action actions.now }
    ensures within { result ≤ length actions.now }
{
    for (place, other) in actions.iter().enumerate() {
        if *other == action {
            return place;
        }
    }
    actions.len()
}

/// The variable of the end of an action that a step starts: its end step, or the place of its end among those that are
/// still to come.
pub fn end_variable(
    task: &Task,
    steps: &[SnapId],
    pending: &[ActionId],
    start: usize,
    action: ActionId,
) -> VarId
    requires start { start < length steps.now }
    requires pending { pending.now ≡ running task.now.parts steps.now }
    requires few { length steps.now + length pending.now < 2 ^ 32 }
    ensures { result ≡ end_variable task.now.parts steps.now start action }
{
    match first_end(task, action, start + 1, steps) {
        Some(step) => VarId::of(step as u32),
        None => VarId::of((steps.len() + place_of(action, pending)) as u32),
    }
}

// The last of some steps that starts an action, or 0 where there is none.
fn last_start(task: &Task, action: ActionId, steps: &[SnapId]) -> usize
    ensures value { result ≡ start_number task.now.parts action 0 steps.now 0 }
    ensures within { result ≤ length steps.now }
{
    let start = start_of(task, action);
    let mut found = 0;
    for (place, step) in steps.iter().enumerate() {
        if start == *step {
            found = place;
        }
    }
    found
}

/// The step that started the action of a start or an end, with that action.
pub fn own_start(task: &Task, steps: &[SnapId], step: usize) -> Option<(StepId, ActionId)>
    requires step { step < length steps.now }
    requires in_range { AllByRecursion (λ s. s < length task.now.parts.snaps) steps.now }
    requires few { length steps.now < 2 ^ 32 }
    ensures value { option_to_list result ≡ own_start task.now.parts steps.now step }
    ensures early { IfSome result (λ own. own.0 ≤ step) }
{
    let snap = snap_of(task, steps[step]);
    let action = snap.action?;
    let start = match snap.kind {
        SnapKind::Start => step,
        SnapKind::End => last_start(task, action, &steps[..step]),
        SnapKind::Instant => return None,
        SnapKind::Timed => return None,
    };
    Some((StepId::of(start as u32), action))
}

/// The variables of the start and of the end of the action that a step starts or ends.
pub fn span(
    task: &Task,
    steps: &[SnapId],
    pending: &[ActionId],
    step: usize,
) -> Option<(VarId, VarId)>
    requires step { step < length steps.now }
    requires in_range { AllByRecursion (λ s. s < length task.now.parts.snaps) steps.now }
    requires pending { pending.now ≡ running task.now.parts steps.now }
    requires few { length steps.now + length pending.now < 2 ^ 32 }
    ensures { option_to_list result ≡ map (λ own. (own.0, end_variable task.now.parts steps.now own.0 own.1)) (own_start task.now.parts steps.now step) }
{
    let own = own_start(task, steps, step)?;
    let end = end_variable(task, steps, pending, own.0.number() as usize, own.1);
    Some((VarId::of(own.0.number()), end))
}
