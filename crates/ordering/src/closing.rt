//! Whether every start of an ordering has its end.

ghost use Rattle.std.specs.Prelude.{◌≡◌, drop, option_to_list};
ghost use Rattle.std.specs.List.{list_any};
ghost use Rattle.task_types.specs.Plan.{snap_of};
ghost use Rattle.task_types.specs.Sets.{is_in};
ghost use Rattle.ordering.specs.Refusals.{first_open, is_open, ended, started as started_by};

use exact_lin::{ActionId, Id, SnapId};
use task_types::{Snap, SnapKind, Task};

/// The first step that starts an action which no later step ends.
pub fn open_start(task: &Task, steps: &[SnapId]) -> Option<usize>
    ensures { result ≡ first_open task.now.parts 0 steps.now }
{
    for (place, snap) in steps.iter().enumerate() {
        if starts_open(task, *snap, steps, place + 1) {
            return Some(place);
        }
    }
    None
}

// Whether a step starts an action which no step from `from` on ends.
fn starts_open(task: &Task, snap: SnapId, steps: &[SnapId], from: usize) -> bool
    ensures { result ≡ is_open task.now.parts snap (drop from steps.now) }
{
    match started(task, snap) {
        Some(action) => !is_ended(task, action, steps, from),
        None => false,
    }
}

// Whether some step from `from` on ends an action.
fn is_ended(task: &Task, action: ActionId, steps: &[SnapId], from: usize) -> bool
    ensures { result ≡ list_any (λ e. is_in action (ended (snap_of task.now.parts e)))
        (drop from steps.now) }
{
    let mut at = from;
    while at < steps.len() {
        if ends(task, steps[at], action) {
            return true;
        }
        at += 1;
    }
    false
}

fn started(task: &Task, snap: SnapId) -> Option<ActionId>
    ensures { option_to_list result ≡ started_by (snap_of task.now.parts snap) }
{
    let step = task.snaps().get(snap.number() as usize)?;
    match step.kind {
        SnapKind::Start => step.action,
        SnapKind::End | SnapKind::Instant | SnapKind::Timed => None,
    }
}

fn ends(task: &Task, snap: SnapId, action: ActionId) -> bool
    ensures { result ≡ is_in action (ended (snap_of task.now.parts snap)) }
{
    match task.snaps().get(snap.number() as usize) {
        Some(step) => is_end_of(step, action),
        None => false,
    }
}

fn is_end_of(step: &Snap, action: ActionId) -> bool
    ensures { result ≡ is_in action (ended step.now) }
{
    match (step.kind, step.action) {
        (SnapKind::End, Some(own)) => own == action,
        _ => false,
    }
}
