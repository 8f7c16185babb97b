//! The snap actions and actions of a task, by their ids.

ghost use Rattle.std.specs.Prelude.{◌≡◌, ◌<◌, length, slice_index_or, map};
ghost use Rattle.rational.specs.Rational.{zeroℚ};
ghost use Rattle.task_types.specs.Plan.{action_of, snap_of};
ghost use Rattle.task_types.specs.Course.{initial};

use exact_lin::{ActionId, FluentId, Fraction, Id, Scalar, SnapId};
use task_types::{Snap, Task};

pub fn snap_of(task: &Task, snap: SnapId) -> &Snap
    requires { snap < length task.now.parts.snaps }
    ensures { result.now ≡ snap_of task.now.parts snap }
{
    &task.snaps()[snap.number() as usize]
}

/// The snap action that starts an action.
pub fn start_of(task: &Task, action: ActionId) -> SnapId
    ensures { result ≡ (action_of task.now.parts action).start }
{
    match task.actions().get(action.number() as usize) {
        Some(action) => action.start,
        None => SnapId::of(0),
    }
}

/// The snap action that ends an action.
pub fn end_of(task: &Task, action: ActionId) -> Option<SnapId>
    ensures { result ≡ (action_of task.now.parts action).end }
{
    match task.actions().get(action.number() as usize) {
        Some(action) => action.end,
        None => None,
    }
}

/// The rates of an action, which its start has.
pub fn rates_of(task: &Task, action: ActionId) -> &[(FluentId, Fraction)]
    ensures { result.now ≡ (snap_of task.now.parts (action_of task.now.parts action).start).rates }
{
    match task.snaps().get(start_of(task, action).number() as usize) {
        Some(snap) => snap.rates.as_slice(),
        None => &[],
    }
}

/// What a fluent has at first.
pub fn initial_value(task: &Task, fluent: FluentId) -> Fraction
    ensures { result ≡ (initial task.now.parts).fluents fluent }
{
    match task.fluents().get(fluent.number() as usize) {
        Some(fluent) => fluent.value,
        None => Fraction::of_int(0),
    }
}
