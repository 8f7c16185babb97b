//! The snap actions of a task, by their ids.

ghost use Rattle.std.specs.Prelude.{◌≡◌, ◌<◌, length};
ghost use Rattle.task_types.specs.Plan.{snap_of};
ghost use Rattle.task_types.specs.Touch.{is_timed};

use exact_lin::{Id, SnapId};
use task_types::{Snap, SnapKind, Task};

pub fn snap_at(task: &Task, snap: SnapId) -> &Snap
    requires { snap < length task.now.parts.snaps }
    ensures { result.now ≡ snap_of task.now.parts snap }
{
    &task.snaps()[snap.number() as usize]
}

/// Whether a snap action is that of timed initial literals.
pub fn has_moment(task: &Task, snap: SnapId) -> bool
    requires { snap < length task.now.parts.snaps }
    ensures { result ≡ is_timed (snap_of task.now.parts snap).kind }
{
    match snap_at(task, snap).kind {
        SnapKind::Timed => true,
        SnapKind::Start | SnapKind::End | SnapKind::Instant => false,
    }
}
