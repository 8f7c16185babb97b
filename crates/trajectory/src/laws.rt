//! Laws of the definitions: each function does nothing, and its contract is the law.

ghost use Rattle.trajectory.specs.Laws.{VerdictsTellWhatIsMet, TasksAreCovered};

/// A trace whose times never fall, as that of each plan without a step before time 0, meets a constraint exactly
/// where the verdict on it is that it is met, or tells a first state that comes no later than the constraint's moment.
/// The verdict depends on the facts of the trace alone, and tells of the states of an ordering whether the constraint
/// blocks it.
pub fn verdicts_tell_what_is_met()
    ensures { VerdictsTellWhatIsMet }
{}

/// A slice with a place for each fact of a task covers each formula and each constraint of the task.
pub fn tasks_are_covered()
    ensures { TasksAreCovered }
{}
