//! What the definitions imply: each function does nothing, and its contract is the law.

ghost use Rattle.grounder.specs.Laws.{MadeTasksAreWellMade};

/// The task that is made of an accepted domain and problem fits together, as every task has to.
pub fn made_tasks_are_well_made()
    ensures { MadeTasksAreWellMade }
{}
