//! The whole pass over a plan, from its first happening to its last.

ghost use Rattle.std.specs.Prelude.{◌≡◌, ◌<◌, ◌∷◌, [], suc, map, length};
ghost use Rattle.std.specs.List.{flat_map};
ghost use Rattle.task_types.specs.declared.parts.Rules.{Rules as AllRules};
ghost use Rattle.task_types.specs.Plan.{Plan};
ghost use Rattle.task_types.specs.Course.{count, last_state};
ghost use Rattle.task_types.specs.State.{holds as holds_in};
ghost use Rattle.timed_meaning.specs.Answers.{Tells};
ghost use Rattle.timed_meaning.specs.TimedPlans.{IsBuiltFor};
ghost use Rattle.plan_validator.specs.Passing.{Passes, Watches, IsDone, goal_reckoned};
ghost use Rattle.plan_validator.specs.Watching.{IsWatching};

use crate::conditions::holds;
use crate::watching::Watch;
use exact_lin::FormFault;
use std::alloc::Global;
use task_types::{Rules, Task};
use timed_meaning::{MeaningFault, TimedPlan};

// Goes from the first happening to the last.
fn pass(watch: &mut Watch, task: &Task, rules: &Rules, last: usize) -> Result<(), MeaningFault>
    requires { (plan : Plan) × IsWatching task.now.parts rules.now plan watch.old 0
        × IsBuiltFor task.now.parts plan × (suc last ≡ count task.now.parts plan) }
    ensures { (plan : Plan) → IsWatching task.now.parts rules.now plan watch.old 0
        → suc last ≡ count task.now.parts plan
        → Passes result task.now.parts rules.now plan watch.new last }
{
    for k in 0..last {
        match watch.step(task, rules) {
            Ok(()) => {}
            Err(FormFault::Wide) => return Err(MeaningFault::Wide(k as u32)),
            Err(FormFault::Memory) => return Err(MeaningFault::Memory),
        }
    }
    match watch.visit(task, rules) {
        Ok(()) => Ok(()),
        Err(FormFault::Wide) => Err(MeaningFault::Wide(last as u32)),
        Err(FormFault::Memory) => Err(MeaningFault::Memory),
    }
}

/// A pass over a plan that has so many happenings.
pub fn watch_all(
    alloc: Global,
    task: &Task,
    rules: &Rules,
    plan: &TimedPlan,
    happenings: usize,
) -> Result<Watch, MeaningFault>
    requires built { IsBuiltFor task.now.parts plan.now }
    requires counted { happenings ≡ count task.now.parts plan.now }
    ensures { Watches result task.now.parts rules.now plan.now }
{
    let mut watch = match Watch::begin(alloc, task, plan) {
        Ok(watch) => watch,
        Err(_) => return Err(MeaningFault::Memory),
    };
    if happenings == 0 {
        return Ok(watch);
    }
    match pass(&mut watch, task, rules, happenings - 1) {
        Ok(()) => Ok(watch),
        Err(fault) => Err(fault),
    }
}

/// Whether the goal holds in the last state.
pub fn goal_holds(watch: &Watch, task: &Task) -> Result<bool, FormFault>
    requires { (rules : AllRules) × (plan : Plan) × IsDone task.now.parts rules plan watch.now }
    ensures { (rules : AllRules) (plan : Plan) → IsDone task.now.parts rules plan watch.now
        → Tells result (goal_reckoned task.now.parts plan)
        (λ b. b ≡ holds_in task.now.parts.goal (last_state task.now.parts plan)) }
{
    holds(task.goal(), watch.sweep.facts(), watch.sweep.fluents())
}
