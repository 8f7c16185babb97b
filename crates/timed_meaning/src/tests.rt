//! A small task of one action that starts and ends, and a plan that does it once.

ghost use Rattle.std.specs.Prelude.{◌≡◌, ◌∷◌, [], ◌<◌, IfOk};
ghost use Rattle.task_types.specs.Examples.{always_true as always, nothing as no_effect};
ghost use Rattle.task_types.specs.Course.{count};
ghost use Rattle.timed_meaning.specs.ExampleTask.{going, going_once, start_or_end};
ghost use Rattle.timed_meaning.specs.TimedPlans.{IsBuiltFor};

use crate::{
    MeaningFault, State, Sweep, TimedPlan, happenings, state_after, state_at, state_before,
};
use exact_lin::{ActionId, Form, Fraction, Id, NoMemory, Scalar, SnapId};
use sqlite_items::Items;
use std::alloc::Global;
use task_types::{Action, Condition, Effect, Metric, Schema, Snap, SnapKind, Task, TaskParts};

fn one<T: Drop>(alloc: Global, item: T) -> Result<Items<T>, NoMemory>
    ensures { IfOk result (λ items. items ≡ item ∷ []) }
{
    let mut items = Items::new(alloc);
    items.push(item)?;
    Ok(items)
}

fn always_true(alloc: Global) -> Condition
    ensures { result ≡ always }
{
    Condition {
        literals: Items::new(alloc),
        comparisons: Items::new(alloc),
    }
}

fn nothing(alloc: Global) -> Effect
    ensures { result ≡ no_effect }
{
    Effect {
        adds: Items::new(alloc),
        deletes: Items::new(alloc),
        assigns: Items::new(alloc),
        increases: Items::new(alloc),
    }
}

fn snap(alloc: Global, kind: SnapKind) -> Snap
    ensures { result ≡ start_or_end kind }
{
    Snap {
        kind,
        action: Some(ActionId::of(0)),
        condition: always_true(alloc),
        effect: nothing(alloc),
        rates: Items::new(alloc),
    }
}

fn schemas(alloc: Global) -> Result<Items<Schema>, NoMemory>
    ensures { IfOk result (λ schemas. schemas ≡ going.schemas) }
{
    let name = Items::from_slice(alloc, b"go")?;
    one(
        alloc,
        Schema {
            name,
            durative: true,
            params: Items::new(alloc),
        },
    )
}

fn actions(alloc: Global) -> Result<Items<Action>, NoMemory>
    ensures { IfOk result (λ actions. actions ≡ going.actions) }
{
    let name = Items::from_slice(alloc, b"go")?;
    one(
        alloc,
        Action {
            name,
            args: Items::new(alloc),
            start: SnapId::of(0),
            end: Some(SnapId::of(1)),
            bounds: Items::new(alloc),
            over_all: always_true(alloc),
        },
    )
}

fn snaps(alloc: Global) -> Result<Items<Snap>, NoMemory>
    ensures { IfOk result (λ snaps. snaps ≡ going.snaps) }
{
    let mut snaps = one(alloc, snap(alloc, SnapKind::Start))?;
    snaps.push(snap(alloc, SnapKind::End))?;
    Ok(snaps)
}

fn metric(alloc: Global) -> Metric
    ensures { result ≡ going.metric }
{
    Metric {
        constant: Fraction::of_int(0),
        last: Fraction::of_int(0),
        fluents: Form::zero(alloc),
    }
}

fn parts(alloc: Global) -> Result<TaskParts, NoMemory>
    ensures { IfOk result (λ parts. parts ≡ going) }
{
    Ok(TaskParts {
        objects: Items::new(alloc),
        schemas: schemas(alloc)?,
        facts: Items::new(alloc),
        fluents: Items::new(alloc),
        actions: actions(alloc)?,
        snaps: snaps(alloc)?,
        timed: Items::new(alloc),
        goal: always_true(alloc),
        hard: Items::new(alloc),
        soft: Items::new(alloc),
        metric: metric(alloc),
    })
}

fn task(alloc: Global) -> Result<Task, NoMemory>
    ensures { IfOk result (λ task. task.parts ≡ going) }
{
    let parts = parts(alloc)?;
    Task::of_parts(alloc, parts)
}

fn gone(alloc: Global, task: &Task) -> Result<TimedPlan, MeaningFault>
    requires { task.now.parts ≡ going }
    ensures { IfOk result (λ plan. IsBuiltFor going plan × (plan ≡ going_once)) }
{
    let mut plan = TimedPlan::new(alloc);
    plan.push_line(
        task,
        ActionId::of(0),
        Fraction::of_int(1),
        Some(Fraction::of_int(2)),
        1,
    )?;
    Ok(plan)
}

fn has_times(alloc: Global, task: &Task, plan: &TimedPlan) -> bool
    requires { IsBuiltFor task.now.parts plan.now }
{
    match happenings(alloc, task, plan) {
        Ok(times) => {
            times.len() == 2
                && times.as_slice()[0] == Fraction::of_int(1)
                && times.as_slice()[1] == Fraction::of_int(3)
        }
        Err(_) => false,
    }
}

fn is_empty(state: Result<State, MeaningFault>) -> bool {
    match state {
        Ok(state) => state.facts.len() == 0 && state.fluents.len() == 0,
        Err(_) => false,
    }
}

fn has_states(alloc: Global, task: &Task, plan: &TimedPlan) -> bool
    requires built { IsBuiltFor task.now.parts plan.now }
    requires two { 1 < count task.now.parts plan.now }
{
    is_empty(state_before(alloc, task, plan, 1)) && is_empty(state_after(alloc, task, plan, 0))
}

// Whether there are states before the plan begins, while its line runs and after it has ended.
fn has_states_between(alloc: Global, task: &Task, plan: &TimedPlan) -> bool
    requires { IsBuiltFor task.now.parts plan.now }
{
    is_empty(state_at(alloc, task, plan, Fraction::of_int(0)))
        && is_empty(state_at(alloc, task, plan, Fraction::of_int(2)))
        && is_empty(state_at(alloc, task, plan, Fraction::of_int(4)))
}

// Whether a sweep reaches the second happening and no third.
fn is_swept(alloc: Global, task: &Task, plan: &TimedPlan) -> bool
    requires built { IsBuiltFor task.now.parts plan.now }
    requires two { 1 < count task.now.parts plan.now }
{
    let mut sweep = match Sweep::begin(alloc, task, plan) {
        Ok(sweep) => sweep,
        Err(_) => return false,
    };
    match sweep.apply(task) {
        Ok(()) => sweep.advance(task).is_ok() && sweep.place() == 1 && !sweep.has_next(),
        Err(_) => false,
    }
}

// Whether the plan has one line, from 1 to 3, and the states at both ends.
fn goes(alloc: Global, task: &Task) -> bool
    requires { task.now.parts ≡ going }
{
    match gone(alloc, task) {
        Ok(plan) => {
            plan.lines().len() == 1
                && has_times(alloc, task, &plan)
                && has_states(alloc, task, &plan)
                && has_states_between(alloc, task, &plan)
                && is_swept(alloc, task, &plan)
        }
        Err(_) => false,
    }
}

fn goes_as_told(alloc: Global) -> bool {
    match task(alloc) {
        Ok(task) => goes(alloc, &task),
        Err(_) => false,
    }
}

#[test]
fn a_plan_is_swept(rt: HostRuntime) {
    assert!(&rt; goes_as_told(rt.alloc()));
}
