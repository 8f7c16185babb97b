//! A small task whose plans cost what was worked out by hand.

ghost use Rattle.std.specs.Prelude.{◌≡◌, ◌∷◌, [], IfOk};
ghost use Rattle.task_types.specs.declared.formulas.FactTree.TheVariants.{Or};
ghost use Rattle.task_types.specs.Examples.{always_true as always, nothing as no_effect};
ghost use Rattle.timed_meaning.specs.TimedPlans.{IsBuiltFor};
ghost use Rattle.metric_cost.specs.ExampleTask.{by_time, going, met_at_once, never, start_or_end, terms, unmet, unmet_at_end};

use crate::cost;
use exact_lin::{ActionId, Form, Fraction, Id, NoMemory, Scalar, SnapId};
use sqlite_items::Items;
use std::alloc::Global;
use task_types::{
    Action, Condition, Effect, FactTree, LateCost, Metric, Schema, Snap, SnapKind, Soft, Task,
    TaskParts, Trail, TrailKind,
};
use timed_meaning::{MeaningFault, TimedPlan};

fn one<T: Drop>(alloc: Global, item: T) -> Result<Items<T>, NoMemory>
    ensures { IfOk result (λ items. items ≡ item ∷ []) }
{
    let mut items = Items::new(alloc);
    items.push(item)?;
    Ok(items)
}

fn always_true(alloc: Global) -> Condition
    ensures { result ≡ always }
{
    Condition {
        literals: Items::new(alloc),
        comparisons: Items::new(alloc),
    }
}

fn nothing(alloc: Global) -> Effect
    ensures { result ≡ no_effect }
{
    Effect {
        adds: Items::new(alloc),
        deletes: Items::new(alloc),
        assigns: Items::new(alloc),
        increases: Items::new(alloc),
    }
}

fn snap(alloc: Global, kind: SnapKind) -> Snap
    ensures { result ≡ start_or_end kind }
{
    Snap {
        kind,
        action: Some(ActionId::of(0)),
        condition: always_true(alloc),
        effect: nothing(alloc),
        rates: Items::new(alloc),
    }
}

fn schemas(alloc: Global) -> Result<Items<Schema>, NoMemory>
    ensures { IfOk result (λ schemas. schemas ≡ going.schemas) }
{
    let name = Items::from_slice(alloc, b"go")?;
    one(
        alloc,
        Schema {
            name,
            durative: true,
            params: Items::new(alloc),
        },
    )
}

fn actions(alloc: Global) -> Result<Items<Action>, NoMemory>
    ensures { IfOk result (λ actions. actions ≡ going.actions) }
{
    let name = Items::from_slice(alloc, b"go")?;
    one(
        alloc,
        Action {
            name,
            args: Items::new(alloc),
            start: SnapId::of(0),
            end: Some(SnapId::of(1)),
            bounds: Items::new(alloc),
            over_all: always_true(alloc),
        },
    )
}

fn snaps(alloc: Global) -> Result<Items<Snap>, NoMemory>
    ensures { IfOk result (λ snaps. snaps ≡ going.snaps) }
{
    let mut snaps = one(alloc, snap(alloc, SnapKind::Start))?;
    snaps.push(snap(alloc, SnapKind::End))?;
    Ok(snaps)
}

// ---- soft terms

fn no_state(alloc: Global) -> FactTree
    ensures { result ≡ Or [] }
{
    FactTree::Or(Items::new(alloc))
}

fn goal_term(alloc: Global) -> Soft
    ensures { result ≡ unmet }
{
    Soft::Goal(no_state(alloc), Items::new(alloc), Fraction::of_int(2))
}

fn end_term(alloc: Global) -> Soft
    ensures { result ≡ unmet_at_end }
{
    let trail = Trail {
        kind: TrailKind::AtEnd,
        first: no_state(alloc),
        second: FactTree::True,
        moment: Fraction::of_int(0),
    };
    Soft::Trail(trail, Fraction::of_int(3))
}

fn within_term() -> Soft
    ensures { result ≡ met_at_once }
{
    let trail = Trail {
        kind: TrailKind::Within,
        first: FactTree::True,
        second: FactTree::True,
        moment: Fraction::of_int(0),
    };
    Soft::Trail(trail, Fraction::of_int(5))
}

fn late_term(alloc: Global) -> Soft
    ensures { result ≡ never }
{
    let cost = LateCost {
        soft: Fraction::of_int(2),
        hard: Fraction::of_int(6),
        top: Fraction::of_int(8),
    };
    Soft::Late(no_state(alloc), cost, Fraction::of_int(1))
}

fn soft_terms(alloc: Global) -> Result<Items<Soft>, NoMemory>
    ensures { IfOk result (λ softs. softs ≡ terms) }
{
    let mut softs = one(alloc, goal_term(alloc))?;
    softs.push(goal_term(alloc))?;
    softs.push(end_term(alloc))?;
    softs.push(within_term())?;
    softs.push(late_term(alloc))?;
    Ok(softs)
}

fn metric(alloc: Global) -> Metric
    ensures { result ≡ by_time }
{
    Metric {
        constant: Fraction::of_int(0),
        last: Fraction::of_int(1),
        fluents: Form::zero(alloc),
    }
}

// ---- the task, and its plans

fn parts(alloc: Global) -> Result<TaskParts, NoMemory>
    ensures { IfOk result (λ parts. parts ≡ going) }
{
    Ok(TaskParts {
        objects: Items::new(alloc),
        schemas: schemas(alloc)?,
        facts: Items::new(alloc),
        fluents: Items::new(alloc),
        actions: actions(alloc)?,
        snaps: snaps(alloc)?,
        timed: Items::new(alloc),
        goal: always_true(alloc),
        hard: Items::new(alloc),
        soft: soft_terms(alloc)?,
        metric: metric(alloc),
    })
}

fn task(alloc: Global) -> Result<Task, NoMemory>
    ensures { IfOk result (λ task. task.parts ≡ going) }
{
    let parts = parts(alloc)?;
    Task::of_parts(alloc, parts)
}

// A plan that goes so many times, from 1 to 3.
fn gone(alloc: Global, task: &Task, times: u32) -> Result<TimedPlan, MeaningFault>
    requires { task.now.parts ≡ going }
    ensures { IfOk result (IsBuiltFor task.now.parts) }
{
    let mut plan = TimedPlan::new(alloc);
    if times == 1 {
        plan.push_line(
            task,
            ActionId::of(0),
            Fraction::of_int(1),
            Some(Fraction::of_int(2)),
            1,
        )?;
    }
    Ok(plan)
}

fn costs(alloc: Global, task: &Task, times: u32, expected: i32) -> bool
    requires { task.now.parts ≡ going }
{
    match gone(alloc, task, times) {
        Ok(plan) => match cost(alloc, task, &plan) {
            Ok(value) => value == Fraction::of_int(expected),
            Err(_) => false,
        },
        Err(_) => false,
    }
}

// Twice 2 and 3 for what is violated, 8 for what never holds, and the total time.
fn costs_as_worked(alloc: Global) -> bool {
    match task(alloc) {
        Ok(task) => costs(alloc, &task, 0, 15) && costs(alloc, &task, 1, 18),
        Err(_) => false,
    }
}

#[test]
fn plans_cost_what_was_worked_out(rt: HostRuntime) {
    assert!(&rt; costs_as_worked(rt.alloc()));
}
