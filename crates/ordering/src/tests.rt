//! A small task of one action that starts and ends, and its orderings.

ghost use Rattle.std.specs.Prelude.{◌≡◌, ◌∷◌, [], IfOk};
ghost use Rattle.task_types.specs.Examples.{always_true as always, nothing as no_effect};
ghost use Rattle.ordering.specs.ExampleTask.{going, start_or_end};
ghost use Rattle.ordering.specs.Orderings.{BuiltOver};

use crate::{OrderFault, StepOrdering, link_of};
use exact_lin::{ActionId, Form, Fraction, Id, NoMemory, Scalar, SnapId, StepId};
use sqlite_items::Items;
use std::alloc::Global;
use task_types::{
    Action, Condition, Effect, Link, Metric, Schema, Snap, SnapKind, Task, TaskParts,
};

fn one<T: Drop>(alloc: Global, item: T) -> Result<Items<T>, NoMemory>
    ensures { IfOk result (λ items. items ≡ item ∷ []) }
{
    let mut items = Items::new(alloc);
    items.push(item)?;
    Ok(items)
}

fn always_true(alloc: Global) -> Condition
    ensures { result ≡ always }
{
    Condition {
        literals: Items::new(alloc),
        comparisons: Items::new(alloc),
    }
}

fn nothing(alloc: Global) -> Effect
    ensures { result ≡ no_effect }
{
    Effect {
        adds: Items::new(alloc),
        deletes: Items::new(alloc),
        assigns: Items::new(alloc),
        increases: Items::new(alloc),
    }
}

fn snap(alloc: Global, kind: SnapKind) -> Snap
    ensures { result ≡ start_or_end kind }
{
    Snap {
        kind,
        action: Some(ActionId::of(0)),
        condition: always_true(alloc),
        effect: nothing(alloc),
        rates: Items::new(alloc),
    }
}

fn schemas(alloc: Global) -> Result<Items<Schema>, NoMemory>
    ensures { IfOk result (λ schemas. schemas ≡ going.schemas) }
{
    let name = Items::from_slice(alloc, b"go")?;
    one(
        alloc,
        Schema {
            name,
            durative: true,
            params: Items::new(alloc),
        },
    )
}

fn actions(alloc: Global) -> Result<Items<Action>, NoMemory>
    ensures { IfOk result (λ actions. actions ≡ going.actions) }
{
    let name = Items::from_slice(alloc, b"go")?;
    one(
        alloc,
        Action {
            name,
            args: Items::new(alloc),
            start: SnapId::of(0),
            end: Some(SnapId::of(1)),
            bounds: Items::new(alloc),
            over_all: always_true(alloc),
        },
    )
}

fn snaps(alloc: Global) -> Result<Items<Snap>, NoMemory>
    ensures { IfOk result (λ snaps. snaps ≡ going.snaps) }
{
    let mut snaps = one(alloc, snap(alloc, SnapKind::Start))?;
    snaps.push(snap(alloc, SnapKind::End))?;
    Ok(snaps)
}

fn metric(alloc: Global) -> Metric
    ensures { result ≡ going.metric }
{
    Metric {
        constant: Fraction::of_int(0),
        last: Fraction::of_int(0),
        fluents: Form::zero(alloc),
    }
}

fn parts(alloc: Global) -> Result<TaskParts, NoMemory>
    ensures { IfOk result (λ parts. parts ≡ going) }
{
    Ok(TaskParts {
        objects: Items::new(alloc),
        schemas: schemas(alloc)?,
        facts: Items::new(alloc),
        fluents: Items::new(alloc),
        actions: actions(alloc)?,
        snaps: snaps(alloc)?,
        timed: Items::new(alloc),
        goal: always_true(alloc),
        hard: Items::new(alloc),
        soft: Items::new(alloc),
        metric: metric(alloc),
    })
}

fn task(alloc: Global) -> Result<Task, NoMemory>
    ensures { IfOk result (λ task. task.parts ≡ going) }
{
    let parts = parts(alloc)?;
    Task::of_parts(alloc, parts)
}

// Going and having gone, with a pair named twice.
fn there(alloc: Global, task: &Task) -> Result<StepOrdering, OrderFault>
    requires { task.now.parts ≡ going }
    ensures { IfOk result (λ o. BuiltOver going o × (o.steps ≡ 0 ∷ 1 ∷ [])) }
{
    let mut order = StepOrdering::new(alloc);
    order.push(task, SnapId::of(0))?;
    order.push(task, SnapId::of(1))?;
    order.push_pair(1, 2)?;
    order.push_pair(1, 2)?;
    Ok(order)
}

#[test]
fn an_ordering_is_built(rt: HostRuntime) {
    let task = task(rt.alloc()).expect(&rt, "memory");
    let order = there(rt.alloc(), &task).expect(&rt, "an ordering");
    assert!(&rt; order.closed(&task).is_ok());
    assert!(&rt; order.extra().len() == 2);
    assert!(&rt;
        matches!(
            order.pairs(&task, StepId::of(0), StepId::of(1)),
            Link::Apart
        )
    );
    assert!(&rt; matches!(link_of(&task, SnapId::of(0), SnapId::of(1)), Link::Apart));
}
