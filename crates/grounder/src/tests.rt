//! Limits of tasks, at each limit and past it.

use crate::{GroundFault, LimitName, limit_fault};
use exact_lin::{Form, Fraction, Id, NoMemory, Scalar, SnapId};
use sqlite_items::Items;
use std::alloc::Global;
use task_types::{Condition, Fact, Metric, TaskParts};

fn no_condition(alloc: Global) -> Condition {
    Condition {
        literals: Items::new(alloc),
        comparisons: Items::new(alloc),
    }
}

fn empty_task(alloc: Global) -> TaskParts {
    TaskParts {
        objects: Items::new(alloc),
        schemas: Items::new(alloc),
        facts: Items::new(alloc),
        fluents: Items::new(alloc),
        actions: Items::new(alloc),
        snaps: Items::new(alloc),
        timed: Items::new(alloc),
        goal: no_condition(alloc),
        hard: Items::new(alloc),
        soft: Items::new(alloc),
        metric: Metric {
            constant: Fraction::of_int(0),
            last: Fraction::of_int(0),
            fluents: Form::zero(alloc),
        },
    }
}

// A task with so many facts and so many timed steps.
fn sized_task(alloc: Global, facts: u32, steps: u32) -> Result<TaskParts, NoMemory> {
    let mut task = empty_task(alloc);
    for _ in 0..facts {
        task.facts.push(Fact {
            name: Items::new(alloc),
            args: Items::new(alloc),
            holds: false,
        })?;
    }
    for step in 0..steps {
        task.timed.push((Fraction::of_int(1), SnapId::of(step)))?;
    }
    Ok(task)
}

#[test]
fn limits_are_kept_or_passed(rt: HostRuntime) -> Result<(), NoMemory> {
    let within = sized_task(rt.alloc(), 16_384, 64)?;
    assert!(rt; limit_fault(&within) == None);
    let steps = sized_task(rt.alloc(), 16_384, 65)?;
    assert!(rt; limit_fault(&steps) == Some(GroundFault::Limit(LimitName::Timed)));
    let both = sized_task(rt.alloc(), 16_385, 65)?;
    assert!(rt; limit_fault(&both) == Some(GroundFault::Limit(LimitName::Facts)));
    Ok(())
}
