//! The parts of the task.

ghost use Rattle.std.specs.Prelude.{◌≡◌, ◌≤◌, length, true, IfOk};
ghost use Rattle.ground_world.specs.Counts.{bindings_fit};
ghost use Rattle.ground_world.specs.FirstState.{world};
ghost use Rattle.ground_world.specs.Leaves.{constraints, costs};
ghost use Rattle.grounder.specs.Accepted.{IsAccepted};
ghost use Rattle.grounder.specs.Instances.{kept};
ghost use Rattle.grounder.specs.ShownGrounding.{ground_of};
ghost use Rattle.grounder.specs.ShownInstances.{all_of};
ghost use Rattle.grounder.specs.Task as task;
ghost use Rattle.grounder.specs.Task.{ground_task, hard_terms, soft_terms};

use crate::constraint_terms::hard_terms;
use crate::goal_conditions::goal;
use crate::grounding::Grounding;
use crate::instances::Instance;
use crate::numbered_steps::{NumberedSteps, numbered_steps};
use crate::objectives::task_metric;
use crate::plain_parts::{schemas, task_facts, task_fluents, task_objects};
use crate::terms::soft_terms;
use exact_lin::NoMemory;
use ground_world::{constraints, costs, goal_preferences};
use pddl_terms::{Domain, Problem};
use sqlite_items::Items;
use std::alloc::Global;
use task_types::{Fact, Fluent, Schema, Soft, TaskParts, Trail};

// The hard constraints and the soft terms of a task.
#[derive(Drop)]
struct TaskTerms {
    hard: Items<Trail>,
    soft: Items<Soft>,
}

// The hard constraints and the soft terms.
fn terms<'a>(
    alloc: Global,
    grounding: &'a Grounding,
    domain: &'a Domain,
    problem: &'a Problem,
) -> Result<TaskTerms, NoMemory>
    requires { bindings_fit (ground_of grounding.now).world domain.now problem.now ≡ true }
    ensures hard { IfOk result (λ t. t.hard ≡ hard_terms (ground_of grounding.now) (constraints domain.now problem.now)) }
    ensures soft { IfOk result (λ t. t.soft ≡ soft_terms (ground_of grounding.now) problem.now.goal
        (constraints domain.now problem.now) (costs problem.now)) }
{
    let preferences = goal_preferences(alloc, &problem.goal)?;
    let constraints = constraints(alloc, domain, problem)?;
    let costs = costs(alloc, problem)?;
    let hard = hard_terms(alloc, grounding, constraints.as_slice())?;
    let soft = soft_terms(
        alloc,
        grounding,
        preferences.as_slice(),
        constraints.as_slice(),
        costs.as_slice(),
    )?;
    Ok(TaskTerms { hard, soft })
}

// The objects, the schemas, the facts and the fluents of a task.
#[derive(Drop)]
struct PlainFields {
    objects: Items<Items<u8>>,
    schemas: Items<Schema>,
    facts: Items<Fact>,
    fluents: Items<Fluent>,
}

// The objects, the schemas, the facts and the fluents.
fn plain_fields(
    alloc: Global,
    grounding: &Grounding,
    domain: &Domain,
    problem: &Problem,
) -> Result<PlainFields, NoMemory>
    requires { ground_of grounding.now ≡ task.grounding domain.now problem.now }
    ensures objects { IfOk result (λ x. x.objects ≡ (ground_task domain.now problem.now).objects) }
    ensures schemas { IfOk result (λ x. x.schemas ≡ (ground_task domain.now problem.now).schemas) }
    ensures facts { IfOk result (λ x. x.facts ≡ (ground_task domain.now problem.now).facts) }
    ensures fluents { IfOk result (λ x. x.fluents ≡ (ground_task domain.now problem.now).fluents) }
{
    let objects = task_objects(alloc, domain, problem)?;
    let schemas = schemas(alloc, &grounding.tables, domain.actions.as_slice())?;
    let facts = task_facts(alloc, grounding, domain.predicates.as_slice())?;
    let fluents = task_fluents(alloc, grounding, domain.functions.as_slice())?;
    Ok(PlainFields {
        objects,
        schemas,
        facts,
        fluents,
    })
}

// The task with these actions and steps.
fn with_steps<'a>(
    alloc: Global,
    grounding: &'a Grounding,
    domain: &'a Domain,
    problem: &'a Problem,
    steps: NumberedSteps,
) -> Result<TaskParts, NoMemory>
    requires ground { ground_of grounding.now ≡ task.grounding domain.now problem.now }
    requires fit { bindings_fit (world domain.now problem.now) domain.now problem.now ≡ true }
    requires actions { steps.actions ≡ (ground_task domain.now problem.now).actions }
    requires snaps { steps.snaps ≡ (ground_task domain.now problem.now).snaps }
    requires timed { steps.timed ≡ (ground_task domain.now problem.now).timed }
    ensures { IfOk result (λ task. task ≡ ground_task domain.now problem.now) }
{
    let plain = plain_fields(alloc, grounding, domain, problem)?;
    let goal = goal(alloc, grounding, &problem.goal)?;
    let terms = terms(alloc, grounding, domain, problem)?;
    let metric = task_metric(alloc, grounding)?;
    Ok(TaskParts {
        objects: plain.objects,
        schemas: plain.schemas,
        facts: plain.facts,
        fluents: plain.fluents,
        actions: steps.actions,
        snaps: steps.snaps,
        timed: steps.timed,
        goal,
        hard: terms.hard,
        soft: terms.soft,
        metric,
    })
}

/// The parts of the task of an accepted domain and problem, whose actions these bindings make.
pub fn task_parts<'a>(
    alloc: Global,
    grounding: &'a Grounding,
    domain: &'a Domain,
    problem: &'a Problem,
    instances: &[Instance],
) -> Result<TaskParts, NoMemory>
    requires accepted { IsAccepted domain.now problem.now }
    requires ground { ground_of grounding.now ≡ task.grounding domain.now problem.now }
    requires fit { bindings_fit (world domain.now problem.now) domain.now problem.now ≡ true }
    requires instances { all_of instances.now ≡ kept (world domain.now problem.now) domain.now.actions }
    requires few { length instances.now ≤ 8192 }
    ensures { IfOk result (λ task. task ≡ ground_task domain.now problem.now) }
{
    let steps = numbered_steps(alloc, grounding, instances, problem.init.as_slice())?;
    with_steps(alloc, grounding, domain, problem, steps)
}
