//! The ground task of a domain and a problem.

ghost use Rattle.std.specs.Prelude.{◌≡◌, ◌≤◌, ◌<◌, length, true, None, Ok, Err, IfOk};
ghost use Rattle.task_types.specs.WellMade.{IsWellMade};
ghost use Rattle.ground_world.specs.Counts.{bindings_fit};
ghost use Rattle.ground_world.specs.FirstState.{world};
ghost use Rattle.ground_world.specs.Leaves.{unknowns};
ghost use Rattle.ground_world.specs.Readings.{unknowns_of};
ghost use Rattle.ground_world.specs.Shown.{world_of};
ghost use Rattle.grounder.specs.Accepted.{IsAccepted};
ghost use Rattle.grounder.specs.Answer.{Answers, ground_answer};
ghost use Rattle.grounder.specs.FaultSteps.{value_fault};
ghost use Rattle.grounder.specs.Grounded.{answer_of};
ghost use Rattle.grounder.specs.Instances.{kept};
ghost use Rattle.grounder.specs.ShownGrounding.{ground_of};
ghost use Rattle.grounder.specs.ShownInstances.{all_of};
ghost use Rattle.grounder.specs.Task as task;
ghost use Rattle.grounder.specs.Task.{fact_atoms};

use crate::facts::facts;
use crate::faults::{GroundFault, LimitName};
use crate::first_faults::unit_fault;
use crate::grounding::Grounding;
use crate::instances::Instance;
use crate::judging::kept_instances;
use crate::limits::{count_fault, limit_fault};
use crate::metric_form::metric_form;
use crate::task_parts::task_parts;
use exact_lin::NoMemory;
use ground_world::{MetricNames, Numbering, Tables, bindings_fit, metric_names, world_tables};
use pddl_terms::{Domain, Problem};
use std::alloc::Global;
use task_types::{Task, TaskParts};

// The task where it is within its limits, else the fault of the first limit that it is past; there is no fault with a
// place.
fn limited<'a>(
    alloc: Global,
    grounding: &'a Grounding,
    domain: &'a Domain,
    problem: &'a Problem,
    instances: &[Instance],
) -> Result<Result<TaskParts, GroundFault>, NoMemory>
    requires ground { ground_of grounding.now ≡ task.grounding domain.now problem.now }
    requires fit { bindings_fit (world domain.now problem.now) domain.now problem.now ≡ true }
    requires accepted { IsAccepted domain.now problem.now }
    requires instances { all_of instances.now ≡ kept (world domain.now problem.now) domain.now.actions }
    requires values { value_fault (world domain.now problem.now) domain.now problem.now ≡ None }
    ensures { IfOk result (λ answer. answer ≡ ground_answer domain.now problem.now) }
{
    let facts = grounding.facts.len();
    let fluents = grounding.tables.fluents.len();
    match count_fault(facts, fluents, instances.len()) {
        Some(fault) => return Ok(Err(fault)),
        None => (),
    }
    let parts = task_parts(alloc, grounding, domain, problem, instances)?;
    match limit_fault(&parts) {
        Some(fault) => Ok(Err(fault)),
        None => Ok(Ok(parts)),
    }
}

// The task, or the first fault behind the limit of bindings.
fn grounded<'a>(
    alloc: Global,
    grounding: &'a Grounding,
    domain: &'a Domain,
    problem: &'a Problem,
) -> Result<Result<TaskParts, GroundFault>, NoMemory>
    requires ground { ground_of grounding.now ≡ task.grounding domain.now problem.now }
    requires fit { bindings_fit (world domain.now problem.now) domain.now problem.now ≡ true }
    requires accepted { IsAccepted domain.now problem.now }
    ensures { IfOk result (λ answer. answer ≡ ground_answer domain.now problem.now) }
{
    let tables = &grounding.tables;
    let found = kept_instances(alloc, tables, domain.actions.as_slice())?;
    match unit_fault(alloc, tables, &grounding.names, problem, found.wide)? {
        Some(fault) => return Ok(Err(fault)),
        None => (),
    }
    limited(
        alloc,
        grounding,
        domain,
        problem,
        found.instances.as_slice(),
    )
}

// The first fault where there are too many facts.
fn crowded_fault<'a>(
    alloc: Global,
    tables: &'a Tables,
    names: &MetricNames,
    domain: &'a Domain,
    problem: &'a Problem,
) -> Result<GroundFault, NoMemory>
    requires world { world_of tables.now ≡ world domain.now problem.now }
    requires fit { bindings_fit (world_of tables.now) domain.now problem.now ≡ true }
    requires names { unknowns_of names.now ≡ unknowns domain.now problem.now }
    requires many { 16384 < length (fact_atoms (world_of tables.now) domain.now problem.now) }
    ensures { IfOk result (λ fault. ground_answer domain.now problem.now ≡ Err fault) }
{
    let found = kept_instances(alloc, tables, domain.actions.as_slice())?;
    match unit_fault(alloc, tables, names, problem, found.wide)? {
        Some(fault) => Ok(fault),
        None => Ok(GroundFault::Limit(LimitName::Facts)),
    }
}

// What the parts of the task are numbered and weighed by.
fn weighed(
    alloc: Global,
    tables: Tables,
    names: MetricNames,
    facts: Numbering,
    problem: &Problem,
) -> Result<Grounding, NoMemory>
    requires { length facts ≤ 16384 }
    ensures { IfOk result (λ g. (domain : Domain) → world_of tables ≡ world domain problem.now
        → facts ≡ fact_atoms (world_of tables) domain problem.now → unknowns_of names ≡ unknowns domain problem.now
        → ground_of g ≡ task.grounding domain problem.now) }
{
    let cost = metric_form(alloc, &tables, &names, &problem.metric)?;
    Ok(Grounding {
        tables,
        facts,
        names,
        cost,
    })
}

// The task or the first fault, where these are the facts.
fn with_facts(
    alloc: Global,
    tables: Tables,
    names: MetricNames,
    facts: Numbering,
    domain: &Domain,
    problem: &Problem,
) -> Result<Result<TaskParts, GroundFault>, NoMemory>
    requires world { world_of tables ≡ world domain.now problem.now }
    requires fit { bindings_fit (world_of tables) domain.now problem.now ≡ true }
    requires names { unknowns_of names ≡ unknowns domain.now problem.now }
    requires facts { facts ≡ fact_atoms (world_of tables) domain.now problem.now }
    requires few { length facts ≤ 16384 }
    requires accepted { IsAccepted domain.now problem.now }
    ensures { IfOk result (λ answer. answer ≡ ground_answer domain.now problem.now) }
{
    let grounding = weighed(alloc, tables, names, facts, problem)?;
    grounded(alloc, &grounding, domain, problem)
}

// The task or the first fault behind the limit of bindings.
fn within_bindings(
    alloc: Global,
    tables: Tables,
    domain: &Domain,
    problem: &Problem,
) -> Result<Result<TaskParts, GroundFault>, NoMemory>
    requires world { world_of tables ≡ world domain.now problem.now }
    requires fit { bindings_fit (world_of tables) domain.now problem.now ≡ true }
    requires accepted { IsAccepted domain.now problem.now }
    ensures { IfOk result (λ answer. answer ≡ ground_answer domain.now problem.now) }
{
    let names = metric_names(alloc, domain, problem)?;
    match facts(alloc, &tables, domain, problem)? {
        Some(facts) => with_facts(alloc, tables, names, facts, domain, problem),
        None => {
            let fault = crowded_fault(alloc, &tables, &names, domain, problem)?;
            Ok(Err(fault))
        }
    }
}

// The parts of the task, or the first fault.
fn parts_or_fault(
    alloc: Global,
    domain: &Domain,
    problem: &Problem,
) -> Result<Result<TaskParts, GroundFault>, NoMemory>
    requires { IsAccepted domain.now problem.now }
    ensures { IfOk result (λ answer. answer ≡ ground_answer domain.now problem.now) }
{
    let tables = world_tables(alloc, domain, problem)?;
    let fit = bindings_fit(alloc, &tables, domain, problem)?;
    if !fit {
        return Ok(Err(GroundFault::Limit(LimitName::Bindings)));
    }
    within_bindings(alloc, tables, domain, problem)
}

// The task of its parts.
fn whole(alloc: Global, parts: TaskParts) -> Result<Task, GroundFault>
    requires { IsWellMade parts }
    ensures { (domain : Domain) (problem : Problem) → ground_answer domain problem ≡ Ok parts
        → Answers domain problem (answer_of result) }
{
    match Task::of_parts(alloc, parts) {
        Ok(task) => Ok(task),
        Err(_) => Err(GroundFault::Memory),
    }
}

/// The ground task of a domain and a problem that their readers accepted, or the first reason that there is none, or
/// that memory ran out. The reasons are looked for in this order: the limit of bindings; the least place in the actions
/// at which a reckoning passes 128 bits; the least such place in the goal, its preferences and the metric; the least
/// place there at which a fluent has no value or a divisor is 0; then the task's own limits, in the order of `LimitName`.
pub fn ground(alloc: Global, domain: &Domain, problem: &Problem) -> Result<Task, GroundFault>
    requires accepted { IsAccepted domain.now problem.now }
    ensures answers { Answers domain.now problem.now (answer_of result) }
{
    match parts_or_fault(alloc, domain, problem) {
        Ok(Ok(parts)) => whole(alloc, parts),
        Ok(Err(fault)) => Err(fault),
        Err(_) => Err(GroundFault::Memory),
    }
}
