//! The reply to a validation: the texts are read one after another, and the first fault, or the verdict, is told.

ghost use Rattle.std.specs.Prelude.{◌≡◌, ◌≤◌, length, Some, IfOk};
ghost use Rattle.outside.specs.declared.desk.TheConstants.{LONGEST_FILE};
ghost use Rattle.grounder.specs.Accepted.{IsAccepted};
ghost use Rattle.timed_meaning.specs.TimedPlans.{IsBuiltFor};
ghost use Rattle.planner_core.specs.Answers.{rules_of, Validates};
ghost use Rattle.planner_core.specs.Replies.{role_word};
ghost use Rattle.planner_core.specs.Validations.{pddl_said, ground_said, line_status, wide_said, verdict_said};
ghost use Rattle.planner_core.specs.Steps.{Tells, IsReadDomain, OfDomain, OfFiles, OfTask, OfPlan, fault_said};

use crate::reply::{Reply, Role};
use crate::status::Status;
use command_words::Limits;
use exact_lin::NoMemory;
use grounder::{GroundFault, ground};
use pddl_domain::read_domain;
use pddl_problem::read_problem;
use pddl_terms::{Domain, PddlFault, Problem};
use plan_files::{LineFault, LineKind, read_plan};
use plan_validator::{Verdict, validate};
use reply_text::{
    ground_fault_text, line_fault_text, pddl_fault_text, reason_text, valid_text,
    wide_happening_text,
};
use std::alloc::Global;
use task_types::{Rules, Task};
use timed_meaning::{MeaningFault, TimedPlan};

/// The rules that the limits set.
pub fn rules_of(limits: Limits) -> Rules
    ensures { result ≡ rules_of limits }
{
    Rules {
        epsilon: limits.epsilon,
        horizon: limits.horizon,
    }
}

// ---- what each step says

fn file_refused(alloc: Global, role: Role, fault: PddlFault) -> Result<Reply, NoMemory>
    ensures { IfOk result (λ reply. pddl_said (role_word role) fault ≡ Some reply) }
{
    let text = pddl_fault_text(alloc, role.word(), fault)?;
    Ok(Reply::new(Status::Refused, text))
}

fn ground_refused(alloc: Global, fault: GroundFault) -> Result<Reply, NoMemory>
    ensures { IfOk result (λ reply. ground_said fault ≡ Some reply) }
{
    let text = ground_fault_text(alloc, fault)?;
    Ok(Reply::new(Status::Refused, text))
}

fn line_status(kind: LineKind) -> Status
    ensures { result ≡ line_status kind }
{
    match kind {
        LineKind::Wide => Status::Budget,
        LineKind::Shape
        | LineKind::Number
        | LineKind::Name
        | LineKind::Unground
        | LineKind::Order(_)
        | LineKind::Limit => Status::Refused,
    }
}

fn line_refused(alloc: Global, fault: LineFault) -> Result<Reply, NoMemory>
    ensures { IfOk result (λ reply. fault_said fault ≡ Some reply) }
{
    let LineFault::At(_, kind) = fault else {
        return Err(NoMemory);
    };
    let text = line_fault_text(alloc, Role::Plan.word(), fault)?;
    Ok(Reply::new(line_status(kind), text))
}

fn happening_wide(alloc: Global, happening: u32) -> Result<Reply, NoMemory>
    ensures { IfOk result (λ reply. reply ≡ wide_said happening) }
{
    let text = wide_happening_text(alloc, happening)?;
    Ok(Reply::new(Status::Budget, text))
}

fn decided(alloc: Global, verdict: &Verdict) -> Result<Reply, NoMemory>
    ensures { IfOk result (λ reply. reply ≡ verdict_said verdict.now) }
{
    match verdict {
        Verdict::Valid(cost) => Ok(Reply::new(Status::Done, valid_text(alloc, *cost)?)),
        Verdict::Invalid(reason) => {
            Ok(Reply::new(Status::Negative, reason_text(alloc, reason)?))
        }
    }
}

// ---- the steps, each of which hands on what it makes

fn plan_reply(
    alloc: Global,
    rules: &Rules,
    task: &Task,
    plan: &TimedPlan,
) -> Result<Reply, NoMemory>
    requires { IsBuiltFor task.now.parts plan.now }
    ensures { IfOk result (Tells (OfPlan rules.now task.now.parts plan.now)) }
{
    match validate(alloc, task, rules, plan) {
        Ok(verdict) => decided(alloc, &verdict),
        Err(MeaningFault::Wide(happening)) => happening_wide(alloc, happening),
        Err(MeaningFault::Memory) => Err(NoMemory),
    }
}

fn task_reply(alloc: Global, rules: &Rules, task: &Task, plan: &[u8]) -> Result<Reply, NoMemory>
    requires { length plan.now ≤ LONGEST_FILE }
    ensures { IfOk result (Tells (OfTask rules.now plan.now task.now.parts)) }
{
    match read_plan(alloc, task, plan) {
        Ok(plan) => plan_reply(alloc, rules, task, &plan),
        Err(fault) => line_refused(alloc, fault),
    }
}

fn files_reply(
    alloc: Global,
    rules: &Rules,
    domain: &Domain,
    problem: &Problem,
    plan: &[u8],
) -> Result<Reply, NoMemory>
    requires accepted { IsAccepted domain.now problem.now }
    requires plan { length plan.now ≤ LONGEST_FILE }
    ensures { IfOk result (Tells (OfFiles rules.now plan.now domain.now problem.now)) }
{
    match ground(alloc, domain, problem) {
        Ok(task) => task_reply(alloc, rules, &task, plan),
        Err(fault) => ground_refused(alloc, fault),
    }
}

fn domain_reply(
    alloc: Global,
    rules: &Rules,
    domain: &Domain,
    problem: &[u8],
    plan: &[u8],
) -> Result<Reply, NoMemory>
    requires read { IsReadDomain domain.now }
    requires problem { length problem.now ≤ LONGEST_FILE }
    requires plan { length plan.now ≤ LONGEST_FILE }
    ensures { IfOk result (Tells (OfDomain rules.now problem.now plan.now domain.now)) }
{
    match read_problem(alloc, problem, domain) {
        Ok(problem) => files_reply(alloc, rules, domain, &problem, plan),
        Err(fault) => file_refused(alloc, Role::Problem, fault),
    }
}

/// The reply to a validation of these texts under these rules: the fault of the first step of the work that has one, or
/// what the validator says of the plan.
pub fn validation_reply(
    alloc: Global,
    rules: &Rules,
    domain: &[u8],
    problem: &[u8],
    plan: &[u8],
) -> Result<Reply, NoMemory>
    requires domain { length domain.now ≤ LONGEST_FILE }
    requires problem { length problem.now ≤ LONGEST_FILE }
    requires plan { length plan.now ≤ LONGEST_FILE }
    ensures { IfOk result (Validates rules.now domain.now problem.now plan.now) }
{
    match read_domain(alloc, domain) {
        Ok(domain) => domain_reply(alloc, rules, &domain, problem, plan),
        Err(fault) => file_refused(alloc, Role::Domain, fault),
    }
}
