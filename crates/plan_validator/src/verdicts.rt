//! Whether a plan is valid and what it costs, or the first reason why it isn't.

ghost use Rattle.timed_meaning.specs.TimedPlans.{IsBuiltFor};
ghost use Rattle.plan_validator.specs.Verdicts.{Validates};

use crate::judging::first_reason;
use exact_lin::Fraction;
use metric_cost::cost;
use std::alloc::Global;
use task_types::{Reason, Rules, Task};
use timed_meaning::{MeaningFault, TimedPlan};

/// What a validation finds: a valid plan with its cost, or the first reason why the plan isn't valid.
#[derive(Clone, Copy, Drop)]
pub enum Verdict {
    Valid(Fraction),
    Invalid(Reason),
}

/// Whether a plan is valid (Fox and Long 2003), at every instant, and what it costs, or the first reason why it isn't:
/// the reasons count in the order of their kinds, and within a kind by the lines of the plan. `Wide(k)` where something
/// that is reckoned is past 128 bits, k being the first happening at which something is, counted from 0, or the number
/// of happenings where it is a form of the goal or, of a valid plan, the cost.
pub fn validate(
    alloc: Global,
    task: &Task,
    rules: &Rules,
    plan: &TimedPlan,
) -> Result<Verdict, MeaningFault>
    requires { IsBuiltFor task.now.parts plan.now }
    ensures { Validates result task.now.parts rules.now plan.now }
{
    match first_reason(alloc, task, rules, plan) {
        Ok(Some(reason)) => Ok(Verdict::Invalid(reason)),
        Ok(None) => match cost(alloc, task, plan) {
            Ok(cost) => Ok(Verdict::Valid(cost)),
            Err(fault) => Err(fault),
        },
        Err(fault) => Err(fault),
    }
}
