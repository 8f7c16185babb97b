//! The happenings of a plan: the distinct times of its steps.

ghost use Rattle.std.specs.Prelude.{◌≡◌, ◌≤◌, length, IfOk};
ghost use Rattle.task_types.specs.Tests.{◌=?◌};
ghost use Rattle.task_types.specs.Plan.{happenings};
ghost use Rattle.timed_meaning.specs.TimedPlans.{IsBuiltFor};
ghost use Rattle.timed_meaning.specs.Sorts.{NeverFall, run, after_run, times};

use crate::listing::{bare_steps, sorted_steps};
use crate::plans::TimedPlan;
use crate::steps::PlanStep;
use exact_lin::{Fraction, NoMemory, Scalar};
use std::alloc::Global;
use std::cmp::Ordering;
use task_types::Task;

fn is_same(one: Fraction, other: Fraction) -> bool
    ensures { result ≡ (one =? other) }
{
    match Scalar::cmp(one, other) {
        Ordering::Less => false,
        Ordering::Equal => true,
        Ordering::Greater => false,
    }
}

/// How many steps stand before the first of another time.
pub fn run_length(steps: &[PlanStep], time: Fraction) -> usize
    ensures value { result ≡ length (run time steps.now) }
    ensures within { result ≤ length steps.now }
{
    for (i, step) in steps.iter().enumerate() {
        if !is_same(step.time(), time) {
            return i;
        }
    }
    steps.len()
}

// The steps from the first of another time on.
fn after_run(steps: &[PlanStep], time: Fraction) -> &[PlanStep]
    ensures { result.now ≡ after_run time steps.now }
{
    let length = run_length(steps, time);
    &steps[length..]
}

// The distinct times of sorted steps.
fn times_of(alloc: Global, steps: &[PlanStep]) -> Result<Vec<Fraction>, NoMemory>
    requires { NeverFall steps.now }
    ensures { IfOk result (λ out. out.items ≡ times steps.now) }
{
    let mut out = Vec::new(alloc);
    let mut rest = steps;
    while let Some((first, _)) = rest.split_first() {
        let time = first.time();
        out.push(time)?;
        rest = after_run(rest, time);
    }
    Ok(out)
}

/// The happenings of a plan: the distinct times of its steps and of the task's timed literals, ascending.
pub fn happenings(alloc: Global, task: &Task, plan: &TimedPlan) -> Result<Vec<Fraction>, NoMemory>
    requires { IsBuiltFor task.now.parts plan.now }
    ensures { IfOk result (λ times. times.items ≡ happenings task.now.parts plan.now) }
{
    let owned = sorted_steps(alloc, task.parts(), plan.lines())?;
    let steps = bare_steps(alloc, owned.as_slice())?;
    times_of(alloc, steps.as_slice())
}
