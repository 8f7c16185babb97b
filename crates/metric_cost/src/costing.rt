//! The cost of a plan.

ghost use Rattle.std.specs.Prelude.{◌≡◌, ◌+◌, ◌<◌, ◌^◌, IfOk};
ghost use Rattle.task_types.specs.Course.{count};
ghost use Rattle.timed_meaning.specs.TimedPlans.{IsBuiltFor};
ghost use Rattle.metric_cost.specs.Answers.{Costs};
ghost use Rattle.metric_cost.specs.Following.{GoesTo, GoesAlong};

use crate::following::Follower;
use exact_lin::{FormFault, Fraction, NoMemory, Wide};
use std::alloc::Global;
use task_types::Task;
use timed_meaning::{MeaningFault, TimedPlan, happenings};

fn happening_count(alloc: Global, task: &Task, plan: &TimedPlan) -> Result<u32, NoMemory>
    requires { IsBuiltFor task.now.parts plan.now }
    ensures { IfOk result (λ n. (n ≡ count task.now.parts plan.now) × (n < 2 ^ 31)) }
{
    let times = happenings(alloc, task, plan)?;
    Ok(times.len() as u32)
}

// A follower before happening k.
fn follow_to(alloc: Global, task: &Task, plan: &TimedPlan, k: u32) -> Result<Follower, MeaningFault>
    requires built { IsBuiltFor task.now.parts plan.now }
    requires there { k < count task.now.parts plan.now }
    ensures { GoesTo result task.now.parts plan.now k }
{
    let mut follower = match Follower::begin(alloc, task, plan) {
        Ok(follower) => follower,
        Err(_) => return Err(MeaningFault::Memory),
    };
    for j in 0..k {
        match follower.step(task) {
            Ok(()) => {}
            Err(FormFault::Wide) => return Err(MeaningFault::Wide(j)),
            Err(FormFault::Memory) => return Err(MeaningFault::Memory),
        }
    }
    Ok(follower)
}

// A follower after happening k, which is the last.
fn follow_all(
    alloc: Global,
    task: &Task,
    plan: &TimedPlan,
    k: u32,
) -> Result<Follower, MeaningFault>
    requires built { IsBuiltFor task.now.parts plan.now }
    requires last { k + 1 ≡ count task.now.parts plan.now }
    ensures { GoesAlong result task.now.parts plan.now }
{
    let mut follower = match follow_to(alloc, task, plan, k) {
        Ok(follower) => follower,
        Err(fault) => return Err(fault),
    };
    match follower.happen(task) {
        Ok(()) => Ok(follower),
        Err(FormFault::Wide) => Err(MeaningFault::Wide(k)),
        Err(FormFault::Memory) => Err(MeaningFault::Memory),
    }
}

fn follow(
    alloc: Global,
    task: &Task,
    plan: &TimedPlan,
    happenings: u32,
) -> Result<Follower, MeaningFault>
    requires built { IsBuiltFor task.now.parts plan.now }
    requires number { happenings ≡ count task.now.parts plan.now }
    ensures { GoesAlong result task.now.parts plan.now }
{
    if happenings > 0 {
        return follow_all(alloc, task, plan, happenings - 1);
    }
    match Follower::begin(alloc, task, plan) {
        Ok(follower) => Ok(follower),
        Err(_) => Err(MeaningFault::Memory),
    }
}

/// What a plan costs by the minimised metric of its task (Fox and Long 2003; preferences: Gerevini and Long 2005).
/// `Wide(k)` exactly where an effect of happening k, the move from it to the next, or, with k the number of happenings,
/// the cost itself is past 128 bits, k being the first such place.
pub fn cost(alloc: Global, task: &Task, plan: &TimedPlan) -> Result<Fraction, MeaningFault>
    requires { IsBuiltFor task.now.parts plan.now }
    ensures { Costs result task.now.parts plan.now }
{
    let happenings = match happening_count(alloc, task, plan) {
        Ok(happenings) => happenings,
        Err(_) => return Err(MeaningFault::Memory),
    };
    let follower = match follow(alloc, task, plan, happenings) {
        Ok(follower) => follower,
        Err(fault) => return Err(fault),
    };
    match follower.cost(task, plan) {
        Ok(cost) => Ok(cost),
        Err(Wide) => Err(MeaningFault::Wide(happenings)),
    }
}
