//! The states of a timed plan, reached by a sweep.

ghost use Rattle.std.specs.Prelude.{◌≡◌, ◌<◌, ◌≤◌, ◌++◌, [], ℕ, suc, length};
ghost use Rattle.task_types.specs.Plan.{Plan};
ghost use Rattle.task_types.specs.Course.{count, count_before, initial, reached, before, state_before, state_after};
ghost use Rattle.task_types.specs.Reckoned.{course_before, course_after, course_reaching, course_at, effects_at, move_to};
ghost use Rattle.timed_meaning.specs.TimedPlans.{IsBuiltFor};
ghost use Rattle.timed_meaning.specs.Answers.{Tells};
ghost use Rattle.timed_meaning.specs.Standings.{shown, IsKept};
ghost use Rattle.timed_meaning.specs.Sweeps.{IsBefore};
ghost use Rattle.task_types.specs.Tests.{◌<?◌};
ghost use Rattle.timed_meaning.specs.States.{Gives, Reaches};

use crate::faults::MeaningFault;
use crate::plans::TimedPlan;
use crate::standings::Standing;
use crate::states::State;
use crate::sweeps::Sweep;
use crate::times::happenings;
use exact_lin::{FormFault, Fraction, Scalar};
use std::alloc::Global;
use std::cmp::Ordering;
use task_types::Task;

// A sweep before happening k.
fn sweep_to(alloc: Global, task: &Task, plan: &TimedPlan, k: u32) -> Result<Sweep, MeaningFault>
    requires built { IsBuiltFor task.now.parts plan.now }
    requires there { k < count task.now.parts plan.now }
    ensures { Reaches result task.now.parts plan.now k }
{
    let mut sweep = match Sweep::begin(alloc, task, plan) {
        Ok(sweep) => sweep,
        Err(_) => return Err(MeaningFault::Memory),
    };
    for j in 0..k {
        match sweep.step(task) {
            Ok(()) => {}
            Err(FormFault::Wide) => return Err(MeaningFault::Wide(j)),
            Err(FormFault::Memory) => return Err(MeaningFault::Memory),
        }
    }
    Ok(sweep)
}

/// The state before happening k; `Wide(j)` exactly where the effects of a happening before it, or the move from one to
/// the next, are past 128 bits, j being the first such happening.
pub fn state_before(
    alloc: Global,
    task: &Task,
    plan: &TimedPlan,
    k: u32,
) -> Result<State, MeaningFault>
    requires built { IsBuiltFor task.now.parts plan.now }
    requires there { k < count task.now.parts plan.now }
    ensures { Gives result task.now.parts (course_before task.now.parts plan.now k)
        (state_before task.now.parts plan.now k) }
{
    match sweep_to(alloc, task, plan, k) {
        Ok(sweep) => Ok(sweep.into_state()),
        Err(fault) => Err(fault),
    }
}

/// The state after happening k; `Wide(j)` exactly where the effects of a happening up to it, or the move from one to the
/// next, are past 128 bits, j being the first such happening.
pub fn state_after(
    alloc: Global,
    task: &Task,
    plan: &TimedPlan,
    k: u32,
) -> Result<State, MeaningFault>
    requires built { IsBuiltFor task.now.parts plan.now }
    requires there { k < count task.now.parts plan.now }
    ensures { Gives result task.now.parts (course_after task.now.parts plan.now k)
        (state_after task.now.parts plan.now k) }
{
    let mut sweep = match sweep_to(alloc, task, plan, k) {
        Ok(sweep) => sweep,
        Err(fault) => return Err(fault),
    };
    match sweep.apply(task) {
        Ok(()) => Ok(sweep.into_state()),
        Err(FormFault::Wide) => Err(MeaningFault::Wide(k)),
        Err(FormFault::Memory) => Err(MeaningFault::Memory),
    }
}

// The state in which a time is reached after happening k, with no happening between.
fn state_past(
    alloc: Global,
    task: &Task,
    plan: &TimedPlan,
    k: u32,
    to: Fraction,
) -> Result<State, MeaningFault>
    requires built { IsBuiltFor task.now.parts plan.now }
    requires there { k < count task.now.parts plan.now }
    ensures { Gives result task.now.parts (course_reaching task.now.parts plan.now (suc k) to)
        (reached task.now.parts plan.now (suc k) to) }
{
    let mut sweep = match sweep_to(alloc, task, plan, k) {
        Ok(sweep) => sweep,
        Err(fault) => return Err(fault),
    };
    match reach(&mut sweep, task, to) {
        Ok(()) => Ok(sweep.into_state()),
        Err(FormFault::Wide) => Err(MeaningFault::Wide(k)),
        Err(FormFault::Memory) => Err(MeaningFault::Memory),
    }
}

// Applies the steps of a happening and moves the state on to a time.
fn reach(sweep: &mut Sweep, task: &Task, to: Fraction) -> Result<(), FormFault>
    requires { (plan : Plan) × IsBefore task.now.parts plan sweep.old
        × (sweep.old.agenda.place < count task.now.parts plan) }
    ensures { (plan : Plan) (k : ℕ) → IsBefore task.now.parts plan sweep.old
        → sweep.old.agenda.place ≡ k → k < count task.now.parts plan
        → Tells result (effects_at task.now.parts plan k ++ move_to task.now.parts plan k to)
        (λ _. IsKept task.now.parts sweep.new.standing
        × (shown sweep.new.standing ≡ reached task.now.parts plan (suc k) to)) }
{
    match sweep.apply(task) {
        Ok(()) => sweep.move_to(task, to),
        Err(fault) => Err(fault),
    }
}

fn is_before(one: Fraction, other: Fraction) -> bool
    ensures { result ≡ (one <? other) }
{
    match Scalar::cmp(one, other) {
        Ordering::Less => true,
        Ordering::Equal => false,
        Ordering::Greater => false,
    }
}

// How many of some times come before a time.
fn count_before(times: &[Fraction], to: Fraction) -> usize
    ensures value { result ≡ count_before to times.now }
    ensures within { result ≤ length times.now }
{
    for (i, time) in times.iter().enumerate() {
        if !is_before(*time, to) {
            return i;
        }
    }
    times.len()
}

// The initial state of a task.
fn first_state(alloc: Global, task: &Task) -> Result<State, MeaningFault>
    ensures { Gives result task.now.parts [] (initial task.now.parts) }
{
    match Standing::initial(alloc, task.parts()) {
        Ok(standing) => Ok(standing.into_state()),
        Err(_) => Err(MeaningFault::Memory),
    }
}

/// The state at an instant at which nothing happens; at a happening, the state before it. `Wide(j)` exactly where the
/// effects of a happening before it, or the move from one to the next or to the instant, are past 128 bits, j being the
/// first such happening.
pub fn state_at(
    alloc: Global,
    task: &Task,
    plan: &TimedPlan,
    at: Fraction,
) -> Result<State, MeaningFault>
    requires { IsBuiltFor task.now.parts plan.now }
    ensures { Gives result task.now.parts (course_at task.now.parts plan.now at)
        (before task.now.parts plan.now at) }
{
    let times = match happenings(alloc, task, plan) {
        Ok(times) => times,
        Err(_) => return Err(MeaningFault::Memory),
    };
    let passed = count_before(times.as_slice(), at);
    if passed == 0 {
        return first_state(alloc, task);
    }
    state_past(alloc, task, plan, (passed - 1) as u32, at)
}
