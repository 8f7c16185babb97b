//! Whether a plan is valid, or the first reason why it isn't.

ghost use Rattle.std.specs.Prelude.{◌≡◌, IfOk};
ghost use Rattle.exact_lin.specs.Reckoning.{wide_limit};
ghost use Rattle.exact_lin.specs.Reckonings.{AllDefined};
ghost use Rattle.task_types.specs.Plan.{happenings as happenings_of};
ghost use Rattle.task_types.specs.Course.{count, last_state};
ghost use Rattle.task_types.specs.State.{holds};
ghost use Rattle.task_types.specs.Valid.{duties};
ghost use Rattle.timed_meaning.specs.TimedPlans.{IsBuiltFor};
ghost use Rattle.plan_validator.specs.Judged.{Judged, JudgesPlan};
ghost use Rattle.plan_validator.specs.Passing.{IsDone, course_to, goal_reason};
ghost use Rattle.plan_validator.specs.Reasons.{noted_reason};

use crate::clashes::least_clash;
use crate::constraints::first_broken;
use crate::least::Least;
use crate::passing::{goal_holds, watch_all};
use crate::reasons::{
    clash_reason, duration_reason, end_reason, first_of, over_all_reason, start_reason,
};
use crate::times::first_late;
use crate::watching::Watch;
use exact_lin::{FormFault, Fraction, SnapId};
use std::alloc::Global;
use task_types::{PlanLine, Reason, Rules, Task};
use timed_meaning::{MeaningFault, TimedPlan, happenings};

fn goal_reason(goal: bool) -> Option<Reason>
    ensures { result ≡ goal_reason goal }
{
    if goal { None } else { Some(Reason::Goal) }
}

// The first reason of what a pass noted, behind those of lines that aren't in time.
fn noted_reason(
    watch: &Watch,
    late: Option<Reason>,
    clash: Least,
    lines: &[PlanLine],
    timed: &[(Fraction, SnapId)],
    times: &[Fraction],
) -> Option<Reason>
    ensures { result ≡ noted_reason watch.now late clash.place lines.now timed.now times.now }
{
    let durations = duration_reason(watch.readings.durations, lines);
    let clashes = clash_reason(clash, lines, timed);
    let starts = start_reason(watch.readings.starts, lines);
    let ends = end_reason(watch.readings.ends, lines);
    let over_alls = over_all_reason(watch.over_alls, lines, times);
    let before_starts = first_of(first_of(late, durations), clashes);
    first_of(first_of(first_of(before_starts, starts), ends), over_alls)
}

// The first reason, kind by kind, from what a whole pass has noted.
fn reason_of(
    watch: &Watch,
    task: &Task,
    rules: &Rules,
    lines: &[PlanLine],
    times: &[Fraction],
    goal: bool,
) -> Option<Reason>
    requires built { IsBuiltFor task.now.parts lines.now }
    requires done { IsDone task.now.parts rules.now lines.now watch.now }
    requires defined { AllDefined wide_limit
        (course_to task.now.parts rules.now lines.now (count task.now.parts lines.now)) }
    requires times { times.now ≡ happenings_of task.now.parts lines.now }
    requires goal { goal ≡ holds task.now.parts.goal (last_state task.now.parts lines.now) }
    ensures { Judged (duties task.now.parts rules.now lines.now) result }
{
    let steps = watch.sweep.all_owned();
    let clash = least_clash(task.parts(), rules, lines.len(), steps);
    let late = first_late(rules, lines);
    let noted = noted_reason(watch, late, clash, lines, task.timed(), times);
    let broken = first_broken(task.hard(), watch.automata.as_slice(), times);
    first_of(first_of(noted, goal_reason(goal)), broken)
}

/// The first reason why a plan isn't valid, and none where it is valid (Fox and Long 2003); `Wide(k)` where something
/// that is reckoned for the plan is past 128 bits, k being the first happening at which something is, counted from 0, or
/// the number of happenings where it is a form of the goal.
pub fn first_reason(
    alloc: Global,
    task: &Task,
    rules: &Rules,
    plan: &TimedPlan,
) -> Result<Option<Reason>, MeaningFault>
    requires { IsBuiltFor task.now.parts plan.now }
    ensures { JudgesPlan result task.now.parts rules.now plan.now }
{
    let times = match happenings(alloc, task, plan) {
        Ok(times) => times,
        Err(_) => return Err(MeaningFault::Memory),
    };
    let watch = match watch_all(alloc, task, rules, plan, times.len()) {
        Ok(watch) => watch,
        Err(fault) => return Err(fault),
    };
    match goal_holds(&watch, task) {
        Ok(goal) => Ok(reason_of(&watch, task, rules, plan.lines(), times.as_slice(), goal)),
        Err(FormFault::Wide) => Err(MeaningFault::Wide(times.len() as u32)),
        Err(FormFault::Memory) => Err(MeaningFault::Memory),
    }
}
