//! Plan files.

ghost use Rattle.std.specs.Prelude.{◌<◌, ◌-◌, ◌^◌, length, IfOk, IsTrue};
ghost use Rattle.task_types.specs.Plan.{is_formed};
ghost use Rattle.timed_meaning.specs.TimedPlans.{IsBuiltFor};
ghost use Rattle.plan_files.specs.PlanFiles.{ReadsPlan};
ghost use Rattle.plan_files.specs.Known.{AreNames};
ghost use Rattle.plan_files.specs.LineParts.{line_of, PushesParts, TakesLine};

use crate::faults::{LineFault, LineKind};
use crate::lines::next_written;
use crate::names::{Names, names_of};
use crate::plan_lines::{LineParts, read_line};
use exact_lin::{ActionId, Id};
use std::alloc::Global;
use task_types::Task;
use timed_meaning::{MeaningFault, TimedPlan};

/// The most lines of a plan.
const LINE_LIMIT: usize = 4096;

fn push_parts(
    plan: &mut TimedPlan,
    task: &Task,
    number: u32,
    parts: LineParts,
) -> Result<(), LineFault>
    requires { IsTrue (is_formed task.now.parts (line_of parts number)) }
    ensures { PushesParts task.now.parts plan.old plan.new number parts result }
{
    if plan.lines().len() >= LINE_LIMIT {
        return Err(LineFault::At(number, LineKind::Limit));
    }
    match plan.push_line(
        task,
        ActionId::of(parts.action),
        parts.start,
        parts.duration,
        number,
    ) {
        Ok(()) => Ok(()),
        Err(MeaningFault::Wide(_)) => Err(LineFault::At(number, LineKind::Wide)),
        Err(MeaningFault::Memory) => Err(LineFault::Memory),
    }
}

// Reads one line and puts it at the end of the plan.
fn take_line(
    alloc: Global,
    names: &Names<'_>,
    plan: &mut TimedPlan,
    number: u32,
    line: &[u8],
) -> Result<(), LineFault>
    requires { AreNames names.now }
    ensures { TakesLine names.now.task.now.parts plan.old plan.new (number, line.now) result }
{
    let parts = match read_line(alloc, names, number, line) {
        Ok(parts) => parts,
        Err(fault) => return Err(fault),
    };
    push_parts(plan, names.task, number, parts)
}

// Reads the lines of a text.
fn plan_of(alloc: Global, names: &Names<'_>, text: &[u8]) -> Result<TimedPlan, LineFault>
    requires names { AreNames names.now }
    requires length { length text.now < 2 ^ 32 - 1 }
    ensures plan { ReadsPlan names.now.task.now.parts text.now result }
    ensures built { IfOk result (IsBuiltFor names.now.task.now.parts) }
{
    let mut plan = TimedPlan::new(alloc);
    let mut rest = text;
    let mut number = 1;
    while let Some(written) = next_written(rest, number) {
        match take_line(alloc, names, &mut plan, written.number, written.line) {
            Ok(()) => {}
            Err(fault) => return Err(fault),
        }
        rest = written.rest;
        number = written.number + 1;
    }
    Ok(plan)
}

/// Reads a plan file of a task: up to 4,096 lines `t: (name args) [d]`, with comments and blanks. It is refused at the
/// least line that is wrong, with the first kind of `LineKind` that fits.
pub fn read_plan(alloc: Global, task: &Task, text: &[u8]) -> Result<TimedPlan, LineFault>
    requires { length text.now < 2 ^ 32 - 1 }
    ensures plan { ReadsPlan task.now.parts text.now result }
    ensures built { IfOk result (IsBuiltFor task.now.parts) }
{
    match names_of(alloc, task) {
        Ok(names) => plan_of(alloc, &names, text),
        Err(_) => Err(LineFault::Memory),
    }
}
