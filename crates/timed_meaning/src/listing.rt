//! The steps of a plan, listed line by line and then sorted by time.

ghost use Rattle.std.specs.Prelude.{◌≡◌, ◌+◌, ◌<◌, ◌^◌, ◌++◌, ◌∷◌, [], map, length, OnOk, IfOk, IsPermutation};
ghost use Rattle.std.specs.List.{AllByRecursion, flat_map, enumerate_from};
ghost use Rattle.rational.specs.Rational.{zeroℚ};
ghost use Rattle.task_types.specs.Plan.{duration_of, end_of, end_step, line_steps, steps};
ghost use Rattle.task_types.specs.WellMade.{IsWellMade};
ghost use Rattle.timed_meaning.specs.TimedPlans.{EndIsDefined, IsBuiltFor};
ghost use Rattle.timed_meaning.specs.Moves.{AreLines};
ghost use Rattle.timed_meaning.specs.Owned.{owned, owned_line, owned_moment, owned_steps, steps_of};
ghost use Rattle.timed_meaning.specs.Sorts.{AreSorted};

use crate::moving::action;
use crate::steps::{OwnedStep, PlanStep, sort_steps};
use exact_lin::{Fraction, NoMemory, Scalar, SnapId, Wide};
use std::alloc::Global;
use task_types::{PlanLine, TaskParts};

// How long a line takes, which is no time where it has no duration.
fn duration_of(line: &PlanLine) -> Fraction
    ensures { result ≡ duration_of line.now }
{
    match line.duration {
        Some(duration) => duration,
        None => Fraction::of_int(0),
    }
}

/// When a line ends.
pub fn end_of(line: &PlanLine) -> Fraction
    requires { EndIsDefined line.now }
    ensures { result ≡ end_of line.now }
{
    match line.duration {
        Some(duration) => match line.at.add(duration) {
            Ok(end) => end,
            // never: the end is defined
            Err(Wide) => line.at,
        },
        None => line.at,
    }
}

fn push(
    out: &mut Vec<OwnedStep>,
    owner: usize,
    time: Fraction,
    snap: SnapId,
    duration: Fraction,
) -> Result<(), NoMemory>
    ensures { OnOk result (out.new.items ≡ out.old.items
        ++ owned owner (record { time = time; snap = snap; duration = duration }) ∷ []) }
{
    let step = PlanStep {
        time,
        snap,
        duration,
    };
    out.push(OwnedStep { step, owner })?;
    Ok(())
}

fn push_end(
    out: &mut Vec<OwnedStep>,
    owner: usize,
    line: &PlanLine,
    end: Option<SnapId>,
) -> Result<(), NoMemory>
    requires { EndIsDefined line.now }
    ensures { OnOk result (out.new.items ≡ out.old.items
        ++ map (owned owner) (end_step line.now end)) }
{
    match end {
        Some(snap) => push(out, owner, end_of(line), snap, duration_of(line)),
        None => Ok(()),
    }
}

// Puts the steps of a line at the end.
fn push_line_steps(
    out: &mut Vec<OwnedStep>,
    parts: &TaskParts,
    owner: usize,
    line: &PlanLine,
) -> Result<(), NoMemory>
    requires known { line.now.action < length parts.now.actions }
    requires ends { EndIsDefined line.now }
    ensures { OnOk result (out.new.items ≡ out.old.items ++ owned_line parts.now (owner, line.now)) }
{
    let action = action(parts, line);
    push(out, owner, line.at, action.start, duration_of(line))?;
    push_end(out, owner, line, action.end)
}

// Puts the steps of all lines at the end.
fn push_plan_steps(
    out: &mut Vec<OwnedStep>,
    parts: &TaskParts,
    lines: &[PlanLine],
) -> Result<(), NoMemory>
    requires known { AreLines parts.now lines.now }
    requires ends { AllByRecursion EndIsDefined lines.now }
    ensures { OnOk result (out.new.items ≡ out.old.items
        ++ flat_map (owned_line parts.now) (enumerate_from 0 lines.now)) }
{
    for (i, line) in lines.iter().enumerate() {
        push_line_steps(out, parts, i, line)?;
    }
    Ok(())
}

// Puts a timed step at the end.
fn push_moment(
    out: &mut Vec<OwnedStep>,
    owner: usize,
    time: Fraction,
    snap: SnapId,
) -> Result<(), NoMemory>
    ensures { OnOk result (out.new.items ≡ out.old.items
        ++ owned owner (record { time = time; snap = snap; duration = zeroℚ }) ∷ []) }
{
    push(out, owner, time, snap, Fraction::of_int(0))
}

// Puts the timed steps at the end, behind some number of lines.
fn push_timed(
    out: &mut Vec<OwnedStep>,
    timed: &[(Fraction, SnapId)],
    behind: usize,
) -> Result<(), NoMemory>
    requires { behind + length timed.now < 2 ^ 32 }
    ensures { OnOk result (out.new.items ≡ out.old.items
        ++ map (owned_moment behind) (enumerate_from 0 timed.now)) }
{
    for (i, moment) in timed.iter().enumerate() {
        push_moment(out, behind + i, moment.0, moment.1)?;
    }
    Ok(())
}

// The steps of a plan with their owners, in the order of the definition.
fn all_steps(
    alloc: Global,
    parts: &TaskParts,
    lines: &[PlanLine],
) -> Result<Vec<OwnedStep>, NoMemory>
    requires well_made { IsWellMade parts.now }
    requires built { IsBuiltFor parts.now lines.now }
    ensures { IfOk result (λ out. out.items ≡ owned_steps parts.now lines.now) }
{
    let mut out = Vec::new(alloc);
    push_plan_steps(&mut out, parts, lines)?;
    push_timed(&mut out, parts.timed.as_slice(), lines.len())?;
    Ok(out)
}

/// The steps of a plan with their owners, by their times, those of one time in the order of the definition.
pub fn sorted_steps(
    alloc: Global,
    parts: &TaskParts,
    lines: &[PlanLine],
) -> Result<Vec<OwnedStep>, NoMemory>
    requires well_made { IsWellMade parts.now }
    requires built { IsBuiltFor parts.now lines.now }
    ensures sorted { IfOk result (λ out. AreSorted (steps parts.now lines.now) (steps_of out.items)) }
    ensures owners { IfOk result (λ out. IsPermutation (owned_steps parts.now lines.now) out.items) }
{
    let mut out = all_steps(alloc, parts, lines)?;
    sort_steps(&mut out)?;
    Ok(out)
}

/// Steps without their owners.
pub fn bare_steps(alloc: Global, steps: &[OwnedStep]) -> Result<Vec<PlanStep>, NoMemory>
    ensures { IfOk result (λ out. out.items ≡ steps_of steps.now) }
{
    let mut out = Vec::new(alloc);
    for owned in steps {
        out.push(owned.step)?;
    }
    Ok(out)
}
