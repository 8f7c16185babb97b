//! The lines of a plan by their starts, and those of them that run.

ghost use Rattle.std.specs.Prelude.{◌≡◌, ◌+◌, ◌≤◌, ◌++◌, ◌∷◌, [], map, length, drop, OnOk, IfOk, IsPermutation};
ghost use Rattle.std.specs.List.{AllByRecursion, filter};
ghost use Rattle.task_types.specs.Tests.{◌≤?◌};
ghost use Rattle.task_types.specs.Reckoned.{by_start};
ghost use Rattle.timed_meaning.specs.TimedPlans.{EndIsDefined};
ghost use Rattle.timed_meaning.specs.Owned.{placed, placed_lines, lines_of};
ghost use Rattle.timed_meaning.specs.Places.{has_begun, lasts_to, begun_by, runs};

use crate::listing::end_of;
use exact_lin::{Fraction, NoMemory, Scalar};
use std::alloc::Global;
use std::cmp::Ordering;
use task_types::PlanLine;

/// A line with its place among the lines of the plan, from 0 on, and its end.
#[derive(Clone, Copy, Drop)]
pub struct PlacedLine {
    pub place: usize,
    pub line: PlanLine,
    pub end: Fraction,
}

fn is_at_most(one: Fraction, other: Fraction) -> bool
    ensures { result ≡ (one ≤? other) }
{
    match Scalar::cmp(other, one) {
        Ordering::Less => false,
        Ordering::Equal => true,
        Ordering::Greater => true,
    }
}

// Puts a line with its place and its end behind others; its duration is handed over by itself.
fn push_parts(
    out: &mut Vec<PlacedLine>,
    place: usize,
    line: &PlanLine,
    duration: Option<Fraction>,
    end: Fraction,
) -> Result<(), NoMemory>
    requires { duration ≡ line.now.duration }
    ensures { OnOk result (out.new.items ≡ out.old.items
        ++ record { place = place; line = line.now; end = end } ∷ []) }
{
    let line = PlanLine {
        action: line.action,
        at: line.at,
        duration,
        line: line.line,
    };
    out.push(PlacedLine { place, line, end })?;
    Ok(())
}

fn push_placed(out: &mut Vec<PlacedLine>, place: usize, line: &PlanLine) -> Result<(), NoMemory>
    requires { EndIsDefined line.now }
    ensures { OnOk result (out.new.items ≡ out.old.items ++ placed (place, line.now) ∷ []) }
{
    push_parts(out, place, line, line.duration, end_of(line))
}

fn place_lines(alloc: Global, lines: &[PlanLine]) -> Result<Vec<PlacedLine>, NoMemory>
    requires { AllByRecursion EndIsDefined lines.now }
    ensures { IfOk result (λ out. out.items ≡ placed_lines lines.now) }
{
    let mut out = Vec::new(alloc);
    for (i, line) in lines.iter().enumerate() {
        push_placed(&mut out, i, line)?;
    }
    Ok(out)
}

/// The lines in the order of their starts, those of one start in the order of the plan.
pub fn lines_by_start(alloc: Global, lines: &[PlanLine]) -> Result<Vec<PlacedLine>, NoMemory>
    requires { AllByRecursion EndIsDefined lines.now }
    ensures starts { IfOk result (λ out. lines_of out.items ≡ by_start lines.now) }
    ensures places { IfOk result (λ out. IsPermutation (placed_lines lines.now) out.items) }
{
    let mut out = place_lines(alloc, lines)?;
    out.sort_by_key(|placed| placed.line.at)?;
    Ok(out)
}

fn has_begun(placed: &PlacedLine, by: Fraction) -> bool
    ensures { result ≡ has_begun by placed.now }
{
    is_at_most(placed.line.at, by)
}

fn lasts_to(placed: &PlacedLine, to: Fraction) -> bool
    ensures { result ≡ lasts_to to placed.now }
{
    is_at_most(to, placed.end)
}

fn push_lasting(
    running: &mut Vec<PlacedLine>,
    placed: &PlacedLine,
    to: Fraction,
) -> Result<(), NoMemory>
    ensures { OnOk result (running.new.items ≡ running.old.items
        ++ filter (lasts_to to) (placed.now ∷ [])) }
{
    if lasts_to(placed, to) {
        let line = &placed.line;
        return push_parts(running, placed.place, line, line.duration, placed.end);
    }
    Ok(())
}

// Of lines by their starts, puts those at the end that begin by a time and last to another, and answers how many begin.
fn push_begun(
    running: &mut Vec<PlacedLine>,
    lines: &[PlacedLine],
    from: Fraction,
    to: Fraction,
) -> Result<usize, NoMemory>
    ensures running { OnOk result (running.new.items ≡ running.old.items
        ++ filter (lasts_to to) (begun_by from lines.now)) }
    ensures count { IfOk result (λ n. n ≡ length (begun_by from lines.now)) }
    ensures within { IfOk result (λ n. n ≤ length lines.now) }
{
    for (i, placed) in lines.iter().enumerate() {
        if !has_begun(placed, from) {
            return Ok(i);
        }
        push_lasting(running, placed, to)?;
    }
    Ok(lines.len())
}

fn keep_lasting(running: &mut Vec<PlacedLine>, to: Fraction)
    ensures { running.new.items ≡ filter (lasts_to to) running.old.items }
{
    running.retain(|placed| lasts_to(placed, to));
}

/// Drops the lines that end before a time, and puts those behind that begin by another time; answers how many have begun.
pub fn follow_lines(
    running: &mut Vec<PlacedLine>,
    lines: &[PlacedLine],
    started: usize,
    from: Fraction,
    to: Fraction,
) -> Result<usize, NoMemory>
    requires { started ≤ length lines.now }
    ensures running { OnOk result (running.new.items ≡ filter (lasts_to to) running.old.items
        ++ filter (lasts_to to) (begun_by from (drop started lines.now))) }
    ensures started { IfOk result (λ n. n ≡ started + length (begun_by from (drop started lines.now))) }
    ensures within { IfOk result (λ n. n ≤ length lines.now) }
{
    keep_lasting(running, to);
    let more = push_begun(running, &lines[started..], from, to)?;
    Ok(started + more)
}

fn push_running(
    out: &mut Vec<PlacedLine>,
    placed: &PlacedLine,
    from: Fraction,
    to: Fraction,
) -> Result<(), NoMemory>
    ensures { OnOk result (out.new.items ≡ out.old.items ++ filter (runs from to) (placed.now ∷ [])) }
{
    if has_begun(placed, from) {
        return push_lasting(out, placed, to);
    }
    Ok(())
}

/// Finds the lines that run from one time to a later one.
pub fn find_running(
    out: &mut Vec<PlacedLine>,
    lines: &[PlacedLine],
    from: Fraction,
    to: Fraction,
) -> Result<(), NoMemory>
    ensures { OnOk result (out.new.items ≡ filter (runs from to) lines.now) }
{
    out.clear();
    for placed in lines {
        push_running(out, placed, from, to)?;
    }
    Ok(())
}
