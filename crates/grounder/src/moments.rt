//! The moments of timed literals, and the step of each.

ghost use Rattle.std.specs.Prelude.{◌≡◌, ◌+◌, ◌≤◌, ◌<◌, ◌^◌, [], ◌∷◌, ◌++◌, map, length, true, false, not, ◌&&◌, if◌then◌else◌, IfOk, IfSome, OnOk};
ghost use Rattle.std.specs.List.{enumerate_from, insert};
ghost use Rattle.task_types.specs.Tests.{◌=?◌};
ghost use Rattle.ground_world.specs.World.{either};
ghost use Rattle.grounder.specs.Task.{with_moment, moments, literals_at, no_condition, timed_snap};
ghost use Rattle.grounder.specs.ShownGrounding.{ground_of};
ghost use Rattle.grounder.specs.ShownTimings.{timing_of, timings_of};

use crate::grounding::Grounding;
use crate::ids::fact_id;
use crate::timings::Timing;
use exact_lin::{FactId, Fraction, Id, NoMemory, Scalar, SnapId};
use sqlite_items::Items;
use std::alloc::Global;
use std::cmp::Ordering;
use task_types::{Condition, Effect, Snap, SnapKind};

// The place at which a moment belongs among others that ascend, or None where it is there.
fn slot(moments: &[Fraction], moment: Fraction) -> Option<usize>
    ensures value { with_moment moment moments.now ≡ either moments.now (λ i. insert moments.now i moment) result }
    ensures within { IfSome result (λ i. i ≤ length moments.now) }
{
    for (place, other) in moments.iter().enumerate() {
        match Scalar::cmp(moment, *other) {
            Ordering::Less => return Some(place),
            Ordering::Equal => return None,
            Ordering::Greater => (),
        }
    }
    Some(moments.len())
}

// Adds a moment to others that ascend, unless it is there.
fn add_moment(moments: &mut Vec<Fraction>, moment: Fraction) -> Result<(), NoMemory>
    ensures { OnOk result (moments.new.items ≡ with_moment moment moments.old.items) }
{
    match slot(moments.as_slice(), moment) {
        Some(place) => {
            moments.insert(place, moment)?;
            Ok(())
        }
        None => Ok(()),
    }
}

/// The moments at which timed literals stand, each once, ascending.
pub fn moments(alloc: Global, timings: &[Timing]) -> Result<Vec<Fraction>, NoMemory>
    ensures { IfOk result (λ ts. ts.items ≡ moments (timings_of timings.now)) }
{
    let mut out = Vec::new(alloc);
    let mut left = timings.len();
    while left > 0 {
        left -= 1;
        add_moment(&mut out, timings[left].moment)?;
    }
    Ok(out)
}

// Whether one moment is the other.
fn is_moment(one: Fraction, other: Fraction) -> bool
    ensures { result ≡ (one =? other) }
{
    match Scalar::cmp(one, other) {
        Ordering::Less => false,
        Ordering::Equal => true,
        Ordering::Greater => false,
    }
}

// Whether a timed literal makes its atom true, or false, at a moment.
fn becomes(timing: &Timing, moment: Fraction, holds: bool) -> bool
    ensures { result ≡ ((timing.now.moment =? moment) && (if holds then timing.now.holds else not timing.now.holds)) }
{
    let turned = if holds { timing.holds } else { !timing.holds };
    is_moment(timing.moment, moment) && turned
}

// Puts the fact of a timed literal at the end where it becomes true, or false, at the moment.
fn push_literal_at(
    grounding: &Grounding,
    timing: &Timing,
    moment: Fraction,
    holds: bool,
    out: &mut Items<FactId>,
) -> Result<(), NoMemory>
    ensures { OnOk result (out.new
        ≡ out.old ++ literals_at (ground_of grounding.now) (timing_of timing.now ∷ []) moment holds) }
{
    if !becomes(timing, moment, holds) {
        return Ok(());
    }
    out.push(fact_id(grounding, timing.atom.as_slice()))?;
    Ok(())
}

// The facts that become true, or false, at a moment.
fn literals_at(
    alloc: Global,
    grounding: &Grounding,
    timings: &[Timing],
    moment: Fraction,
    holds: bool,
) -> Result<Items<FactId>, NoMemory>
    ensures { IfOk result (λ ids. ids ≡ literals_at (ground_of grounding.now) (timings_of timings.now) moment holds) }
{
    let mut out = Items::new(alloc);
    for timing in timings {
        push_literal_at(grounding, timing, moment, holds, &mut out)?;
    }
    Ok(out)
}

// A condition that asks nothing.
fn no_condition(alloc: Global) -> Condition
    ensures { result ≡ no_condition }
{
    Condition {
        literals: Items::new(alloc),
        comparisons: Items::new(alloc),
    }
}

/// The step of the timed literals of one moment.
pub fn timed_snap(
    alloc: Global,
    grounding: &Grounding,
    timings: &[Timing],
    moment: Fraction,
) -> Result<Snap, NoMemory>
    ensures { IfOk result (λ s. s ≡ timed_snap (ground_of grounding.now) (timings_of timings.now) moment) }
{
    let adds = literals_at(alloc, grounding, timings, moment, true)?;
    let deletes = literals_at(alloc, grounding, timings, moment, false)?;
    Ok(Snap {
        kind: SnapKind::Timed,
        action: None,
        condition: no_condition(alloc),
        effect: Effect {
            adds,
            deletes,
            assigns: Items::new(alloc),
            increases: Items::new(alloc),
        },
        rates: Items::new(alloc),
    })
}

/// Puts the steps of some moments at the end.
pub fn push_timed_snaps(
    alloc: Global,
    grounding: &Grounding,
    timings: &[Timing],
    moments: &[Fraction],
    out: &mut Items<Snap>,
) -> Result<(), NoMemory>
    ensures { OnOk result (out.new
        ≡ out.old ++ map (timed_snap (ground_of grounding.now) (timings_of timings.now)) moments.now) }
{
    for moment in moments {
        out.push(timed_snap(alloc, grounding, timings, *moment)?)?;
    }
    Ok(())
}

/// The steps of some moments by their numbers, the first of which is `first`.
pub fn timed_numbers(
    alloc: Global,
    first: usize,
    moments: &[Fraction],
) -> Result<Items<(Fraction, SnapId)>, NoMemory>
    requires { first + length moments.now < 2 ^ 32 }
    ensures { IfOk result (λ steps. steps ≡ map (λ x. (x.1, first + x.0)) (enumerate_from 0 moments.now)) }
{
    let mut out = Items::new(alloc);
    for (place, moment) in moments.iter().enumerate() {
        out.push((*moment, SnapId::of((first + place) as u32)))?;
    }
    Ok(out)
}
