//! The rows of the bounds of durations.

ghost use Rattle.std.specs.Prelude.{◌≡◌, ◌<◌, ◌≤◌, ◌+◌, ◌^◌, ◌&&◌, ◌∷◌, [], suc, length, map, not, if◌then◌else◌};
ghost use Rattle.std.specs.List.{enumerate_from};
ghost use Rattle.task_types.specs.Plan.{action_of};
ghost use Rattle.rate_ledger.specs.Answers.{Gives, Makes};
ghost use Rattle.rate_ledger.specs.Ledgers.{Keeps};
ghost use Rattle.lp_rows.specs.StepRows.{has_fluents, bound_sum, bound_compared, duration_compared};
ghost use Rattle.lp_rows.specs.Comparing.{Pushes, CanTakeDuration, less_duration};

use crate::comparing::push_row;
use crate::origins::Origin;
use crate::rows::OriginRow;
use exact_lin::{ActionId, FluentId, Form, FormFault, Fraction, Id, Scalar, StepId, VarId};
use rate_ledger::{ListLedger, When, with_term};
use sqlite_items::Items;
use std::alloc::Global;
use task_types::{Bound, SnapKind, Task};

fn has_fluents(form: &Form<FluentId, Fraction>) -> bool
    ensures { result ≡ has_fluents form.now }
{
    form.terms().len() > 0
}

// Before which step a bound is read: the end, or the start.
fn read_at(bound: &Bound, start: StepId, end: StepId) -> StepId
    ensures { result ≡ (if bound.now.at_end && has_fluents bound.now.form then end else start) }
{
    if bound.at_end && has_fluents(&bound.form) {
        return end;
    }
    start
}

// A bound over the values where it is read, less the duration.
fn bound_form(
    ledger: &ListLedger,
    alloc: Global,
    task: &Task,
    start: StepId,
    end: StepId,
    bound: &Bound,
) -> Result<Form<VarId, Fraction>, FormFault>
    requires keeps { Keeps task.now.parts ledger.now }
    requires told { end ≤ length ledger.now.changes }
    requires early { start ≤ end }
    ensures { Makes result (bound_sum task.now.parts ledger.now.steps start end end bound.now) }
{
    let read = When::Before(read_at(bound, start, end));
    let form = ledger.put(alloc, task, &bound.form, &read)?;
    less_duration(form, Fraction::of_int(1), start, end)
}

// A form less a factor times the time between two steps.
fn less_duration(
    form: Form<VarId, Fraction>,
    factor: Fraction,
    start: StepId,
    end: StepId,
) -> Result<Form<VarId, Fraction>, FormFault>
    ensures { Gives result (CanTakeDuration form factor start end) (λ r. r ≡ less_duration form factor start end) }
{
    let less = with_term(form, VarId::of(end.number()), factor.neg())?;
    with_term(less, VarId::of(start.number()), factor)
}

// The row of one bound, which has a number among those of its action.
fn push_bound(
    out: &mut Items<OriginRow>,
    ledger: &ListLedger,
    alloc: Global,
    task: &Task,
    start: StepId,
    end: StepId,
    number: u32,
    bound: &Bound,
) -> Result<(), FormFault>
    requires keeps { Keeps task.now.parts ledger.now }
    requires told { end ≤ length ledger.now.changes }
    requires there { end < length ledger.now.steps }
    requires early { start ≤ end }
    ensures { Pushes result out.old out.new (bound_compared task.now.parts ledger.now.steps start end end (number, bound.now) ∷ []) }
{
    let form = bound_form(ledger, alloc, task, start, end, bound)?;
    push_row(
        out,
        alloc,
        &form,
        !bound.at_least,
        Origin::Duration(end.number() + 1, number),
    )
}

fn push_bounds(
    out: &mut Items<OriginRow>,
    ledger: &ListLedger,
    alloc: Global,
    task: &Task,
    start: StepId,
    end: StepId,
    bounds: &[Bound],
) -> Result<(), FormFault>
    requires keeps { Keeps task.now.parts ledger.now }
    requires told { end ≤ length ledger.now.changes }
    requires there { end < length ledger.now.steps }
    requires early { start ≤ end }
    requires few { length bounds.now < 2 ^ 31 }
    ensures { Pushes result out.old out.new (map (bound_compared task.now.parts ledger.now.steps start end end) (enumerate_from 1 bounds.now)) }
{
    for (place, bound) in bounds.iter().enumerate() {
        push_bound(
            out,
            ledger,
            alloc,
            task,
            start,
            end,
            1 + place as u32,
            bound,
        )?;
    }
    Ok(())
}

fn bounds_of(task: &Task, action: ActionId) -> &[Bound]
    ensures { result.now ≡ (action_of task.now.parts action).bounds }
{
    match task.actions().get(action.number() as usize) {
        Some(action) => action.bounds.as_slice(),
        None => &[],
    }
}

/// The rows of the bounds of the action that a step ends, if it ends one.
pub fn push_duration_rows(
    out: &mut Items<OriginRow>,
    ledger: &ListLedger,
    alloc: Global,
    task: &Task,
    step: StepId,
) -> Result<(), FormFault>
    requires keeps { Keeps task.now.parts ledger.now }
    requires told { step ≤ length ledger.now.changes }
    requires there { step < length ledger.now.steps }
    ensures { Pushes result out.old out.new (duration_compared task.now.parts ledger.now.steps step) }
{
    if !matches!(ledger.snap(task, step).kind, SnapKind::End) {
        return Ok(());
    }
    match ledger.own_start(task, step) {
        Some((start, action)) => {
            push_bounds(
                out,
                ledger,
                alloc,
                task,
                start,
                step,
                bounds_of(task, action),
            )
        }
        None => Ok(()),
    }
}
