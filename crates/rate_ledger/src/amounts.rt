//! What the next step of a list makes of the fluents that it changes.

ghost use Rattle.std.specs.Prelude.{◌≡◌, true, ◌<◌, ◌++◌, ◌∷◌, [], length, map, if◌then◌else◌, IfOk, OnOk, ◌==◌, ◌||◌};
ghost use Rattle.std.specs.List.{list_any, filter, flat_map};
ghost use Rattle.rational.specs.Rational.{oneℚ};
ghost use Rattle.task_types.specs.Sets.{is_in, numbers};
ghost use Rattle.task_types.specs.Clash.{written_fluents};
ghost use Rattle.task_types.specs.Touch.{bent_fluents, is_start_or_end};
ghost use Rattle.ordering.specs.Along.{changes};
ghost use Rattle.rate_ledger.specs.Answers.{Gives};
ghost use Rattle.rate_ledger.specs.Entries.{snap_at};
ghost use Rattle.rate_ledger.specs.Ledgers.{Keeps, change_at, changes_at};
ghost use Rattle.rate_ledger.specs.Picking.{bent_for, last_picked, plus_picked, added_picked, CanAddOne, CanAddPicked, IsNext};
ghost use Rattle.rate_ledger.specs.Reckoned.{AreDefined, change_made, rate_made};

use crate::changes::Change;
use crate::forms::{StepForm, with_scaled};
use crate::list_ledgers::ListLedger;
use crate::nexts::Next;
use crate::rates::rate_of;
use crate::snaps::rates_of;
use exact_lin::{ActionId, FluentId, FormFault, Fraction, Id, NoMemory, Scalar};
use sqlite_items::Items;
use std::alloc::Global;
use task_types::{Amount, Snap, SnapKind, Task};

fn either(one: bool, other: bool) -> bool
    ensures { result ≡ (one || other) }
{
    one || other
}

fn is_named(changes: &[(FluentId, Amount)], fluent: FluentId) -> bool
    ensures { result ≡ list_any (λ e. e.0 == fluent) changes.now }
{
    changes.iter().any(|change| change.0 == fluent)
}

// Whether a step assigns or increases a fluent.
#[tactic(auto, using(crate::proofs::Lists::written_by))]
fn is_written(snap: &Snap, fluent: FluentId) -> bool
    ensures { result ≡ is_in fluent (written_fluents snap.now) }
{
    either(
        is_named(snap.effect.assigns.as_slice(), fluent),
        is_named(snap.effect.increases.as_slice(), fluent),
    )
}

fn has_rate(rates: &[(FluentId, Fraction)], fluent: FluentId) -> bool
    ensures { result ≡ list_any (λ r. r.0 == fluent) rates.now }
{
    rates.iter().any(|rate| rate.0 == fluent)
}

fn has_rates(kind: SnapKind) -> bool
    ensures { result ≡ is_start_or_end kind }
{
    match kind {
        SnapKind::Start => true,
        SnapKind::End => true,
        SnapKind::Instant => false,
        SnapKind::Timed => false,
    }
}

// Whether a step of an action changes the rate of a fluent.
fn is_rated(task: &Task, kind: SnapKind, action: ActionId, fluent: FluentId) -> bool
    ensures { result ≡ bent_for task.now.parts kind fluent (Some action) }
{
    has_rates(kind) && has_rate(rates_of(task, action), fluent)
}

// Whether a step changes the rate of a fluent.
#[tactic(auto, using(crate::proofs::Lists::bent_some, crate::proofs::Lists::bent_none))]
fn is_bent(task: &Task, snap: &Snap, fluent: FluentId) -> bool
    ensures { result ≡ is_in fluent (bent_fluents task.now.parts snap.now) }
{
    match snap.action {
        Some(action) => is_rated(task, snap.kind, action, fluent),
        None => false,
    }
}

/// Whether a step changes a fluent or its rate.
pub fn is_changed(task: &Task, snap: &Snap, fluent: FluentId) -> bool
    ensures { result ≡ changes task.now.parts snap.now fluent }
{
    either(is_written(snap, fluent), is_bent(task, snap, fluent))
}

fn picked_or(
    other: StepForm,
    written: &(FluentId, StepForm),
    fluent: FluentId,
) -> Result<StepForm, NoMemory>
    ensures { IfOk result (λ r. r ≡ (if written.now.0 == fluent then written.now.1 else other)) }
{
    if written.0 == fluent {
        return written.1.copy();
    }
    Ok(other)
}

// The last of a fluent's forms, or another where there is none.
fn last_picked(
    value: StepForm,
    assigns: &[(FluentId, StepForm)],
    fluent: FluentId,
) -> Result<StepForm, NoMemory>
    ensures { IfOk result (λ r. r ≡ last_picked fluent value assigns.now) }
{
    let mut last = value;
    for written in assigns {
        last = picked_or(last, written, fluent)?;
    }
    Ok(last)
}

fn plus_picked(
    sum: StepForm,
    written: &(FluentId, StepForm),
    fluent: FluentId,
) -> Result<StepForm, FormFault>
    ensures { Gives result (CanAddOne (written.now.0 == fluent) sum written.now.1) (λ r. r ≡ plus_picked (written.now.0 == fluent) sum written.now.1) }
{
    if written.0 == fluent {
        return with_scaled(sum, Fraction::of_int(1), &written.1);
    }
    Ok(sum)
}

// A form with those of a fluent added.
fn added_picked(
    form: StepForm,
    increases: &[(FluentId, StepForm)],
    fluent: FluentId,
) -> Result<StepForm, FormFault>
    ensures { Gives result (CanAddPicked fluent form increases.now) (λ r. r ≡ added_picked fluent form increases.now) }
{
    let mut sum = form;
    for written in increases {
        sum = plus_picked(sum, written, fluent)?;
    }
    Ok(sum)
}

// The form of a fluent after the next step, from that before it.
fn changed_form(value: StepForm, next: &Next, fluent: FluentId) -> Result<StepForm, FormFault>
    ensures { Gives result (CanAddPicked fluent (last_picked fluent value next.now.assigns) next.now.increases)
        (λ r. r ≡ added_picked fluent (last_picked fluent value next.now.assigns) next.now.increases) }
{
    let last = last_picked(value, next.assigns.as_slice(), fluent)?;
    added_picked(last, next.increases.as_slice(), fluent)
}

// The rate of a fluent from the next step on.
fn changed_rate(
    ledger: &ListLedger,
    alloc: Global,
    task: &Task,
    next: &Next,
    fluent: FluentId,
) -> Result<Fraction, FormFault>
    requires keeps { Keeps task.now.parts ledger.now }
    requires next { IsNext task.now.parts ledger.now next.now }
    requires more { length ledger.now.changes < length ledger.now.steps }
    ensures { Gives result (AreDefined (rate_made task.now.parts ledger.now.steps next.now.step fluent))
        (λ q. q ≡ (change_at task.now.parts ledger.now.steps next.now.step fluent).rate) }
{
    if is_bent(task, ledger.snap(task, next.step), fluent) {
        return rate_of(alloc, task, next.running.as_slice(), fluent);
    }
    Ok(ledger.rate(fluent))
}

// What the next step makes of a fluent that it changes.
fn change(
    ledger: &ListLedger,
    alloc: Global,
    task: &Task,
    next: &Next,
    fluent: FluentId,
) -> Result<Change, FormFault>
    requires keeps { Keeps task.now.parts ledger.now }
    requires next { IsNext task.now.parts ledger.now next.now }
    requires more { length ledger.now.changes < length ledger.now.steps }
    requires changed { changes task.now.parts (snap_at task.now.parts ledger.now.steps next.now.step) fluent ≡ true }
    ensures { Gives result (AreDefined (change_made task.now.parts ledger.now.steps next.now.step fluent))
        (λ c. c ≡ change_at task.now.parts ledger.now.steps next.now.step fluent) }
{
    let value = ledger.value_before(alloc, task, fluent, next.step)?;
    let form = changed_form(value, next, fluent)?;
    let rate = changed_rate(ledger, alloc, task, next, fluent)?;
    Ok(Change {
        fluent,
        step: next.step,
        form,
        rate,
    })
}

// Puts what the next step makes of a fluent at the end, where it changes it.
fn push_change(
    out: &mut Items<Change>,
    ledger: &ListLedger,
    alloc: Global,
    task: &Task,
    next: &Next,
    fluent: FluentId,
) -> Result<(), FormFault>
    requires keeps { Keeps task.now.parts ledger.now }
    requires next { IsNext task.now.parts ledger.now next.now }
    requires more { length ledger.now.changes < length ledger.now.steps }
    ensures { Gives result (AreDefined (flat_map (change_made task.now.parts ledger.now.steps next.now.step) (filter (changes task.now.parts (snap_at task.now.parts ledger.now.steps next.now.step)) (fluent ∷ []))))
        (λ _. out.new ≡ out.old ++ map (change_at task.now.parts ledger.now.steps next.now.step) (filter (changes task.now.parts (snap_at task.now.parts ledger.now.steps next.now.step)) (fluent ∷ []))) }
{
    if is_changed(task, ledger.snap(task, next.step), fluent) {
        let made = change(ledger, alloc, task, next, fluent)?;
        return push(out, made);
    }
    Ok(())
}

fn push(out: &mut Items<Change>, made: Change) -> Result<(), FormFault>
    ensures { Gives result (Unit {0}) (λ _. out.new ≡ out.old ++ made ∷ []) }
{
    match out.push(made) {
        Ok(()) => Ok(()),
        Err(_) => Err(FormFault::Memory),
    }
}

/// What the next step makes of each fluent that it changes.
pub fn changes_at(
    ledger: &ListLedger,
    alloc: Global,
    task: &Task,
    next: &Next,
) -> Result<Items<Change>, FormFault>
    requires keeps { Keeps task.now.parts ledger.now }
    requires next { IsNext task.now.parts ledger.now next.now }
    requires more { length ledger.now.changes < length ledger.now.steps }
    ensures { Gives result (AreDefined (flat_map (change_made task.now.parts ledger.now.steps next.now.step) (filter (changes task.now.parts (snap_at task.now.parts ledger.now.steps next.now.step)) (numbers (length task.now.parts.fluents)))))
        (λ out. out ≡ changes_at task.now.parts ledger.now.steps next.now.step) }
{
    let mut out = Items::new(alloc);
    for number in 0..task.fluents().len() {
        push_change(
            &mut out,
            ledger,
            alloc,
            task,
            next,
            FluentId::of(number as u32),
        )?;
    }
    Ok(out)
}
