//! The rows of over-all comparisons.

ghost use Rattle.std.specs.Prelude.{◌≡◌, ◌<◌, ◌≤◌, ◌+◌, ◌^◌, ◌&&◌, ◌∷◌, ◌++◌, [], suc, length, map, not, true, false, take, if◌then◌else◌, option_to_list};
ghost use Rattle.std.specs.List.{list_any, flat_map, enumerate_from};
ghost use Rattle.task_types.specs.Plan.{action_of};
ghost use Rattle.task_types.specs.Sets.{is_in};
ghost use Rattle.task_types.specs.Clash.{form_fluents};
ghost use Rattle.task_types.specs.Blocking.{start_number};
ghost use Rattle.ordering.specs.Along.{changes};
ghost use Rattle.rate_ledger.specs.Answers.{Makes};
ghost use Rattle.rate_ledger.specs.Entries.{snap_at, value_before, value_after};
ghost use Rattle.rate_ledger.specs.Ledgers.{Keeps};
ghost use Rattle.rate_ledger.specs.Sums.{put};
ghost use Rattle.lp_rows.specs.StepRows.{watched, watching, watch_compared};
ghost use Rattle.lp_rows.specs.Comparing.{Pushes, asked_before, asked_after, asked_sides, watch_of, action_watch, running_watch};

use crate::comparing::push_row;
use crate::origins::Origin;
use crate::rows::OriginRow;
use exact_lin::{ActionId, FluentId, Form, FormFault, Fraction, Id, SnapId, StepId, VarId};
use rate_ledger::{ListLedger, When, is_changed};
use sqlite_items::Items;
use std::alloc::Global;
use task_types::{Snap, SnapKind, Task};

fn changes_any(task: &Task, snap: &Snap, terms: &[(FluentId, Fraction)]) -> bool
    ensures { result ≡ list_any (λ t. changes task.now.parts snap.now t.0) terms.now }
{
    terms.iter().any(|term| is_changed(task, snap, term.0))
}

// Whether a step changes a fluent of a form.
fn is_disturbed(task: &Task, snap: &Snap, form: &Form<FluentId, Fraction>) -> bool
    ensures { result ≡ list_any (changes task.now.parts snap.now) (form_fluents form.now) }
{
    changes_any(task, snap, form.terms())
}

// Whether a comparison is asked before a step: at the action's own end, or where the step changes a fluent of it.
fn asked_before(kind: SnapKind, own: bool, changed: bool) -> bool
    ensures { result ≡ asked_before kind own changed }
{
    if own {
        matches!(kind, SnapKind::End)
    } else {
        changed
    }
}

fn asked_after(kind: SnapKind, own: bool, changed: bool) -> bool
    ensures { result ≡ asked_after kind own changed }
{
    if own {
        matches!(kind, SnapKind::Start)
    } else {
        changed
    }
}

// The number, from 1, of the last of some steps that starts an action, or 0.
fn start_number(task: &Task, action: ActionId, steps: &[SnapId]) -> u32
    requires { length steps.now < 2 ^ 31 }
    ensures { result ≡ start_number task.now.parts action 1 steps.now 0 }
{
    let start = start_of(task, action);
    let mut found = 0;
    for (place, step) in steps.iter().enumerate() {
        if start == *step {
            found = place as u32 + 1;
        }
    }
    found
}

fn start_of(task: &Task, action: ActionId) -> SnapId
    ensures { result ≡ (action_of task.now.parts action).start }
{
    match task.actions().get(action.number() as usize) {
        Some(action) => action.start,
        None => SnapId::of(0),
    }
}

// A form over the values before a step, or after it.
fn on_side(
    ledger: &ListLedger,
    alloc: Global,
    task: &Task,
    step: StepId,
    form: &Form<FluentId, Fraction>,
    before: bool,
) -> Result<Form<VarId, Fraction>, FormFault>
    requires keeps { Keeps task.now.parts ledger.now }
    requires told { step < length ledger.now.changes }
    ensures { Makes result (put (if before then value_before task.now.parts ledger.now.steps step else value_after task.now.parts ledger.now.steps step) form.now) }
{
    if before {
        return ledger.put(alloc, task, form, &When::Before(step));
    }
    ledger.put(alloc, task, form, &When::After(step))
}

// The row of a comparison before or after a step: number `number` of the conditions of the action that step `start`
// started, counted from 1.
fn push_side(
    out: &mut Items<OriginRow>,
    ledger: &ListLedger,
    alloc: Global,
    task: &Task,
    step: StepId,
    start: u32,
    number: u32,
    form: &Form<FluentId, Fraction>,
    before: bool,
) -> Result<(), FormFault>
    requires keeps { Keeps task.now.parts ledger.now }
    requires told { step < length ledger.now.changes }
    ensures { Pushes result out.old out.new (watched task.now.parts ledger.now.steps step start number form.now before ∷ []) }
{
    let value = on_side(ledger, alloc, task, step, form, before)?;
    push_row(
        out,
        alloc,
        &value,
        true,
        Origin::Watch(start, number, before, step.number() + 1),
    )
}

// The rows of a comparison on the sides on which it is asked.
fn push_sides(
    out: &mut Items<OriginRow>,
    ledger: &ListLedger,
    alloc: Global,
    task: &Task,
    step: StepId,
    start: u32,
    number: u32,
    form: &Form<FluentId, Fraction>,
    before: bool,
    after: bool,
) -> Result<(), FormFault>
    requires keeps { Keeps task.now.parts ledger.now }
    requires told { step < length ledger.now.changes }
    ensures { Pushes result out.old out.new (map (watched task.now.parts ledger.now.steps step start number form.now) (asked_sides before after)) }
{
    if before {
        push_side(out, ledger, alloc, task, step, start, number, form, true)?;
    }
    if after {
        push_side(out, ledger, alloc, task, step, start, number, form, false)?;
    }
    Ok(())
}

// The rows of one over-all comparison of an action that runs; `own` says whether the step starts or ends it itself.
fn push_watch(
    out: &mut Items<OriginRow>,
    ledger: &ListLedger,
    alloc: Global,
    task: &Task,
    step: StepId,
    start: u32,
    own: bool,
    number: u32,
    form: &Form<FluentId, Fraction>,
) -> Result<(), FormFault>
    requires keeps { Keeps task.now.parts ledger.now }
    requires told { step < length ledger.now.changes }
    requires there { step < length ledger.now.steps }
    ensures { Pushes result out.old out.new (watch_of task.now.parts ledger.now.steps step start own (number, form.now)) }
{
    let snap = ledger.snap(task, step);
    let changed = is_disturbed(task, snap, form);
    let before = asked_before(snap.kind, own, changed);
    let after = asked_after(snap.kind, own, changed);
    push_sides(
        out, ledger, alloc, task, step, start, number, form, before, after,
    )
}

// The rows of over-all comparisons of an action that runs, numbered from `first` on.
fn push_numbered(
    out: &mut Items<OriginRow>,
    ledger: &ListLedger,
    alloc: Global,
    task: &Task,
    step: StepId,
    start: u32,
    own: bool,
    first: u32,
    forms: &[Form<FluentId, Fraction>],
) -> Result<(), FormFault>
    requires keeps { Keeps task.now.parts ledger.now }
    requires told { step < length ledger.now.changes }
    requires there { step < length ledger.now.steps }
    requires few { first + length forms.now < 2 ^ 32 }
    ensures { Pushes result out.old out.new (flat_map (watch_of task.now.parts ledger.now.steps step start own) (enumerate_from first forms.now)) }
{
    for (place, form) in forms.iter().enumerate() {
        push_watch(
            out,
            ledger,
            alloc,
            task,
            step,
            start,
            own,
            first + place as u32,
            form,
        )?;
    }
    Ok(())
}

// The rows of the over-all comparisons of an action that runs.
fn push_action(
    out: &mut Items<OriginRow>,
    ledger: &ListLedger,
    alloc: Global,
    task: &Task,
    step: StepId,
    start: u32,
    own: bool,
    action: ActionId,
) -> Result<(), FormFault>
    requires keeps { Keeps task.now.parts ledger.now }
    requires told { step < length ledger.now.changes }
    requires there { step < length ledger.now.steps }
    ensures { Pushes result out.old out.new (action_watch task.now.parts ledger.now.steps step start own action) }
{
    match task.actions().get(action.number() as usize) {
        Some(action) => {
            let over_all = &action.over_all;
            let first = over_all.literals.len() as u32 + 1;
            let forms = over_all.comparisons.as_slice();
            push_numbered(out, ledger, alloc, task, step, start, own, first, forms)
        }
        None => Ok(()),
    }
}

fn is_own(snap: &Snap, action: ActionId) -> bool
    ensures { result ≡ is_in action (option_to_list snap.now.action) }
{
    match snap.action {
        Some(own) => own == action,
        None => false,
    }
}

// The rows of the over-all comparisons of an action that runs at a step.
fn push_running(
    out: &mut Items<OriginRow>,
    ledger: &ListLedger,
    alloc: Global,
    task: &Task,
    step: StepId,
    action: ActionId,
) -> Result<(), FormFault>
    requires keeps { Keeps task.now.parts ledger.now }
    requires told { step < length ledger.now.changes }
    requires there { step < length ledger.now.steps }
    ensures { Pushes result out.old out.new (running_watch task.now.parts ledger.now.steps step action) }
{
    let start = start_number(
        task,
        action,
        &ledger.steps.as_slice()[..step.number() as usize + 1],
    );
    let own = is_own(ledger.snap(task, step), action);
    push_action(out, ledger, alloc, task, step, start, own, action)
}

/// The rows of the over-all comparisons that are asked at a step, of the actions that run there.
pub fn push_watch_rows(
    out: &mut Items<OriginRow>,
    ledger: &ListLedger,
    alloc: Global,
    task: &Task,
    step: StepId,
    runs: &[ActionId],
) -> Result<(), FormFault>
    requires keeps { Keeps task.now.parts ledger.now }
    requires told { step < length ledger.now.changes }
    requires there { step < length ledger.now.steps }
    requires runs { runs.now ≡ watching task.now.parts ledger.now.steps step (snap_at task.now.parts ledger.now.steps step).kind }
    ensures { Pushes result out.old out.new (watch_compared task.now.parts ledger.now.steps step) }
{
    for action in runs {
        push_running(out, ledger, alloc, task, step, *action)?;
    }
    Ok(())
}
