//! The next step of a list, with what its effects say.

ghost use Rattle.std.specs.Prelude.{◌≡◌, ◌<◌, ◌≤◌, ◌++◌, ◌∷◌, [], length, map, option_to_list, OnOk};
ghost use Rattle.rate_ledger.specs.Answers.{Gives, Makes};
ghost use Rattle.rate_ledger.specs.Entries.{snap_at, own_start, end_variable, amount_sum, value_before};
ghost use Rattle.rate_ledger.specs.Ledgers.{Keeps};
ghost use Rattle.rate_ledger.specs.Picking.{amount_of, CanMakeAmounts, IsNext};

use crate::ends::span;
use crate::forms::{StepForm, with_span};
use crate::list_ledgers::ListLedger;
use crate::running::run_on;
use crate::whens::When;
use exact_lin::{ActionId, FluentId, FormFault, Id, NoMemory, StepId, VarId};
use sqlite_items::Items;
use std::alloc::Global;
use task_types::{Amount, Snap, Task};

/// The next step of a ledger: the forms of the amounts that it assigns and adds, each with its fluent, and the actions
/// that run after it.
#[derive(Drop)]
pub struct Next {
    pub step: StepId,
    pub assigns: Items<(FluentId, StepForm)>,
    pub increases: Items<(FluentId, StepForm)>,
    pub running: Items<ActionId>,
}

// The form of an amount: its form over the values before the step, then its factor times the duration.
fn amount(
    ledger: &ListLedger,
    alloc: Global,
    task: &Task,
    span: &Option<(VarId, VarId)>,
    step: StepId,
    amount: &Amount,
) -> Result<StepForm, FormFault>
    requires keeps { Keeps task.now.parts ledger.now }
    requires told { step ≤ length ledger.now.changes }
    requires span { option_to_list span.now ≡ map (λ own. (own.0, end_variable task.now.parts ledger.now.steps own.0 own.1)) (own_start task.now.parts ledger.now.steps step) }
    ensures { Makes result (amount_sum task.now.parts ledger.now.steps step (value_before task.now.parts ledger.now.steps step) amount.now) }
{
    let form = ledger.put(alloc, task, &amount.form, &When::Before(step))?;
    with_span(form, amount.duration, span)
}

fn push(
    out: &mut Items<(FluentId, StepForm)>,
    fluent: FluentId,
    form: StepForm,
) -> Result<(), NoMemory>
    ensures { OnOk result (out.new ≡ out.old ++ (fluent, form) ∷ []) }
{
    out.push((fluent, form))?;
    Ok(())
}

// The forms of some amounts, each with its fluent.
fn amounts(
    ledger: &ListLedger,
    alloc: Global,
    task: &Task,
    span: &Option<(VarId, VarId)>,
    step: StepId,
    changes: &[(FluentId, Amount)],
) -> Result<Items<(FluentId, StepForm)>, FormFault>
    requires keeps { Keeps task.now.parts ledger.now }
    requires told { step ≤ length ledger.now.changes }
    requires span { option_to_list span.now ≡ map (λ own. (own.0, end_variable task.now.parts ledger.now.steps own.0 own.1)) (own_start task.now.parts ledger.now.steps step) }
    ensures { Gives result (CanMakeAmounts task.now.parts ledger.now.steps step changes.now) (λ out. out ≡ map (amount_of task.now.parts ledger.now.steps step) changes.now) }
{
    let mut out = Items::new(alloc);
    for change in changes {
        let form = amount(ledger, alloc, task, span, step, &change.1)?;
        push(&mut out, change.0, form)?;
    }
    Ok(out)
}

/// The next step of a ledger.
pub fn next_step(ledger: &ListLedger, alloc: Global, task: &Task) -> Result<Next, FormFault>
    requires keeps { Keeps task.now.parts ledger.now }
    requires next { length ledger.now.changes < length ledger.now.steps }
    ensures { Gives result (CanMakeAmounts task.now.parts ledger.now.steps (length ledger.now.changes) ((snap_at task.now.parts ledger.now.steps (length ledger.now.changes)).effect.assigns ++ (snap_at task.now.parts ledger.now.steps (length ledger.now.changes)).effect.increases))
        (λ n. IsNext task.now.parts ledger.now n) }
{
    let count = ledger.changes.len();
    let step = StepId::of(count as u32);
    let snap = ledger.snap(task, step);
    let span = span(
        task,
        ledger.steps.as_slice(),
        ledger.pending.as_slice(),
        count,
    );
    let assigns = amounts(
        ledger,
        alloc,
        task,
        &span,
        step,
        snap.effect.assigns.as_slice(),
    )?;
    let increases = amounts(
        ledger,
        alloc,
        task,
        &span,
        step,
        snap.effect.increases.as_slice(),
    )?;
    let running = run_on(alloc, ledger.running.as_slice(), snap)?;
    Ok(Next {
        step,
        assigns,
        increases,
        running,
    })
}
