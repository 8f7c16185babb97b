//! The rows of a step's own comparisons.

ghost use Rattle.std.specs.Prelude.{◌≡◌, ◌<◌, ◌≤◌, ◌+◌, ◌^◌, ◌∷◌, [], suc, length, map};
ghost use Rattle.std.specs.List.{enumerate_from};
ghost use Rattle.rate_ledger.specs.Entries.{snap_at};
ghost use Rattle.rate_ledger.specs.Ledgers.{Keeps};
ghost use Rattle.lp_rows.specs.StepRows.{own_origin, own_compared};
ghost use Rattle.lp_rows.specs.Comparing.{Pushes, own_of};

use crate::comparing::push_row;
use crate::origins::Origin;
use crate::rows::OriginRow;
use exact_lin::{FluentId, Form, FormFault, Fraction, Id, StepId};
use rate_ledger::{ListLedger, When};
use sqlite_items::Items;
use std::alloc::Global;
use task_types::{SnapKind, Task};

fn own_origin(kind: SnapKind, step: u32, number: u32) -> Origin
    ensures { result ≡ own_origin kind step number }
{
    match kind {
        SnapKind::Start => Origin::AtStart(step, number),
        SnapKind::End => Origin::AtEnd(step, number),
        SnapKind::Instant => Origin::AtStart(step, number),
        SnapKind::Timed => Origin::AtStart(step, number),
    }
}

// The row of one comparison, which has a number among the conditions of the step.
fn push_own(
    out: &mut Items<OriginRow>,
    ledger: &ListLedger,
    alloc: Global,
    task: &Task,
    step: StepId,
    number: u32,
    form: &Form<FluentId, Fraction>,
) -> Result<(), FormFault>
    requires keeps { Keeps task.now.parts ledger.now }
    requires told { step ≤ length ledger.now.changes }
    requires there { step < length ledger.now.steps }
    ensures { Pushes result out.old out.new (own_of task.now.parts ledger.now.steps step (number, form.now) ∷ []) }
{
    let value = ledger.put(alloc, task, form, &When::Before(step))?;
    let kind = ledger.snap(task, step).kind;
    push_row(
        out,
        alloc,
        &value,
        true,
        own_origin(kind, step.number() + 1, number),
    )
}

// The rows of comparisons, numbered from `first` on.
fn push_numbered(
    out: &mut Items<OriginRow>,
    ledger: &ListLedger,
    alloc: Global,
    task: &Task,
    step: StepId,
    first: u32,
    forms: &[Form<FluentId, Fraction>],
) -> Result<(), FormFault>
    requires keeps { Keeps task.now.parts ledger.now }
    requires told { step ≤ length ledger.now.changes }
    requires there { step < length ledger.now.steps }
    requires few { first + length forms.now < 2 ^ 32 }
    ensures { Pushes result out.old out.new (map (own_of task.now.parts ledger.now.steps step) (enumerate_from first forms.now)) }
{
    for (place, form) in forms.iter().enumerate() {
        push_own(out, ledger, alloc, task, step, first + place as u32, form)?;
    }
    Ok(())
}

/// The rows of the own comparisons of a step.
pub fn push_own_rows(
    out: &mut Items<OriginRow>,
    ledger: &ListLedger,
    alloc: Global,
    task: &Task,
    step: StepId,
) -> Result<(), FormFault>
    requires keeps { Keeps task.now.parts ledger.now }
    requires told { step ≤ length ledger.now.changes }
    requires there { step < length ledger.now.steps }
    ensures { Pushes result out.old out.new (own_compared task.now.parts ledger.now.steps step) }
{
    let snap = ledger.snap(task, step);
    let first = snap.condition.literals.len() as u32 + 1;
    push_numbered(
        out,
        ledger,
        alloc,
        task,
        step,
        first,
        snap.condition.comparisons.as_slice(),
    )
}
