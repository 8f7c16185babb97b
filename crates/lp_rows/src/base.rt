//! The rows of all steps of a list.

ghost use Rattle.std.specs.Prelude.{◌≡◌, ◌<◌, ◌++◌, ◌^◌, ◌∷◌, [], suc, length, if◌then◌else◌, IfOk, OnOk};
ghost use Rattle.std.specs.List.{flat_map, AllByRecursion};
ghost use Rattle.task_types.specs.Sets.{numbers};
ghost use Rattle.rate_ledger.specs.Answers.{Gives};
ghost use Rattle.rate_ledger.specs.Ledgers.{Keeps};
ghost use Rattle.rate_ledger.specs.Reckoned.{AreDefined};
ghost use Rattle.lp_rows.specs.StepRows.{is_end, step_rows, step_reckoned};
ghost use Rattle.lp_rows.specs.Faulting.{Tells, fault_at, step_places};

use crate::faults::RowsFault;
use crate::origins::Place;
use crate::rows::OriginRow;
use crate::steps::push_step_rows;
use exact_lin::{ActionId, FormFault, Id, NoMemory, SnapId, StepId, VarId};
use rate_ledger::ListLedger;
use sqlite_items::Items;
use std::alloc::Global;
use task_types::{Rules, SnapKind, Task};

// The actions whose over-all conditions are asked at a step: those that run before an end, or after any other step.
fn asked<'a>(kind: SnapKind, before: &'a [ActionId], after: &'a [ActionId]) -> &'a [ActionId]
    ensures { result.now ≡ (if is_end kind then before.now else after.now) }
{
    match kind {
        SnapKind::Start => after,
        SnapKind::End => before,
        SnapKind::Instant => after,
        SnapKind::Timed => after,
    }
}

fn copied(alloc: Global, actions: &[ActionId]) -> Result<Items<ActionId>, NoMemory>
    ensures { IfOk result (λ out. out ≡ actions.now) }
{
    let out = Items::from_slice(alloc, actions)?;
    Ok(out)
}

// Takes the next step, and puts its rows at the end.
fn push_next(
    out: &mut Items<OriginRow>,
    ledger: &mut ListLedger,
    alloc: Global,
    task: &Task,
    rules: &Rules,
    extra: &[(StepId, StepId)],
    last: VarId,
) -> Result<(), FormFault>
    requires keeps { Keeps task.now.parts ledger.old }
    requires next { length ledger.old.changes < length ledger.old.steps }
    ensures answer { Gives result (AreDefined (step_reckoned task.now.parts ledger.old.steps (length ledger.old.changes)))
        (λ _. out.new ≡ out.old ++ step_rows task.now.parts rules.now (record { steps = ledger.old.steps; extra = extra.now }) last (length ledger.old.changes)) }
    ensures keeps { Keeps task.now.parts ledger.new }
    ensures list { ledger.new.steps ≡ ledger.old.steps }
    ensures taken { OnOk result (length ledger.new.changes ≡ suc (length ledger.old.changes)) }
{
    let step = StepId::of(ledger.changes.len() as u32);
    let before = copied(alloc, ledger.running.as_slice())?;
    ledger.push(alloc, task)?;
    let kind = ledger.snap(task, step).kind;
    let runs = asked(kind, before.as_slice(), ledger.running.as_slice());
    push_step_rows(out, ledger, alloc, task, rules, extra, last, step, runs)
}

fn fault_at(fault: FormFault, place: Place) -> RowsFault
    ensures { result ≡ fault_at fault place }
{
    match fault {
        FormFault::Wide => RowsFault::Wide(place),
        FormFault::Memory => RowsFault::Memory,
    }
}

/// The rows of all steps of a list, and the list's ledger with each step taken; or the first step at which something is
/// undefined.
pub fn push_all(
    out: &mut Items<OriginRow>,
    alloc: Global,
    task: &Task,
    rules: &Rules,
    steps: &[SnapId],
    extra: &[(StepId, StepId)],
    last: VarId,
) -> Result<ListLedger, RowsFault>
    requires few { length steps.now < 2 ^ 31 }
    requires in_range { AllByRecursion (λ s. s < length task.now.parts.snaps) steps.now }
    ensures { Tells result (step_places task.now.parts steps.now (length steps.now))
        (λ l. Keeps task.now.parts l × (l.steps ≡ steps.now) × (length l.changes ≡ length l.steps)
        × (out.new ≡ out.old ++ flat_map (step_rows task.now.parts rules.now (record { steps = steps.now; extra = extra.now }) last) (numbers (length steps.now)))) }
{
    let mut ledger = ListLedger::new(alloc, task, steps)?;
    for number in 0..steps.len() {
        match push_next(out, &mut ledger, alloc, task, rules, extra, last) {
            Ok(()) => {}
            Err(fault) => return Err(fault_at(fault, Place::Step(number as u32 + 1))),
        }
    }
    Ok(ledger)
}
