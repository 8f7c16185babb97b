//! The rows of a step.

ghost use Rattle.std.specs.Prelude.{◌≡◌, ◌<◌, ◌++◌, length, slice_index, OnOk};
ghost use Rattle.rate_ledger.specs.Answers.{Gives};
ghost use Rattle.rate_ledger.specs.Entries.{snap_at};
ghost use Rattle.rate_ledger.specs.Ledgers.{Keeps};
ghost use Rattle.lp_rows.specs.StepRows.{link_rows, placed_rows, watching, step_compared, step_rows};
ghost use Rattle.lp_rows.specs.Comparing.{CanCompare, Pushes};

use crate::durations::push_duration_rows;
use crate::links::push_link_rows;
use crate::own::push_own_rows;
use crate::placed::push_placed_rows;
use crate::rows::OriginRow;
use crate::watching::push_watch_rows;
use exact_lin::{ActionId, FormFault, Id, NoMemory, StepId, VarId};
use rate_ledger::ListLedger;
use sqlite_items::Items;
use std::alloc::Global;
use task_types::{Rules, Task};

// The rows of the comparisons of a step: durations, its own, and over-all ones of the actions that run.
fn push_compared_rows(
    out: &mut Items<OriginRow>,
    ledger: &ListLedger,
    alloc: Global,
    task: &Task,
    step: StepId,
    runs: &[ActionId],
) -> Result<(), FormFault>
    requires keeps { Keeps task.now.parts ledger.now }
    requires told { step < length ledger.now.changes }
    requires there { step < length ledger.now.steps }
    requires runs { runs.now ≡ watching task.now.parts ledger.now.steps step (snap_at task.now.parts ledger.now.steps step).kind }
    ensures { Pushes result out.old out.new (step_compared task.now.parts ledger.now.steps step) }
{
    push_duration_rows(out, ledger, alloc, task, step)?;
    push_own_rows(out, ledger, alloc, task, step)?;
    push_watch_rows(out, ledger, alloc, task, step, runs)?;
    Ok(())
}

// The rows of a step that reckon nothing: its links with the steps before it, and where it is placed.
fn push_given_rows(
    out: &mut Items<OriginRow>,
    ledger: &ListLedger,
    alloc: Global,
    task: &Task,
    rules: &Rules,
    extra: &[(StepId, StepId)],
    last: VarId,
    step: StepId,
) -> Result<(), NoMemory>
    requires keeps { Keeps task.now.parts ledger.now }
    requires there { step < length ledger.now.steps }
    ensures { OnOk result (out.new ≡ out.old ++ (link_rows task.now.parts rules.now (record { steps = ledger.now.steps; extra = extra.now }) step
        ++ placed_rows task.now.parts rules.now last step (slice_index ledger.now.steps step))) }
{
    let steps = ledger.steps.as_slice();
    push_link_rows(out, alloc, task, rules, steps, extra, step)?;
    push_placed_rows(
        out,
        alloc,
        task,
        rules,
        last,
        step,
        steps[step.number() as usize],
    )?;
    Ok(())
}

/// The rows of a step, in their order. `Wide` comes only where a comparison is undefined; variable `last` is the total time,
/// and `runs` are the actions whose over-all conditions are asked at the step.
pub fn push_step_rows(
    out: &mut Items<OriginRow>,
    ledger: &ListLedger,
    alloc: Global,
    task: &Task,
    rules: &Rules,
    extra: &[(StepId, StepId)],
    last: VarId,
    step: StepId,
    runs: &[ActionId],
) -> Result<(), FormFault>
    requires keeps { Keeps task.now.parts ledger.now }
    requires told { step < length ledger.now.changes }
    requires there { step < length ledger.now.steps }
    requires runs { runs.now ≡ watching task.now.parts ledger.now.steps step (snap_at task.now.parts ledger.now.steps step).kind }
    ensures { Gives result (CanCompare (step_compared task.now.parts ledger.now.steps step))
        (λ _. out.new ≡ out.old ++ step_rows task.now.parts rules.now (record { steps = ledger.now.steps; extra = extra.now }) last step) }
{
    push_given_rows(out, ledger, alloc, task, rules, extra, last, step)?;
    push_compared_rows(out, ledger, alloc, task, step, runs)
}
