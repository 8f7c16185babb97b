//! What the changes that are kept tell of the value forms of a fluent.

ghost use Rattle.std.specs.Prelude.{◌≡◌, ◌≤◌, ◌+◌, length, IfOk};
ghost use Rattle.rate_ledger.specs.Answers.{Gives};
ghost use Rattle.rate_ledger.specs.Ledgers.{latest};
ghost use Rattle.rate_ledger.specs.Moving.{form_before, form_after, form_end, CanTellBefore, CanTellAfter};

use crate::changes::{Change, latest};
use crate::forms::{StepForm, constant, left, moved};
use exact_lin::{FluentId, FormFault, Fraction, Id, NoMemory, StepId, VarId};
use sqlite_items::Items;
use std::alloc::Global;

/// The form of a fluent before a step, where it has `first` at first.
pub fn form_before(
    alloc: Global,
    rows: &[Items<Change>],
    first: Fraction,
    fluent: FluentId,
    step: StepId,
) -> Result<StepForm, FormFault>
    requires { step ≤ length rows.now }
    ensures { Gives result (CanTellBefore (latest fluent rows.now step) step) (λ r. r ≡ form_before first (latest fluent rows.now step) step) }
{
    match latest(rows, fluent, step.number() as usize) {
        Some(change) => moved(change, VarId::of(step.number())),
        None => Ok(constant(alloc, first)),
    }
}

/// The form of a fluent after a step.
pub fn form_after(
    alloc: Global,
    rows: &[Items<Change>],
    first: Fraction,
    fluent: FluentId,
    step: StepId,
) -> Result<StepForm, FormFault>
    requires { step + 1 ≤ length rows.now }
    ensures { Gives result (CanTellAfter (latest fluent rows.now (step + 1)) step) (λ r. r ≡ form_after first (latest fluent rows.now (step + 1)) step) }
{
    match latest(rows, fluent, step.number() as usize + 1) {
        Some(change) => left(change, step),
        None => Ok(constant(alloc, first)),
    }
}

/// The form of a fluent after all steps.
pub fn form_end(
    alloc: Global,
    rows: &[Items<Change>],
    first: Fraction,
    fluent: FluentId,
) -> Result<StepForm, NoMemory>
    ensures { IfOk result (λ r. r ≡ form_end first (latest fluent rows.now (length rows.now))) }
{
    match latest(rows, fluent, rows.len()) {
        Some(change) => change.form.copy(),
        None => Ok(constant(alloc, first)),
    }
}
