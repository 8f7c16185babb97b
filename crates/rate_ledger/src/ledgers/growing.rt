//! Steps are pushed one by one, and the values of fluents are asked for between.

ghost use Rattle.std.specs.Prelude.{◌≡◌, ◌<◌, ◌+◌, ◌^◌, ◌++◌, ◌∷◌, [], length, map, slice_index_or, IfOk, OnErr};
ghost use Rattle.std.specs.List.{AllByRecursion};
ghost use Rattle.rational.specs.Rational.{zeroℚ};
ghost use Rattle.task_types.specs.declared.parts.TaskParts.{TaskParts};
ghost use Rattle.task_types.specs.WellMade.{IsWellMade};
ghost use Rattle.rate_ledger.specs.Answers.{Gives, Makes};
ghost use Rattle.rate_ledger.specs.Entries.{entries, value_before, value_after, value_end};
ghost use Rattle.rate_ledger.specs.Ledgers.{Keeps, IsLedgerOf, AllDefined};

use crate::forms::StepForm;
use crate::ledgers::Ledger;
use crate::list_ledgers::ListLedger;
use crate::readings::{form_after, form_before, form_end};
use exact_lin::{FluentId, FormFault, Fraction, Id, NoMemory, Scalar, SnapId, StepId};
use sqlite_items::Items;
use std::alloc::Global;
use task_types::{Fluent, Task};

// What each fluent has at first.
fn first_values(alloc: Global, fluents: &[Fluent]) -> Result<Items<Fraction>, NoMemory>
    ensures { IfOk result (λ out. out ≡ map (λ f. f.value) fluents.now) }
{
    let mut out = Items::new(alloc);
    for fluent in fluents {
        out.push(fluent.value)?;
    }
    Ok(out)
}

fn longer(alloc: Global, steps: &[SnapId], snap: SnapId) -> Result<Items<SnapId>, NoMemory>
    ensures { IfOk result (λ out. out ≡ steps.now ++ snap ∷ []) }
{
    let mut out = Items::from_slice(alloc, steps)?;
    out.push(snap)?;
    Ok(out)
}

// A ledger of a list, each step of which is taken.
fn all_taken(alloc: Global, task: &Task, steps: &[SnapId]) -> Result<ListLedger, FormFault>
    requires few { length steps.now < 2 ^ 31 }
    requires in_range { AllByRecursion (λ s. s < length task.now.parts.snaps) steps.now }
    ensures { Gives result (AllDefined task.now.parts steps.now)
        (λ l. Keeps task.now.parts l × (l.steps ≡ steps.now) × (length l.changes ≡ length l.steps)) }
{
    let mut ledger = ListLedger::new(alloc, task, steps)?;
    for count in 0..steps.len() {
        ledger.push(alloc, task)?;
    }
    Ok(ledger)
}

impl Ledger {
    /// A ledger of a task, without a step.
    pub fn new(alloc: Global, task: &Task) -> Result<Ledger, NoMemory>
        ensures { IfOk result (λ l. IsLedgerOf task.now.parts l × (l.taken.steps ≡ [])) }
    {
        let first = first_values(alloc, task.fluents())?;
        let taken = ListLedger::new(alloc, task, &[])?;
        Ok(Ledger {
            alloc,
            first,
            taken,
        })
    }

    /// Puts a step at the end. It is put there where all that the steps of the longer list reckon is defined, `Wide` comes
    /// only where not all is, and after an Err the ledger is as it was.
    pub fn push(&mut self, task: &Task, snap: SnapId) -> Result<(), FormFault>
        requires ledger { IsLedgerOf task.now.parts self.old }
        requires snap { snap < length task.now.parts.snaps }
        requires few { length self.old.taken.steps + 1 < 2 ^ 31 }
        ensures answer { Gives result (AllDefined task.now.parts (self.old.taken.steps ++ snap ∷ [])) (λ _. self.new.taken.steps ≡ self.old.taken.steps ++ snap ∷ []) }
        ensures ledger { IsLedgerOf task.now.parts self.new }
        ensures err { OnErr result (self.new ≡ self.old) }
    {
        let steps = longer(self.alloc, self.taken.steps.as_slice(), snap)?;
        let taken = all_taken(self.alloc, task, steps.as_slice())?;
        self.taken = taken;
        Ok(())
    }

    /// The rate of a fluent since the last step.
    pub fn rate(&self, fluent: FluentId) -> Fraction
        ensures { (task : TaskParts) → IsWellMade task → IsLedgerOf task self.now → result ≡ (entries task self.now.taken.steps (length self.now.taken.steps) fluent).rate }
    {
        self.taken.rate(fluent)
    }

    /// What a fluent has before a step.
    pub fn value_before(&self, fluent: FluentId, step: StepId) -> Result<StepForm, FormFault>
        requires { step < length self.now.taken.steps }
        ensures { (task : TaskParts) → IsWellMade task → IsLedgerOf task self.now → Makes result (value_before task self.now.taken.steps step fluent) }
    {
        form_before(
            self.alloc,
            self.taken.changes.as_slice(),
            self.first_value(fluent),
            fluent,
            step,
        )
    }

    /// What a fluent has after a step.
    pub fn value_after(&self, fluent: FluentId, step: StepId) -> Result<StepForm, FormFault>
        requires { step < length self.now.taken.steps }
        ensures { (task : TaskParts) → IsWellMade task → IsLedgerOf task self.now → Makes result (value_after task self.now.taken.steps step fluent) }
    {
        form_after(
            self.alloc,
            self.taken.changes.as_slice(),
            self.first_value(fluent),
            fluent,
            step,
        )
    }

    /// What a fluent has at the end, where no action runs.
    pub fn value_end(&self, fluent: FluentId) -> Result<StepForm, FormFault>
        ensures { (task : TaskParts) → IsWellMade task → IsLedgerOf task self.now → Makes result (value_end task self.now.taken.steps fluent) }
    {
        let form = form_end(
            self.alloc,
            self.taken.changes.as_slice(),
            self.first_value(fluent),
            fluent,
        )?;
        Ok(form)
    }

    fn first_value(&self, fluent: FluentId) -> Fraction
        ensures { result ≡ slice_index_or self.now.first fluent zeroℚ }
    {
        match self.first.as_slice().get(fluent.number() as usize) {
            Some(value) => *value,
            None => Fraction::of_int(0),
        }
    }
}
