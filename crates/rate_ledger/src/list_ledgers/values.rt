//! The value forms of fluents, and forms over fluents put into them.

ghost use Rattle.std.specs.Prelude.{◌≡◌, ◌<◌, ◌≤◌, length, IfSome, option_to_list};
ghost use Rattle.task_types.specs.declared.parts.TaskParts.{TaskParts};
ghost use Rattle.task_types.specs.WellMade.{IsWellMade};
ghost use Rattle.rate_ledger.specs.Answers.{Makes};
ghost use Rattle.rate_ledger.specs.Entries.{snap_at, own_start, entries, value_before, value_after, value_end};
ghost use Rattle.rate_ledger.specs.Ledgers.{Keeps, IsTold};
ghost use Rattle.rate_ledger.specs.Sums.{put};
ghost use Rattle.rate_ledger.specs.Values.{value_sum};

use crate::changes::latest;
use crate::ends::own_start;
use crate::forms::{StepForm, constant, with_scaled};
use crate::list_ledgers::ListLedger;
use crate::readings::{form_after, form_before, form_end};
use crate::snaps::{initial_value, snap_of};
use crate::whens::When;
use exact_lin::{ActionId, FluentId, Form, FormFault, Fraction, Id, Scalar, StepId};
use std::alloc::Global;
use task_types::{Snap, Task};

impl ListLedger {
    /// The snap action of a step.
    pub fn snap<'a>(&self, task: &'a Task, step: StepId) -> &'a Snap
        requires keeps { Keeps task.now.parts self.now }
        requires step { step < length self.now.steps }
        ensures { result.now ≡ snap_at task.now.parts self.now.steps step }
    {
        snap_of(task, self.steps.as_slice()[step.number() as usize])
    }

    /// The step that started the action of a start or an end, with that action.
    pub fn own_start(&self, task: &Task, step: StepId) -> Option<(StepId, ActionId)>
        requires keeps { Keeps task.now.parts self.now }
        requires step { step < length self.now.steps }
        ensures value { option_to_list result ≡ own_start task.now.parts self.now.steps step }
        ensures early { IfSome result (λ own. own.0 ≤ step) }
    {
        own_start(task, self.steps.as_slice(), step.number() as usize)
    }

    /// The rate of a fluent since the last step that was taken.
    pub fn rate(&self, fluent: FluentId) -> Fraction
        ensures { (task : TaskParts) → IsWellMade task → Keeps task self.now → result ≡ (entries task self.now.steps (length self.now.changes) fluent).rate }
    {
        match latest(self.changes.as_slice(), fluent, self.changes.len()) {
            Some(change) => change.rate,
            None => Fraction::of_int(0),
        }
    }

    /// What a fluent has before a step that was taken, or before the next one.
    pub fn value_before(
        &self,
        alloc: Global,
        task: &Task,
        fluent: FluentId,
        step: StepId,
    ) -> Result<StepForm, FormFault>
        requires keeps { Keeps task.now.parts self.now }
        requires told { step ≤ length self.now.changes }
        ensures { Makes result (value_before task.now.parts self.now.steps step fluent) }
    {
        form_before(
            alloc,
            self.changes.as_slice(),
            initial_value(task, fluent),
            fluent,
            step,
        )
    }

    /// What a fluent has after a step that was taken.
    pub fn value_after(
        &self,
        alloc: Global,
        task: &Task,
        fluent: FluentId,
        step: StepId,
    ) -> Result<StepForm, FormFault>
        requires keeps { Keeps task.now.parts self.now }
        requires told { step < length self.now.changes }
        ensures { Makes result (value_after task.now.parts self.now.steps step fluent) }
    {
        form_after(
            alloc,
            self.changes.as_slice(),
            initial_value(task, fluent),
            fluent,
            step,
        )
    }

    /// What a fluent has at the end, where each step was taken and no action runs.
    pub fn value_end(
        &self,
        alloc: Global,
        task: &Task,
        fluent: FluentId,
    ) -> Result<StepForm, FormFault>
        requires keeps { Keeps task.now.parts self.now }
        requires told { length self.now.changes ≡ length self.now.steps }
        ensures { Makes result (value_end task.now.parts self.now.steps fluent) }
    {
        let form = form_end(
            alloc,
            self.changes.as_slice(),
            initial_value(task, fluent),
            fluent,
        )?;
        Ok(form)
    }

    /// What a fluent has before a step, after it, or at the end.
    pub fn value(
        &self,
        alloc: Global,
        task: &Task,
        fluent: FluentId,
        when: &When,
    ) -> Result<StepForm, FormFault>
        requires keeps { Keeps task.now.parts self.now }
        requires told { IsTold when.now self.now }
        ensures { Makes result (value_sum task.now.parts self.now.steps when.now fluent) }
    {
        match when {
            When::Before(step) => self.value_before(alloc, task, fluent, *step),
            When::After(step) => self.value_after(alloc, task, fluent, *step),
            When::AtEnd => self.value_end(alloc, task, fluent),
        }
    }

    /// A form over fluents put into the forms of their values.
    pub fn put(
        &self,
        alloc: Global,
        task: &Task,
        form: &Form<FluentId, Fraction>,
        when: &When,
    ) -> Result<StepForm, FormFault>
        requires keeps { Keeps task.now.parts self.now }
        requires told { IsTold when.now self.now }
        ensures { Makes result (put (value_sum task.now.parts self.now.steps when.now) form.now) }
    {
        let mut sum = constant(alloc, form.constant());
        for term in form.terms() {
            let value = self.value(alloc, task, term.0, when)?;
            sum = with_scaled(sum, term.1, &value)?;
        }
        Ok(sum)
    }
}
