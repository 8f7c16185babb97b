//! Steps and pairs are put to an ordering one by one, and asked for.

ghost use Rattle.std.specs.Prelude.{◌≡◌, ◌+◌, ◌<◌, ◌++◌, ◌∷◌, ◌&&◌, ◌==◌, ◌↔◌, true, [], length, IfOk, OnOk, OnErr, IsOk, MatchResult, option_to_list};
ghost use Rattle.std.specs.List.{list_any};
ghost use Rattle.task_types.specs.declared.parts.TaskParts.{TaskParts};
ghost use Rattle.task_types.specs.Order.{pair_link, run_on, IsClosedOrdering};
ghost use Rattle.task_types.specs.Plan.{snap_of};
ghost use Rattle.task_types.specs.Sets.{are_distinct};
ghost use Rattle.ordering.specs.Orderings.{order_of, no_steps, with_step, with_pair, BuiltOver};
ghost use Rattle.ordering.specs.Refusals.{Answers, push_refusal, pair_refusal, names_step, closing_refusal};

use crate::closing::open_start;
use crate::faults::OrderFault;
use crate::links::link_of;
use crate::orderings::StepOrdering;
use crate::running::run_step;
use crate::snaps::{has_moment, snap_at};
use exact_lin::{ActionId, Id, NoMemory, SnapId, StepId};
use sqlite_items::Items;
use std::alloc::Global;
use task_types::{Link, Snap, Task};

impl StepOrdering {
    /// An ordering without steps.
    pub fn new(alloc: Global) -> StepOrdering
        ensures empty { order_of result ≡ no_steps }
        ensures over { (task : TaskParts) → BuiltOver task result }
    {
        StepOrdering {
            steps: Items::new(alloc),
            extra: Items::new(alloc),
            running: Items::new(alloc),
            plan_steps: 0,
            timed_steps: 0,
        }
    }

    /// Puts a step at the end, and returns its id. Refused are, in this order, a plan step past the limit, a timed step
    /// that isn't the next one, a start of an action that runs, and an end of one that doesn't. After a refusal the
    /// ordering is as it was.
    pub fn push(&mut self, task: &Task, snap: SnapId) -> Result<StepId, OrderFault>
        requires over { BuiltOver task.now.parts self.old }
        requires in_range { snap < length task.now.parts.snaps }
        ensures answer { Answers (push_refusal task.now.parts (order_of self.old) snap) result }
        ensures step { IfOk result (λ k. k ≡ length self.old.steps) }
        ensures pushed { OnOk result (order_of self.new ≡ with_step (order_of self.old) snap) }
        ensures unchanged { OnErr result (self.new ≡ self.old) }
        ensures over { BuiltOver task.now.parts self.new }
    {
        if let Some(fault) = self.refusal(task, snap) {
            return Err(fault);
        }
        let id = StepId::of(self.steps.len() as u32);
        put_step(
            &mut self.steps,
            &mut self.running,
            snap,
            snap_at(task, snap),
        )?;
        if has_moment(task, snap) {
            self.timed_steps += 1;
        } else {
            self.plan_steps += 1;
        }
        Ok(id)
    }

    /// Sets two steps apart, the first before the second; they count from 1, and may be named twice. Refused are, in
    /// this order, a number that is no step's, and a second step that isn't later. After a refusal the ordering is as it
    /// was.
    pub fn push_pair(&mut self, first: u32, second: u32) -> Result<(), OrderFault>
        ensures answer { Answers (pair_refusal (length self.old.steps) first second) result }
        ensures pushed { OnOk result (order_of self.new ≡ with_pair (order_of self.old) first second) }
        ensures unchanged { OnErr result (self.new ≡ self.old) }
        ensures over { (task : TaskParts) → BuiltOver task self.old → BuiltOver task self.new }
    {
        if !self.has_step(first) || !self.has_step(second) {
            return Err(OrderFault::UnknownStep);
        }
        if first >= second {
            return Err(OrderFault::Cycle);
        }
        self.put_pair(StepId::of(first - 1), StepId::of(second - 1))?;
        Ok(())
    }

    /// Ok where every start has its end and every timed step is there; else the first open start, or that a timed step
    /// isn't there.
    pub fn closed(&self, task: &Task) -> Result<(), OrderFault>
        requires { BuiltOver task.now.parts self.now }
        ensures closed { IsOk result ↔ IsClosedOrdering task.now.parts (order_of self.now) }
        ensures answer { MatchResult result
            (λ _. closing_refusal task.now.parts (order_of self.now) ≡ None)
            (λ fault. closing_refusal task.now.parts (order_of self.now) ≡ Some fault) }
    {
        if let Some(place) = open_start(task, self.steps.as_slice()) {
            return Err(OrderFault::OpenAction(place as u32 + 1));
        }
        if self.timed_steps == task.timed().len() {
            Ok(())
        } else {
            Err(OrderFault::TilMissing)
        }
    }

    /// The snap actions of the steps, in their order.
    pub fn steps(&self) -> &[SnapId]
        ensures { result.now ≡ (order_of self.now).steps }
    {
        self.steps.as_slice()
    }

    /// The extra pairs, as they were pushed.
    pub fn extra(&self) -> &[(StepId, StepId)]
        ensures { result.now ≡ (order_of self.now).extra }
    {
        self.extra.as_slice()
    }

    /// What a step and a later one ask of their times: Apart where an extra pair names them, else the link of their
    /// snap actions.
    pub fn pairs(&self, task: &Task, i: StepId, j: StepId) -> Link
        requires over { BuiltOver task.now.parts self.now }
        requires order { i < j }
        requires within { j < length self.now.steps }
        ensures { result ≡ pair_link task.now.parts (order_of self.now) i j }
    {
        if are_paired(self.extra.as_slice(), i, j) {
            return Link::Apart;
        }
        let steps = self.steps.as_slice();
        link_of(task, steps[i.number() as usize], steps[j.number() as usize])
    }

    fn has_step(&self, number: u32) -> bool
        ensures { result ≡ names_step (length self.now.steps) number }
    {
        number > 0 && number as usize <= self.steps.len()
    }

    fn put_pair(&mut self, first: StepId, second: StepId) -> Result<(), NoMemory>
        requires order { first < second }
        requires within { second < length self.old.steps }
        ensures pushed { OnOk result (self.new ≡ record self.old { extra = self.old.extra ++ (first, second) ∷ [] }) }
        ensures unchanged { OnErr result (self.new ≡ self.old) }
    {
        self.extra.push((first, second))?;
        Ok(())
    }
}

// Puts a step at the end, and lets the actions run that do so after it; after an Err both are as they were.
fn put_step(
    steps: &mut Items<SnapId>,
    running: &mut Items<ActionId>,
    snap: SnapId,
    step: &Snap,
) -> Result<(), NoMemory>
    requires { are_distinct running.old ≡ true }
    ensures steps { OnOk result (steps.new ≡ steps.old ++ snap ∷ []) }
    ensures running { OnOk result
        (running.new ≡ run_on step.now.kind (option_to_list step.now.action) running.old) }
    ensures same_steps { OnErr result (steps.new ≡ steps.old) }
    ensures same_running { OnErr result (running.new ≡ running.old) }
{
    steps.push(snap)?;
    if run_step(running, step).is_err() {
        steps.pop();
        return Err(NoMemory);
    }
    Ok(())
}

fn are_paired(extra: &[(StepId, StepId)], i: StepId, j: StepId) -> bool
    ensures { result ≡ list_any (λ p. (p.0 == i) && (p.1 == j)) extra.now }
{
    extra.iter().any(|p| p.0 == i && p.1 == j)
}
