//! A sweep along the happenings of a plan, with the state changed in place.

ghost use Rattle.std.specs.Prelude.{◌≡◌, ◌++◌, ◌<◌, [], ℕ, suc, IsTrue, OnOk, IfOk, IsPermutation, ◌↔◌};
ghost use Rattle.std.specs.List.{filter};
ghost use Rattle.task_types.specs.declared.parts.TaskParts.{TaskParts};
ghost use Rattle.task_types.specs.Plan.{Plan};
ghost use Rattle.task_types.specs.Course.{count, time_of, steps_at, runs_between, reached, state_before, state_after};
ghost use Rattle.task_types.specs.Reckoned.{by_start, effects_at, move_at, move_to};
ghost use Rattle.timed_meaning.specs.TimedPlans.{IsBuiltFor};
ghost use Rattle.timed_meaning.specs.Answers.{Tells, Facts, Fluents};
ghost use Rattle.timed_meaning.specs.Owned.{owned_steps, steps_of, placed_lines, lines_of};
ghost use Rattle.timed_meaning.specs.Sorts.{NeverFall};
ghost use Rattle.timed_meaning.specs.Standings.{shown, IsKept};

use crate::agendas::Agenda;
use crate::placing::{PlacedLine, find_running};
use crate::plans::TimedPlan;
use crate::standings::Standing;
use crate::states::State;
use crate::steps::{OwnedStep, PlanStep};
use exact_lin::{FormFault, Fraction, NoMemory};
use std::alloc::Global;
use task_types::Task;

/// Goes along the happenings of a plan: before each of them it holds the state before it, `apply` leads to the state
/// after it, and `advance` to the state before the next.
#[derive(Drop)]
pub struct Sweep {
    pub agenda: Agenda,
    pub standing: Standing,
}

impl Sweep {
    ghost use Rattle.timed_meaning.specs.Agendas.{IsAt, IsSomewhere};
    ghost use Rattle.timed_meaning.specs.Sweeps.{IsBefore, IsAfter, IsBetween, GoesOn, steps_met, steps_here};

    /// A sweep before the first happening of a plan, with the initial state of its task.
    pub fn begin(alloc: Global, task: &Task, plan: &TimedPlan) -> Result<Sweep, NoMemory>
        requires { IsBuiltFor task.now.parts plan.now }
        ensures { IfOk result
            (λ s. IsBefore task.now.parts plan.now s × (s.agenda.place ≡ 0) × (steps_met s ≡ [])) }
    {
        let agenda = Agenda::begin(alloc, task.parts(), plan.lines())?;
        let standing = Standing::initial(alloc, task.parts())?;
        Ok(Sweep { agenda, standing })
    }

    /// Applies the steps of the happening.
    pub fn apply(&mut self, task: &Task) -> Result<(), FormFault>
        requires { (plan : Plan) × IsBefore task.now.parts plan self.old
            × (self.old.agenda.place < count task.now.parts plan) }
        ensures { (plan : Plan) → IsBefore task.now.parts plan self.old
            → self.old.agenda.place < count task.now.parts plan
            → Tells result (effects_at task.now.parts plan self.old.agenda.place)
            (λ _. IsAfter task.now.parts plan self.new
            × (self.new.agenda ≡ self.old.agenda)) }
    {
        self.standing.happen(task.parts(), self.agenda.here())
    }

    /// Moves the state on to the next happening; the steps and the lines are still those of the happening behind it.
    pub fn move_on(&mut self, task: &Task) -> Result<(), FormFault>
        requires { (plan : Plan) × IsAfter task.now.parts plan self.old
            × (suc self.old.agenda.place < count task.now.parts plan) }
        ensures { (plan : Plan) → IsAfter task.now.parts plan self.old
            → suc self.old.agenda.place < count task.now.parts plan
            → Tells result (move_at task.now.parts plan self.old.agenda.place)
            (λ _. IsBetween task.now.parts plan self.new
            × (self.new.agenda ≡ self.old.agenda)) }
    {
        let from = self.agenda.time();
        let to = self.agenda.next_time();
        let running = self.agenda.running.as_slice();
        self.standing.advance(task.parts(), running, from, to)
    }

    /// Moves the state on to a time after the happening, with no happening between; where the sweep stands, and the
    /// lines that it tells, are of no more use then.
    pub fn move_to(&mut self, task: &Task, to: Fraction) -> Result<(), FormFault>
        requires { (plan : Plan) × IsAfter task.now.parts plan self.old
            × (self.old.agenda.place < count task.now.parts plan) }
        ensures { (plan : Plan) (k : ℕ) → IsAfter task.now.parts plan self.old
            → self.old.agenda.place ≡ k → k < count task.now.parts plan
            → Tells result (move_to task.now.parts plan k to)
            (λ _. IsKept task.now.parts self.new.standing
            × (shown self.new.standing ≡ reached task.now.parts plan (suc k) to)) }
    {
        let from = self.agenda.time();
        let lines = self.agenda.lines.as_slice();
        match find_running(&mut self.agenda.running, lines, from, to) {
            Ok(()) => {
                let parts = task.parts();
                let running = self.agenda.running.as_slice();
                self.standing.advance(parts, running, from, to)
            }
            Err(_) => Err(FormFault::Memory),
        }
    }

    /// Turns to the next happening, to which the state has been moved.
    pub fn turn(&mut self) -> Result<(), NoMemory>
        requires { (task : TaskParts) × (plan : Plan) × IsBetween task plan self.old
            × (suc self.old.agenda.place < count task plan) }
        ensures { (task : TaskParts) (plan : Plan) → IsBetween task plan self.old
            → suc self.old.agenda.place < count task plan
            → OnOk result (IsBefore task plan self.new
            × (self.new.agenda.place ≡ suc self.old.agenda.place)
            × GoesOn self.old self.new) }
    {
        self.agenda.advance()
    }

    /// Moves on to the next happening.
    pub fn advance(&mut self, task: &Task) -> Result<(), FormFault>
        requires { (plan : Plan) × IsAfter task.now.parts plan self.old
            × (suc self.old.agenda.place < count task.now.parts plan) }
        ensures { (plan : Plan) → IsAfter task.now.parts plan self.old
            → suc self.old.agenda.place < count task.now.parts plan
            → Tells result (move_at task.now.parts plan self.old.agenda.place)
            (λ _. IsBefore task.now.parts plan self.new
            × (self.new.agenda.place ≡ suc self.old.agenda.place)
            × GoesOn self.old self.new) }
    {
        match self.move_on(task) {
            Ok(()) => match self.turn() {
                Ok(()) => Ok(()),
                Err(_) => Err(FormFault::Memory),
            },
            Err(fault) => Err(fault),
        }
    }

    /// Goes on to the state before the next happening.
    pub fn step(&mut self, task: &Task) -> Result<(), FormFault>
        requires { (plan : Plan) × IsBefore task.now.parts plan self.old
            × (suc self.old.agenda.place < count task.now.parts plan) }
        ensures { (plan : Plan) → IsBefore task.now.parts plan self.old
            → suc self.old.agenda.place < count task.now.parts plan
            → Tells result (effects_at task.now.parts plan self.old.agenda.place
            ++ move_at task.now.parts plan self.old.agenda.place)
            (λ _. IsBefore task.now.parts plan self.new
            × (self.new.agenda.place ≡ suc self.old.agenda.place)
            × GoesOn self.old self.new) }
    {
        match self.apply(task) {
            Ok(()) => self.advance(task),
            Err(fault) => Err(fault),
        }
    }

    /// Which facts hold in the state.
    pub fn facts(&self) -> &[bool]
        ensures held { result.now ≡ self.now.standing.facts.items }
        ensures before { (task : TaskParts) (plan : Plan) → IsBefore task plan self.now
            → Facts task result.now (state_before task plan self.now.agenda.place) }
        ensures after { (task : TaskParts) (plan : Plan) → IsAfter task plan self.now
            → Facts task result.now (state_after task plan self.now.agenda.place) }
        ensures between { (task : TaskParts) (plan : Plan) → IsBetween task plan self.now
            → Facts task result.now (state_before task plan (suc self.now.agenda.place)) }
    {
        self.standing.facts.as_slice()
    }

    /// The values of the fluents in the state.
    pub fn fluents(&self) -> &[Fraction]
        ensures held { result.now ≡ self.now.standing.fluents.items }
        ensures before { (task : TaskParts) (plan : Plan) → IsBefore task plan self.now
            → Fluents task result.now (state_before task plan self.now.agenda.place) }
        ensures after { (task : TaskParts) (plan : Plan) → IsAfter task plan self.now
            → Fluents task result.now (state_after task plan self.now.agenda.place) }
        ensures between { (task : TaskParts) (plan : Plan) → IsBetween task plan self.now
            → Fluents task result.now (state_before task plan (suc self.now.agenda.place)) }
    {
        self.standing.fluents.as_slice()
    }

    /// The number of the happening; they count from 0.
    pub fn place(&self) -> usize
        ensures { result ≡ self.now.agenda.place }
    {
        self.agenda.place
    }

    /// The steps of the happening, in the order of the definition.
    pub fn here(&self) -> &[PlanStep]
        requires { IsSomewhere self.now.agenda }
        ensures { (task : TaskParts) (plan : Plan) → IsAt task plan self.now.agenda
            → self.now.agenda.place < count task plan
            → result.now ≡ steps_at task plan (time_of task plan self.now.agenda.place) }
    {
        self.agenda.here()
    }

    /// The time of the happening.
    pub fn time(&self) -> Fraction
        requires { (task : TaskParts) × (plan : Plan) × IsAt task plan self.now.agenda
            × (self.now.agenda.place < count task plan) }
        ensures { (task : TaskParts) (plan : Plan) → IsAt task plan self.now.agenda
            → self.now.agenda.place < count task plan
            → result ≡ time_of task plan self.now.agenda.place }
    {
        self.agenda.time()
    }

    /// Whether there is a next happening.
    pub fn has_next(&self) -> bool
        ensures { (task : TaskParts) (plan : Plan) → IsAt task plan self.now.agenda
            → IsTrue result ↔ (suc self.now.agenda.place < count task plan) }
    {
        self.agenda.next < self.agenda.steps.as_slice().len()
    }

    /// The steps of the happening with their owners.
    pub fn owned_here(&self) -> &[OwnedStep]
        requires { IsSomewhere self.now.agenda }
        ensures here { result.now ≡ steps_here self.now }
        ensures steps { (task : TaskParts) (plan : Plan) → IsAt task plan self.now.agenda
            → self.now.agenda.place < count task plan
            → steps_of result.now ≡ steps_at task plan (time_of task plan self.now.agenda.place) }
    {
        self.agenda.owned_here()
    }

    /// All steps of the plan with their owners, in the order of their times.
    pub fn all_owned(&self) -> &[OwnedStep]
        ensures all { result.now ≡ self.now.agenda.owned.items }
        ensures steps { (task : TaskParts) (plan : Plan) → IsAt task plan self.now.agenda
            → IsPermutation (owned_steps task plan) result.now }
        ensures falls { (task : TaskParts) (plan : Plan) → IsAt task plan self.now.agenda
            → NeverFall (steps_of result.now) }
    {
        self.agenda.owned.as_slice()
    }

    /// The lines that run from this happening to the next with their places, in the order of their starts.
    pub fn running(&self) -> &[PlacedLine]
        ensures held { result.now ≡ self.now.agenda.running.items }
        ensures lines { (task : TaskParts) (plan : Plan) → IsAt task plan self.now.agenda
            → suc self.now.agenda.place < count task plan
            → lines_of result.now ≡ by_start (filter (runs_between
            (time_of task plan self.now.agenda.place)
            (time_of task plan (suc self.now.agenda.place))) plan) }
        ensures places { (task : TaskParts) (plan : Plan) → IsAt task plan self.now.agenda
            → suc self.now.agenda.place < count task plan
            → IsPermutation (filter (λ p. runs_between
            (time_of task plan self.now.agenda.place)
            (time_of task plan (suc self.now.agenda.place)) p.line) (placed_lines plan)) result.now }
    {
        self.agenda.running.as_slice()
    }

    /// The state by itself.
    pub fn into_state(self) -> State
        ensures { (result.facts.items ≡ self.standing.facts.items)
            × (result.fluents.items ≡ self.standing.fluents.items) }
    {
        let standing = self.standing;
        standing.into_state()
    }
}
