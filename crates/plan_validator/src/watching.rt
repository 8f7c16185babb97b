//! One pass over the happenings of a plan, which reads and changes the state and notes what duties ask.

ghost use Rattle.std.specs.Prelude.{◌≡◌, ◌-◌, ◌<◌, ◌++◌, ◌∷◌, [], ◌^◌, ℕ, suc, List, length, map, IfOk};
ghost use Rattle.std.specs.List.{AllByRecursion, flat_map};
ghost use Rattle.exact_lin.specs.Reckonings.{Sum};
ghost use Rattle.task_types.specs.declared.constraints.Trail.{Trail as Constraint};
ghost use Rattle.task_types.specs.declared.parts.Rules.{Rules as AllRules};
ghost use Rattle.task_types.specs.declared.parts.TaskParts.{TaskParts};
ghost use Rattle.task_types.specs.Plan.{Plan};
ghost use Rattle.task_types.specs.Course.{count, time_of, steps_at, state_before, state_after};
ghost use Rattle.task_types.specs.Reckoned.{read_reckoned, effects_at, move_at, whole_at};
ghost use Rattle.task_types.specs.State.{State};
ghost use Rattle.task_types.specs.Touch.{trail_facts};
ghost use Rattle.task_types.specs.Trace.{Trace};
ghost use Rattle.timed_meaning.specs.Agendas.{IsAt};
ghost use Rattle.timed_meaning.specs.Standings.{IsKept, shown};
ghost use Rattle.timed_meaning.specs.Answers.{Tells};
ghost use Rattle.timed_meaning.specs.TimedPlans.{IsBuiltFor};
ghost use Rattle.timed_meaning.specs.Sweeps.{IsBefore, IsAfter, IsBetween, steps_here};
ghost use Rattle.trajectory.specs.Following.{constraint_of, states_taken};
ghost use Rattle.plan_validator.specs.Firsts.{all_noted};
ghost use Rattle.plan_validator.specs.Following.{AreFollowing, AreBelow};
ghost use Rattle.plan_validator.specs.Readings.{with_steps};
ghost use Rattle.plan_validator.specs.Segments.{over_all_values, over_all_note, running_over};
ghost use Rattle.plan_validator.specs.Watching.{moment_after, visit_reckoned, end_reckoned, over_all_at, IsWatching, HasVisited, HasLeft};

use crate::following::{follow_all, step_all};
use crate::least::Least;
use crate::overalls::note_running;
use crate::readings::{Readings, read_steps};
use exact_lin::{FormFault, NoMemory, Scalar, Wide};
use std::alloc::Global;
use task_types::{Rules, Task};
use timed_meaning::{Sweep, TimedPlan};
use trajectory::Automaton;

/// A sweep with the least places of unmet duties so far, and the hard constraints followed along the states.
#[derive(Drop)]
pub struct Watch {
    pub sweep: Sweep,
    pub readings: Readings,
    pub over_alls: Least,
    pub automata: Vec<Automaton>,
}

// Reads what the steps of a happening read.
fn read_here(
    readings: &mut Readings,
    sweep: &Sweep,
    task: &Task,
    rules: &Rules,
) -> Result<(), FormFault>
    requires { (plan : Plan) × IsBefore task.now.parts plan sweep.now
        × (sweep.now.agenda.place < count task.now.parts plan) }
    ensures { (plan : Plan) (k : ℕ) → IsBefore task.now.parts plan sweep.now
        → sweep.now.agenda.place ≡ k → k < count task.now.parts plan
        → Tells result (flat_map (read_reckoned task.now.parts (state_before task.now.parts plan k))
        (steps_at task.now.parts plan (time_of task.now.parts plan k)))
        (λ _. readings.new ≡ with_steps task.now.parts rules.now
        (state_before task.now.parts plan k) readings.old (steps_here sweep.now)) }
{
    let here = sweep.owned_here();
    read_steps(
        readings,
        task.parts(),
        rules,
        here,
        sweep.facts(),
        sweep.fluents(),
    )
}

// Reckons the time of a happening plus epsilon.
fn add_epsilon(sweep: &Sweep, rules: &Rules) -> Result<(), FormFault>
    requires { (task : TaskParts) × (plan : Plan) × IsAt task plan sweep.now.agenda
        × (sweep.now.agenda.place < count task plan) }
    ensures { (task : TaskParts) (plan : Plan) → IsAt task plan sweep.now.agenda
        → sweep.now.agenda.place < count task plan
        → Tells result (Sum (time_of task plan sweep.now.agenda.place) rules.now.epsilon ∷ [])
        (λ _. sweep.now ≡ sweep.now) }
{
    match sweep.time().add(rules.epsilon) {
        Ok(_) => Ok(()),
        Err(Wide) => Err(FormFault::Wide),
    }
}

// Changes the state by the steps of a happening, and hands it to the automata.
fn change_here(
    sweep: &mut Sweep,
    automata: &mut Vec<Automaton>,
    task: &Task,
    rules: &Rules,
) -> Result<(), FormFault>
    requires before { (plan : Plan) × IsBefore task.now.parts plan sweep.old
        × (sweep.old.agenda.place < count task.now.parts plan) }
    requires covered { AllByRecursion (λ a. AreBelow (length task.now.parts.facts)
        (trail_facts (constraint_of a))) automata.old.items }
    requires room { AllByRecursion (λ a. states_taken a < 2 ^ 32 - 1) automata.old.items }
    ensures { (plan : Plan) (k : ℕ) → IsBefore task.now.parts plan sweep.old
        → sweep.old.agenda.place ≡ k → k < count task.now.parts plan
        → Tells result (effects_at task.now.parts plan k
        ++ (Sum (time_of task.now.parts plan k) rules.now.epsilon ∷ []))
        (λ _. IsAfter task.now.parts plan sweep.new × (sweep.new.agenda ≡ sweep.old.agenda)
        × ((hard : List Constraint) (states : Trace) → AreFollowing hard automata.old.items states
        → AreFollowing hard automata.new.items (states ++ moment_after task.now.parts plan k ∷ []))) }
{
    match sweep.apply(task) {
        Ok(()) => {
            step_all(automata, sweep.facts());
            add_epsilon(sweep, rules)
        }
        Err(fault) => Err(fault),
    }
}

// Notes at a segment whether over-all conditions hold in the state in which a sweep stands.
fn note_end(over_alls: &mut Least, sweep: &Sweep, task: &Task) -> Result<(), FormFault>
    requires { (plan : Plan) × IsAt task.now.parts plan sweep.now.agenda
        × IsKept task.now.parts sweep.now.standing
        × (suc sweep.now.agenda.place < count task.now.parts plan) }
    ensures { (plan : Plan) (k : ℕ) (s : State) → IsAt task.now.parts plan sweep.now.agenda
        → sweep.now.agenda.place ≡ k → suc k < count task.now.parts plan
        → shown sweep.now.standing ≡ s
        → Tells result (flat_map (over_all_values task.now.parts s)
        (running_over task.now.parts plan sweep.now.agenda.lines.items k))
        (λ _. over_alls.new.place ≡ all_noted over_alls.old.place
        (map (over_all_note task.now.parts k s)
        (running_over task.now.parts plan sweep.now.agenda.lines.items k))) }
{
    let running = sweep.running();
    let segment = sweep.place();
    note_running(
        over_alls,
        task.parts(),
        running,
        segment,
        sweep.facts(),
        sweep.fluents(),
    )
}

impl Watch {
    /// A pass that stands before the first happening.
    pub fn begin(alloc: Global, task: &Task, plan: &TimedPlan) -> Result<Watch, NoMemory>
        requires { IsBuiltFor task.now.parts plan.now }
        ensures { (rules : AllRules) → IfOk result
            (λ w. IsWatching task.now.parts rules plan.now w 0) }
    {
        let sweep = Sweep::begin(alloc, task, plan)?;
        let mut automata = follow_all(alloc, task.hard())?;
        step_all(&mut automata, sweep.facts());
        Ok(Watch {
            sweep,
            readings: Readings::new(),
            over_alls: Least::new(),
            automata,
        })
    }

    /// Reads and changes the state at a happening.
    pub fn visit(&mut self, task: &Task, rules: &Rules) -> Result<(), FormFault>
        requires { (plan : Plan) × (k : ℕ) × IsWatching task.now.parts rules.now plan self.old k
            × IsBuiltFor task.now.parts plan × (k < count task.now.parts plan) }
        ensures { (plan : Plan) (k : ℕ) → IsWatching task.now.parts rules.now plan self.old k
            → k < count task.now.parts plan
            → Tells result (visit_reckoned task.now.parts rules.now plan k)
            (λ _. HasVisited task.now.parts rules.now plan self.new k
            × (self.new.sweep.agenda ≡ self.old.sweep.agenda)) }
    {
        match read_here(&mut self.readings, &self.sweep, task, rules) {
            Ok(()) => change_here(&mut self.sweep, &mut self.automata, task, rules),
            Err(fault) => Err(fault),
        }
    }

    // Leaves a happening: notes over-all conditions in the state after it, and moves the state on.
    fn leave(&mut self, task: &Task) -> Result<(), FormFault>
        requires { (rules : AllRules) × (plan : Plan) × (k : ℕ)
            × HasVisited task.now.parts rules plan self.old k
            × (suc k < count task.now.parts plan) }
        ensures { (rules : AllRules) (plan : Plan) (k : ℕ)
            → HasVisited task.now.parts rules plan self.old k → suc k < count task.now.parts plan
            → Tells result (end_reckoned task.now.parts plan self.old
            (state_after task.now.parts plan k) k ++ move_at task.now.parts plan k)
            (λ _. HasLeft task.now.parts rules plan self.new k
            × (self.new.sweep.agenda ≡ self.old.sweep.agenda)) }
    {
        match note_end(&mut self.over_alls, &self.sweep, task) {
            Ok(()) => self.sweep.move_on(task),
            Err(fault) => Err(fault),
        }
    }

    // Arrives at the next happening: notes over-all conditions in the state before it.
    fn arrive(&mut self, task: &Task) -> Result<(), FormFault>
        requires { (rules : AllRules) × (plan : Plan) × (k : ℕ)
            × HasLeft task.now.parts rules plan self.old k
            × (suc k < count task.now.parts plan) }
        ensures { (rules : AllRules) (plan : Plan) (k : ℕ)
            → HasLeft task.now.parts rules plan self.old k → suc k < count task.now.parts plan
            → Tells result (end_reckoned task.now.parts plan self.old
            (state_before task.now.parts plan (suc k)) k)
            (λ _. IsWatching task.now.parts rules plan self.new (suc k)) }
    {
        let sweep = &self.sweep;
        match note_end(&mut self.over_alls, sweep, task) {
            Ok(()) => match self.sweep.turn() {
                Ok(()) => Ok(()),
                Err(_) => Err(FormFault::Memory),
            },
            Err(fault) => Err(fault),
        }
    }

    /// Goes on to the next happening.
    pub fn cross(&mut self, task: &Task) -> Result<(), FormFault>
        requires { (rules : AllRules) × (plan : Plan) × (k : ℕ)
            × HasVisited task.now.parts rules plan self.old k
            × (suc k < count task.now.parts plan) }
        ensures { (rules : AllRules) (plan : Plan) (k : ℕ)
            → HasVisited task.now.parts rules plan self.old k → suc k < count task.now.parts plan
            → Tells result (move_at task.now.parts plan k ++ over_all_at task.now.parts plan k)
            (λ _. IsWatching task.now.parts rules plan self.new (suc k)) }
    {
        match self.leave(task) {
            Ok(()) => self.arrive(task),
            Err(fault) => Err(fault),
        }
    }

    /// Reads and changes the state at a happening, and goes on to the next.
    pub fn step(&mut self, task: &Task, rules: &Rules) -> Result<(), FormFault>
        requires { (plan : Plan) × (k : ℕ) × IsWatching task.now.parts rules.now plan self.old k
            × IsBuiltFor task.now.parts plan × (suc k < count task.now.parts plan) }
        ensures { (plan : Plan) (k : ℕ) → IsWatching task.now.parts rules.now plan self.old k
            → suc k < count task.now.parts plan
            → Tells result (whole_at task.now.parts rules.now plan k)
            (λ _. IsWatching task.now.parts rules.now plan self.new (suc k)) }
    {
        match self.visit(task, rules) {
            Ok(()) => self.cross(task),
            Err(fault) => Err(fault),
        }
    }
}
