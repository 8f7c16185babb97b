//! The hard constraints of a task, followed along the states of a trace.

ghost use Rattle.std.specs.Prelude.{◌≡◌, ◌-◌, ◌^◌, ◌<◌, ◌++◌, ◌∷◌, [], List, IfOk};
ghost use Rattle.std.specs.List.{AllByRecursion};
ghost use Rattle.rational.specs.Rational.{ℚ};
ghost use Rattle.task_types.specs.declared.constraints.Trail.{Trail as Constraint};
ghost use Rattle.task_types.specs.Touch.{trail_facts};
ghost use Rattle.task_types.specs.Trace.{Trace};
ghost use Rattle.trajectory.specs.Facts.{AreCovered, moment_of};
ghost use Rattle.trajectory.specs.Following.{constraint_of, states_taken};
ghost use Rattle.plan_validator.specs.Following.{AreFollowing};

use exact_lin::NoMemory;
use std::alloc::Global;
use task_types::Trail;
use trajectory::Automaton;

/// Begins to follow some constraints, before the first state.
pub fn follow_all(alloc: Global, hard: &[Trail]) -> Result<Vec<Automaton>, NoMemory>
    ensures { IfOk result (λ automata. AreFollowing hard.now automata.items []) }
{
    let mut automata = Vec::new(alloc);
    for trail in hard {
        let automaton = Automaton::new(alloc, trail)?;
        automata.push(automaton)?;
    }
    Ok(automata)
}

fn step_each(automata: &mut [Automaton], facts: &[bool])
    requires covered { AllByRecursion
        (λ a. AreCovered (trail_facts (constraint_of a)) facts.now) automata.old }
    requires room { AllByRecursion (λ a. states_taken a < 2 ^ 32 - 1) automata.old }
    ensures { (hard : List Constraint) (states : Trace) (time : ℚ)
        → AreFollowing hard automata.old states
        → AreFollowing hard automata.new (states ++ moment_of facts.now time ∷ []) }
{
    for i in 0..automata.len() {
        automata[i].step(facts);
    }
}

/// Takes the next state.
pub fn step_all(automata: &mut Vec<Automaton>, facts: &[bool])
    requires covered { AllByRecursion
        (λ a. AreCovered (trail_facts (constraint_of a)) facts.now) automata.old.items }
    requires room { AllByRecursion (λ a. states_taken a < 2 ^ 32 - 1) automata.old.items }
    ensures { (hard : List Constraint) (states : Trace) (time : ℚ)
        → AreFollowing hard automata.old.items states
        → AreFollowing hard automata.new.items (states ++ moment_of facts.now time ∷ []) }
{
    step_each(automata.as_mut_slice(), facts);
}
