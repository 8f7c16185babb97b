//! Hard constraints that the trace of a plan doesn't meet.

ghost use Rattle.std.specs.Prelude.{◌≡◌, ◌-◌, ◌<◌, ◌^◌, ◌∷◌, List, length, slice_index_or};
ghost use Rattle.rational.specs.Rational.{zeroℚ};
ghost use Rattle.task_types.specs.declared.constraints.Trail.{Trail as Constraint};
ghost use Rattle.task_types.specs.Trace.{Trace, met};
ghost use Rattle.trajectory.specs.Laws.{NeverFall};
ghost use Rattle.plan_validator.specs.Judged.{Judged};
ghost use Rattle.plan_validator.specs.Kinds.{constraint_duties};
ghost use Rattle.plan_validator.specs.Following.{FollowsAlong, AreFollowing, HaveTimes, is_soon};

use crate::conditions::is_at_most;
use exact_lin::{Fraction, Scalar};
use task_types::{Reason, Trail};
use trajectory::{Automaton, TrailEnd};

// Whether a state comes no later than a moment; the first comes at 0.
fn is_soon(times: &[Fraction], state: u32, moment: Fraction) -> bool
    ensures { result ≡ is_soon moment (zeroℚ ∷ times.now) state }
{
    if state == 0 {
        return is_at_most(Fraction::of_int(0), moment);
    }
    match times.get(state as usize - 1) {
        Some(time) => is_at_most(*time, moment),
        None => false,
    }
}

// Whether the states that an automaton followed meet its constraint; their times are handed over.
fn is_met(trail: &Trail, automaton: &Automaton, times: &[Fraction]) -> bool
    ensures { (states : Trace) → FollowsAlong trail.now automaton.now states
        → HaveTimes states times.now → NeverFall states → result ≡ met trail.now states }
{
    match automaton.verdict() {
        TrailEnd::Met => true,
        TrailEnd::Broken => false,
        TrailEnd::Timed(state) => is_soon(times, state, trail.moment),
    }
}

// Whether the states that the automaton of a place followed meet its constraint.
fn is_met_at(trail: &Trail, automata: &[Automaton], at: usize, times: &[Fraction]) -> bool
    ensures { (hard : List Constraint) (states : Trace) → AreFollowing hard automata.now states
        → at < length hard → trail.now ≡ slice_index_or hard at trail.now
        → HaveTimes states times.now → NeverFall states → result ≡ met trail.now states }
{
    match automata.get(at) {
        Some(automaton) => is_met(trail, automaton, times),
        None => false,
    }
}

/// The first constraint that isn't met by the states that the automata followed.
pub fn first_broken(hard: &[Trail], automata: &[Automaton], times: &[Fraction]) -> Option<Reason>
    requires { length hard.now < 2 ^ 32 - 1 }
    ensures { (states : Trace) → AreFollowing hard.now automata.now states
        → HaveTimes states times.now → NeverFall states
        → Judged (constraint_duties states 1 hard.now) result }
{
    for (i, trail) in hard.iter().enumerate() {
        if !is_met_at(trail, automata, i, times) {
            return Some(Reason::Constraint(i as u32 + 1));
        }
    }
    None
}
