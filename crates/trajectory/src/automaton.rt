//! A trajectory constraint followed along the states of a trace.

ghost use Rattle.std.specs.Prelude.{◌≡◌, ◌+◌, ◌-◌, ◌^◌, ◌<◌, ◌++◌, ◌∷◌, [], IfOk};
ghost use Rattle.rational.specs.Rational.{ℚ};
ghost use Rattle.task_types.specs.Touch.{trail_facts};
ghost use Rattle.task_types.specs.Trace.{Trace, first_state};
ghost use Rattle.trajectory.specs.Facts.{AreCovered, moment_of};
ghost use Rattle.trajectory.specs.Following.{Follows, constraint_of, states_taken};
ghost use Rattle.trajectory.specs.Verdicts.{verdict_on};

use crate::flags::{Flags, begin, go_on, keep_first};
use crate::formulas::{copy_trail, tree_holds};
use exact_lin::NoMemory;
use std::alloc::Global;
use task_types::{Trail, TrailKind};

/// How the states of a trace leave a constraint: met or broken, or, for a `within` whose formula held, the number of
/// the first state in which it did, S0 having number 0. The time of that state tells whether it came soon enough.
#[derive(Clone, Copy, Debug, Drop, PartialEq, Eq)]
pub enum TrailEnd {
    Met,
    Broken,
    Timed(u32),
}

/// A trajectory constraint (Gerevini and Long 2005) that is followed along the states of a trace, one by one from S0
/// on. Only `new` takes memory, and no call keeps a state.
#[derive(Drop)]
pub struct Automaton {
    trail: Trail,
    flags: Flags,
    first: Option<u32>,
    taken: u32,
}

impl Automaton {
    /// Begins to follow a constraint, before the first state.
    pub fn new(alloc: Global, trail: &Trail) -> Result<Automaton, NoMemory>
        ensures constraint { IfOk result (λ automaton. constraint_of automaton ≡ trail.now) }
        ensures taken { IfOk result (λ automaton. states_taken automaton ≡ 0) }
        ensures follows { IfOk result (λ automaton. Follows automaton []) }
    {
        Ok(Automaton {
            trail: copy_trail(alloc, trail)?,
            flags: begin(trail.kind),
            first: None,
            taken: 0,
        })
    }

    /// Takes the next state, in which exactly those facts hold that the slice says so of. What was followed so far,
    /// whatever the times were, is followed with one state more, whatever its time is.
    pub fn step(&mut self, facts: &[bool])
        requires covered { AreCovered (trail_facts (constraint_of self.old)) facts.now }
        requires room { states_taken self.old < 2 ^ 32 - 1 }
        ensures constraint { constraint_of self.new ≡ constraint_of self.old }
        ensures taken { states_taken self.new ≡ states_taken self.old + 1 }
        ensures follows { (states : Trace) (time : ℚ) → Follows self.old states
            → Follows self.new (states ++ moment_of facts.now time ∷ []) }
    {
        let first = tree_holds(&self.trail.first, facts);
        let second = tree_holds(&self.trail.second, facts);
        self.flags = go_on(self.trail.kind, first, second, self.flags);
        self.first = keep_first(self.first, first, self.taken);
        self.taken += 1;
    }

    /// The verdict on the states so far, as a whole trace.
    pub fn verdict(&self) -> TrailEnd
        ensures { (states : Trace) → Follows self.now states
            → result ≡ verdict_on (constraint_of self.now) states }
    {
        match self.trail.kind {
            TrailKind::Within => match self.first {
                Some(first) => TrailEnd::Timed(first),
                None => TrailEnd::Broken,
            },
            _ => {
                if self.flags.met {
                    TrailEnd::Met
                } else {
                    TrailEnd::Broken
                }
            }
        }
    }

    /// The number of the first state so far in which the constraint's first formula held, S0 having number 0.
    pub fn first_step(&self) -> Option<u32>
        ensures { (states : Trace) → Follows self.now states
            → result ≡ first_state (constraint_of self.now).first states }
    {
        self.first
    }
}
