//! One soft term watched along the states of a trace.

ghost use Rattle.std.specs.Prelude.{◌≡◌, ◌++◌, ◌∷◌, [], ◌<◌, ◌-◌, ◌^◌, length, IfOk, ◌&&◌};
ghost use Rattle.rational.specs.Rational.{ℚ};
ghost use Rattle.task_types.specs.Tests.{◌≤?◌};
ghost use Rattle.task_types.specs.State.{tree_holds as holds_in};
ghost use Rattle.task_types.specs.Touch.{tree_facts, trail_facts, soft_facts};
ghost use Rattle.task_types.specs.declared.constraints.Trail.{Trail};
ghost use Rattle.task_types.specs.declared.formulas.FactTree.{FactTree};
ghost use Rattle.task_types.specs.Trace.{Trace, met, first_moment};
ghost use Rattle.trajectory.specs.Facts.{AreCovered, facts_told, moment_of};

use crate::comparing::is_at_most;
use exact_lin::{Fraction, NoMemory};
use std::alloc::Global;
use task_types::{FactTree, Soft, Trail, TrailKind};
use trajectory::{Automaton, TrailEnd, tree_holds};

/// What is kept of the states so far for one soft term: the automaton of a constraint, or, of a `within`, whether it is
/// met; the first moment of a time cost's formula; nothing for a goal preference.
#[derive(Drop)]
pub enum Watch {
    Followed(Automaton),
    Soon(bool),
    First(Option<Fraction>),
    Last,
}

fn is_soon(trail: &Trail, facts: &[bool], time: Fraction) -> bool
    requires { AreCovered (trail_facts trail.now) facts.now }
    ensures { result ≡ (holds_in trail.now.first (facts_told facts.now) && (time ≤? trail.now.moment)) }
{
    tree_holds(&trail.first, facts) && is_at_most(time, trail.moment)
}

fn first_of(
    first: Option<Fraction>,
    formula: &FactTree,
    facts: &[bool],
    time: Fraction,
) -> Option<Fraction>
    requires { AreCovered (tree_facts formula.now) facts.now }
    ensures { (states : Trace) → first ≡ first_moment formula.now states
        → result ≡ first_moment formula.now (states ++ moment_of facts.now time ∷ []) }
{
    match first {
        Some(moment) => Some(moment),
        None => {
            if tree_holds(formula, facts) {
                Some(time)
            } else {
                None
            }
        }
    }
}

impl Watch {
    ghost use Rattle.metric_cost.specs.Watching.{WatchesTrail, WatchesFirst, Watches};

    fn of_trail(alloc: Global, trail: &Trail) -> Result<Watch, NoMemory>
        ensures { IfOk result (λ w. WatchesTrail trail.now w []) }
    {
        match trail.kind {
            TrailKind::Within => Ok(Watch::Soon(false)),
            _ => Ok(Watch::Followed(Automaton::new(alloc, trail)?)),
        }
    }

    /// Begins to watch a soft term, before the first state.
    pub fn of(alloc: Global, soft: &Soft) -> Result<Watch, NoMemory>
        ensures { IfOk result (λ w. Watches soft.now w []) }
    {
        match soft {
            Soft::Trail(trail, _) => Watch::of_trail(alloc, trail),
            Soft::Goal(_, _, _) => Ok(Watch::Last),
            Soft::Late(_, _, _) => Ok(Watch::First(None)),
            Soft::Pieces(_, _, _) => Ok(Watch::First(None)),
        }
    }

    fn step_trail(&mut self, trail: &Trail, facts: &[bool], time: Fraction)
        requires covered { AreCovered (trail_facts trail.now) facts.now }
        requires watched { (states : Trace) × WatchesTrail trail.now self.old states
            × (length states < 2 ^ 32 - 1) }
        ensures { (states : Trace) → WatchesTrail trail.now self.old states
            → WatchesTrail trail.now self.new (states ++ moment_of facts.now time ∷ []) }
    {
        match self {
            Watch::Followed(automaton) => automaton.step(facts),
            Watch::Soon(is_met) => {
                if is_soon(trail, facts, time) {
                    *is_met = true;
                }
            }
            Watch::First(_) => {}
            Watch::Last => {}
        }
    }

    fn step_first(&mut self, formula: &FactTree, facts: &[bool], time: Fraction)
        requires { AreCovered (tree_facts formula.now) facts.now }
        ensures { (states : Trace) → WatchesFirst formula.now self.old states
            → WatchesFirst formula.now self.new (states ++ moment_of facts.now time ∷ []) }
    {
        match self {
            Watch::Followed(_) => {}
            Watch::Soon(_) => {}
            Watch::First(first) => *first = first_of(*first, formula, facts, time),
            Watch::Last => {}
        }
    }

    /// Takes the next state of the trace.
    pub fn step(&mut self, soft: &Soft, facts: &[bool], time: Fraction)
        requires covered { AreCovered (soft_facts soft.now) facts.now }
        requires watched { (states : Trace) × Watches soft.now self.old states
            × (length states < 2 ^ 32 - 1) }
        ensures { (states : Trace) → Watches soft.now self.old states
            → Watches soft.now self.new (states ++ moment_of facts.now time ∷ []) }
    {
        match soft {
            Soft::Trail(trail, _) => self.step_trail(trail, facts, time),
            Soft::Goal(_, _, _) => {}
            Soft::Late(formula, _, _) => self.step_first(formula, facts, time),
            Soft::Pieces(formula, _, _) => self.step_first(formula, facts, time),
        }
    }

    /// Whether the states so far meet a constraint.
    pub fn is_met(&self) -> bool
        ensures { (c : Trail) (states : Trace) → WatchesTrail c self.now states → result ≡ met c states }
    {
        match self {
            Watch::Followed(automaton) => match automaton.verdict() {
                TrailEnd::Met => true,
                TrailEnd::Broken => false,
                TrailEnd::Timed(_) => false,
            },
            Watch::Soon(is_met) => *is_met,
            Watch::First(_) => false,
            Watch::Last => false,
        }
    }

    /// The first moment so far of a time cost's formula.
    pub fn first(&self) -> Option<Fraction>
        ensures { (formula : FactTree) (states : Trace) → WatchesFirst formula self.now states
            → result ≡ first_moment formula states }
    {
        match self {
            Watch::Followed(_) => None,
            Watch::Soon(_) => None,
            Watch::First(first) => *first,
            Watch::Last => None,
        }
    }
}
