//! A sweep along the happenings of a plan, with the watchers of its task's soft terms.

ghost use Rattle.std.specs.Prelude.{ℕ, suc, ◌≡◌, ◌+◌, ◌^◌, ◌<◌, ◌≤◌, ◌++◌, IfOk};
ghost use Rattle.task_types.specs.Plan.{Plan};
ghost use Rattle.task_types.specs.Course.{count};
ghost use Rattle.task_types.specs.Cost.{cost};
ghost use Rattle.task_types.specs.Reckoned.{effects_at, move_at, cost_reckoned};
ghost use Rattle.timed_meaning.specs.Answers.{Tells};
ghost use Rattle.timed_meaning.specs.TimedPlans.{IsBuiltFor};
ghost use Rattle.metric_cost.specs.Answers.{Amounts};

use crate::watchers::CostWatchers;
use exact_lin::{FormFault, Fraction, NoMemory, Scalar, Wide};
use std::alloc::Global;
use task_types::Task;
use timed_meaning::{Sweep, TimedPlan};

/// Goes along the happenings of a plan and watches the soft terms of its task.
#[derive(Drop)]
pub struct Follower {
    pub sweep: Sweep,
    pub watchers: CostWatchers,
}

impl Follower {
    ghost use Rattle.metric_cost.specs.Following.{StandsBefore, StandsAfter, StandsLast};

    /// Stands before the first happening, and has seen the initial state.
    pub fn begin(alloc: Global, task: &Task, plan: &TimedPlan) -> Result<Follower, NoMemory>
        requires { IsBuiltFor task.now.parts plan.now }
        ensures { IfOk result (λ f. StandsBefore task.now.parts plan.now f 0) }
    {
        let sweep = Sweep::begin(alloc, task, plan)?;
        let mut watchers = CostWatchers::begin(alloc, task)?;
        watchers.step(task, sweep.facts(), Fraction::of_int(0));
        Ok(Follower { sweep, watchers })
    }

    /// Lets the happening happen, and watches the state after it.
    pub fn happen(&mut self, task: &Task) -> Result<(), FormFault>
        requires { (plan : Plan) × (k : ℕ) × StandsBefore task.now.parts plan self.old k
            × (k < count task.now.parts plan) × (count task.now.parts plan < 2 ^ 31) }
        ensures { (plan : Plan) (k : ℕ) → StandsBefore task.now.parts plan self.old k
            → k < count task.now.parts plan
            → Tells result (effects_at task.now.parts plan k)
            (λ _. StandsAfter task.now.parts plan self.new k) }
    {
        match self.sweep.apply(task) {
            Ok(()) => {
                let time = self.sweep.time();
                self.watchers.step(task, self.sweep.facts(), time);
                Ok(())
            }
            Err(fault) => Err(fault),
        }
    }

    /// Goes on from a happening to the state before the next.
    pub fn step(&mut self, task: &Task) -> Result<(), FormFault>
        requires { (plan : Plan) × (k : ℕ) × StandsBefore task.now.parts plan self.old k
            × (suc k < count task.now.parts plan) × (count task.now.parts plan < 2 ^ 31) }
        ensures { (plan : Plan) (k : ℕ) → StandsBefore task.now.parts plan self.old k
            → suc k < count task.now.parts plan
            → Tells result (effects_at task.now.parts plan k ++ move_at task.now.parts plan k)
            (λ _. StandsBefore task.now.parts plan self.new (suc k)) }
    {
        match self.happen(task) {
            Ok(()) => self.sweep.advance(task),
            Err(fault) => Err(fault),
        }
    }

    /// The cost, in the last state.
    pub fn cost(&self, task: &Task, plan: &TimedPlan) -> Result<Fraction, Wide>
        requires built { IsBuiltFor task.now.parts plan.now }
        requires last { StandsLast task.now.parts plan.now self.now }
        ensures { Amounts result (cost_reckoned task.now.parts plan.now)
            (λ q. q ≡ cost task.now.parts plan.now) }
    {
        let facts = self.sweep.facts();
        let fluents = self.sweep.fluents();
        self.watchers.end(task, plan, facts, fluents)
    }
}
