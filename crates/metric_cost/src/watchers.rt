//! The soft terms of a task watched along the states of a plan's trace, and the cost at its end.

ghost use Rattle.std.specs.Prelude.{◌≡◌, ◌++◌, ◌∷◌, [], ◌<◌, ◌-◌, ◌^◌, length, IfOk};
ghost use Rattle.exact_lin.specs.Forms.{Covers};
ghost use Rattle.task_types.specs.Course.{last_state};
ghost use Rattle.task_types.specs.Cost.{cost};
ghost use Rattle.task_types.specs.Reckoned.{cost_reckoned};
ghost use Rattle.task_types.specs.Trace.{Trace, trace};
ghost use Rattle.trajectory.specs.Facts.{moment_of};
ghost use Rattle.timed_meaning.specs.Answers.{told};
ghost use Rattle.timed_meaning.specs.TimedPlans.{IsBuiltFor};
ghost use Rattle.metric_cost.specs.Answers.{Amounts};
ghost use Rattle.metric_cost.specs.Terms.{base_of, base_reckoned};

use crate::terms::add_costs;
use crate::total_time::total_time;
use crate::watch::Watch;
use crate::watch_lists::{step_all, watch_all};
use exact_lin::{Fraction, NoMemory, Scalar, Wide};
use std::alloc::Global;
use task_types::{Metric, Task};
use timed_meaning::TimedPlan;

/// Watches the soft terms of a task along the states of a trace, one by one from the initial state on, and reckons the
/// cost at its end. Only `begin` takes memory, and no call keeps a state.
#[derive(Drop)]
pub struct CostWatchers {
    watches: Vec<Watch>,
}

// What a plan costs but for its soft terms.
fn base_cost(metric: &Metric, total_time: Fraction, fluents: &[Fraction]) -> Result<Fraction, Wide>
    requires { Covers (length fluents.now) metric.now.fluents.terms }
    ensures { Amounts result (base_reckoned metric.now total_time (told [] fluents.now).fluents)
        (λ q. q ≡ base_of metric.now total_time (told [] fluents.now).fluents) }
{
    let timed = metric.last.mul(total_time)?;
    let sum = metric.constant.add(timed)?;
    let form = metric.fluents.value_at(fluents)?;
    sum.add(form)
}

impl CostWatchers {
    ghost use Rattle.metric_cost.specs.Watching.{HaveSeen};

    /// Begins to watch, before the first state.
    pub fn begin(alloc: Global, task: &Task) -> Result<CostWatchers, NoMemory>
        ensures { IfOk result (λ watchers. HaveSeen task.now.parts watchers []) }
    {
        let watches = watch_all(alloc, task.soft())?;
        Ok(CostWatchers { watches })
    }

    /// Takes the next state of the trace: exactly those facts hold that the slice says so of, at this time.
    pub fn step(&mut self, task: &Task, facts: &[bool], time: Fraction)
        requires facts { length facts.now ≡ length task.now.parts.facts }
        requires seen { (states : Trace) × HaveSeen task.now.parts self.old states
            × (length states < 2 ^ 32 - 1) }
        ensures { (states : Trace) → HaveSeen task.now.parts self.old states
            → HaveSeen task.now.parts self.new (states ++ moment_of facts.now time ∷ []) }
    {
        step_all(self.watches.as_mut_slice(), task.soft(), facts, time);
    }

    /// The cost of a plan whose trace was taken whole, given its last state in two lists: the metric's constant, its
    /// factor times the total time, its form, and the soft terms in the order of the task. `Wide` exactly where one of
    /// these sums, products and forms is past 128 bits.
    pub fn end(
        &self,
        task: &Task,
        plan: &TimedPlan,
        facts: &[bool],
        fluents: &[Fraction],
    ) -> Result<Fraction, Wide>
        requires built { IsBuiltFor task.now.parts plan.now }
        requires facts { length facts.now ≡ length task.now.parts.facts }
        requires fluents { length fluents.now ≡ length task.now.parts.fluents }
        requires seen { HaveSeen task.now.parts self.now (trace task.now.parts plan.now) }
        requires last { told facts.now fluents.now ≡ last_state task.now.parts plan.now }
        ensures { Amounts result (cost_reckoned task.now.parts plan.now)
            (λ q. q ≡ cost task.now.parts plan.now) }
    {
        let metric = task.metric();
        match base_cost(metric, total_time(plan.lines()), fluents) {
            Ok(base) => add_costs(base, task.soft(), self.watches.as_slice(), facts, fluents),
            Err(wide) => Err(wide),
        }
    }
}
