//! Several soft terms watched, each by its own watch.

ghost use Rattle.std.specs.Prelude.{◌≡◌, ◌++◌, ◌∷◌, [], ◌<◌, ◌-◌, ◌^◌, length, IfOk};
ghost use Rattle.std.specs.List.{AllByRecursion};
ghost use Rattle.task_types.specs.Touch.{soft_facts};
ghost use Rattle.task_types.specs.Trace.{Trace};
ghost use Rattle.trajectory.specs.Facts.{AreCovered, moment_of};
ghost use Rattle.metric_cost.specs.Watching.{WatchEach};

use crate::watch::Watch;
use exact_lin::{Fraction, NoMemory};
use std::alloc::Global;
use task_types::Soft;

/// Begins to watch each of some soft terms.
pub fn watch_all(alloc: Global, softs: &[Soft]) -> Result<Vec<Watch>, NoMemory>
    ensures { IfOk result (λ watches. WatchEach softs.now watches.items []) }
{
    let mut watches = Vec::new(alloc);
    for soft in softs {
        let watch = Watch::of(alloc, soft)?;
        watches.push(watch)?;
    }
    Ok(watches)
}

/// Takes the next state of the trace.
pub fn step_all(watches: &mut [Watch], softs: &[Soft], facts: &[bool], time: Fraction)
    requires covered { AllByRecursion (λ s. AreCovered (soft_facts s) facts.now) softs.now }
    requires each { length watches.old ≡ length softs.now }
    requires watched { (states : Trace) × WatchEach softs.now watches.old states
        × (length states < 2 ^ 32 - 1) }
    ensures { (states : Trace) → WatchEach softs.now watches.old states
        → WatchEach softs.now watches.new (states ++ moment_of facts.now time ∷ []) }
{
    for i in 0..softs.len() {
        watches[i].step(&softs[i], facts, time);
    }
}
