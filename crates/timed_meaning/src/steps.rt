//! Steps with their times, sorted; laws of their order.

ghost use Rattle.std.specs.Prelude.{◌≡◌, OnOk, IsPermutation};
ghost use Rattle.rational.specs.Rational.{ℚ};
ghost use Rattle.timed_meaning.specs.Owned.{steps_of};
ghost use Rattle.timed_meaning.specs.Sorts.{NeverFall, at_time, RunsAreHappenings, RunningLinesAreFiltered};

use exact_lin::{Fraction, NoMemory, SnapId};
use std::marker::Model;

/// A snap action at a time; the duration is what `?duration` stands for in it.
#[derive(Clone, Copy, Drop)]
pub struct PlanStep {
    pub time: Fraction,
    pub snap: SnapId,
    pub duration: Fraction,
}

impl Model for PlanStep {
    ghost use Rattle.task_types.specs.Plan.{Step};
    ghost use Rattle.timed_meaning.specs.Told.{step_code};

    ghost Value = { Step };

    ghost coded = { step_code };

    ghost view = { λ s. record { time = s.time; snap = s.snap; duration = s.duration } };

    ghost inverse = { λ s. record { time = s.time; snap = s.snap; duration = s.duration } };
}

impl PlanStep {
    pub fn time(&self) -> Fraction
        ensures { result ≡ self.now.time }
    {
        self.time
    }

    pub fn snap(&self) -> SnapId
        ensures { result ≡ self.now.snap }
    {
        self.snap
    }

    pub fn duration(&self) -> Fraction
        ensures { result ≡ self.now.duration }
    {
        self.duration
    }
}

/// A step with its owner: the place of its line among the lines of the plan, from 0 on. The timed steps are their own
/// owners, numbered behind the lines.
#[derive(Clone, Copy, Drop)]
pub struct OwnedStep {
    pub step: PlanStep,
    pub owner: usize,
}

impl OwnedStep {
    pub fn time(&self) -> Fraction
        ensures { result ≡ self.now.step.time }
    {
        self.step.time()
    }
}

/// Puts steps into the order of their times, those of one time in the order in which they stand.
pub fn sort_steps(steps: &mut Vec<OwnedStep>) -> Result<(), NoMemory>
    ensures sorted { OnOk result (NeverFall (steps_of steps.new.items)) }
    ensures stable { OnOk result ((t : ℚ)
        → at_time t (steps_of steps.new.items) ≡ at_time t (steps_of steps.old.items)) }
    ensures permutation { IsPermutation steps.old.items steps.new.items }
{
    steps.sort_by_key(|step| step.time())?;
    Ok(())
}

/// The runs of equal times of sorted steps are the happenings.
pub fn runs_are_happenings()
    ensures { RunsAreHappenings }
{}

/// The lines that run between two times, in the order of their starts, are a filter of all lines in that order, so lines are sorted once.
pub fn running_lines_are_filtered()
    ensures { RunningLinesAreFiltered }
{}
