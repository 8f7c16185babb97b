//! Where a sweep is among the happenings of a plan.

ghost use Rattle.std.specs.Prelude.{◌≡◌, ◌+◌, ◌<◌, ◌≤◌, ◌++◌, suc, length, drop, OnOk, IfOk};
ghost use Rattle.std.specs.List.{filter};
ghost use Rattle.task_types.specs.Plan.{Plan};
ghost use Rattle.timed_meaning.specs.TimedPlans.{IsBuiltFor};
ghost use Rattle.task_types.specs.declared.parts.TaskParts.{TaskParts};
ghost use Rattle.task_types.specs.WellMade.{IsWellMade};
ghost use Rattle.timed_meaning.specs.Agendas.{run_end, time_at, Follows};

use crate::listing::{bare_steps, sorted_steps};
use crate::placing::{PlacedLine, follow_lines, lines_by_start};
use crate::steps::{OwnedStep, PlanStep};
use crate::times::run_length;
use exact_lin::{Fraction, NoMemory};
use std::alloc::Global;
use task_types::{PlanLine, TaskParts};

/// The steps of a plan by their times, with the place of a happening among them, and the lines that run until the next.
#[derive(Drop)]
pub struct Agenda {
    pub place: usize,
    pub owned: Vec<OwnedStep>,
    pub steps: Vec<PlanStep>,
    pub first: usize,
    pub next: usize,
    pub lines: Vec<PlacedLine>,
    pub started: usize,
    pub running: Vec<PlacedLine>,
}

// How many of some steps have the time of the first.
fn run_end(rest: &[PlanStep]) -> usize
    ensures value { result ≡ run_end rest.now }
    ensures within { result ≤ length rest.now }
{
    match rest.split_first() {
        Some((first, _)) => run_length(rest, first.time()),
        None => 0,
    }
}

// The time of the step at a place.
fn time_at(steps: &[PlanStep], at: usize) -> Fraction
    requires { at < length steps.now }
    ensures { result ≡ time_at steps.now at }
{
    steps[at].time()
}

// Goes on to the lines that run from the time of one step to that of the next happening's, where there is one.
fn follow(
    running: &mut Vec<PlacedLine>,
    lines: &[PlacedLine],
    started: usize,
    steps: &[PlanStep],
    first: usize,
    next: usize,
) -> Result<usize, NoMemory>
    requires started { started ≤ length lines.now }
    requires order { first ≤ next }
    ensures follows { IfOk result (λ n. Follows steps.now first next lines.now started n
        running.old.items running.new.items) }
    ensures within { IfOk result (λ n. n ≤ length lines.now) }
{
    if next < steps.len() {
        return follow_lines(
            running,
            lines,
            started,
            time_at(steps, first),
            time_at(steps, next),
        );
    }
    Ok(started)
}

impl Agenda {
    ghost use Rattle.timed_meaning.specs.Owned.{steps_of};
    ghost use Rattle.timed_meaning.specs.Agendas.{IsAt, IsSomewhere, AreListed, here_of, owned_here_of};

    /// The agenda of a plan at its first happening.
    pub fn begin(alloc: Global, parts: &TaskParts, lines: &[PlanLine]) -> Result<Agenda, NoMemory>
        requires well_made { IsWellMade parts.now }
        requires built { IsBuiltFor parts.now lines.now }
        ensures { IfOk result (λ a. IsAt parts.now lines.now a × (a.place ≡ 0) × (a.first ≡ 0)) }
    {
        let owned = sorted_steps(alloc, parts, lines)?;
        let steps = bare_steps(alloc, owned.as_slice())?;
        let lines = lines_by_start(alloc, lines)?;
        Agenda::of_lists(alloc, owned, steps, lines)
    }

    // The agenda of sorted steps and lines at the first happening.
    fn of_lists(
        alloc: Global,
        owned: Vec<OwnedStep>,
        steps: Vec<PlanStep>,
        lines: Vec<PlacedLine>,
    ) -> Result<Agenda, NoMemory>
        requires { steps.items ≡ steps_of owned.items }
        ensures { (task : TaskParts) (plan : Plan) → AreListed task plan owned.items lines.items
            → IfOk result (λ a. IsAt task plan a × (a.place ≡ 0) × (a.first ≡ 0)) }
    {
        let next = run_end(steps.as_slice());
        let mut running = Vec::new(alloc);
        let started = follow(&mut running, lines.as_slice(), 0, steps.as_slice(), 0, next)?;
        Ok(Agenda {
            place: 0,
            owned,
            steps,
            first: 0,
            next,
            lines,
            started,
            running,
        })
    }

    /// The steps of the happening.
    pub fn here(&self) -> &[PlanStep]
        requires { IsSomewhere self.now }
        ensures { result.now ≡ here_of self.now }
    {
        &self.steps.as_slice()[self.first..self.next]
    }

    /// The steps of the happening with their owners.
    pub fn owned_here(&self) -> &[OwnedStep]
        requires { IsSomewhere self.now }
        ensures { result.now ≡ owned_here_of self.now }
    {
        &self.owned.as_slice()[self.first..self.next]
    }

    /// The time of the happening.
    pub fn time(&self) -> Fraction
        requires { self.now.first < length self.now.steps.items }
        ensures { result ≡ time_at self.now.steps.items self.now.first }
    {
        time_at(self.steps.as_slice(), self.first)
    }

    /// The time of the next happening.
    pub fn next_time(&self) -> Fraction
        requires { self.now.next < length self.now.steps.items }
        ensures { result ≡ time_at self.now.steps.items self.now.next }
    {
        time_at(self.steps.as_slice(), self.next)
    }

    /// Goes on to the next happening.
    pub fn advance(&mut self) -> Result<(), NoMemory>
        requires some { IsSomewhere self.old }
        requires more { self.old.next < length self.old.steps.items }
        ensures { (task : TaskParts) (plan : Plan) → IsAt task plan self.old
            → OnOk result (IsAt task plan self.new × (self.new.place ≡ suc self.old.place)
            × (self.new.first ≡ self.old.next) × (self.new.owned ≡ self.old.owned)
            × (self.new.lines ≡ self.old.lines)) }
    {
        self.place += 1;
        self.first = self.next;
        self.next += run_end(&self.steps.as_slice()[self.first..]);
        self.started = follow(
            &mut self.running,
            self.lines.as_slice(),
            self.started,
            self.steps.as_slice(),
            self.first,
            self.next,
        )?;
        Ok(())
    }
}
