//! A state that is changed in place.

ghost use Rattle.std.specs.Prelude.{◌≡◌, ◌++◌, ◌∷◌, [], map, length, replicate, OnOk, IfOk};
ghost use Rattle.std.specs.List.{AllByRecursion, filter};
ghost use Rattle.rational.specs.Rational.{zeroℚ};
ghost use Rattle.exact_lin.specs.Reckoning.{Fits, wide_limit};
ghost use Rattle.task_types.specs.Plan.{Plan};
ghost use Rattle.task_types.specs.Course.{initial, happen as happened, moved, runs_between};
ghost use Rattle.task_types.specs.Reckoned.{by_start, effects_reckoned, move_reckoned};
ghost use Rattle.task_types.specs.WellMade.{IsWellMade};
ghost use Rattle.timed_meaning.specs.Told.{Tells, AreSteps};
ghost use Rattle.timed_meaning.specs.Moves.{AreLines};
ghost use Rattle.timed_meaning.specs.Owned.{lines_of};
ghost use Rattle.timed_meaning.specs.Standings.{shown, IsKept};

use crate::applying::happen;
use crate::moving::advance;
use crate::placing::PlacedLine;
use crate::states::State;
use crate::steps::PlanStep;
use exact_lin::{FluentId, FormFault, Fraction, NoMemory, Scalar};
use std::alloc::Global;
use task_types::{Fact, Fluent, TaskParts};

/// Which facts hold and the values of the fluents, with lists that changes need on their way.
#[derive(Drop)]
pub struct Standing {
    pub facts: Vec<bool>,
    pub fluents: Vec<Fraction>,
    rates: Vec<Fraction>,
    entries: Vec<(FluentId, Fraction)>,
    assigns: Vec<(FluentId, Fraction)>,
    increases: Vec<(FluentId, Fraction)>,
}

fn initial_facts(alloc: Global, facts: &[Fact]) -> Result<Vec<bool>, NoMemory>
    ensures { IfOk result (λ out. out.items ≡ map (λ x. x.holds) facts.now) }
{
    let mut out = Vec::new(alloc);
    for fact in facts {
        out.push(fact.holds)?;
    }
    Ok(out)
}

fn push_value(out: &mut Vec<Fraction>, value: Fraction) -> Result<(), NoMemory>
    ensures value { OnOk result (out.new.items ≡ out.old.items ++ value ∷ []) }
    ensures fits { Fits wide_limit value }
{
    let _sign = value.sign();
    out.push(value)?;
    Ok(())
}

fn initial_values(alloc: Global, fluents: &[Fluent]) -> Result<Vec<Fraction>, NoMemory>
    ensures values { IfOk result (λ out. out.items ≡ map (λ x. x.value) fluents.now) }
    ensures fits { IfOk result (λ out. AllByRecursion (Fits wide_limit) out.items) }
{
    let mut out = Vec::new(alloc);
    for fluent in fluents {
        push_value(&mut out, fluent.value)?;
    }
    Ok(out)
}

fn zeros(alloc: Global, count: usize) -> Result<Vec<Fraction>, NoMemory>
    ensures { IfOk result (λ out. out.items ≡ replicate count zeroℚ) }
{
    let zero = Fraction::of_int(0);
    Ok(vec![in alloc; zero; count]?)
}

impl Standing {
    /// The initial state of a task.
    pub fn initial(alloc: Global, parts: &TaskParts) -> Result<Standing, NoMemory>
        ensures kept { IfOk result (λ s. IsKept parts.now s) }
        ensures state { IfOk result (λ s. shown s ≡ initial parts.now) }
    {
        let facts = initial_facts(alloc, parts.facts.as_slice())?;
        let fluents = initial_values(alloc, parts.fluents.as_slice())?;
        let rates = zeros(alloc, parts.fluents.len())?;
        Ok(Standing {
            facts,
            fluents,
            rates,
            entries: Vec::new(alloc),
            assigns: Vec::new(alloc),
            increases: Vec::new(alloc),
        })
    }

    /// Applies the steps of a happening.
    pub fn happen(&mut self, parts: &TaskParts, here: &[PlanStep]) -> Result<(), FormFault>
        requires well_made { IsWellMade parts.now }
        requires kept { IsKept parts.now self.old }
        requires known { AreSteps parts.now here.now }
        ensures { Tells result (effects_reckoned parts.now here.now (shown self.old))
            (λ _. IsKept parts.now self.new
            × (shown self.new ≡ happened parts.now here.now (shown self.old))) }
    {
        happen(
            parts,
            here,
            &mut self.facts,
            &mut self.fluents,
            &mut self.assigns,
            &mut self.increases,
        )
    }

    /// Moves the fluents on from a time to a later one; the running lines are handed over by their starts.
    pub fn advance(
        &mut self,
        parts: &TaskParts,
        running: &[PlacedLine],
        from: Fraction,
        to: Fraction,
    ) -> Result<(), FormFault>
        requires well_made { IsWellMade parts.now }
        requires kept { IsKept parts.now self.old }
        requires lines { AreLines parts.now (lines_of running.now) }
        ensures { (plan : Plan) → lines_of running.now ≡ by_start (filter (runs_between from to) plan)
            → Tells result (move_reckoned parts.now plan from to (shown self.old))
            (λ _. IsKept parts.now self.new
            × (shown self.new ≡ moved parts.now plan from to (shown self.old))) }
    {
        if parts.fluents.len() == 0 {
            return Ok(());
        }
        advance(
            parts,
            running,
            from,
            to,
            &mut self.fluents,
            &mut self.rates,
            &mut self.entries,
        )
    }

    /// The state by itself.
    pub fn into_state(self) -> State
        ensures { (result.facts.items ≡ self.facts.items)
            × (result.fluents.items ≡ self.fluents.items) }
    {
        State {
            facts: self.facts,
            fluents: self.fluents,
        }
    }
}
