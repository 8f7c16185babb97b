//! How a happening changes a state in place.

ghost use Rattle.std.specs.Prelude.{◌≡◌, true, false, ℕ, ◌<◌, ◌++◌, ◌∷◌, [], map, length, slice_set, slice_index_or, OnOk};
ghost use Rattle.std.specs.List.{AllByRecursion, flat_map};
ghost use Rattle.rational.specs.Rational.{ℚ, zeroℚ, ◌+ℚ◌, ◌*ℚ◌};
ghost use Rattle.exact_lin.specs.Forms.{Covers};
ghost use Rattle.exact_lin.specs.Reckoning.{Fits, wide_limit};
ghost use Rattle.task_types.specs.Course.{amount, effect_of, happen as happened};
ghost use Rattle.exact_lin.specs.Reckonings.{Sum, Product, Value};
ghost use Rattle.task_types.specs.Reckoned.{amount_reckoned, amounts_reckoned, effects_reckoned};
ghost use Rattle.task_types.specs.State.{value};
ghost use Rattle.task_types.specs.WellMade.{IsWellMade};
ghost use Rattle.timed_meaning.specs.Told.{told, valued, Defined, Tells, marked, less, more, written, raised, raised_at, raised_reckoned, amounts, all_assigns, all_increases, AreSteps, AreCovered};

use crate::steps::PlanStep;
use exact_lin::{FactId, FluentId, Form, FormFault, Fraction, Id, NoMemory, Scalar, Wide};
use task_types::{Amount, Effect, TaskParts};

fn mark_one(facts: &mut [bool], at: usize, holds: bool)
    ensures { facts.new ≡ slice_set facts.old at holds }
{
    if at < facts.len() {
        facts[at] = holds;
    }
}

// Makes some facts hold, or not hold.
fn mark(facts: &mut [bool], ids: &[FactId], holds: bool)
    ensures { facts.new ≡ marked holds facts.old ids.now }
{
    for id in ids {
        mark_one(facts, id.number() as usize, holds);
    }
}

fn effect<'a>(parts: &'a TaskParts, step: &PlanStep) -> &'a Effect
    requires { step.now.snap < length parts.now.snaps }
    ensures { result.now ≡ effect_of parts.now step.now }
{
    &parts.snaps.as_slice()[step.snap().number() as usize].effect
}

fn delete_of(parts: &TaskParts, step: &PlanStep, facts: &mut [bool])
    requires { step.now.snap < length parts.now.snaps }
    ensures { facts.new ≡ marked false facts.old (effect_of parts.now step.now).deletes }
{
    mark(facts, effect(parts, step).deletes.as_slice(), false);
}

fn add_of(parts: &TaskParts, step: &PlanStep, facts: &mut [bool])
    requires { step.now.snap < length parts.now.snaps }
    ensures { facts.new ≡ marked true facts.old (effect_of parts.now step.now).adds }
{
    mark(facts, effect(parts, step).adds.as_slice(), true);
}

// Applies the deletes of some steps.
fn delete_all(parts: &TaskParts, here: &[PlanStep], facts: &mut [bool])
    requires { AreSteps parts.now here.now }
    ensures { facts.new ≡ less parts.now facts.old here.now }
{
    for step in here {
        delete_of(parts, step, facts);
    }
}

// Applies their adds.
fn add_all(parts: &TaskParts, here: &[PlanStep], facts: &mut [bool])
    requires { AreSteps parts.now here.now }
    ensures { facts.new ≡ more parts.now facts.old here.now }
{
    for step in here {
        add_of(parts, step, facts);
    }
}

fn write_one(fluents: &mut [Fraction], at: usize, value: Fraction)
    ensures { fluents.new ≡ slice_set fluents.old at value }
{
    if at < fluents.len() {
        fluents[at] = value;
    }
}

// Gives some fluents values, one after the other.
fn write(fluents: &mut [Fraction], entries: &[(FluentId, Fraction)])
    ensures { fluents.new ≡ written fluents.old entries.now }
{
    for entry in entries {
        write_one(fluents, entry.0.number() as usize, entry.1);
    }
}

fn raise_one(fluents: &mut [Fraction], at: usize, by: Fraction) -> Result<(), FormFault>
    requires { at < length fluents.old }
    ensures { Tells result (Sum (slice_index_or fluents.old at zeroℚ) by ∷ []) (λ _. fluents.new ≡ raised_at fluents.old (at, by)) }
{
    fluents[at] = fluents[at].add(by)?;
    Ok(())
}

// Raises some fluents, one after the other.
pub fn raise(fluents: &mut [Fraction], entries: &[(FluentId, Fraction)]) -> Result<(), FormFault>
    requires { AllByRecursion (λ e. e.0 < length fluents.old) entries.now }
    ensures { Tells result (raised_reckoned fluents.old entries.now) (λ _. fluents.new ≡ raised fluents.old entries.now) }
{
    for entry in entries {
        raise_one(fluents, entry.0.number() as usize, entry.1)?;
    }
    Ok(())
}

fn evaluate(fluents: &[Fraction], form: &Form<FluentId, Fraction>) -> Result<Fraction, FormFault>
    requires { Covers (length fluents.now) form.now.terms }
    ensures { Tells result (Value form.now (valued fluents.now).fluents ∷ []) (λ q. q ≡ value form.now (valued fluents.now).fluents) }
{
    match form.value_at(fluents) {
        Ok(value) => Ok(value),
        Err(Wide) => Err(FormFault::Wide),
    }
}

pub fn product(one: Fraction, other: Fraction) -> Result<Fraction, FormFault>
    ensures { Tells result (Product one other ∷ []) (λ q. q ≡ one *ℚ other) }
{
    Ok(one.mul(other)?)
}

pub fn sum(one: Fraction, other: Fraction) -> Result<Fraction, FormFault>
    ensures { Tells result (Sum one other ∷ []) (λ q. q ≡ one +ℚ other) }
{
    Ok(one.add(other)?)
}

// What an effect's expression gives in a state.
fn amount_in(fluents: &[Fraction], step: &PlanStep, change: &Amount) -> Result<Fraction, FormFault>
    requires { Covers (length fluents.now) change.now.form.terms }
    ensures { Tells result (amount_reckoned step.now (valued fluents.now) change.now) (λ q. q ≡ amount step.now (valued fluents.now) change.now) }
{
    let form = evaluate(fluents, &change.form)?;
    let timed = product(change.duration, step.duration())?;
    sum(form, timed)
}

fn push(
    out: &mut Vec<(FluentId, Fraction)>,
    fluent: FluentId,
    value: Fraction,
) -> Result<(), FormFault>
    ensures { Tells result [] (λ _. out.new.items ≡ out.old.items ++ (fluent, value) ∷ []) }
{
    match out.push((fluent, value)) {
        Ok(()) => Ok(()),
        Err(_) => Err(FormFault::Memory),
    }
}

// Notes what some changes write, as reckoned in the state before.
fn push_amounts(
    out: &mut Vec<(FluentId, Fraction)>,
    fluents: &[Fraction],
    step: &PlanStep,
    changes: &[(FluentId, Amount)],
) -> Result<(), FormFault>
    requires { AreCovered (length fluents.now) changes.now }
    ensures { Tells result (flat_map (λ e. amount_reckoned step.now (valued fluents.now) e.1) changes.now) (λ _. out.new.items ≡ out.old.items ++ amounts step.now (valued fluents.now) changes.now) }
{
    for change in changes {
        let value = amount_in(fluents, step, &change.1)?;
        push(out, change.0, value)?;
    }
    Ok(())
}

// Notes what a step's effects write.
fn push_step(
    assigns: &mut Vec<(FluentId, Fraction)>,
    increases: &mut Vec<(FluentId, Fraction)>,
    parts: &TaskParts,
    fluents: &[Fraction],
    step: &PlanStep,
) -> Result<(), FormFault>
    requires well_made { IsWellMade parts.now }
    requires covered { length fluents.now ≡ length parts.now.fluents }
    requires known { step.now.snap < length parts.now.snaps }
    ensures { Tells result (amounts_reckoned parts.now (valued fluents.now) step.now) (λ _. (assigns.new.items ≡ assigns.old.items ++ amounts step.now (valued fluents.now) (effect_of parts.now step.now).assigns) × (increases.new.items ≡ increases.old.items ++ amounts step.now (valued fluents.now) (effect_of parts.now step.now).increases)) }
{
    let effect = effect(parts, step);
    match push_amounts(assigns, fluents, step, effect.assigns.as_slice()) {
        Ok(()) => push_amounts(increases, fluents, step, effect.increases.as_slice()),
        Err(fault) => Err(fault),
    }
}

// Notes what the effects of all steps of a happening write; all of it reads the state before.
fn push_all(
    assigns: &mut Vec<(FluentId, Fraction)>,
    increases: &mut Vec<(FluentId, Fraction)>,
    parts: &TaskParts,
    fluents: &[Fraction],
    here: &[PlanStep],
) -> Result<(), FormFault>
    requires well_made { IsWellMade parts.now }
    requires covered { length fluents.now ≡ length parts.now.fluents }
    requires known { AreSteps parts.now here.now }
    ensures { Tells result (flat_map (amounts_reckoned parts.now (valued fluents.now)) here.now) (λ _. (assigns.new.items ≡ assigns.old.items ++ all_assigns parts.now here.now (valued fluents.now)) × (increases.new.items ≡ increases.old.items ++ all_increases parts.now here.now (valued fluents.now))) }
{
    for step in here {
        match push_step(assigns, increases, parts, fluents, step) {
            Ok(()) => {}
            Err(fault) => return Err(fault),
        }
    }
    Ok(())
}

/// Applies the steps of one happening to the state that two lists tell, in place; two lists are lent for what is written.
pub fn happen(
    parts: &TaskParts,
    here: &[PlanStep],
    facts: &mut [bool],
    fluents: &mut [Fraction],
    assigns: &mut Vec<(FluentId, Fraction)>,
    increases: &mut Vec<(FluentId, Fraction)>,
) -> Result<(), FormFault>
    requires well_made { IsWellMade parts.now }
    requires facts { length facts.old ≡ length parts.now.facts }
    requires fluents { length fluents.old ≡ length parts.now.fluents }
    requires known { AreSteps parts.now here.now }
    ensures state { Tells result (effects_reckoned parts.now here.now (told facts.old fluents.old)) (λ _. (told facts.new fluents.new ≡ happened parts.now here.now (told facts.old fluents.old)) × (length facts.new ≡ length facts.old) × (length fluents.new ≡ length fluents.old)) }
    ensures fits { OnOk result (AllByRecursion (Fits wide_limit) fluents.old → AllByRecursion (Fits wide_limit) fluents.new) }
{
    assigns.clear();
    increases.clear();
    match push_all(assigns, increases, parts, fluents, here) {
        Ok(()) => {
            delete_all(parts, here, facts);
            add_all(parts, here, facts);
            write(fluents, assigns.as_slice());
            raise(fluents, increases.as_slice())
        }
        Err(fault) => Err(fault),
    }
}
