//! Conditions in a state that two lists tell: their forms are all reckoned, also where a literal fails.

ghost use Rattle.std.specs.Prelude.{◌≡◌, false, ◌&&◌, ◌||◌, ◌∷◌, [], length, slice_index_or};
ghost use Rattle.std.specs.List.{AllByRecursion, list_all, flat_map};
ghost use Rattle.rational.specs.Rational.{zeroℚ};
ghost use Rattle.exact_lin.specs.Forms.{Covers};
ghost use Rattle.task_types.specs.Tests.{◌≤?◌};
ghost use Rattle.task_types.specs.State.{value, literal_holds, comparison_holds, holds};
ghost use Rattle.timed_meaning.specs.Answers.{told, Tells};
ghost use Rattle.plan_validator.specs.Readings.{one_value};

use exact_lin::{FluentId, Form, FormFault, Fraction, Id, Scalar, Wide};
use std::cmp::Ordering;
use task_types::{Condition, Literal};

pub fn both(one: bool, other: bool) -> bool
    ensures { result ≡ (one && other) }
{
    one && other
}

pub fn either(one: bool, other: bool) -> bool
    ensures { result ≡ (one || other) }
{
    one || other
}

pub fn is_at_most(one: Fraction, other: Fraction) -> bool
    ensures { result ≡ (one ≤? other) }
{
    match Scalar::cmp(other, one) {
        Ordering::Less => false,
        Ordering::Equal => true,
        Ordering::Greater => true,
    }
}

fn holds_at(facts: &[bool], at: usize) -> bool
    ensures { result ≡ slice_index_or facts.now at false }
{
    match facts.get(at) {
        Some(fact) => *fact,
        None => false,
    }
}

fn literal_holds(literal: &Literal, facts: &[bool]) -> bool
    ensures { result ≡ literal_holds literal.now (told facts.now []).facts }
{
    let fact = holds_at(facts, literal.fact.number() as usize);
    if literal.holds { fact } else { !fact }
}

fn literals_hold(literals: &[Literal], facts: &[bool]) -> bool
    ensures { result ≡ list_all (λ l. literal_holds l (told facts.now []).facts) literals.now }
{
    literals.iter().all(|literal| literal_holds(literal, facts))
}

/// The value of a form in the state.
pub fn form_value(
    form: &Form<FluentId, Fraction>,
    fluents: &[Fraction],
) -> Result<Fraction, FormFault>
    requires { Covers (length fluents.now) form.now.terms }
    ensures { Tells result (one_value (told [] fluents.now) form.now)
        (λ q. q ≡ value form.now (told [] fluents.now).fluents) }
{
    match form.value_at(fluents) {
        Ok(value) => Ok(value),
        Err(Wide) => Err(FormFault::Wide),
    }
}

fn form_holds(form: &Form<FluentId, Fraction>, fluents: &[Fraction]) -> Result<bool, FormFault>
    requires { Covers (length fluents.now) form.now.terms }
    ensures { Tells result (one_value (told [] fluents.now) form.now)
        (λ b. b ≡ comparison_holds form.now (told [] fluents.now).fluents) }
{
    match form_value(form, fluents) {
        Ok(value) => Ok(is_at_most(Fraction::of_int(0), value)),
        Err(fault) => Err(fault),
    }
}

fn forms_hold(forms: &[Form<FluentId, Fraction>], fluents: &[Fraction]) -> Result<bool, FormFault>
    requires { AllByRecursion (λ e. Covers (length fluents.now) e.terms) forms.now }
    ensures { Tells result (flat_map (one_value (told [] fluents.now)) forms.now)
        (λ b. b ≡ list_all (λ e. comparison_holds e (told [] fluents.now).fluents) forms.now) }
{
    let mut all = true;
    for form in forms {
        match form_holds(form, fluents) {
            Ok(holds) => all = both(all, holds),
            Err(fault) => return Err(fault),
        }
    }
    Ok(all)
}

/// Whether a condition holds in the state.
pub fn holds(condition: &Condition, facts: &[bool], fluents: &[Fraction]) -> Result<bool, FormFault>
    requires { AllByRecursion (λ e. Covers (length fluents.now) e.terms) condition.now.comparisons }
    ensures { Tells result
        (flat_map (one_value (told facts.now fluents.now)) condition.now.comparisons)
        (λ b. b ≡ holds condition.now (told facts.now fluents.now)) }
{
    match forms_hold(condition.comparisons.as_slice(), fluents) {
        Ok(forms) => Ok(both(literals_hold(condition.literals.as_slice(), facts), forms)),
        Err(fault) => Err(fault),
    }
}
