//! Forms over the times of steps, made sum by sum.

ghost use Rattle.std.specs.Prelude.{◌≡◌, ◌==◌, option_to_list};
ghost use Rattle.rational.specs.Rational.{neg_ℚ};
ghost use Rattle.exact_lin.specs.Reckoning.{wide_limit};
ghost use Rattle.exact_lin.specs.Forms.{constant_form, plus_term, plus_scaled, CanAddTerm, CanAddScaled};
ghost use Rattle.rate_ledger.specs.Answers.{Gives};
ghost use Rattle.rate_ledger.specs.Moving.{moved_form, CanMove, left_form, CanLeave, spanned_form, CanSpan};

use crate::changes::Change;
use exact_lin::{Form, FormFault, Fraction, Id, Scalar, StepId, VarId};
use std::alloc::Global;

/// A form over the times of steps.
pub type StepForm = Form<VarId, Fraction>;

/// The form of a number alone.
#[tactic(auto, using(crate::proofs::FormSteps::constant_made))]
pub fn constant(alloc: Global, value: Fraction) -> StepForm
    ensures { result ≡ constant_form value }
{
    let _fits = value.sign();
    let mut form = Form::zero(alloc);
    let _added = form.add_constant(value);
    form
}

/// A form with a number more at a variable.
pub fn with_term(form: StepForm, v: VarId, by: Fraction) -> Result<StepForm, FormFault>
    ensures { Gives result (CanAddTerm wide_limit form v by) (λ r. r ≡ plus_term form v by) }
{
    let mut sum = form;
    sum.add_term(v, by)?;
    Ok(sum)
}

/// A form with a multiple of another one more.
pub fn with_scaled(form: StepForm, by: Fraction, other: &StepForm) -> Result<StepForm, FormFault>
    ensures { Gives result (CanAddScaled wide_limit form by other.now) (λ r. r ≡ plus_scaled form by other.now) }
{
    let mut sum = form;
    sum.add_scaled(other, by)?;
    Ok(sum)
}

/// What was changed, moved to the time of a variable.
pub fn moved(change: &Change, v: VarId) -> Result<StepForm, FormFault>
    ensures { Gives result (CanMove change.now v) (λ r. r ≡ moved_form change.now v) }
{
    let form = change.form.copy()?;
    let later = with_term(form, v, change.rate)?;
    with_term(later, VarId::of(change.step.number()), change.rate.neg())
}

/// What was changed at or before a step, as it is after that step.
pub fn left(change: &Change, step: StepId) -> Result<StepForm, FormFault>
    ensures { Gives result (CanLeave (change.now.step == step) change.now step) (λ r. r ≡ left_form (change.now.step == step) change.now step) }
{
    if change.step == step {
        return Ok(change.form.copy()?);
    }
    moved(change, VarId::of(step.number()))
}

/// A form with a factor times the time between two variables, the later one first.
pub fn with_span(
    form: StepForm,
    factor: Fraction,
    span: &Option<(VarId, VarId)>,
) -> Result<StepForm, FormFault>
    ensures { Gives result (CanSpan form factor (option_to_list span.now)) (λ r. r ≡ spanned_form form factor (option_to_list span.now)) }
{
    match span {
        Some(ends) => {
            let later = with_term(form, ends.1, factor)?;
            with_term(later, ends.0, factor.neg())
        }
        None => Ok(form),
    }
}
