//! Forms over the fluents and the further unknowns: their sums and products, where these are defined in 128 bits.

ghost use Rattle.std.specs.Prelude.{◌≡◌, [], ◌∷◌, IfOk};
ghost use Rattle.rational.specs.Rational.{inverse};
ghost use Rattle.exact_lin.specs.Forms as forms;
ghost use Rattle.exact_lin.specs.Reckoning.{Fits, wide_limit};
ghost use Rattle.ground_world.specs.Expressions as reckoning;

use exact_lin::{FluentId, Form, FormFault, Fraction, Id, NoMemory, Scalar, Sign};
use std::alloc::Global;

/// A form with a multiple of another added, or None where a part of the reckoning passes 128 bits.
pub fn added(
    one: &Form<FluentId, Fraction>,
    by: Fraction,
    other: &Form<FluentId, Fraction>,
) -> Result<Option<Form<FluentId, Fraction>>, NoMemory>
    ensures { IfOk result (λ sum. sum ≡ reckoning.added one.now by other.now) }
{
    let mut sum = one.copy()?;
    match sum.add_scaled(other, by) {
        Ok(()) => Ok(Some(sum)),
        Err(FormFault::Wide) => Ok(None),
        Err(FormFault::Memory) => Err(NoMemory),
    }
}

/// Whether a number is 0. Its parts are never past the limit.
pub fn is_zero(number: Fraction) -> bool
    ensures value { result ≡ forms.is_zero number }
    ensures fits { Fits wide_limit number }
{
    match number.sign() {
        Sign::Minus => false,
        Sign::Zero => true,
        Sign::Plus => false,
    }
}

/// The form of a number.
pub fn constant_form(alloc: Global, number: Fraction) -> Form<FluentId, Fraction>
    ensures { result ≡ forms.constant_form number }
{
    let mut form = Form::zero(alloc);
    if is_zero(number) {
        return form;
    }
    match form.add_constant(number) {
        Ok(()) => form,
        Err(_) => form,
    }
}

/// The form of one unknown.
pub fn unknown(alloc: Global, number: u32) -> Result<Form<FluentId, Fraction>, NoMemory>
    ensures { IfOk result (λ form. form ≡ reckoning.unknown number) }
{
    let mut form = Form::zero(alloc);
    match form.add_term(FluentId::of(number), Fraction::of_int(1)) {
        Ok(()) => Ok(form),
        Err(_) => Err(NoMemory),
    }
}

/// A multiple of a form.
pub fn scaled(
    alloc: Global,
    by: Fraction,
    form: &Form<FluentId, Fraction>,
) -> Result<Option<Form<FluentId, Fraction>>, NoMemory>
    ensures { IfOk result (λ product. product ≡ reckoning.scaled by form.now) }
{
    added(&Form::zero(alloc), by, form)
}

/// The sum of some forms, from the first on.
pub fn sum_forms(
    first: &Form<FluentId, Fraction>,
    others: &[Form<FluentId, Fraction>],
) -> Result<Option<Form<FluentId, Fraction>>, NoMemory>
    ensures { IfOk result (λ sum. sum ≡ reckoning.sum_forms first.now others.now) }
{
    let mut sum = first.copy()?;
    for form in others {
        match added(&sum, Fraction::of_int(1), form)? {
            Some(next) => sum = next,
            None => return Ok(None),
        }
    }
    Ok(Some(sum))
}

// Whether the form has an unknown.
fn has_terms(form: &Form<FluentId, Fraction>) -> bool
    ensures { result ≡ reckoning.has_terms form.now }
{
    form.terms().len() > 0
}

// The product of two forms, one of which is a number.
fn product_form(
    alloc: Global,
    one: &Form<FluentId, Fraction>,
    other: &Form<FluentId, Fraction>,
) -> Result<Option<Form<FluentId, Fraction>>, NoMemory>
    ensures { IfOk result (λ product. product ≡ reckoning.product_form one.now other.now) }
{
    if !has_terms(other) {
        return scaled(alloc, other.constant(), one);
    }
    if has_terms(one) {
        return Ok(None);
    }
    scaled(alloc, one.constant(), other)
}

/// The product of some forms, from the first on.
pub fn product_forms(
    alloc: Global,
    first: &Form<FluentId, Fraction>,
    others: &[Form<FluentId, Fraction>],
) -> Result<Option<Form<FluentId, Fraction>>, NoMemory>
    ensures { IfOk result (λ product. product ≡ reckoning.product_forms first.now others.now) }
{
    let mut product = first.copy()?;
    for form in others {
        match product_form(alloc, &product, form)? {
            Some(next) => product = next,
            None => return Ok(None),
        }
    }
    Ok(Some(product))
}

// The reciprocal of a number, 0 for 0.
fn reciprocal(number: Fraction) -> Fraction
    ensures { result ≡ inverse number }
{
    if is_zero(number) {
        return number;
    }
    number.recip()
}

/// The quotient of a form by a number.
pub fn quotient_form(
    alloc: Global,
    dividend: &Form<FluentId, Fraction>,
    divisor: &Form<FluentId, Fraction>,
) -> Result<Option<Form<FluentId, Fraction>>, NoMemory>
    ensures { IfOk result (λ quotient. quotient ≡ reckoning.quotient_form (dividend.now ∷ divisor.now ∷ [])) }
{
    if has_terms(divisor) {
        return Ok(None);
    }
    scaled(alloc, reciprocal(divisor.constant()), dividend)
}
