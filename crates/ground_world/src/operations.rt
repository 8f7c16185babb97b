//! What a list of an expression does with the values of its operands.

ghost use Rattle.std.specs.Prelude.{◌≡◌, [], ◌∷◌, ◌++◌, false, IfOk, OnOk};
ghost use Rattle.ground_world.specs.World.{either};
ghost use Rattle.exact_lin.specs.Forms.{is_zero};
ghost use Rattle.ground_world.specs.Expressions.{own_flaw, operated, divided, minus_form};
ghost use Rattle.ground_world.specs.Operations.{operation, operands_of, joined, bare};

use crate::sums::{added, is_zero, product_forms, quotient_form, scaled, sum_forms};
use exact_lin::{FluentId, Form, Fraction, NoMemory, Scalar};
use pddl_terms::Comparison;
use sqlite_items::Items;
use std::alloc::Global;

/// Why an expression has no value: a list's own reckoning is undefined while its operands are defined, or a divisor is
/// 0. Each with the byte at which the list or the divisor begins.
#[derive(Clone, Copy, Debug, PartialEq, Eq)]
pub enum Flaw {
    TooWide(u32),
    ZeroDivisor(u32),
}

/// What is done with operands: their sum, product, negative or difference, quotient, or the difference of the two sides
/// of a comparison.
#[derive(Clone, Copy, Debug, PartialEq, Eq)]
pub enum Operation {
    Sum,
    Product,
    Minus,
    Quotient,
    Sides(Comparison),
}

/// The values of some operands, and whether one has none.
#[derive(Drop)]
pub struct Operands {
    pub forms: Items<Form<FluentId, Fraction>>,
    pub lacking: bool,
}

impl Operands {
    /// No operands.
    pub fn new(alloc: Global) -> Operands
        ensures { operands_of result ≡ Some [] }
    {
        Operands {
            forms: Items::new(alloc),
            lacking: false,
        }
    }

    /// One operand more.
    pub fn push(&mut self, value: Option<Form<FluentId, Fraction>>) -> Result<(), NoMemory>
        ensures { OnOk result (operands_of self.new ≡ joined (operands_of self.old) value) }
    {
        match value {
            Some(form) => {
                self.forms.push(form)?;
                Ok(())
            }
            None => {
                self.lacking = true;
                Ok(())
            }
        }
    }
}

// The negative of one form, or the difference of two.
fn minus(
    alloc: Global,
    forms: &[Form<FluentId, Fraction>],
) -> Result<Option<Form<FluentId, Fraction>>, NoMemory>
    ensures { IfOk result (λ value. value ≡ operation Operation.Minus forms.now) }
{
    match forms {
        [one] => scaled(alloc, Fraction::of_int(-1), one),
        [one, other] => added(one, Fraction::of_int(-1), other),
        _ => Ok(None),
    }
}

// The difference of the two sides of a comparison.
fn sides(
    alloc: Global,
    order: Comparison,
    forms: &[Form<FluentId, Fraction>],
) -> Result<Option<Form<FluentId, Fraction>>, NoMemory>
    ensures { IfOk result (λ value. value ≡ operation (Operation.Sides order) forms.now) }
{
    match order {
        Comparison::AtMost => match forms {
            [left, right] => added(right, Fraction::of_int(-1), left),
            _ => Ok(None),
        },
        Comparison::Equal => minus(alloc, forms),
        Comparison::AtLeast => minus(alloc, forms),
        Comparison::Below => minus(alloc, forms),
        Comparison::Above => minus(alloc, forms),
    }
}

/// What an operation gives of some forms.
pub fn applied(
    alloc: Global,
    what: Operation,
    forms: &[Form<FluentId, Fraction>],
) -> Result<Option<Form<FluentId, Fraction>>, NoMemory>
    ensures { IfOk result (λ value. value ≡ operation what forms.now) }
{
    match what {
        Operation::Sum => match forms.split_first() {
            Some((first, others)) => sum_forms(first, others),
            None => Ok(None),
        },
        Operation::Product => match forms.split_first() {
            Some((first, others)) => product_forms(alloc, first, others),
            None => Ok(None),
        },
        Operation::Minus => minus(alloc, forms),
        Operation::Quotient => match forms {
            [dividend, divisor] => quotient_form(alloc, dividend, divisor),
            _ => Ok(None),
        },
        Operation::Sides(order) => sides(alloc, order, forms),
    }
}

/// What an operation gives of its operands, with a flaw at its place where it is undefined.
pub fn operate(
    alloc: Global,
    place: u32,
    what: Operation,
    operands: &Operands,
    flaws: &mut Items<Flaw>,
) -> Result<Option<Form<FluentId, Fraction>>, NoMemory>
    ensures value { IfOk result (λ value. value ≡ either None (operation what) (operands_of operands.now)) }
    ensures flaws { OnOk result (flaws.new ≡ flaws.old
        ++ either [] (λ forms. own_flaw place (operation what forms)) (operands_of operands.now)) }
{
    if operands.lacking {
        return Ok(None);
    }
    match applied(alloc, what, operands.forms.as_slice())? {
        Some(form) => Ok(Some(form)),
        None => {
            flaws.push(Flaw::TooWide(place))?;
            Ok(None)
        }
    }
}

/// What an operation gives of two operands, with a flaw at its place where it is undefined.
pub fn operate_on_two(
    alloc: Global,
    place: u32,
    what: Operation,
    left: Option<Form<FluentId, Fraction>>,
    right: Option<Form<FluentId, Fraction>>,
    flaws: &mut Items<Flaw>,
) -> Result<Option<Form<FluentId, Fraction>>, NoMemory>
    ensures value { IfOk result (λ value. value ≡ (operated place (operation what) (bare 0 left ∷ bare 0 right ∷ [])).value) }
    ensures flaws { OnOk result (flaws.new ≡ flaws.old ++ (operated place (operation what) (bare 0 left ∷ bare 0 right ∷ [])).flaws) }
{
    let mut operands = Operands::new(alloc);
    operands.push(left)?;
    operands.push(right)?;
    operate(alloc, place, what, &operands, flaws)
}

/// The negative of an operand, with a flaw at its place where it is undefined.
pub fn negate(
    alloc: Global,
    place: u32,
    value: Option<Form<FluentId, Fraction>>,
    flaws: &mut Items<Flaw>,
) -> Result<Option<Form<FluentId, Fraction>>, NoMemory>
    ensures value { IfOk result (λ negative. negative ≡ (operated place minus_form (bare 0 value ∷ [])).value) }
    ensures flaws { OnOk result (flaws.new ≡ flaws.old ++ (operated place minus_form (bare 0 value ∷ [])).flaws) }
{
    let mut operands = Operands::new(alloc);
    operands.push(value)?;
    operate(alloc, place, Operation::Minus, &operands, flaws)
}

// Whether a divisor has a value whose constant is 0.
fn is_zero_divisor(divisor: &Option<Form<FluentId, Fraction>>) -> bool
    ensures { result ≡ either false (λ form. is_zero form.constant) divisor.now }
{
    match divisor {
        Some(form) => is_zero(form.constant()),
        None => false,
    }
}

/// The quotient of two operands, with a flaw at its place where it is undefined, or at the divisor's where that is 0.
pub fn divide(
    alloc: Global,
    place: u32,
    dividend: Option<Form<FluentId, Fraction>>,
    divisor_at: u32,
    divisor: Option<Form<FluentId, Fraction>>,
    flaws: &mut Items<Flaw>,
) -> Result<Option<Form<FluentId, Fraction>>, NoMemory>
    ensures value { IfOk result (λ quotient. quotient ≡ (divided place (bare 0 dividend) (bare divisor_at divisor)).value) }
    ensures flaws { OnOk result (flaws.new ≡ flaws.old ++ (divided place (bare 0 dividend) (bare divisor_at divisor)).flaws) }
{
    if is_zero_divisor(&divisor) {
        flaws.push(Flaw::ZeroDivisor(divisor_at))?;
        return Ok(None);
    }
    operate_on_two(alloc, place, Operation::Quotient, dividend, divisor, flaws)
}
