//! Comparisons under a binding: the reckoning of their difference, their forms, and the fluents without a first value.

ghost use Rattle.std.specs.Prelude.{◌≡◌, [], ◌∷◌, ◌++◌, IfOk, OnOk};
ghost use Rattle.exact_lin.specs.Forms.{LinearForm, constant_form};
ghost use Rattle.rational.specs.Rational.{zeroℚ};
ghost use Rattle.ground_world.specs.World.{either, place_in};
ghost use Rattle.ground_world.specs.FirstState.{unvalued_places};
ghost use Rattle.ground_world.specs.Expressions.{fluent_form, mentioned, negative};
ghost use Rattle.ground_world.specs.Conditions.{side_expression, difference, forms_of, test_forms};
ghost use Rattle.ground_world.specs.Shown.{env_of, world_of, expression_of, test_of};
ghost use Rattle.ground_world.specs.Readings.{unknowns_of, reckoned_in};

use crate::binding::Bound;
use crate::expressions::{fluent_form, reckon};
use crate::operations::{Flaw, Operation, operate_on_two};
use crate::parts::{CondTest, Operand};
use crate::readings::{MetricNames, Reading};
use crate::sums::scaled;
use crate::tables::Tables;
use crate::unvalued::push_unvalued;
use exact_lin::{FluentId, Form, Fraction, NoMemory, Scalar};
use pddl_terms::{Comparison, Name, Side};
use sqlite_items::Items;
use std::alloc::Global;

// The form of a fluent without terms.
fn bare_form(
    alloc: Global,
    tables: &Tables,
    name: &Name,
) -> Result<Form<FluentId, Fraction>, NoMemory>
    ensures { IfOk result (λ form. form ≡ fluent_form (world_of tables.now) (place_in (world_of tables.now).functions name.now.bytes ∷ [])) }
{
    let fluent = [tables.function(name.bytes.as_slice())];
    fluent_form(alloc, tables, &fluent)
}

// The value of a side of an `=`, or None where it has none. Its flaws are put at the end of the others.
fn reckon_side(
    alloc: Global,
    reading: &Reading,
    side: &Side,
    flaws: &mut Items<Flaw>,
) -> Result<Option<Form<FluentId, Fraction>>, NoMemory>
    ensures value { IfOk result (λ value. value ≡ (reckoned_in reading.now (side_expression side.now)).value) }
    ensures flaws { OnOk result (flaws.new ≡ flaws.old ++ (reckoned_in reading.now (side_expression side.now)).flaws) }
{
    match side {
        Side::Variable(_) => Ok(None),
        Side::Bare(name) => {
            let form = bare_form(alloc, reading.tables, name)?;
            Ok(Some(form))
        }
        Side::Expression(tree) => reckon(alloc, reading, tree, flaws),
    }
}

// The value of an operand of a comparison. Its flaws are put at the end of the others.
fn reckon_operand(
    alloc: Global,
    reading: &Reading,
    operand: &Operand,
    flaws: &mut Items<Flaw>,
) -> Result<Option<Form<FluentId, Fraction>>, NoMemory>
    ensures value { IfOk result (λ value. value ≡ (reckoned_in reading.now (expression_of operand.now)).value) }
    ensures flaws { OnOk result (flaws.new ≡ flaws.old ++ (reckoned_in reading.now (expression_of operand.now)).flaws) }
{
    match operand {
        Operand::Tree(tree) => reckon(alloc, reading, tree, flaws),
        Operand::Side(side) => reckon_side(alloc, reading, side, flaws),
    }
}

/// The difference of the two sides of a comparison, or None where it has no value. Its flaws are put at the end of the
/// others.
pub fn test_difference(
    alloc: Global,
    tables: &Tables,
    names: &MetricNames,
    test: &CondTest,
    flaws: &mut Items<Flaw>,
) -> Result<Option<Form<FluentId, Fraction>>, NoMemory>
    ensures value { IfOk result (λ value. value
        ≡ (difference (world_of tables.now) (unknowns_of names.now) (test_of test.now)).value) }
    ensures flaws { OnOk result (flaws.new
        ≡ flaws.old ++ (difference (world_of tables.now) (unknowns_of names.now) (test_of test.now)).flaws) }
{
    let reading = Reading {
        tables,
        names,
        env: test.env.as_slice(),
    };
    let left = reckon_operand(alloc, &reading, &test.left, flaws)?;
    let right = reckon_operand(alloc, &reading, &test.right, flaws)?;
    let what = Operation::Sides(test.order);
    operate_on_two(alloc, test.place, what, left, right, flaws)
}

/// The form of a value, 0 where there is none.
pub fn form_or_zero(
    alloc: Global,
    value: Option<Form<FluentId, Fraction>>,
) -> Form<FluentId, Fraction>
    ensures { result ≡ either (constant_form zeroℚ) (λ (form : LinearForm). form) value }
{
    match value {
        Some(form) => form,
        None => Form::zero(alloc),
    }
}

/// The negative of a form. It is never past the width, so the last arm is never taken.
pub fn negative(
    alloc: Global,
    form: &Form<FluentId, Fraction>,
) -> Result<Form<FluentId, Fraction>, NoMemory>
    ensures { IfOk result (λ opposite. opposite ≡ negative form.now) }
{
    match scaled(alloc, Fraction::of_int(-1), form)? {
        Some(opposite) => Ok(opposite),
        None => Err(NoMemory),
    }
}

// The forms of a comparison whose difference has this form.
fn forms_of(
    alloc: Global,
    order: Comparison,
    form: Form<FluentId, Fraction>,
) -> Result<Items<Form<FluentId, Fraction>>, NoMemory>
    ensures { IfOk result (λ forms. forms ≡ forms_of order form) }
{
    let mut forms = Items::new(alloc);
    match order {
        Comparison::Equal => {
            let opposite = negative(alloc, &form)?;
            forms.push(form)?;
            forms.push(opposite)?;
        }
        Comparison::AtMost => forms.push(form)?,
        Comparison::AtLeast => forms.push(form)?,
        Comparison::Below => (),
        Comparison::Above => (),
    }
    Ok(forms)
}

/// The forms of a comparison, each to be at least 0; an equality is both differences. A difference without a value counts
/// as 0.
pub fn test_forms(
    alloc: Global,
    tables: &Tables,
    names: &MetricNames,
    test: &CondTest,
) -> Result<Items<Form<FluentId, Fraction>>, NoMemory>
    ensures { IfOk result (λ forms. forms ≡ test_forms (world_of tables.now) (unknowns_of names.now) (test_of test.now)) }
{
    let mut flaws = Items::new(alloc);
    let value = test_difference(alloc, tables, names, test, &mut flaws)?;
    forms_of(alloc, test.order, form_or_zero(alloc, value))
}

// Puts the place of a fluent without terms at the end where it has no first value.
fn push_bare_unvalued(tables: &Tables, name: &Name, out: &mut Items<u32>) -> Result<(), NoMemory>
    ensures { OnOk result (out.new ≡ out.old ++ unvalued_places (world_of tables.now)
        ((name.now.at, place_in (world_of tables.now).functions name.now.bytes ∷ []) ∷ [])) }
{
    let fluent = [tables.function(name.bytes.as_slice())];
    match tables.value(&fluent) {
        Some(_) => Ok(()),
        None => {
            out.push(name.at)?;
            Ok(())
        }
    }
}

// Puts the places of the fluents of a side of an `=` that have no first value at the end.
fn push_side_unvalued(
    alloc: Global,
    tables: &Tables,
    env: &[Bound],
    side: &Side,
    out: &mut Items<u32>,
) -> Result<(), NoMemory>
    ensures { OnOk result (out.new ≡ out.old ++ unvalued_places (world_of tables.now)
        (mentioned (world_of tables.now) (env_of env.now) (side_expression side.now))) }
{
    match side {
        Side::Variable(_) => Ok(()),
        Side::Bare(name) => push_bare_unvalued(tables, name, out),
        Side::Expression(tree) => push_unvalued(alloc, tables, env, tree, out),
    }
}

// Puts the places of the fluents of an operand that have no first value at the end.
fn push_operand_unvalued(
    alloc: Global,
    tables: &Tables,
    env: &[Bound],
    operand: &Operand,
    out: &mut Items<u32>,
) -> Result<(), NoMemory>
    ensures { OnOk result (out.new ≡ out.old ++ unvalued_places (world_of tables.now)
        (mentioned (world_of tables.now) (env_of env.now) (expression_of operand.now))) }
{
    match operand {
        Operand::Tree(tree) => push_unvalued(alloc, tables, env, tree, out),
        Operand::Side(side) => push_side_unvalued(alloc, tables, env, side, out),
    }
}

/// Puts the places of the fluents that a comparison mentions and that have no first value at the end, those of its left
/// side first.
pub fn push_test_unvalued(
    alloc: Global,
    tables: &Tables,
    test: &CondTest,
    out: &mut Items<u32>,
) -> Result<(), NoMemory>
    ensures { let mentions = mentioned (world_of tables.now) (test_of test.now).env in
        OnOk result (out.new ≡ out.old ++ unvalued_places (world_of tables.now)
        (mentions (test_of test.now).left ++ mentions (test_of test.now).right)) }
{
    let env = test.env.as_slice();
    push_operand_unvalued(alloc, tables, env, &test.left, out)?;
    push_operand_unvalued(alloc, tables, env, &test.right, out)
}
