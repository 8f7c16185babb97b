//! The metric of a problem as a form to be minimised, also where it has no value.

ghost use Rattle.std.specs.Prelude.{◌≡◌, [], IfOk};
ghost use Rattle.ground_world.specs.World.{either};
ghost use Rattle.ground_world.specs.Expressions.{form_or_zero, own_unknown, reckoned, unknown};
ghost use Rattle.ground_world.specs.Leaves.{toward};
ghost use Rattle.ground_world.specs.Readings.{unknowns_of};
ghost use Rattle.ground_world.specs.Shown.{world_of};

use exact_lin::{FluentId, Form, Fraction, NoMemory};
use ground_world::{MetricNames, Reading, Tables, form_or_zero, minimised, negative, reckon};
use pddl_terms::{Aim, Metric};
use sqlite_items::Items;
use std::alloc::Global;

// The form of a metric's expression, 0 where it has no value.
fn expression_form(
    alloc: Global,
    tables: &Tables,
    names: &MetricNames,
    metric: &Metric,
) -> Result<Form<FluentId, Fraction>, NoMemory>
    ensures { IfOk result (λ form. form
        ≡ form_or_zero (reckoned (world_of tables.now) (unknowns_of names.now) [] metric.now.expression)) }
{
    let reading = Reading {
        tables,
        names,
        env: &[],
    };
    let mut flaws = Items::new(alloc);
    let value = reckon(alloc, &reading, &metric.expression, &mut flaws)?;
    Ok(form_or_zero(alloc, value))
}

// A form as it is to be minimised.
fn toward(
    alloc: Global,
    aim: Aim,
    form: Form<FluentId, Fraction>,
) -> Result<Form<FluentId, Fraction>, NoMemory>
    ensures { IfOk result (λ aimed. aimed ≡ toward aim form) }
{
    match aim {
        Aim::Minimize => Ok(form),
        Aim::Maximize => negative(alloc, &form),
    }
}

// A metric that is written out, as a form to be minimised.
fn written_form(
    alloc: Global,
    tables: &Tables,
    names: &MetricNames,
    metric: &Metric,
) -> Result<Form<FluentId, Fraction>, NoMemory>
    ensures { IfOk result (λ form. form ≡ toward metric.now.aim
        (form_or_zero (reckoned (world_of tables.now) (unknowns_of names.now) [] metric.now.expression))) }
{
    let form = expression_form(alloc, tables, names, metric)?;
    toward(alloc, metric.aim, form)
}

// The total time as a form.
fn total_time(
    alloc: Global,
    tables: &Tables,
    names: &MetricNames,
) -> Result<Form<FluentId, Fraction>, NoMemory>
    ensures { IfOk result (λ form. form ≡ unknown (own_unknown (world_of tables.now))) }
{
    let value = minimised(alloc, tables, names, &None)?;
    Ok(form_or_zero(alloc, value))
}

/// The metric as a form to be minimised, where an expression without a value counts as 0; the total time where there is
/// no metric.
pub fn metric_form(
    alloc: Global,
    tables: &Tables,
    names: &MetricNames,
    metric: &Option<Metric>,
) -> Result<Form<FluentId, Fraction>, NoMemory>
    ensures { IfOk result (λ form. form ≡ either (unknown (own_unknown (world_of tables.now)))
        (λ m. toward m.aim (form_or_zero (reckoned (world_of tables.now) (unknowns_of names.now) [] m.expression)))
        metric.now) }
{
    match metric {
        Some(metric) => written_form(alloc, tables, names, metric),
        None => total_time(alloc, tables, names),
    }
}
