//! The metric of a problem as a form to be minimised.

ghost use Rattle.std.specs.Prelude.{◌≡◌, not, IfOk};
ghost use Rattle.ground_world.specs.FirstState.{unvalued_places, no_places};
ghost use Rattle.ground_world.specs.Expressions.{mentioned};
ghost use Rattle.ground_world.specs.Leaves.{toward, metric_value, minimised_value};
ghost use Rattle.ground_world.specs.Shown.{world_of};
ghost use Rattle.ground_world.specs.Readings.{unknowns_of, world_in, unknowns_in, env_in};

use crate::expressions::{own_form, reckon};
use crate::readings::{MetricNames, Reading};
use crate::sums::scaled;
use crate::tables::Tables;
use crate::unvalued::push_unvalued;
use exact_lin::{FluentId, Form, Fraction, NoMemory, Scalar};
use pddl_terms::{Aim, Metric};
use sqlite_items::Items;
use std::alloc::Global;

// The form to be minimised: a maximised one is negated. A negative is never past the width, so the last arm is never
// taken.
fn toward(
    alloc: Global,
    aim: Aim,
    form: Form<FluentId, Fraction>,
) -> Result<Form<FluentId, Fraction>, NoMemory>
    ensures { IfOk result (λ aimed. aimed ≡ toward aim form) }
{
    match aim {
        Aim::Minimize => Ok(form),
        Aim::Maximize => match scaled(alloc, Fraction::of_int(-1), &form)? {
            Some(negative) => Ok(negative),
            None => Err(NoMemory),
        },
    }
}

// Whether some fluent of a metric has no first value.
fn is_lacking(alloc: Global, reading: &Reading, metric: &Metric) -> Result<bool, NoMemory>
    ensures { IfOk result (λ lacking. lacking ≡ not (no_places (unvalued_places (world_in reading.now) (mentioned (world_in reading.now) (env_in reading.now) metric.now.expression)))) }
{
    let mut places = Items::new(alloc);
    push_unvalued(
        alloc,
        reading.tables,
        reading.env,
        &metric.expression,
        &mut places,
    )?;
    Ok(places.as_slice().len() > 0)
}

// The minimised form of a metric that is written out.
fn metric_form(
    alloc: Global,
    reading: &Reading,
    metric: &Metric,
) -> Result<Option<Form<FluentId, Fraction>>, NoMemory>
    ensures { IfOk result (λ form. form ≡ metric_value (world_in reading.now) (unknowns_in reading.now) (env_in reading.now) metric.now) }
{
    if is_lacking(alloc, reading, metric)? {
        return Ok(None);
    }
    let mut flaws = Items::new(alloc);
    match reckon(alloc, reading, &metric.expression, &mut flaws)? {
        Some(form) => Ok(Some(toward(alloc, metric.aim, form)?)),
        None => Ok(None),
    }
}

/// The minimised form of a metric, or the total time where there is none. None where a fluent has no first value, a
/// divisor is 0, or a sum or product passes 128 bits.
pub fn minimised(
    alloc: Global,
    tables: &Tables,
    names: &MetricNames,
    metric: &Option<Metric>,
) -> Result<Option<Form<FluentId, Fraction>>, NoMemory>
    ensures { IfOk result (λ form. form ≡ minimised_value (world_of tables.now) (unknowns_of names.now) metric.now) }
{
    let reading = Reading {
        tables,
        names,
        env: &[],
    };
    match metric {
        Some(metric) => metric_form(alloc, &reading, metric),
        None => own_form(alloc, &reading),
    }
}
