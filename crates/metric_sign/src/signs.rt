//! The first term of a metric whose coefficient in the minimised form is below 0.

ghost use Rattle.std.specs.Prelude.{◌≡◌, [], IfOk, is_none};
ghost use Rattle.std.specs.List.{flat_map};
ghost use Rattle.rational.specs.Rational.{zeroℚ};
ghost use Rattle.exact_lin.specs.Forms.{coefficient};
ghost use Rattle.pddl_names.specs.Offences.{least};
ghost use Rattle.pddl_forms.specs.Offences.{least_with};
ghost use Rattle.pddl_forms.specs.TimeCosts.{is_below};
ghost use Rattle.pddl_forms.specs.Forms.{some_offences, metric_offences};
ghost use Rattle.pddl_forms.specs.Functions.{functions_of};
ghost use Rattle.ground_world.specs.World.{either};
ghost use Rattle.ground_world.specs.FirstState.{world};
ghost use Rattle.ground_world.specs.Leaves.{unknowns};
ghost use Rattle.ground_world.specs.Shown.{world_of};
ghost use Rattle.ground_world.specs.Readings.{unknowns_of, world_in, unknowns_in};
ghost use Rattle.metric_sign.specs.Signs.{sign_offences, term_offences, valued_offences, metric_sign_offences};

use exact_lin::{FluentId, Form, Fraction, Id, NoMemory, Scalar};
use ground_world::{
    MetricNames, Reading, Tables, cost_unknown, metric_names, minimised, own_unknown,
    preference_unknown, world_tables,
};
use pddl_forms::metric_form_offence;
use pddl_names::{Offence, earlier};
use pddl_terms::{Domain, ExprTree, Kind, Metric, Problem};
use std::alloc::Global;
use std::cmp::Ordering;

fn is_negative(q: Fraction) -> bool
    ensures { result ≡ is_below q zeroℚ }
{
    match Scalar::cmp(q, Fraction::of_int(0)) {
        Ordering::Less => true,
        Ordering::Equal => false,
        Ordering::Greater => false,
    }
}

#[tactic(auto, using(pddl_forms::proofs::Least::least_of), unfolding(pddl_forms::specs::Offences::lesser))]
fn least_of_term(
    form: &Form<FluentId, Fraction>,
    unknown: u32,
    at: u32,
    found: Option<Offence>,
) -> Option<Offence>
    ensures { result ≡ least_with found (sign_offences form.now unknown at) }
{
    let coefficient = form.coefficient(FluentId::of(unknown));
    if is_negative(coefficient) {
        let this = Offence {
            kind: Kind::MetricSign,
            place: at,
        };
        earlier(found, Some(this))
    } else {
        found
    }
}

#[cycle(terms)]
#[tactic(auto, using(crate::proofs::Terms::term_rules))]
fn least_of_terms(
    reading: &Reading,
    form: &Form<FluentId, Fraction>,
    tree: &ExprTree,
    found: Option<Offence>,
) -> Option<Offence>
    ensures { result ≡ least_with found (term_offences (world_in reading.now) (unknowns_in reading.now) form.now tree.now) }
{
    match tree {
        ExprTree::Number(_, _) => found,
        ExprTree::Fluent(_) => found,
        ExprTree::Duration(_) => found,
        ExprTree::Sum(_, parts) => least_of_parts(reading, form, parts.as_slice(), found),
        ExprTree::Product(_, factors) => least_of_parts(reading, form, factors.as_slice(), found),
        ExprTree::Negative(_, part) => least_of_terms(reading, form, part.get(), found),
        ExprTree::Difference(_, left, right) => {
            let found = least_of_terms(reading, form, left.get(), found);
            least_of_terms(reading, form, right.get(), found)
        }
        ExprTree::Quotient(_, left, right) => {
            let found = least_of_terms(reading, form, left.get(), found);
            least_of_terms(reading, form, right.get(), found)
        }
        ExprTree::LeftOut(_) => found,
        ExprTree::TotalTime(at) => least_of_term(form, own_unknown(reading), *at, found),
        ExprTree::Violated(at, name) => {
            let unknown = preference_unknown(reading, name.bytes.as_slice());
            least_of_term(form, unknown, *at, found)
        }
        ExprTree::TimeCost(at, name) => {
            let unknown = cost_unknown(reading, name.bytes.as_slice());
            least_of_term(form, unknown, *at, found)
        }
    }
}

#[cycle(terms)]
fn least_of_parts(
    reading: &Reading,
    form: &Form<FluentId, Fraction>,
    parts: &[ExprTree],
    found: Option<Offence>,
) -> Option<Offence>
    ensures { result ≡ least_with found (flat_map (term_offences (world_in reading.now) (unknowns_in reading.now) form.now) parts.now) }
{
    let mut found = found;
    for part in parts {
        found = least_of_terms(reading, form, part, found);
    }
    found
}

// Nothing is found where the metric has no value.
fn least_of_form(
    reading: &Reading,
    form: &Option<Form<FluentId, Fraction>>,
    metric: &Metric,
) -> Option<Offence>
    ensures { result ≡ least (either [] (λ f. term_offences (world_in reading.now) (unknowns_in reading.now) f metric.now.expression) form.now) }
{
    match form {
        Some(form) => least_of_terms(reading, form, &metric.expression, None),
        None => None,
    }
}

fn least_of_metric(
    alloc: Global,
    tables: &Tables,
    names: &MetricNames,
    metric: &Option<Metric>,
) -> Result<Option<Offence>, NoMemory>
    ensures { IfOk result (λ found. found ≡ least (some_offences (valued_offences (world_of tables.now) (unknowns_of names.now)) metric.now)) }
{
    let form = minimised(alloc, tables, names, metric)?;
    let reading = Reading {
        tables,
        names,
        env: &[],
    };
    match metric {
        Some(metric) => Ok(least_of_form(&reading, &form, metric)),
        None => Ok(None),
    }
}

// Whether a metric is linear and holds no list that is left out.
fn is_well_formed(alloc: Global, domain: &Domain, metric: &Option<Metric>) -> Result<bool, NoMemory>
    ensures { IfOk result (λ right.
        right ≡ is_none (least (some_offences (metric_offences (functions_of domain.now)) metric.now))) }
{
    let wrong = metric_form_offence(alloc, domain, metric)?;
    Ok(wrong.is_none())
}

// The first such term of a problem's metric in the world of these tables.
fn least_in_world(
    alloc: Global,
    tables: &Tables,
    domain: &Domain,
    problem: &Problem,
) -> Result<Option<Offence>, NoMemory>
    ensures { IfOk result (λ found. found ≡ least (some_offences
        (valued_offences (world_of tables.now) (unknowns domain.now problem.now))
        problem.now.metric)) }
{
    let names = metric_names(alloc, domain, problem)?;
    let found = least_of_metric(alloc, tables, &names, &problem.metric)?;
    Ok(found)
}

fn least_of_problem(
    alloc: Global,
    domain: &Domain,
    problem: &Problem,
) -> Result<Option<Offence>, NoMemory>
    ensures { IfOk result (λ found. found ≡ least (some_offences
        (valued_offences (world domain.now problem.now) (unknowns domain.now problem.now))
        problem.now.metric)) }
{
    let tables = world_tables(alloc, domain, problem)?;
    let found = least_in_world(alloc, &tables, domain, problem)?;
    Ok(found)
}

/// The first term of a metric, `total-time`, `is-violated` or `time-cost`, whose coefficient in the minimised form is
/// below 0. None where there is no such term, where the metric isn't linear or holds a list that is left out, and where
/// it has no value: where a fluent has no first value, a divisor is 0, or a sum or product passes 128 bits.
#[tactic(auto, unfolding(crate::specs::Signs::metric_sign_offences))]
pub fn metric_sign_offence(
    alloc: Global,
    domain: &Domain,
    problem: &Problem,
) -> Result<Option<Offence>, NoMemory>
    ensures { IfOk result (λ found. found ≡ least (metric_sign_offences domain.now problem.now)) }
{
    if is_well_formed(alloc, domain, &problem.metric)? {
        let found = least_of_problem(alloc, domain, problem)?;
        Ok(found)
    } else {
        Ok(None)
    }
}
