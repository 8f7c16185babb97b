//! Forms over the fluents alone, without the unknowns of an action or a metric.

ghost use Rattle.std.specs.Prelude.{◌≡◌, ◌++◌, nat_lt, if◌then◌else◌, IfOk, OnOk};
ghost use Rattle.rational.specs.Rational.{zeroℚ};
ghost use Rattle.exact_lin.specs.Forms.{plus_term};
ghost use Rattle.ground_world.specs.Readings.{unknowns_of};
ghost use Rattle.ground_world.specs.Shown.{test_of};
ghost use Rattle.grounder.specs.Instances.{no_unknowns};
ghost use Rattle.grounder.specs.ShownGrounding.{ground_of};
ghost use Rattle.grounder.specs.Task as task;

use crate::grounding::Grounding;
use exact_lin::{FluentId, Form, Fraction, Id, NoMemory};
use ground_world::{CondTest, MetricNames, test_forms};
use pddl_names::Names;
use sqlite_items::Items;
use std::alloc::Global;

/// The names that stand for unknowns where there are none, as in an action.
pub fn no_names(alloc: Global) -> MetricNames
    ensures { unknowns_of result ≡ no_unknowns }
{
    MetricNames {
        preferences: Names::new(alloc),
        costs: Names::new(alloc),
    }
}

// Adds a term where its unknown is below the number. A term that is alone is never past the width, so only memory can
// be lacking.
fn add_term_below(
    form: &mut Form<FluentId, Fraction>,
    number: u32,
    term: &(FluentId, Fraction),
) -> Result<(), NoMemory>
    ensures { OnOk result (form.new
        ≡ (if nat_lt term.now.0 number then plus_term form.old term.now.0 term.now.1 else form.old)) }
{
    if term.0.number() >= number {
        return Ok(());
    }
    match form.add_term(term.0, term.1) {
        Ok(()) => Ok(()),
        Err(_) => Err(NoMemory),
    }
}

/// The terms of a form whose unknowns are fluents, without its constant.
pub fn fluent_terms(
    alloc: Global,
    grounding: &Grounding,
    form: &Form<FluentId, Fraction>,
) -> Result<Form<FluentId, Fraction>, NoMemory>
    ensures { IfOk result (λ kept. kept
        ≡ record { constant = zeroℚ; terms = (task.over_fluents (ground_of grounding.now) form.now).terms }) }
{
    let own = grounding.tables.fluents.len() as u32;
    let mut kept = Form::zero(alloc);
    for term in form.terms() {
        add_term_below(&mut kept, own, term)?;
    }
    Ok(kept)
}

/// A form over the fluents: its constant, and the terms whose unknowns are fluents. A constant by itself is never past the
/// width, so only memory can be lacking.
pub fn over_fluents(
    alloc: Global,
    grounding: &Grounding,
    form: &Form<FluentId, Fraction>,
) -> Result<Form<FluentId, Fraction>, NoMemory>
    ensures { IfOk result (λ kept. kept ≡ task.over_fluents (ground_of grounding.now) form.now) }
{
    let mut kept = fluent_terms(alloc, grounding, form)?;
    match kept.add_constant(form.constant()) {
        Ok(()) => Ok(kept),
        Err(_) => Err(NoMemory),
    }
}

/// Puts the forms of a comparison at the end, each to be at least 0.
pub fn push_compared(
    alloc: Global,
    grounding: &Grounding,
    test: &CondTest,
    out: &mut Items<Form<FluentId, Fraction>>,
) -> Result<(), NoMemory>
    ensures { OnOk result (out.new ≡ out.old ++ task.compared (ground_of grounding.now) (test_of test.now)) }
{
    let names = no_names(alloc);
    let forms = test_forms(alloc, &grounding.tables, &names, test)?;
    for form in forms.as_slice() {
        let kept = over_fluents(alloc, grounding, form)?;
        out.push(kept)?;
    }
    Ok(())
}
