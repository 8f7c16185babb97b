//! Bounds of the durations of ground actions.

ghost use Rattle.std.specs.Prelude.{◌≡◌, [], ◌∷◌, ◌++◌, map, IfOk, OnOk};
ghost use Rattle.ground_world.specs.Shown.{env_of};
ghost use Rattle.ground_world.specs.ShownBounds.{bounds_of};
ghost use Rattle.grounder.specs.ShownGrounding.{ground_of};
ghost use Rattle.grounder.specs.Building.{all_bounds};
ghost use Rattle.grounder.specs.Task.{bound_kinds};

use crate::fluent_forms::over_fluents;
use crate::grounding::Grounding;
use crate::reckonings::value_form;
use exact_lin::{FluentId, Form, Fraction, NoMemory};
use ground_world::{Bound as Binding, DurationBound};
use pddl_terms::Comparison;
use sqlite_items::Items;
use std::alloc::Global;
use task_types::Bound;

// Puts a bound at the end.
fn push_bound(
    at_least: bool,
    at_end: bool,
    form: Form<FluentId, Fraction>,
    out: &mut Items<Bound>,
) -> Result<(), NoMemory>
    ensures { OnOk result (out.new ≡ out.old ++ (record { at_least = at_least; at_end = at_end; form = form } ∷ [])) }
{
    out.push(Bound {
        at_least,
        at_end,
        form,
    })?;
    Ok(())
}

// Puts the bounds that a mark stands for at the end: an equality is its at-least bound, then its at-most bound.
fn push_kinds(
    order: &Comparison,
    at_end: bool,
    form: Form<FluentId, Fraction>,
    out: &mut Items<Bound>,
) -> Result<(), NoMemory>
    ensures { OnOk result (out.new ≡ out.old
        ++ map (λ k. record { at_least = k; at_end = at_end; form = form }) (bound_kinds order.now)) }
{
    match order {
        Comparison::Equal => {
            let same = form.copy()?;
            push_bound(true, at_end, form, out)?;
            push_bound(false, at_end, same, out)
        }
        Comparison::AtLeast => push_bound(true, at_end, form, out),
        Comparison::AtMost => push_bound(false, at_end, form, out),
        Comparison::Below => Ok(()),
        Comparison::Above => Ok(()),
    }
}

// Puts what a bound of a duration stands for at the end.
fn push_bounds_of(
    alloc: Global,
    grounding: &Grounding,
    env: &[Binding],
    bound: &DurationBound,
    out: &mut Items<Bound>,
) -> Result<(), NoMemory>
    ensures { OnOk result (out.new
        ≡ out.old ++ all_bounds (ground_of grounding.now) (env_of env.now) (bounds_of (bound.now ∷ []))) }
{
    let whole = value_form(alloc, &grounding.tables, env, bound.expression)?;
    let form = over_fluents(alloc, grounding, &whole)?;
    push_kinds(&bound.order, bound.at_end, form, out)
}

/// The bounds of a duration under a binding.
pub fn bounds(
    alloc: Global,
    grounding: &Grounding,
    env: &[Binding],
    bounds: &[DurationBound],
) -> Result<Items<Bound>, NoMemory>
    ensures { IfOk result (λ made. made
        ≡ all_bounds (ground_of grounding.now) (env_of env.now) (bounds_of bounds.now)) }
{
    let mut out = Items::new(alloc);
    for bound in bounds {
        push_bounds_of(alloc, grounding, env, bound, &mut out)?;
    }
    Ok(out)
}
