//! Rates of durative actions.

ghost use Rattle.std.specs.Prelude.{◌≡◌, ◌++◌, IfOk, OnOk};
ghost use Rattle.std.specs.List.{flat_map};
ghost use Rattle.ground_world.specs.Changes.{Flows};
ghost use Rattle.ground_world.specs.Shown.{env_of};
ghost use Rattle.ground_world.specs.ShownChanges.{change_of, changes_of};
ghost use Rattle.grounder.specs.ShownGrounding.{ground_of};
ghost use Rattle.grounder.specs.Task as task;

use crate::action_effects::fluent_of;
use crate::grounding::Grounding;
use crate::reckonings::value_form;
use exact_lin::{FluentId, Fraction, NoMemory, Scalar};
use ground_world::{Bound, Change, StagedChange};
use pddl_terms::{Atom, RateTree, Trend};
use sqlite_items::Items;
use std::alloc::Global;

// What a rate adds in a unit of time, by its size.
fn rate_value(
    alloc: Global,
    grounding: &Grounding,
    env: &[Bound],
    rate: &RateTree,
) -> Result<Fraction, NoMemory>
    ensures { IfOk result (λ q. q ≡ task.rate_value (ground_of grounding.now) (env_of env.now) rate.now) }
{
    match rate {
        RateTree::One(_) => Ok(Fraction::of_int(1)),
        RateTree::Times(_, tree) => {
            let form = value_form(alloc, &grounding.tables, env, tree)?;
            Ok(form.constant())
        }
        RateTree::LeftOut(_) => Ok(Fraction::of_int(0)),
    }
}

// A rate with its sign.
fn signed(trend: &Trend, size: Fraction) -> Fraction
    ensures { result ≡ task.signed trend.now size }
{
    match trend {
        Trend::Rises => size,
        Trend::Falls => size.neg(),
    }
}

// Puts a rate at the end.
fn push_flow(
    alloc: Global,
    grounding: &Grounding,
    env: &[Bound],
    trend: &Trend,
    fluent: &Atom,
    rate: &RateTree,
    out: &mut Items<(FluentId, Fraction)>,
) -> Result<(), NoMemory>
    ensures { OnOk result (out.new ≡ out.old ++ task.fluent_rates (ground_of grounding.now) (env_of env.now)
        (Flows trend.now fluent.now rate.now)) }
{
    let id = fluent_of(alloc, grounding, env, fluent)?;
    let size = rate_value(alloc, grounding, env, rate)?;
    out.push((id, signed(trend, size)))?;
    Ok(())
}

// Puts the rate that a change is at the end.
fn push_rate(
    alloc: Global,
    grounding: &Grounding,
    env: &[Bound],
    change: &Change,
    out: &mut Items<(FluentId, Fraction)>,
) -> Result<(), NoMemory>
    ensures { OnOk result (out.new
        ≡ out.old ++ task.fluent_rates (ground_of grounding.now) (env_of env.now) (change_of change.now)) }
{
    match change {
        Change::Adds(_) => Ok(()),
        Change::Deletes(_) => Ok(()),
        Change::Moves(_, _, _) => Ok(()),
        Change::Flows(trend, fluent, rate) => {
            push_flow(alloc, grounding, env, trend, fluent, rate, out)
        }
    }
}

/// What an action adds to fluents per unit of time while it runs.
pub fn rates(
    alloc: Global,
    grounding: &Grounding,
    env: &[Bound],
    changes: &[StagedChange],
) -> Result<Items<(FluentId, Fraction)>, NoMemory>
    ensures { IfOk result (λ rates. rates
        ≡ flat_map (λ c. task.fluent_rates (ground_of grounding.now) (env_of env.now) c.part) (changes_of changes.now)) }
{
    let mut out = Items::new(alloc);
    for staged in changes {
        push_rate(alloc, grounding, env, &staged.change, &mut out)?;
    }
    Ok(out)
}
