//! The fluents that a binding of an action mentions and that have no first value.

ghost use Rattle.std.specs.Prelude.{◌≡◌, ◌∷◌, ◌++◌, IfOk, OnOk};
ghost use Rattle.std.specs.List.{flat_map};
ghost use Rattle.pddl_terms.specs.declared.trees.Trend.{Trend};
ghost use Rattle.ground_world.specs.World.{ground_fluent};
ghost use Rattle.ground_world.specs.Changes.{Flows};
ghost use Rattle.ground_world.specs.Conditions.{tests_in};
ghost use Rattle.ground_world.specs.Expressions.{mentioned};
ghost use Rattle.ground_world.specs.FirstState.{unvalued_places};
ghost use Rattle.ground_world.specs.Shown.{env_of, world_of, part_of, parts_of};
ghost use Rattle.ground_world.specs.ShownBounds.{bounds_of};
ghost use Rattle.ground_world.specs.ShownChanges.{change_of, changes_of};
ghost use Rattle.grounder.specs.Instances.{test_mentions, change_mentions};
ghost use Rattle.grounder.specs.Bindings.{has_values};
ghost use Rattle.grounder.specs.ShownPieces.{pieces_of};

use crate::outlines::Outline;
use exact_lin::NoMemory;
use ground_world::{
    Bound, Change, CondPart, DurationBound, StagedChange, StagedParts, Tables, push_test_unvalued,
    push_unvalued, push_unvalued_fluent,
};
use pddl_terms::{Atom, ExprTree, RateTree};
use sqlite_items::Items;
use std::alloc::Global;

// Puts the places of the fluents without a value that bounds of a duration mention at the end.
fn push_in_bounds(
    alloc: Global,
    tables: &Tables,
    env: &[Bound],
    bounds: &[DurationBound],
    out: &mut Items<u32>,
) -> Result<(), NoMemory>
    ensures { OnOk result (out.new ≡ out.old ++ unvalued_places (world_of tables.now)
        (flat_map (λ l. mentioned (world_of tables.now) (env_of env.now) l.expression) (bounds_of bounds.now))) }
{
    for bound in bounds {
        push_unvalued(alloc, tables, env, bound.expression, out)?;
    }
    Ok(())
}

// Puts the places of the fluents without a value that a part of a condition mentions at the end.
fn push_in_part(
    alloc: Global,
    tables: &Tables,
    part: &CondPart,
    out: &mut Items<u32>,
) -> Result<(), NoMemory>
    ensures { OnOk result (out.new ≡ out.old ++ unvalued_places (world_of tables.now)
        (flat_map (test_mentions (world_of tables.now)) (tests_in (part_of part.now)))) }
{
    match part {
        CondPart::Literal(_, _) => Ok(()),
        CondPart::Same(_) => Ok(()),
        CondPart::Compares(test) => push_test_unvalued(alloc, tables, test, out),
    }
}

/// Puts the places of the fluents without a value that conditions mention at the end.
pub fn push_in_parts(
    alloc: Global,
    tables: &Tables,
    parts: &[CondPart],
    out: &mut Items<u32>,
) -> Result<(), NoMemory>
    ensures { OnOk result (out.new ≡ out.old ++ unvalued_places (world_of tables.now)
        (flat_map (test_mentions (world_of tables.now)) (flat_map tests_in (parts_of parts.now)))) }
{
    for part in parts {
        push_in_part(alloc, tables, part, out)?;
    }
    Ok(())
}

// Puts the places of a fluent that is changed and of those in the amount at the end, where they have no value.
fn push_in_move(
    alloc: Global,
    tables: &Tables,
    env: &[Bound],
    fluent: &Atom,
    amount: &ExprTree,
    out: &mut Items<u32>,
) -> Result<(), NoMemory>
    ensures { OnOk result (out.new ≡ out.old ++ unvalued_places (world_of tables.now)
        ((fluent.now.at, ground_fluent (world_of tables.now) (env_of env.now) fluent.now)
        ∷ mentioned (world_of tables.now) (env_of env.now) amount.now)) }
{
    push_unvalued_fluent(alloc, tables, env, fluent, out)?;
    push_unvalued(alloc, tables, env, amount, out)
}

// Puts the places of a fluent that flows and of those in its rate at the end, where they have no value.
fn push_in_flow(
    alloc: Global,
    tables: &Tables,
    env: &[Bound],
    fluent: &Atom,
    rate: &RateTree,
    out: &mut Items<u32>,
) -> Result<(), NoMemory>
    ensures { (trend : Trend) → OnOk result (out.new ≡ out.old ++ unvalued_places (world_of tables.now)
        (change_mentions (world_of tables.now) (env_of env.now) (Flows trend fluent.now rate.now))) }
{
    match rate {
        RateTree::One(_) => push_unvalued_fluent(alloc, tables, env, fluent, out),
        RateTree::Times(_, amount) => push_in_move(alloc, tables, env, fluent, amount, out),
        RateTree::LeftOut(_) => push_unvalued_fluent(alloc, tables, env, fluent, out),
    }
}

// Puts the places of the fluents without a value that a change mentions at the end.
fn push_in_change(
    alloc: Global,
    tables: &Tables,
    env: &[Bound],
    change: &Change,
    out: &mut Items<u32>,
) -> Result<(), NoMemory>
    ensures { OnOk result (out.new ≡ out.old ++ unvalued_places (world_of tables.now)
        (change_mentions (world_of tables.now) (env_of env.now) (change_of change.now))) }
{
    match change {
        Change::Adds(_) => Ok(()),
        Change::Deletes(_) => Ok(()),
        Change::Moves(_, fluent, amount) => push_in_move(alloc, tables, env, fluent, amount, out),
        Change::Flows(_, fluent, rate) => push_in_flow(alloc, tables, env, fluent, rate, out),
    }
}

// Puts the places of the fluents without a value that changes mention at the end.
fn push_in_changes(
    alloc: Global,
    tables: &Tables,
    env: &[Bound],
    changes: &[StagedChange],
    out: &mut Items<u32>,
) -> Result<(), NoMemory>
    ensures { OnOk result (out.new ≡ out.old ++ unvalued_places (world_of tables.now)
        (flat_map (λ c. change_mentions (world_of tables.now) (env_of env.now) c.part) (changes_of changes.now))) }
{
    for staged in changes {
        push_in_change(alloc, tables, env, &staged.change, out)?;
    }
    Ok(())
}

/// Whether each fluent that a binding mentions or changes has a first value.
pub fn has_values(
    alloc: Global,
    tables: &Tables,
    env: &[Bound],
    parts: &StagedParts,
    outline: &Outline,
) -> Result<bool, NoMemory>
    ensures { IfOk result (λ valued. valued ≡ has_values (world_of tables.now) (env_of env.now) (pieces_of parts.now outline.now)) }
{
    let mut places = Items::new(alloc);
    push_in_bounds(alloc, tables, env, outline.bounds.as_slice(), &mut places)?;
    push_in_parts(alloc, tables, parts.parts.as_slice(), &mut places)?;
    push_in_changes(alloc, tables, env, outline.changes.as_slice(), &mut places)?;
    Ok(places.is_empty())
}
