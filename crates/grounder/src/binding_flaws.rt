//! Why expressions of a binding of an action have no value.

ghost use Rattle.std.specs.Prelude.{◌≡◌, ◌++◌, not, IfOk, OnOk};
ghost use Rattle.std.specs.List.{flat_map};
ghost use Rattle.pddl_terms.specs.declared.trees.Atom.{Atom};
ghost use Rattle.pddl_terms.specs.declared.trees.Trend.{Trend};
ghost use Rattle.ground_world.specs.Changes.{Flows};
ghost use Rattle.ground_world.specs.Conditions.{tests_in, difference};
ghost use Rattle.ground_world.specs.Expressions.{reckoned, zero_divisors};
ghost use Rattle.ground_world.specs.FirstState.{no_places};
ghost use Rattle.ground_world.specs.Shown.{env_of, world_of, part_of, parts_of, test_of};
ghost use Rattle.ground_world.specs.ShownBounds.{bounds_of};
ghost use Rattle.ground_world.specs.ShownChanges.{change_of, changes_of};
ghost use Rattle.grounder.specs.Instances.{no_unknowns, flaws_of, change_reckons};
ghost use Rattle.grounder.specs.Bindings.{bound_flaws, test_flaws, change_flaws, flaws_in};
ghost use Rattle.grounder.specs.ShownPieces.{pieces_of};

use crate::flaws::least_zero_divisor;
use crate::fluent_forms::no_names;
use crate::outlines::Outline;
use crate::reckonings::reckon_alone;
use exact_lin::NoMemory;
use ground_world::{
    Bound, Change, CondPart, CondTest, DurationBound, Flaw, StagedChange, StagedParts, Tables,
    test_difference,
};
use pddl_terms::{ExprTree, RateTree};
use sqlite_items::Items;
use std::alloc::Global;

// Puts the flaws of an expression at the end.
fn push_of_tree(
    alloc: Global,
    tables: &Tables,
    env: &[Bound],
    tree: &ExprTree,
    flaws: &mut Items<Flaw>,
) -> Result<(), NoMemory>
    ensures { OnOk result (flaws.new
        ≡ flaws.old ++ (reckoned (world_of tables.now) no_unknowns (env_of env.now) tree.now).flaws) }
{
    let _value = reckon_alone(alloc, tables, env, tree, flaws)?;
    Ok(())
}

// Puts the flaws of bounds of a duration at the end.
fn push_of_bounds(
    alloc: Global,
    tables: &Tables,
    env: &[Bound],
    bounds: &[DurationBound],
    flaws: &mut Items<Flaw>,
) -> Result<(), NoMemory>
    ensures { OnOk result (flaws.new
        ≡ flaws.old ++ bound_flaws (world_of tables.now) (env_of env.now) (bounds_of bounds.now)) }
{
    for bound in bounds {
        push_of_tree(alloc, tables, env, bound.expression, flaws)?;
    }
    Ok(())
}

// Puts the flaws of a comparison at the end.
fn push_of_test(
    alloc: Global,
    tables: &Tables,
    test: &CondTest,
    flaws: &mut Items<Flaw>,
) -> Result<(), NoMemory>
    ensures { OnOk result (flaws.new
        ≡ flaws.old ++ (difference (world_of tables.now) no_unknowns (test_of test.now)).flaws) }
{
    let names = no_names(alloc);
    let _value = test_difference(alloc, tables, &names, test, flaws)?;
    Ok(())
}

// Puts the flaws of a part of a condition at the end.
fn push_of_part(
    alloc: Global,
    tables: &Tables,
    part: &CondPart,
    flaws: &mut Items<Flaw>,
) -> Result<(), NoMemory>
    ensures { OnOk result (flaws.new ≡ flaws.old ++ test_flaws (world_of tables.now) (tests_in (part_of part.now))) }
{
    match part {
        CondPart::Literal(_, _) => Ok(()),
        CondPart::Same(_) => Ok(()),
        CondPart::Compares(test) => push_of_test(alloc, tables, test, flaws),
    }
}

/// Puts the flaws of conditions at the end.
pub fn push_of_parts(
    alloc: Global,
    tables: &Tables,
    parts: &[CondPart],
    flaws: &mut Items<Flaw>,
) -> Result<(), NoMemory>
    ensures { OnOk result (flaws.new
        ≡ flaws.old ++ test_flaws (world_of tables.now) (flat_map tests_in (parts_of parts.now))) }
{
    for part in parts {
        push_of_part(alloc, tables, part, flaws)?;
    }
    Ok(())
}

// Puts the flaws of a rate at the end.
fn push_of_rate(
    alloc: Global,
    tables: &Tables,
    env: &[Bound],
    rate: &RateTree,
    flaws: &mut Items<Flaw>,
) -> Result<(), NoMemory>
    ensures { (trend : Trend) (f : Atom) → OnOk result (flaws.new
        ≡ flaws.old ++ flaws_of (change_reckons (world_of tables.now) (env_of env.now) (Flows trend f rate.now))) }
{
    match rate {
        RateTree::One(_) => Ok(()),
        RateTree::Times(_, amount) => push_of_tree(alloc, tables, env, amount, flaws),
        RateTree::LeftOut(_) => Ok(()),
    }
}

// Puts the flaws of a change at the end.
fn push_of_change(
    alloc: Global,
    tables: &Tables,
    env: &[Bound],
    change: &Change,
    flaws: &mut Items<Flaw>,
) -> Result<(), NoMemory>
    ensures { OnOk result (flaws.new
        ≡ flaws.old ++ flaws_of (change_reckons (world_of tables.now) (env_of env.now) (change_of change.now))) }
{
    match change {
        Change::Adds(_) => Ok(()),
        Change::Deletes(_) => Ok(()),
        Change::Moves(_, _, amount) => push_of_tree(alloc, tables, env, amount, flaws),
        Change::Flows(_, _, rate) => push_of_rate(alloc, tables, env, rate, flaws),
    }
}

// Puts the flaws of changes at the end.
fn push_of_changes(
    alloc: Global,
    tables: &Tables,
    env: &[Bound],
    changes: &[StagedChange],
    flaws: &mut Items<Flaw>,
) -> Result<(), NoMemory>
    ensures { OnOk result (flaws.new
        ≡ flaws.old ++ change_flaws (world_of tables.now) (env_of env.now) (changes_of changes.now)) }
{
    for staged in changes {
        push_of_change(alloc, tables, env, &staged.change, flaws)?;
    }
    Ok(())
}

/// The flaws of all that a binding reckons: of its bounds, its comparisons and its changes, in the order of the text.
pub fn binding_flaws(
    alloc: Global,
    tables: &Tables,
    env: &[Bound],
    parts: &StagedParts,
    outline: &Outline,
) -> Result<Items<Flaw>, NoMemory>
    ensures { IfOk result (λ flaws. flaws
        ≡ flaws_in (world_of tables.now) (env_of env.now) (pieces_of parts.now outline.now)) }
{
    let mut flaws = Items::new(alloc);
    push_of_bounds(alloc, tables, env, outline.bounds.as_slice(), &mut flaws)?;
    push_of_parts(alloc, tables, parts.parts.as_slice(), &mut flaws)?;
    push_of_changes(alloc, tables, env, outline.changes.as_slice(), &mut flaws)?;
    Ok(flaws)
}

/// Whether some divisor is 0.
pub fn divides_by_zero(flaws: &[Flaw]) -> bool
    ensures { result ≡ not (no_places (zero_divisors flaws.now)) }
{
    match least_zero_divisor(flaws) {
        Some(_) => true,
        None => false,
    }
}
