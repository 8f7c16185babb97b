//! Preferences of a goal: what they ask of facts, and what they compare.

ghost use Rattle.std.specs.Prelude.{◌≡◌, ◌≤◌, [], ◌∷◌, ◌++◌, map, OnOk, IfOk};
ghost use Rattle.std.specs.List.{flat_map};
ghost use Rattle.ground_world.specs.Counts.{part_limit};
ghost use Rattle.ground_world.specs.Shown.{env_of, world_of, parts_of};
ghost use Rattle.grounder.specs.ShownPreferences.{preference_of, preferences_of, preference_count, preferences_count, compared_parts};
ghost use Rattle.grounder.specs.Terms.{equal_preference, preference_parts};

use exact_lin::NoMemory;
use ground_world::{Bound, CondPart, Tables, equal_part, push_parts};
use pddl_names::is_equality;
use pddl_terms::{CondTree, FactForm, Side, SoftTree};
use sqlite_items::Items;
use std::alloc::Global;

/// What a preference of a goal asks: a formula over facts, an equality of terms, an `=` of numbers, or a condition of
/// numbers. An `=` has the byte at which it begins, and its sides.
#[derive(Clone, Copy, Drop)]
pub enum PreferencePart<'a> {
    Formula(&'a FactForm),
    SameTerms(u32, &'a Side, &'a Side),
    SameValues(u32, &'a Side, &'a Side),
    Numbers(&'a CondTree),
}

// What an `=` with its sides is.
fn equal_preference<'a>(
    tables: &Tables,
    place: u32,
    left: &'a Side,
    right: &'a Side,
) -> PreferencePart<'a>
    ensures { preference_of result ≡ equal_preference (world_of tables.now) place left.now right.now }
{
    if is_equality(&tables.functions, left, right) {
        PreferencePart::SameTerms(place, left, right)
    } else {
        PreferencePart::SameValues(place, left, right)
    }
}

// Puts what a preference asks at the end.
#[cycle(preferences)]
fn push_preference<'a>(
    tables: &Tables,
    tree: &'a SoftTree,
    out: &mut Items<PreferencePart<'a>>,
) -> Result<(), NoMemory>
    ensures { OnOk result (preferences_of out.new ≡ preferences_of out.old ++ preference_parts (world_of tables.now) tree.now) }
{
    match tree {
        SoftTree::Formula(formula) => {
            out.push(PreferencePart::Formula(formula))?;
            Ok(())
        }
        SoftTree::Equal(place, left, right) => {
            out.push(equal_preference(tables, *place, left, right))?;
            Ok(())
        }
        SoftTree::Comparison(condition) => {
            out.push(PreferencePart::Numbers(condition))?;
            Ok(())
        }
        SoftTree::And(_, parts) => push_preferences(tables, parts.as_slice(), out),
    }
}

// Puts what some preferences ask at the end.
#[cycle(preferences)]
fn push_preferences<'a>(
    tables: &Tables,
    trees: &'a [SoftTree],
    out: &mut Items<PreferencePart<'a>>,
) -> Result<(), NoMemory>
    ensures { OnOk result (preferences_of out.new
        ≡ preferences_of out.old ++ flat_map (preference_parts (world_of tables.now)) trees.now) }
{
    for tree in trees {
        push_preference(tables, tree, out)?;
    }
    Ok(())
}

/// What a preference of a goal asks, in the order of the text.
pub fn preference_parts<'a>(
    alloc: Global,
    tables: &Tables,
    tree: &'a SoftTree,
) -> Result<Items<PreferencePart<'a>>, NoMemory>
    ensures { IfOk result (λ parts. preferences_of parts ≡ preference_parts (world_of tables.now) tree.now) }
{
    let mut out = Items::new(alloc);
    push_preference(tables, tree, &mut out)?;
    Ok(out)
}

// Puts the condition of numbers that a part of a preference is at the end, quantifiers written out.
fn push_compared<'a>(
    alloc: Global,
    tables: &'a Tables,
    env: &[Bound<'a>],
    part: &PreferencePart<'a>,
    out: &mut Items<CondPart<'a>>,
) -> Result<(), NoMemory>
    requires { preference_count (world_of tables.now) (preference_of part.now) ≤ part_limit }
    ensures { OnOk result (parts_of out.new ≡ parts_of out.old
        ++ compared_parts (world_of tables.now) (env_of env.now) (preference_of part.now)) }
{
    match part {
        PreferencePart::Formula(_) => Ok(()),
        PreferencePart::SameTerms(_, _, _) => Ok(()),
        PreferencePart::SameValues(place, left, right) => {
            out.push(equal_part(alloc, tables, env, *place, *left, *right)?)?;
            Ok(())
        }
        PreferencePart::Numbers(condition) => push_parts(
            alloc, tables, env, *condition, false, out,
        ),
    }
}

/// The conditions of numbers among the parts of a preference, under a binding, quantifiers written out.
pub fn compared_parts<'a>(
    alloc: Global,
    tables: &'a Tables,
    env: &[Bound<'a>],
    parts: &[PreferencePart<'a>],
) -> Result<Items<CondPart<'a>>, NoMemory>
    requires { preferences_count (world_of tables.now) (preferences_of parts.now) ≤ part_limit }
    ensures { IfOk result (λ found. parts_of found
        ≡ flat_map (compared_parts (world_of tables.now) (env_of env.now)) (preferences_of parts.now)) }
{
    let mut out = Items::new(alloc);
    for part in parts {
        push_compared(alloc, tables, env, part, &mut out)?;
    }
    Ok(out)
}
