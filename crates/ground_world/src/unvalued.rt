//! The fluents that an expression mentions and that have no first value.

ghost use Rattle.std.specs.Prelude.{◌≡◌, [], ◌∷◌, ◌++◌, OnOk};
ghost use Rattle.std.specs.List.{flat_map};
ghost use Rattle.ground_world.specs.World.{ground_fluent};
ghost use Rattle.ground_world.specs.FirstState.{unvalued_places};
ghost use Rattle.ground_world.specs.Expressions.{mentioned};
ghost use Rattle.ground_world.specs.Shown.{env_of, world_of};

use crate::binding::{Bound, ground_fluent};
use crate::tables::Tables;
use exact_lin::NoMemory;
use pddl_terms::{Atom, ExprTree};
use sqlite_items::Items;
use std::alloc::Global;

/// Puts the place of a fluent at the end where it has no first value.
pub fn push_fluent(
    alloc: Global,
    tables: &Tables,
    env: &[Bound],
    fluent: &Atom,
    out: &mut Items<u32>,
) -> Result<(), NoMemory>
    ensures { OnOk result (out.new ≡ out.old
        ++ unvalued_places (world_of tables.now)
        ((fluent.now.at, ground_fluent (world_of tables.now) (env_of env.now) fluent.now) ∷ [])) }
{
    let key = ground_fluent(alloc, tables, env, fluent)?;
    match tables.value(key.as_slice()) {
        Some(_) => Ok(()),
        None => {
            out.push(fluent.at)?;
            Ok(())
        }
    }
}

/// Puts the places of the fluents that an expression mentions and that have no first value at the end.
#[cycle(mentions)]
pub fn push_unvalued(
    alloc: Global,
    tables: &Tables,
    env: &[Bound],
    tree: &ExprTree,
    out: &mut Items<u32>,
) -> Result<(), NoMemory>
    ensures { OnOk result (out.new ≡ out.old
        ++ unvalued_places (world_of tables.now) (mentioned (world_of tables.now) (env_of env.now) tree.now)) }
{
    match tree {
        ExprTree::Number(_, _) => Ok(()),
        ExprTree::Fluent(atom) => push_fluent(alloc, tables, env, atom, out),
        ExprTree::Duration(_) => Ok(()),
        ExprTree::Sum(_, parts) => push_all_unvalued(alloc, tables, env, parts.as_slice(), out),
        ExprTree::Product(_, parts) => push_all_unvalued(alloc, tables, env, parts.as_slice(), out),
        ExprTree::Negative(_, part) => push_unvalued(alloc, tables, env, part.get(), out),
        ExprTree::Difference(_, left, right) => {
            push_both_unvalued(alloc, tables, env, left.get(), right.get(), out)
        }
        ExprTree::Quotient(_, left, right) => {
            push_both_unvalued(alloc, tables, env, left.get(), right.get(), out)
        }
        ExprTree::LeftOut(_) => Ok(()),
        ExprTree::TotalTime(_) => Ok(()),
        ExprTree::Violated(_, _) => Ok(()),
        ExprTree::TimeCost(_, _) => Ok(()),
    }
}

// Puts the places of the fluents that some expressions mention and that have no first value at the end.
#[cycle(mentions)]
fn push_all_unvalued(
    alloc: Global,
    tables: &Tables,
    env: &[Bound],
    trees: &[ExprTree],
    out: &mut Items<u32>,
) -> Result<(), NoMemory>
    ensures { OnOk result (out.new ≡ out.old
        ++ unvalued_places (world_of tables.now)
        (flat_map (mentioned (world_of tables.now) (env_of env.now)) trees.now)) }
{
    for tree in trees {
        push_unvalued(alloc, tables, env, tree, out)?;
    }
    Ok(())
}

// Puts the places of the fluents of one expression that have no first value at the end, then those of another.
#[cycle(mentions)]
fn push_both_unvalued(
    alloc: Global,
    tables: &Tables,
    env: &[Bound],
    left: &ExprTree,
    right: &ExprTree,
    out: &mut Items<u32>,
) -> Result<(), NoMemory>
    ensures { OnOk result (out.new ≡ (out.old
        ++ unvalued_places (world_of tables.now) (mentioned (world_of tables.now) (env_of env.now) left.now))
        ++ unvalued_places (world_of tables.now) (mentioned (world_of tables.now) (env_of env.now) right.now)) }
{
    push_unvalued(alloc, tables, env, left, out)?;
    push_unvalued(alloc, tables, env, right, out)
}
