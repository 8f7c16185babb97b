//! The goal without its preferences.

ghost use Rattle.std.specs.Prelude.{◌≡◌, ◌≤◌, ◌++◌, OnOk, is_some};
ghost use Rattle.std.specs.List.{flat_map};
ghost use Rattle.ground_world.specs.World.{World};
ghost use Rattle.ground_world.specs.Bindings.{bindings};
ghost use Rattle.ground_world.specs.Counts.{hard_count, goal_count, part_limit};
ghost use Rattle.ground_world.specs.Shown.{env_of, world_of, parts_of};
ghost use Rattle.grounder.specs.Terms.{goal_parts};
ghost use Rattle.grounder.specs.Asked.{all_count, written_count, count_of};

use crate::quantifying::{binding, quantified};
use exact_lin::NoMemory;
use ground_world::{Bound, CondPart, Tables, push_parts};
use pddl_terms::{GoalTree, Group};
use sqlite_items::Items;
use std::alloc::Global;

/// Whether a goal asks anything besides preferences; an empty `and` counts as a condition.
#[cycle(asking)]
pub fn is_asking(tree: &GoalTree) -> bool
    ensures { (w : World) → result ≡ is_some (hard_count w tree.now) }
{
    match tree {
        GoalTree::Condition(_) => true,
        GoalTree::And(_, parts) => are_asking(parts.as_slice()),
        GoalTree::Forall(_, _, body) => is_asking(body.get()),
        GoalTree::Preference(_, _, _) => false,
    }
}

// Whether an `and` of some goals asks anything besides preferences.
#[cycle(asking)]
fn are_asking(trees: &[GoalTree]) -> bool
    ensures { (w : World) → result ≡ is_some (all_count w trees.now) }
{
    for tree in trees {
        if is_asking(tree) {
            return true;
        }
    }
    trees.len() == 0
}

/// Puts the parts of a goal's conditions under a binding at the end, quantifiers written out.
#[cycle(goals)]
pub fn push_goal_parts<'a>(
    alloc: Global,
    tables: &'a Tables,
    env: &[Bound<'a>],
    tree: &'a GoalTree,
    out: &mut Items<CondPart<'a>>,
) -> Result<(), NoMemory>
    requires { goal_count (world_of tables.now) tree.now ≤ part_limit }
    ensures { OnOk result (parts_of out.new
        ≡ parts_of out.old ++ goal_parts (world_of tables.now) (env_of env.now) tree.now) }
{
    match tree {
        GoalTree::Condition(condition) => push_parts(alloc, tables, env, condition, false, out),
        GoalTree::And(_, parts) => push_all_parts(alloc, tables, env, parts.as_slice(), out),
        GoalTree::Forall(_, groups, body) => {
            push_instance_parts(alloc, tables, env, groups.as_slice(), body.get(), out)
        }
        GoalTree::Preference(_, _, _) => Ok(()),
    }
}

// Puts the parts of some goals at the end.
#[cycle(goals)]
fn push_all_parts<'a>(
    alloc: Global,
    tables: &'a Tables,
    env: &[Bound<'a>],
    trees: &'a [GoalTree],
    out: &mut Items<CondPart<'a>>,
) -> Result<(), NoMemory>
    requires { count_of (all_count (world_of tables.now) trees.now) ≤ part_limit }
    ensures { OnOk result (parts_of out.new
        ≡ parts_of out.old ++ flat_map (goal_parts (world_of tables.now) (env_of env.now)) trees.now) }
{
    for tree in trees {
        push_goal_parts(alloc, tables, env, tree, out)?;
    }
    Ok(())
}

// Puts the parts of the instances of a goal at the end. Where it has preferences alone, the variables can have any
// number of bindings.
#[cycle(goals)]
fn push_instance_parts<'a>(
    alloc: Global,
    tables: &'a Tables,
    env: &[Bound<'a>],
    groups: &'a [Group],
    body: &'a GoalTree,
    out: &mut Items<CondPart<'a>>,
) -> Result<(), NoMemory>
    requires { count_of (written_count (world_of tables.now) groups.now (hard_count (world_of tables.now) body.now)) ≤ part_limit }
    ensures { OnOk result (parts_of out.new ≡ parts_of out.old
        ++ flat_map (λ e. goal_parts (world_of tables.now) e body.now)
        (bindings (world_of tables.now) (env_of env.now) groups.now)) }
{
    if !is_asking(body) {
        return Ok(());
    }
    let quantified = quantified(alloc, tables, groups)?;
    for number in 0..quantified.count {
        let inner = binding(alloc, env, &quantified, number)?;
        push_goal_parts(alloc, tables, inner.as_slice(), body, out)?;
    }
    Ok(())
}
