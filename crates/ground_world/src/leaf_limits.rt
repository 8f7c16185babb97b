//! Whether preferences and constraints are within the limits.

ghost use Rattle.std.specs.Prelude.{◌≡◌, [], ℕ, min, IfOk};
ghost use Rattle.std.specs.List.{list_all};
ghost use Rattle.ground_world.specs.World.{either};
ghost use Rattle.ground_world.specs.Counts as counts;
ghost use Rattle.ground_world.specs.Counting.{preference_fits, constraint_fits};
ghost use Rattle.ground_world.specs.Leaves.{goal_preferences, constraint_leaves};
ghost use Rattle.ground_world.specs.Shown.{world_of};

use crate::formula_counts::trajectory_count;
use crate::goal_counts::soft_count;
use crate::outer_bindings::{fit_limits, inner_count};
use crate::tables::Tables;
use exact_lin::NoMemory;
use pddl_terms::{ConForm, GoalTree, SoftTree, Trajectory};
use std::alloc::Global;

// Whether the body of a preference is within the limits, inside `outer` bindings.
fn soft_fits(
    alloc: Global,
    tables: &Tables,
    outer: usize,
    body: &SoftTree,
) -> Result<bool, NoMemory>
    ensures { IfOk result (λ fit. (n : ℕ) → outer ≡ min 1048577 n
        → fit ≡ counts.fit_limits n (counts.soft_count (world_of tables.now) body.now)) }
{
    let parts = soft_count(alloc, tables, body)?;
    Ok(fit_limits(outer, parts))
}

/// Whether the preferences of a goal are within the limits, inside `outer` bindings.
#[cycle(preferences)]
pub(crate) fn preferences_fit(
    alloc: Global,
    tables: &Tables,
    outer: usize,
    goal: &GoalTree,
) -> Result<bool, NoMemory>
    ensures { IfOk result (λ fit. (n : ℕ) → outer ≡ min 1048577 n
        → fit ≡ list_all (preference_fits (world_of tables.now) n) (goal_preferences goal.now)) }
{
    match goal {
        GoalTree::Condition(_) => Ok(true),
        GoalTree::And(_, parts) => all_preferences_fit(alloc, tables, outer, parts.as_slice()),
        GoalTree::Forall(_, groups, body) => {
            let inner = inner_count(alloc, tables, outer, groups.as_slice())?;
            preferences_fit(alloc, tables, inner, body.get())
        }
        GoalTree::Preference(_, _, body) => soft_fits(alloc, tables, outer, body),
    }
}

// The same of the parts of a goal.
#[cycle(preferences)]
fn all_preferences_fit(
    alloc: Global,
    tables: &Tables,
    outer: usize,
    goals: &[GoalTree],
) -> Result<bool, NoMemory>
    ensures { IfOk result (λ fit. (n : ℕ) → outer ≡ min 1048577 n
        → fit ≡ list_all (λ g. list_all (preference_fits (world_of tables.now) n) (goal_preferences g)) goals.now) }
{
    for goal in goals {
        if !preferences_fit(alloc, tables, outer, goal)? {
            return Ok(false);
        }
    }
    Ok(true)
}

// Whether a constraint without quantifiers is within the limits, inside `outer` bindings.
fn trajectory_fits(
    alloc: Global,
    tables: &Tables,
    outer: usize,
    trajectory: &Trajectory,
) -> Result<bool, NoMemory>
    ensures { IfOk result (λ fit. (n : ℕ) → outer ≡ min 1048577 n
        → fit ≡ counts.fit_limits n (counts.trajectory_count (world_of tables.now) trajectory.now)) }
{
    let parts = trajectory_count(alloc, tables, trajectory)?;
    Ok(fit_limits(outer, parts))
}

// Whether a constraint is within the limits, inside `outer` bindings.
#[cycle(trees)]
fn constraint_fits(
    alloc: Global,
    tables: &Tables,
    outer: usize,
    tree: &ConForm,
) -> Result<bool, NoMemory>
    ensures { IfOk result (λ fit. (n : ℕ) → outer ≡ min 1048577 n
        → fit ≡ list_all (constraint_fits (world_of tables.now) n) (constraint_leaves tree.now)) }
{
    match tree {
        ConForm::And(_, parts) => all_constraints_fit(alloc, tables, outer, parts.as_slice()),
        ConForm::Forall(_, groups, body) => {
            let inner = inner_count(alloc, tables, outer, groups.as_slice())?;
            constraint_fits(alloc, tables, inner, body.get())
        }
        ConForm::Hard(trajectory) => trajectory_fits(alloc, tables, outer, trajectory),
        ConForm::Preference(_, _, trajectory) => trajectory_fits(alloc, tables, outer, trajectory),
    }
}

// The same of several constraints.
#[cycle(trees)]
fn all_constraints_fit(
    alloc: Global,
    tables: &Tables,
    outer: usize,
    trees: &[ConForm],
) -> Result<bool, NoMemory>
    ensures { IfOk result (λ fit. (n : ℕ) → outer ≡ min 1048577 n
        → fit ≡ list_all (λ t. list_all (constraint_fits (world_of tables.now) n) (constraint_leaves t)) trees.now) }
{
    for tree in trees {
        if !constraint_fits(alloc, tables, outer, tree)? {
            return Ok(false);
        }
    }
    Ok(true)
}

/// Whether the constraints of a domain or a problem, where it has some, are within the limits.
pub(crate) fn some_constraints_fit(
    alloc: Global,
    tables: &Tables,
    tree: &Option<ConForm>,
) -> Result<bool, NoMemory>
    ensures { IfOk result (λ fit. fit
        ≡ list_all (constraint_fits (world_of tables.now) 1) (either [] constraint_leaves tree.now)) }
{
    match tree {
        Some(tree) => constraint_fits(alloc, tables, 1, tree),
        None => Ok(true),
    }
}
