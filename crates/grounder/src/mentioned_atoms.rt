//! The ground atoms that goals and constraints mention, added to those that are there.

ghost use Rattle.std.specs.Prelude.{◌≡◌, ◌≤◌, ◌+◌, ◌++◌, true, OnOk};
ghost use Rattle.std.specs.List.{flat_map, list_all};
ghost use Rattle.pddl_names.specs.Declarations.{with_new};
ghost use Rattle.ground_world.specs.Bindings.{bindings};
ghost use Rattle.ground_world.specs.Conditions.{condition_parts};
ghost use Rattle.ground_world.specs.Counts.{condition_count, formula_count, soft_count, trajectory_count, part_limit};
ghost use Rattle.ground_world.specs.Shown.{env_of, world_of, part_of, parts_of};
ghost use Rattle.grounder.specs.ShownPreferences.{preference_of, preferences_of, preference_count, preferences_count};
ghost use Rattle.grounder.specs.Terms.{part_atoms, formula_atoms, preference_parts, preference_atoms, watched, watched_atoms, goal_atoms, constraint_atoms};
ghost use Rattle.grounder.specs.Reach.{goal_fits, quantified_goal_fits, constraint_fits, quantified_constraint_fits};

use crate::atoms::{add_formula_atoms, add_key};
use crate::preferences::{PreferencePart, preference_parts};
use crate::quantifying::{binding, few_bindings};
use exact_lin::NoMemory;
use ground_world::{Bound, CondPart, Numbering, Tables, push_parts};
use pddl_terms::{ConForm, CondTree, FactForm, GoalTree, Group, SoftTree, Trajectory};
use sqlite_items::Items;
use std::alloc::Global;

// Adds the atom of a literal.
fn add_part_atom(alloc: Global, part: &CondPart, atoms: &mut Numbering) -> Result<(), NoMemory>
    ensures { OnOk result (atoms.new ≡ with_new atoms.old (part_atoms (part_of part.now))) }
{
    match part {
        CondPart::Literal(key, _) => add_key(alloc, key.as_slice(), atoms),
        CondPart::Same(_) => Ok(()),
        CondPart::Compares(_) => Ok(()),
    }
}

// Adds the atoms of the literals among some parts.
fn add_part_atoms(alloc: Global, parts: &[CondPart], atoms: &mut Numbering) -> Result<(), NoMemory>
    ensures { OnOk result (atoms.new ≡ with_new atoms.old (flat_map part_atoms (parts_of parts.now))) }
{
    for part in parts {
        add_part_atom(alloc, part, atoms)?;
    }
    Ok(())
}

// Adds the atoms of a condition.
fn add_condition_atoms<'a>(
    alloc: Global,
    tables: &'a Tables,
    env: &[Bound<'a>],
    condition: &'a CondTree,
    atoms: &mut Numbering,
) -> Result<(), NoMemory>
    requires { condition_count (world_of tables.now) condition.now ≤ part_limit }
    ensures { OnOk result (atoms.new ≡ with_new atoms.old
        (flat_map part_atoms (condition_parts (world_of tables.now) (env_of env.now) condition.now))) }
{
    let mut parts = Items::new(alloc);
    push_parts(alloc, tables, env, condition, false, &mut parts)?;
    add_part_atoms(alloc, parts.as_slice(), atoms)
}

// Adds the atoms of a part of a preference.
fn add_preference_part<'a>(
    alloc: Global,
    tables: &'a Tables,
    env: &[Bound<'a>],
    part: &PreferencePart<'a>,
    atoms: &mut Numbering,
) -> Result<(), NoMemory>
    requires { preference_count (world_of tables.now) (preference_of part.now) ≤ part_limit }
    ensures { OnOk result (atoms.new ≡ with_new atoms.old
        (preference_atoms (world_of tables.now) (env_of env.now) (preference_of part.now))) }
{
    match part {
        PreferencePart::Formula(formula) => add_formula_atoms(alloc, tables, env, *formula, atoms),
        PreferencePart::SameTerms(_, _, _) => Ok(()),
        PreferencePart::SameValues(_, _, _) => Ok(()),
        PreferencePart::Numbers(_) => Ok(()),
    }
}

// Adds the atoms of the formulas among the parts of a preference.
fn add_preference_parts<'a>(
    alloc: Global,
    tables: &'a Tables,
    env: &[Bound<'a>],
    parts: &[PreferencePart<'a>],
    atoms: &mut Numbering,
) -> Result<(), NoMemory>
    requires { preferences_count (world_of tables.now) (preferences_of parts.now) ≤ part_limit }
    ensures { OnOk result (atoms.new ≡ with_new atoms.old
        (flat_map (preference_atoms (world_of tables.now) (env_of env.now)) (preferences_of parts.now))) }
{
    for part in parts {
        add_preference_part(alloc, tables, env, part, atoms)?;
    }
    Ok(())
}

// Adds the atoms of a preference.
fn add_preference_atoms<'a>(
    alloc: Global,
    tables: &'a Tables,
    env: &[Bound<'a>],
    tree: &'a SoftTree,
    atoms: &mut Numbering,
) -> Result<(), NoMemory>
    requires { soft_count (world_of tables.now) tree.now ≤ part_limit }
    ensures { OnOk result (atoms.new ≡ with_new atoms.old
        (flat_map (preference_atoms (world_of tables.now) (env_of env.now)) (preference_parts (world_of tables.now) tree.now))) }
{
    let parts = preference_parts(alloc, tables, tree)?;
    add_preference_parts(alloc, tables, env, parts.as_slice(), atoms)
}

/// Adds the atoms that a goal mentions under a binding, preferences at their places in the text.
#[cycle(goals)]
pub fn add_goal_atoms<'a>(
    alloc: Global,
    tables: &'a Tables,
    env: &[Bound<'a>],
    tree: &'a GoalTree,
    atoms: &mut Numbering,
) -> Result<(), NoMemory>
    requires { goal_fits (world_of tables.now) tree.now ≡ true }
    ensures { OnOk result (atoms.new ≡ with_new atoms.old (goal_atoms (world_of tables.now) (env_of env.now) tree.now)) }
{
    match tree {
        GoalTree::Condition(condition) => {
            add_condition_atoms(alloc, tables, env, condition, atoms)
        }
        GoalTree::And(_, parts) => {
            add_all_goal_atoms(alloc, tables, env, parts.as_slice(), atoms)
        }
        GoalTree::Forall(_, groups, body) => {
            add_goal_instances(alloc, tables, env, groups.as_slice(), body.get(), atoms)
        }
        GoalTree::Preference(_, _, body) => {
            add_preference_atoms(alloc, tables, env, body, atoms)
        }
    }
}

// Adds the atoms that some goals mention.
#[cycle(goals)]
fn add_all_goal_atoms<'a>(
    alloc: Global,
    tables: &'a Tables,
    env: &[Bound<'a>],
    trees: &'a [GoalTree],
    atoms: &mut Numbering,
) -> Result<(), NoMemory>
    requires { list_all (goal_fits (world_of tables.now)) trees.now ≡ true }
    ensures { OnOk result (atoms.new ≡ with_new atoms.old
        (flat_map (goal_atoms (world_of tables.now) (env_of env.now)) trees.now)) }
{
    for tree in trees {
        add_goal_atoms(alloc, tables, env, tree, atoms)?;
    }
    Ok(())
}

// Adds the atoms that the instances of a goal mention. Where the variables have too many bindings, nothing is below
// them but preferences inside variables that have none.
#[cycle(goals)]
fn add_goal_instances<'a>(
    alloc: Global,
    tables: &'a Tables,
    env: &[Bound<'a>],
    groups: &'a [Group],
    body: &'a GoalTree,
    atoms: &mut Numbering,
) -> Result<(), NoMemory>
    requires { quantified_goal_fits (world_of tables.now) groups.now body.now ≡ true }
    ensures { OnOk result (atoms.new ≡ with_new atoms.old
        (flat_map (λ e. goal_atoms (world_of tables.now) e body.now)
        (bindings (world_of tables.now) (env_of env.now) groups.now))) }
{
    match few_bindings(alloc, tables, groups)? {
        Some(quantified) => {
            for number in 0..quantified.count {
                let inner = binding(alloc, env, &quantified, number)?;
                add_goal_atoms(alloc, tables, inner.as_slice(), body, atoms)?;
            }
            Ok(())
        }
        None => Ok(()),
    }
}

// Adds the atoms of two formulas.
fn add_two<'a>(
    alloc: Global,
    tables: &'a Tables,
    env: &[Bound<'a>],
    first: &'a FactForm,
    second: &'a FactForm,
    atoms: &mut Numbering,
) -> Result<(), NoMemory>
    requires { formula_count (world_of tables.now) first.now + formula_count (world_of tables.now) second.now ≤ part_limit }
    ensures { OnOk result (atoms.new ≡ with_new atoms.old
        (formula_atoms (world_of tables.now) (env_of env.now) first.now ++ formula_atoms (world_of tables.now) (env_of env.now) second.now)) }
{
    add_formula_atoms(alloc, tables, env, first, atoms)?;
    add_formula_atoms(alloc, tables, env, second, atoms)
}

// Adds the atoms that a trajectory constraint mentions.
fn add_trajectory_atoms<'a>(
    alloc: Global,
    tables: &'a Tables,
    env: &[Bound<'a>],
    trajectory: &'a Trajectory,
    atoms: &mut Numbering,
) -> Result<(), NoMemory>
    requires { trajectory_count (world_of tables.now) trajectory.now ≤ part_limit }
    ensures { OnOk result (atoms.new ≡ with_new atoms.old
        (watched_atoms (world_of tables.now) (env_of env.now) (watched trajectory.now))) }
{
    match trajectory {
        Trajectory::Always(_, formula) => add_formula_atoms(alloc, tables, env, formula, atoms),
        Trajectory::Sometime(_, formula) => add_formula_atoms(alloc, tables, env, formula, atoms),
        Trajectory::Within(_, _, formula) => add_formula_atoms(alloc, tables, env, formula, atoms),
        Trajectory::AtMostOnce(_, formula) => {
            add_formula_atoms(alloc, tables, env, formula, atoms)
        }
        Trajectory::SometimeAfter(_, first, second) => {
            add_two(alloc, tables, env, first, second, atoms)
        }
        Trajectory::SometimeBefore(_, first, second) => {
            add_two(alloc, tables, env, first, second, atoms)
        }
        Trajectory::AtEnd(_, formula) => add_formula_atoms(alloc, tables, env, formula, atoms),
        Trajectory::LeftOut(_) => Ok(()),
    }
}

/// Adds the atoms that constraints mention under a binding.
#[cycle(constraints)]
pub fn add_constraint_atoms<'a>(
    alloc: Global,
    tables: &'a Tables,
    env: &[Bound<'a>],
    tree: &'a ConForm,
    atoms: &mut Numbering,
) -> Result<(), NoMemory>
    requires { constraint_fits (world_of tables.now) tree.now ≡ true }
    ensures { OnOk result (atoms.new ≡ with_new atoms.old (constraint_atoms (world_of tables.now) (env_of env.now) tree.now)) }
{
    match tree {
        ConForm::And(_, parts) => {
            add_all_constraint_atoms(alloc, tables, env, parts.as_slice(), atoms)
        }
        ConForm::Forall(_, groups, body) => {
            add_constraint_instances(alloc, tables, env, groups.as_slice(), body.get(), atoms)
        }
        ConForm::Hard(trajectory) => add_trajectory_atoms(alloc, tables, env, trajectory, atoms),
        ConForm::Preference(_, _, trajectory) => {
            add_trajectory_atoms(alloc, tables, env, trajectory, atoms)
        }
    }
}

// Adds the atoms that lists of constraints mention.
#[cycle(constraints)]
fn add_all_constraint_atoms<'a>(
    alloc: Global,
    tables: &'a Tables,
    env: &[Bound<'a>],
    trees: &'a [ConForm],
    atoms: &mut Numbering,
) -> Result<(), NoMemory>
    requires { list_all (constraint_fits (world_of tables.now)) trees.now ≡ true }
    ensures { OnOk result (atoms.new ≡ with_new atoms.old
        (flat_map (constraint_atoms (world_of tables.now) (env_of env.now)) trees.now)) }
{
    for tree in trees {
        add_constraint_atoms(alloc, tables, env, tree, atoms)?;
    }
    Ok(())
}

// Adds the atoms that the instances of constraints mention. Where the variables have too many bindings, all constraints
// below them stand inside variables that have none.
#[cycle(constraints)]
fn add_constraint_instances<'a>(
    alloc: Global,
    tables: &'a Tables,
    env: &[Bound<'a>],
    groups: &'a [Group],
    body: &'a ConForm,
    atoms: &mut Numbering,
) -> Result<(), NoMemory>
    requires { quantified_constraint_fits (world_of tables.now) groups.now body.now ≡ true }
    ensures { OnOk result (atoms.new ≡ with_new atoms.old
        (flat_map (λ e. constraint_atoms (world_of tables.now) e body.now)
        (bindings (world_of tables.now) (env_of env.now) groups.now))) }
{
    match few_bindings(alloc, tables, groups)? {
        Some(quantified) => {
            for number in 0..quantified.count {
                let inner = binding(alloc, env, &quantified, number)?;
                add_constraint_atoms(alloc, tables, inner.as_slice(), body, atoms)?;
            }
            Ok(())
        }
        None => Ok(()),
    }
}
