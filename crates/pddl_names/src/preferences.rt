//! The names of preferences, which a metric may use.

ghost use Rattle.std.specs.Prelude.{◌≡◌, [], ◌∷◌, ◌++◌, OnOk};
ghost use Rattle.std.specs.Option.{option_map_or};
ghost use Rattle.pddl_names.specs.Declarations.{with_new};
ghost use Rattle.pddl_names.specs.Files.{
  preference_name,
  constraint_preferences,
  goal_preferences,
};

use crate::names::Names;
use exact_lin::NoMemory;
use pddl_terms::{ConForm, GoalTree, Name};
use std::alloc::Global;

fn note_name(alloc: Global, names: &mut Names, name: &Option<Name>) -> Result<(), NoMemory>
    ensures { OnOk result (names.new ≡ with_new names.old (preference_name name.now ∷ [])) }
{
    match name {
        None => {
            names.add(alloc, b"anonymous")?;
            Ok(())
        }
        Some(name) => {
            names.add(alloc, name.bytes.as_slice())?;
            Ok(())
        }
    }
}

fn note_constraint(alloc: Global, names: &mut Names, tree: &ConForm) -> Result<(), NoMemory>
    ensures { OnOk result (names.new ≡ with_new names.old (constraint_preferences tree.now)) }
{
    match tree {
        ConForm::And(_, parts) => {
            for part in parts.as_slice() {
                note_constraint(alloc, names, part)?;
            }
            Ok(())
        }
        ConForm::Forall(_, _, body) => {
            note_constraint(alloc, names, body.get())?;
            Ok(())
        }
        ConForm::Hard(_) => Ok(()),
        ConForm::Preference(_, name, _) => {
            note_name(alloc, names, name)?;
            Ok(())
        }
    }
}

fn note_constraints(
    alloc: Global,
    names: &mut Names,
    constraints: &Option<ConForm>,
) -> Result<(), NoMemory>
    ensures { OnOk result (names.new ≡ with_new names.old (option_map_or constraint_preferences constraints.now [])) }
{
    match constraints {
        None => Ok(()),
        Some(tree) => {
            note_constraint(alloc, names, tree)?;
            Ok(())
        }
    }
}

fn note_goal(alloc: Global, names: &mut Names, tree: &GoalTree) -> Result<(), NoMemory>
    ensures { OnOk result (names.new ≡ with_new names.old (goal_preferences tree.now)) }
{
    match tree {
        GoalTree::Condition(_) => Ok(()),
        GoalTree::And(_, parts) => {
            for part in parts.as_slice() {
                note_goal(alloc, names, part)?;
            }
            Ok(())
        }
        GoalTree::Forall(_, _, body) => {
            note_goal(alloc, names, body.get())?;
            Ok(())
        }
        GoalTree::Preference(_, name, _) => {
            note_name(alloc, names, name)?;
            Ok(())
        }
    }
}

/// Adds the names of the preferences of a domain's constraints, of a goal and of a problem's constraints.
pub(crate) fn add_preferences(
    alloc: Global,
    names: &mut Names,
    always: &Option<ConForm>,
    goal: &GoalTree,
    constraints: &Option<ConForm>,
) -> Result<(), NoMemory>
    ensures { OnOk result (names.new ≡ with_new names.old (option_map_or constraint_preferences always.now []
        ++ goal_preferences goal.now ++ option_map_or constraint_preferences constraints.now [])) }
{
    note_constraints(alloc, names, always)?;
    note_goal(alloc, names, goal)?;
    note_constraints(alloc, names, constraints)?;
    Ok(())
}
