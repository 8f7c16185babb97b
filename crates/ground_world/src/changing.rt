//! Which predicates and functions change.

ghost use Rattle.std.specs.Prelude.{◌<◌, ◌^◌, ◌-◌, [], ◌∷◌, ◌++◌, List, length, OnOk};
ghost use Rattle.std.specs.List.{flat_map};
ghost use Rattle.pddl_names.specs.Declarations.{Text};
ghost use Rattle.ground_world.specs.Changes.{changes};
ghost use Rattle.ground_world.specs.FirstState.{changed_predicate, changed_function, timed_predicate};
ghost use Rattle.ground_world.specs.ShownChanges.{change_of, changes_of};
ghost use Rattle.ground_world.specs.Building.{Marks};

use crate::changes::{Change, StagedChange, action_changes};
use crate::places::Places;
use exact_lin::NoMemory;
use pddl_names::Names;
use pddl_terms::{ActionDef, Atom, Call, InitEntry};
use std::alloc::Global;

// Adds the place of a name.
fn mark(names: &Names, atom: &Atom, places: &mut Places) -> Result<(), NoMemory>
    requires { length names.now < 2 ^ 32 - 1 }
    ensures { OnOk result ((before : List Text) → Marks names.now places.old before
        → Marks names.now places.new (before ++ (atom.now.name.bytes ∷ []))) }
{
    places.add(names.place_or_len(atom.name.bytes.as_slice()) as u32)
}

// Adds the predicate that a change makes true or false.
fn mark_predicate(names: &Names, change: &Change, places: &mut Places) -> Result<(), NoMemory>
    requires { length names.now < 2 ^ 32 - 1 }
    ensures { OnOk result ((before : List Text) → Marks names.now places.old before
        → Marks names.now places.new (before ++ changed_predicate (change_of change.now))) }
{
    match change {
        Change::Adds(atom) => mark(names, atom, places),
        Change::Deletes(atom) => mark(names, atom, places),
        Change::Moves(_, _, _) => Ok(()),
        Change::Flows(_, _, _) => Ok(()),
    }
}

// Adds the function that a change gives a value or a rate.
fn mark_function(names: &Names, change: &Change, places: &mut Places) -> Result<(), NoMemory>
    requires { length names.now < 2 ^ 32 - 1 }
    ensures { OnOk result ((before : List Text) → Marks names.now places.old before
        → Marks names.now places.new (before ++ changed_function (change_of change.now))) }
{
    match change {
        Change::Adds(_) => Ok(()),
        Change::Deletes(_) => Ok(()),
        Change::Moves(_, fluent, _) => mark(names, fluent, places),
        Change::Flows(_, fluent, _) => mark(names, fluent, places),
    }
}

// Adds the predicates of some changes.
fn mark_predicates(
    names: &Names,
    changes: &[StagedChange],
    places: &mut Places,
) -> Result<(), NoMemory>
    requires { length names.now < 2 ^ 32 - 1 }
    ensures { OnOk result ((before : List Text) → Marks names.now places.old before
        → Marks names.now places.new (before ++ flat_map (λ c. changed_predicate (change_of c.change)) changes.now)) }
{
    for staged in changes {
        mark_predicate(names, &staged.change, places)?;
    }
    Ok(())
}

// Adds the functions of some changes.
fn mark_functions(
    names: &Names,
    changes: &[StagedChange],
    places: &mut Places,
) -> Result<(), NoMemory>
    requires { length names.now < 2 ^ 32 - 1 }
    ensures { OnOk result ((before : List Text) → Marks names.now places.old before
        → Marks names.now places.new (before ++ flat_map (λ c. changed_function (change_of c.change)) changes.now)) }
{
    for staged in changes {
        mark_function(names, &staged.change, places)?;
    }
    Ok(())
}

/// Adds the predicates that actions change.
pub(crate) fn mark_changed_predicates(
    alloc: Global,
    names: &Names,
    actions: &[ActionDef],
    places: &mut Places,
) -> Result<(), NoMemory>
    requires { length names.now < 2 ^ 32 - 1 }
    ensures { OnOk result ((before : List Text) → Marks names.now places.old before
        → Marks names.now places.new
        (before ++ flat_map (λ a. flat_map (λ c. changed_predicate c.part) (changes a)) actions.now)) }
{
    for action in actions {
        let found = action_changes(alloc, &action.body)?;
        mark_predicates(names, found.as_slice(), places)?;
    }
    Ok(())
}

/// The functions that actions change.
pub(crate) fn mark_changed_functions(
    alloc: Global,
    names: &Names,
    actions: &[ActionDef],
    places: &mut Places,
) -> Result<(), NoMemory>
    requires { length names.now < 2 ^ 32 - 1 }
    ensures { OnOk result ((before : List Text) → Marks names.now places.old before
        → Marks names.now places.new
        (before ++ flat_map (λ a. flat_map (λ c. changed_function c.part) (changes a)) actions.now)) }
{
    for action in actions {
        let found = action_changes(alloc, &action.body)?;
        mark_functions(names, found.as_slice(), places)?;
    }
    Ok(())
}

// Adds the predicate of a timed literal.
fn mark_timed(names: &Names, entry: &InitEntry, places: &mut Places) -> Result<(), NoMemory>
    requires { length names.now < 2 ^ 32 - 1 }
    ensures { OnOk result ((before : List Text) → Marks names.now places.old before
        → Marks names.now places.new (before ++ timed_predicate entry.now)) }
{
    match entry {
        InitEntry::Holds(_) => Ok(()),
        InitEntry::Not(_, _) => Ok(()),
        InitEntry::Value(_, _, _) => Ok(()),
        InitEntry::Timed(literal) => match &literal.atom {
            Call::Named(atom) => mark(names, atom, places),
            Call::LeftOut(_) => Ok(()),
        },
        InitEntry::LeftOut(_) => Ok(()),
    }
}

/// Adds the predicates of timed literals.
pub(crate) fn mark_all_timed(
    names: &Names,
    entries: &[InitEntry],
    places: &mut Places,
) -> Result<(), NoMemory>
    requires { length names.now < 2 ^ 32 - 1 }
    ensures { OnOk result ((before : List Text) → Marks names.now places.old before
        → Marks names.now places.new (before ++ flat_map timed_predicate entries.now)) }
{
    for entry in entries {
        mark_timed(names, entry, places)?;
    }
    Ok(())
}
