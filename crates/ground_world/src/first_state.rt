//! What holds at first, and the first values.

ghost use Rattle.std.specs.Prelude.{◌≡◌, [], ◌∷◌, List, IfOk, OnOk};
ghost use Rattle.std.specs.List.{flat_map};
ghost use Rattle.rational.specs.Rational.{ℚ};
ghost use Rattle.pddl_names.specs.Declarations.{Text, with_new, with_firsts};
ghost use Rattle.ground_world.specs.FirstState.{held_atom, given_value};
ghost use Rattle.ground_world.specs.Shown.{world_of};
ghost use Rattle.ground_world.specs.Building.{Lists};

use crate::binding::{ground_atom, ground_fluent};
use crate::numbering::Numbering;
use crate::tables::Tables;
use exact_lin::{Fraction, NoMemory};
use pddl_terms::{Call, InitEntry};
use sqlite_items::Items;
use std::alloc::Global;

// Adds what an entry says holds.
fn add_held(
    alloc: Global,
    tables: &Tables,
    entry: &InitEntry,
    held: &mut Numbering,
) -> Result<(), NoMemory>
    ensures { OnOk result (held.new ≡ with_new held.old (held_atom (world_of tables.now) entry.now)) }
{
    match entry {
        InitEntry::Holds(atom) => {
            let key = ground_atom(alloc, tables, &[], atom)?;
            held.add(Vec::from_slice(alloc, key.as_slice())?)
        }
        InitEntry::Not(_, _) => Ok(()),
        InitEntry::Value(_, _, _) => Ok(()),
        InitEntry::Timed(_) => Ok(()),
        InitEntry::LeftOut(_) => Ok(()),
    }
}

/// The ground atoms that hold at first, each once.
pub(crate) fn held_atoms(
    alloc: Global,
    tables: &Tables,
    entries: &[InitEntry],
) -> Result<Numbering, NoMemory>
    ensures { IfOk result (λ held. held ≡ with_new [] (flat_map (held_atom (world_of tables.now)) entries.now)) }
{
    let mut held = Numbering::new(alloc);
    for entry in entries {
        add_held(alloc, tables, entry, &mut held)?;
    }
    Ok(held)
}

/// Ground fluents with the first value that is given of each.
#[derive(Drop)]
pub(crate) struct FirstValues {
    pub fluents: Numbering,
    pub values: Items<Fraction>,
}

// Adds a fluent's value, unless it has one.
fn add_value(
    alloc: Global,
    found: &mut FirstValues,
    fluent: &[u32],
    value: Fraction,
) -> Result<(), NoMemory>
    ensures { OnOk result ((es : List (Text × ℚ)) → Lists found.old.fluents found.old.values es
        → Lists found.new.fluents found.new.values (with_firsts es ((fluent.now, value) ∷ []))) }
{
    if found.fluents.has(fluent) {
        return Ok(());
    }
    found.fluents.add(Vec::from_slice(alloc, fluent)?)?;
    found.values.push(value)?;
    Ok(())
}

// Adds the value that an entry gives.
fn add_given(
    alloc: Global,
    tables: &Tables,
    entry: &InitEntry,
    found: &mut FirstValues,
) -> Result<(), NoMemory>
    ensures { OnOk result ((es : List (Text × ℚ)) → Lists found.old.fluents found.old.values es
        → Lists found.new.fluents found.new.values (with_firsts es (given_value (world_of tables.now) entry.now))) }
{
    match entry {
        InitEntry::Holds(_) => Ok(()),
        InitEntry::Not(_, _) => Ok(()),
        InitEntry::Value(_, call, value) => match call {
            Call::Named(atom) => {
                let key = ground_fluent(alloc, tables, &[], atom)?;
                add_value(alloc, found, key.as_slice(), *value)
            }
            Call::LeftOut(_) => Ok(()),
        },
        InitEntry::Timed(_) => Ok(()),
        InitEntry::LeftOut(_) => Ok(()),
    }
}

/// The ground fluents that have a first value, with their values.
pub(crate) fn first_values(
    alloc: Global,
    tables: &Tables,
    entries: &[InitEntry],
) -> Result<FirstValues, NoMemory>
    ensures { IfOk result (λ found. Lists found.fluents found.values
        (with_firsts [] (flat_map (given_value (world_of tables.now)) entries.now))) }
{
    let mut found = FirstValues {
        fluents: Numbering::new(alloc),
        values: Items::new(alloc),
    };
    for entry in entries {
        add_given(alloc, tables, entry, &mut found)?;
    }
    Ok(found)
}
