//! The tables of a domain and a problem.

ghost use Rattle.std.specs.Prelude.{◌≡◌, ◌<◌, ◌^◌, ◌-◌, [], not, nat_eq, ℕ, length, map, slice_get, slice_index_or, IfOk, OnOk};
ghost use Rattle.std.specs.List.{list_any, flat_map};
ghost use Rattle.pddl_names.specs.Declarations.{Text, among, with_new, with_firsts};
ghost use Rattle.ground_world.specs.World.{number_in, place_in};
ghost use Rattle.ground_world.specs.FirstState.{types_of, objects_of, signatures_of, names_of, places_fitting, changed_predicates, changed_functions, no_place_in, held_atom, given_value, declared_world, world};
ghost use Rattle.ground_world.specs.Shown.{world_of};
ghost use Rattle.ground_world.specs.Building.{Lists, IsSortedOut, fitting_places, is_changing};

use crate::changing::{mark_all_timed, mark_changed_functions, mark_changed_predicates};
use crate::columns::{columns, untyped_places};
use crate::declarations::{objects, signatures, types};
use crate::first_state::{FirstValues, first_values, held_atoms};
use crate::firsts::Firsts;
use crate::fluents::fluents;
use crate::numbering::Numbering;
use crate::places::Places;
use crate::tables::Tables;
use exact_lin::NoMemory;
use pddl_names::Names;
use pddl_terms::{Domain, InitEntry, Problem};
use sqlite_items::Items;
use std::alloc::Global;

/// Refuses more than 30 bits can number.
pub(crate) fn few(count: usize) -> Result<(), NoMemory>
    ensures { OnOk result (count < 2 ^ 30) }
{
    if count < 1_073_741_824 {
        Ok(())
    } else {
        Err(NoMemory)
    }
}

/// The objects that fit each type.
#[derive(Drop)]
struct Columns {
    sorts: Names,
    columns: Items<Items<u32>>,
    others: Items<u32>,
}

// The objects, given by their types, that fit each type.
fn fitting(alloc: Global, domain: &Domain, sorts: &[Items<u8>]) -> Result<Columns, NoMemory>
    requires { length sorts.now < 2 ^ 32 }
    ensures { IfOk result (λ found. (s : Text) → slice_index_or found.columns (place_in found.sorts s) found.others
        ≡ fitting_places (types_of domain.now) sorts.now s) }
{
    let types = types(alloc, domain)?;
    let found = columns(alloc, &types, domain.types.as_slice(), sorts)?;
    let others = untyped_places(alloc, sorts)?;
    Ok(Columns {
        sorts: found.names,
        columns: found.values,
        others,
    })
}

// The predicates that change.
fn changing_predicates(
    alloc: Global,
    names: &Names,
    domain: &Domain,
    problem: &Problem,
) -> Result<Places, NoMemory>
    requires { length names.now < 2 ^ 32 - 1 }
    ensures { IfOk result (λ places. (p : ℕ) → not (list_any (nat_eq p) places)
        ≡ no_place_in names.now (changed_predicates domain.now problem.now) p) }
{
    let mut places = Places::new(alloc);
    mark_changed_predicates(alloc, names, domain.actions.as_slice(), &mut places)?;
    mark_all_timed(names, problem.init.as_slice(), &mut places)?;
    Ok(places)
}

// The functions that change.
fn changing_functions(alloc: Global, names: &Names, domain: &Domain) -> Result<Places, NoMemory>
    requires { length names.now < 2 ^ 32 - 1 }
    ensures { IfOk result (λ places. (f : ℕ) → not (list_any (nat_eq f) places)
        ≡ no_place_in names.now (changed_functions domain.now) f) }
{
    let mut places = Places::new(alloc);
    mark_changed_functions(alloc, names, domain.actions.as_slice(), &mut places)?;
    Ok(places)
}

// The tables with nothing known of the first state.
fn declared_tables(
    alloc: Global,
    domain: &Domain,
    problem: &Problem,
    functions: Names,
) -> Result<Tables, NoMemory>
    requires names { functions ≡ names_of (signatures_of domain.now.functions) }
    requires few { length functions < 2 ^ 30 }
    ensures { IfOk result (λ tables. world_of tables ≡ declared_world domain.now problem.now) }
{
    let objects = objects(alloc, domain, problem)?;
    let predicates = signatures(alloc, domain.predicates.as_slice())?;
    few(objects.values.len())?;
    few(predicates.values.len())?;
    let found = fitting(alloc, domain, objects.values.as_slice())?;
    let changed_predicates = changing_predicates(alloc, &predicates.names, domain, problem)?;
    let changed_functions = changing_functions(alloc, &functions, domain)?;
    Ok(Tables {
        objects: objects.names,
        predicates: predicates.names,
        functions,
        sorts: found.sorts,
        columns: found.columns,
        others: found.others,
        changed_predicates,
        changed_functions,
        held: Numbering::new(alloc),
        given: Numbering::new(alloc),
        values: Items::new(alloc),
        fluents: Numbering::new(alloc),
    })
}

// The functions of a domain, no more than 30 bits can number.
fn few_functions(alloc: Global, domain: &Domain) -> Result<Firsts<Items<Items<u8>>>, NoMemory>
    ensures names { IfOk result (λ found. found.names ≡ names_of (signatures_of domain.now.functions)) }
    ensures values { IfOk result (λ found. found.values ≡ map (λ e. e.1) (signatures_of domain.now.functions)) }
    ensures few { IfOk result (λ found. length found.names < 2 ^ 30) }
{
    let functions = signatures(alloc, domain.functions.as_slice())?;
    few(functions.values.len())?;
    Ok(functions)
}

/// What is known of the first state: what holds, the first values, and the fluents.
#[derive(Drop)]
struct FirstState {
    held: Numbering,
    first: FirstValues,
    fluents: Numbering,
}

// What is known of the first state, where these are the types of the parameters of each function.
fn first_state(
    alloc: Global,
    tables: &Tables,
    functions: &[Items<Items<u8>>],
    entries: &[InitEntry],
) -> Result<FirstState, NoMemory>
    ensures held { IfOk result (λ state. state.held ≡ with_new [] (flat_map (held_atom (world_of tables.now)) entries.now)) }
    ensures first { IfOk result (λ state. Lists state.first.fluents state.first.values
        (with_firsts [] (flat_map (given_value (world_of tables.now)) entries.now))) }
    ensures fluents { IfOk result (λ state. IsSortedOut (is_changing (world_of tables.now) functions.now) state.first.fluents state.fluents) }
    ensures few { IfOk result (λ state. length state.fluents < 2 ^ 30) }
{
    let held = held_atoms(alloc, tables, entries)?;
    let first = first_values(alloc, tables, entries)?;
    let fluents = fluents(alloc, tables, functions, &first.fluents)?;
    few(fluents.len())?;
    Ok(FirstState {
        held,
        first,
        fluents,
    })
}

// The tables with what is known of the first state.
fn with_first_state(tables: Tables, state: FirstState) -> Tables
    requires { length state.fluents < 2 ^ 31 }
    ensures { world_of result ≡ record (world_of tables) {
      is_held = among state.held;
      value_of = λ f. slice_get state.first.values (number_in state.first.fluents f);
      fluents = state.fluents;
    } }
{
    let Tables {
        objects,
        predicates,
        functions,
        sorts,
        columns,
        others,
        changed_predicates,
        changed_functions,
        held: _,
        given: _,
        values: _,
        fluents: _,
    } = tables;
    Tables {
        objects,
        predicates,
        functions,
        sorts,
        columns,
        others,
        changed_predicates,
        changed_functions,
        held: state.held,
        given: state.first.fluents,
        values: state.first.values,
        fluents: state.fluents,
    }
}

/// The tables of a domain and a problem. A name that is declared twice counts where it first stands; more names than 30
/// bits can number are refused as too large for memory.
pub fn world_tables(alloc: Global, domain: &Domain, problem: &Problem) -> Result<Tables, NoMemory>
    ensures { IfOk result (λ tables. world_of tables ≡ world domain.now problem.now) }
{
    let functions = few_functions(alloc, domain)?;
    let tables = declared_tables(alloc, domain, problem, functions.names)?;
    let state = first_state(
        alloc,
        &tables,
        functions.values.as_slice(),
        problem.init.as_slice(),
    )?;
    Ok(with_first_state(tables, state))
}
