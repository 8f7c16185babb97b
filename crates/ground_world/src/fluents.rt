//! The fluents: the ground fluents of functions that change which have a first value, in the order of all bindings.

ghost use Rattle.std.specs.Prelude.{◌≡◌, IfOk, OnOk, map, if◌then◌else◌, ◌∷◌, []};
ghost use Rattle.pddl_names.specs.Declarations.{with_new};
ghost use Rattle.ground_world.specs.Shown.{world_of};
ghost use Rattle.ground_world.specs.Building.{fits_columns, is_changing, IsSortedOut};

use crate::numbering::Numbering;
use crate::tables::Tables;
use exact_lin::NoMemory;
use sqlite_items::Items;
use std::alloc::Global;

// Whether each argument fits the type of its parameter, and there are as many as parameters.
fn fits_columns(tables: &Tables, sorts: &[Items<u8>], arguments: &[u32]) -> bool
    ensures { result ≡ fits_columns (map (world_of tables.now).fitting sorts.now) arguments.now }
{
    let mut left = sorts;
    let mut given = arguments;
    while let Some((sort, more_sorts)) = left.split_first() {
        let Some((argument, more_arguments)) = given.split_first() else {
            return false;
        };
        if !tables.column(sort.as_slice()).contains(argument) {
            return false;
        }
        left = more_sorts;
        given = more_arguments;
    }
    given.is_empty()
}

// Whether a ground fluent is a binding of a function that changes.
fn is_changing(tables: &Tables, functions: &[Items<Items<u8>>], fluent: &[u32]) -> bool
    ensures { result ≡ is_changing (world_of tables.now) functions.now fluent.now }
{
    let Some((function, arguments)) = fluent.split_first() else {
        return false;
    };
    if tables.is_static_function(*function) {
        return false;
    }
    match functions.get(*function as usize) {
        Some(sorts) => fits_columns(tables, sorts.as_slice(), arguments),
        None => false,
    }
}

// Adds a ground fluent where it is a binding of a function that changes.
fn add_fluent(
    alloc: Global,
    tables: &Tables,
    functions: &[Items<Items<u8>>],
    fluent: &[u32],
    fluents: &mut Numbering,
) -> Result<(), NoMemory>
    ensures { OnOk result (fluents.new
        ≡ with_new fluents.old (if is_changing (world_of tables.now) functions.now fluent.now then fluent.now ∷ [] else [])) }
{
    if is_changing(tables, functions, fluent) {
        fluents.add(Vec::from_slice(alloc, fluent)?)?;
    }
    Ok(())
}

/// The fluents among the ground fluents that have a first value.
pub(crate) fn fluents(
    alloc: Global,
    tables: &Tables,
    functions: &[Items<Items<u8>>],
    given: &Numbering,
) -> Result<Numbering, NoMemory>
    ensures { IfOk result (λ fluents. IsSortedOut (is_changing (world_of tables.now) functions.now) given.now fluents) }
{
    let mut fluents = Numbering::new(alloc);
    for fluent in given.keys() {
        add_fluent(alloc, tables, functions, fluent.as_slice(), &mut fluents)?;
    }
    fluents.sort()?;
    Ok(fluents)
}
