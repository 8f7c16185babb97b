//! Which objects fit a type.

ghost use Rattle.std.specs.Prelude.{◌≡◌, ◌<◌, ◌^◌, [], ◌∷◌, ◌++◌, List, ℕ, map, length, if◌then◌else◌, IfOk, OnOk};
ghost use Rattle.pddl_names.specs.Declarations.{Text, with_first, with_firsts};
ghost use Rattle.pddl_names.specs.Fitting.{fits, is_nothing};
ghost use Rattle.ground_world.specs.Building.{Lists, places_passing, fitting_places, column_of, sorts_above, asked_sorts};

use crate::choosing::sort_of;
use crate::firsts::Firsts;
use exact_lin::NoMemory;
use pddl_names::{Table, fits};
use pddl_terms::Group;
use sqlite_items::Items;
use std::alloc::Global;

// Puts a place at the end where it is wanted.
fn push_where(places: &mut Items<u32>, wanted: bool, place: u32) -> Result<(), NoMemory>
    ensures { OnOk result (places.new ≡ places.old ++ (if wanted then place ∷ [] else [])) }
{
    if wanted {
        places.push(place)?;
    }
    Ok(())
}

// The places of the objects, given by their types, that fit a type.
fn fitting_places(
    alloc: Global,
    types: &Table<Items<u8>>,
    sorts: &[Items<u8>],
    sort: &[u8],
) -> Result<Items<u32>, NoMemory>
    requires { length sorts.now < 2 ^ 32 }
    ensures { IfOk result (λ places. places ≡ fitting_places types.now sorts.now sort.now) }
{
    let mut places = Items::new(alloc);
    for (place, own) in sorts.iter().enumerate() {
        let wanted = fits(types, own.as_slice(), sort);
        push_where(&mut places, wanted, place as u32)?;
    }
    Ok(places)
}

/// The places of the objects, given by their types, whose type is left out.
pub(crate) fn untyped_places(alloc: Global, sorts: &[Items<u8>]) -> Result<Items<u32>, NoMemory>
    requires { length sorts.now < 2 ^ 32 }
    ensures { IfOk result (λ places. places ≡ places_passing is_nothing sorts.now) }
{
    let mut places = Items::new(alloc);
    for (place, own) in sorts.iter().enumerate() {
        let wanted = own.as_slice().is_empty();
        push_where(&mut places, wanted, place as u32)?;
    }
    Ok(places)
}

// Adds a type with the places of the objects that fit it, unless it is there.
fn add_column(
    alloc: Global,
    types: &Table<Items<u8>>,
    sorts: &[Items<u8>],
    columns: &mut Firsts<Items<u32>>,
    sort: &[u8],
) -> Result<(), NoMemory>
    requires { length sorts.now < 2 ^ 32 }
    ensures { OnOk result ((es : List (Text × List ℕ)) → Lists columns.old.names columns.old.values es
        → Lists columns.new.names columns.new.values (with_first es (column_of types.now sorts.now sort.now))) }
{
    if columns.names.has(sort) {
        return Ok(());
    }
    let places = fitting_places(alloc, types, sorts, sort)?;
    columns.add(alloc, sort, places)
}

// Adds the types of the objects.
fn add_own_columns(
    alloc: Global,
    types: &Table<Items<u8>>,
    sorts: &[Items<u8>],
    columns: &mut Firsts<Items<u32>>,
) -> Result<(), NoMemory>
    requires { length sorts.now < 2 ^ 32 }
    ensures { OnOk result ((es : List (Text × List ℕ)) → Lists columns.old.names columns.old.values es
        → Lists columns.new.names columns.new.values
        (with_firsts es (map (column_of types.now sorts.now) sorts.now))) }
{
    for sort in sorts {
        add_column(alloc, types, sorts, columns, sort.as_slice())?;
    }
    Ok(())
}

// Adds the types that are above others.
fn add_upper_columns(
    alloc: Global,
    types: &Table<Items<u8>>,
    groups: &[Group],
    sorts: &[Items<u8>],
    columns: &mut Firsts<Items<u32>>,
) -> Result<(), NoMemory>
    requires { length sorts.now < 2 ^ 32 }
    ensures { OnOk result ((es : List (Text × List ℕ)) → Lists columns.old.names columns.old.values es
        → Lists columns.new.names columns.new.values
        (with_firsts es (map (column_of types.now sorts.now) (sorts_above groups.now)))) }
{
    for group in groups {
        add_column(alloc, types, sorts, columns, sort_of(group))?;
    }
    Ok(())
}

/// The types that some object fits, each with the places of these objects.
pub(crate) fn columns(
    alloc: Global,
    types: &Table<Items<u8>>,
    groups: &[Group],
    sorts: &[Items<u8>],
) -> Result<Firsts<Items<u32>>, NoMemory>
    requires { length sorts.now < 2 ^ 32 }
    ensures { IfOk result (λ columns. Lists columns.names columns.values
        (with_firsts [] (map (column_of types.now sorts.now) (asked_sorts groups.now sorts.now)))) }
{
    let mut columns = Firsts::new(alloc);
    add_column(alloc, types, sorts, &mut columns, b"object")?;
    add_column(alloc, types, sorts, &mut columns, b"")?;
    add_own_columns(alloc, types, sorts, &mut columns)?;
    add_upper_columns(alloc, types, groups, sorts, &mut columns)?;
    Ok(columns)
}
