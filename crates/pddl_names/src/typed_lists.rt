//! Typed lists: the types in them, the names that stand in them twice, and the tables that they make.

ghost use Rattle.std.specs.Prelude.{◌≡◌, [], ◌∷◌, IfOk, OnOk, map};
ghost use Rattle.pddl_names.specs.Offences.{least};
ghost use Rattle.pddl_names.specs.Declarations.{type_bytes, typed, typed_of, with_new, with_firsts};
ghost use Rattle.pddl_names.specs.Calls.{doubles, names_of, variables_offences};

use crate::calls::first_in_types;
use crate::declarations::Tables;
use crate::names::Names;
use crate::offences::{Offence, Phase, earlier};
use crate::tables::Table;
use exact_lin::NoMemory;
use pddl_terms::{Group, Kind, Name, TypeName};
use sqlite_items::Items;
use std::alloc::Global;

/// The bytes of a type.
pub(crate) fn type_bytes(alloc: Global, of: &TypeName) -> Result<Items<u8>, NoMemory>
    ensures { IfOk result (λ bytes. bytes ≡ type_bytes of.now) }
{
    match of {
        TypeName::Object => Ok(Items::from_slice(alloc, b"object")?),
        TypeName::Named(name) => Ok(Items::from_slice(alloc, name.bytes.as_slice())?),
        TypeName::LeftOut(_) => Ok(Items::new(alloc)),
    }
}

fn add_group(alloc: Global, table: &mut Table<Items<u8>>, group: &Group) -> Result<(), NoMemory>
    ensures { OnOk result (table.new ≡ with_firsts table.old (typed_of group.now)) }
{
    for name in group.names.as_slice() {
        let sort = type_bytes(alloc, &group.of)?;
        table.add(alloc, name.bytes.as_slice(), sort)?;
    }
    Ok(())
}

/// Adds the names of a typed list with their types.
pub(crate) fn add_typed(
    alloc: Global,
    table: &mut Table<Items<u8>>,
    groups: &[Group],
) -> Result<(), NoMemory>
    ensures { OnOk result (table.new ≡ with_firsts table.old (typed groups.now)) }
{
    for group in groups {
        add_group(alloc, table, group)?;
    }
    Ok(())
}

/// The variables of a typed list with their types.
pub(crate) fn variables(alloc: Global, groups: &[Group]) -> Result<Table<Items<u8>>, NoMemory>
    ensures { IfOk result (λ table. table ≡ with_firsts [] (typed groups.now)) }
{
    let mut table = Table::new(alloc);
    add_typed(alloc, &mut table, groups)?;
    Ok(table)
}

fn offence_of_double(seen: &Names, name: &Name) -> Option<Offence>
    ensures { result ≡ least (doubles seen.now (name.now ∷ [])) }
{
    if seen.has(name.bytes.as_slice()) {
        return Some(Offence {
            kind: Kind::Double,
            place: name.at,
        });
    }
    None
}

/// The offence of a name that stood before, and the name among those that stood before.
pub(crate) fn double(
    alloc: Global,
    seen: &mut Names,
    name: &Name,
) -> Result<Option<Offence>, NoMemory>
    ensures offence { IfOk result (λ o. o ≡ least (doubles seen.old (name.now ∷ []))) }
    ensures names { OnOk result (seen.new ≡ with_new seen.old (name.now.bytes ∷ [])) }
{
    let found = offence_of_double(seen, name);
    seen.add(alloc, name.bytes.as_slice())?;
    Ok(found)
}

fn first_double_of_group(
    alloc: Global,
    seen: &mut Names,
    names: &[Name],
) -> Result<Option<Offence>, NoMemory>
    ensures offence { IfOk result (λ o. o ≡ least (doubles seen.old names.now)) }
    ensures names { OnOk result (seen.new ≡ with_new seen.old (map (λ n. n.bytes) names.now)) }
{
    let mut found = None;
    for name in names {
        let other = double(alloc, seen, name)?;
        found = earlier(found, other);
    }
    Ok(found)
}

/// The first name of a typed list that stood before, and its names among those that stood before.
pub(crate) fn first_double(
    alloc: Global,
    seen: &mut Names,
    groups: &[Group],
) -> Result<Option<Offence>, NoMemory>
    ensures offence { IfOk result (λ o. o ≡ least (doubles seen.old (names_of groups.now))) }
    ensures names { OnOk result (seen.new ≡ with_new seen.old (map (λ n. n.bytes) (names_of groups.now))) }
{
    let mut found = None;
    for group in groups {
        let other = first_double_of_group(alloc, seen, group.names.as_slice())?;
        found = earlier(found, other);
    }
    Ok(found)
}

fn first_double_alone(alloc: Global, groups: &[Group]) -> Result<Option<Offence>, NoMemory>
    ensures { IfOk result (λ o. o ≡ least (doubles [] (names_of groups.now))) }
{
    let mut seen = Names::new(alloc);
    let found = first_double(alloc, &mut seen, groups)?;
    Ok(found)
}

/// The first offence in a list of variables: a type that isn't declared, or a variable that stood before.
pub(crate) fn first_in_variables(
    alloc: Global,
    phase: Phase,
    tables: &Tables,
    groups: &[Group],
) -> Result<Option<Offence>, NoMemory>
    ensures { IfOk result (λ o. o ≡ least (variables_offences phase tables.now groups.now)) }
{
    match phase {
        Phase::Names => {
            let twice = first_double_alone(alloc, groups)?;
            Ok(earlier(first_in_types(tables, groups), twice))
        }
        Phase::Types => Ok(None),
    }
}
