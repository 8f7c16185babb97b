//! What a domain and a problem declare, each name where it first stands.

ghost use Rattle.std.specs.Prelude.{◌≡◌, [], ◌++◌, List, map, IfOk, OnOk};
ghost use Rattle.pddl_names.specs.Declarations.{Typed, Signature, type_bytes, typed, typed_of, sorts_of, signature_of, signatures, with_firsts};
ghost use Rattle.ground_world.specs.FirstState.{types_of, objects_of, signatures_of};
ghost use Rattle.ground_world.specs.Building.{Lists};

use crate::choosing::sort_of;
use crate::firsts::Firsts;
use exact_lin::NoMemory;
use pddl_names::Table;
use pddl_terms::{Declared, Domain, Group, Problem};
use sqlite_items::Items;
use std::alloc::Global;

// Adds the types of a group with the type above them.
fn add_types(alloc: Global, types: &mut Table<Items<u8>>, group: &Group) -> Result<(), NoMemory>
    ensures { OnOk result (types.new ≡ with_firsts types.old (typed_of group.now)) }
{
    for name in group.names.as_slice() {
        let above = Items::from_slice(alloc, sort_of(group))?;
        types.add(alloc, name.bytes.as_slice(), above)?;
    }
    Ok(())
}

/// The types of a domain, each with the type above it.
pub(crate) fn types(alloc: Global, domain: &Domain) -> Result<Table<Items<u8>>, NoMemory>
    ensures { IfOk result (λ types. types ≡ types_of domain.now) }
{
    let mut types = Table::new(alloc);
    for group in domain.types.as_slice() {
        add_types(alloc, &mut types, group)?;
    }
    Ok(types)
}

// Adds the objects of a group with their type.
fn add_group(alloc: Global, objects: &mut Firsts<Items<u8>>, group: &Group) -> Result<(), NoMemory>
    ensures { OnOk result ((es : List Typed) → Lists objects.old.names objects.old.values es
        → Lists objects.new.names objects.new.values (with_firsts es (typed_of group.now))) }
{
    for name in group.names.as_slice() {
        let sort = Items::from_slice(alloc, sort_of(group))?;
        objects.add(alloc, name.bytes.as_slice(), sort)?;
    }
    Ok(())
}

// Adds the objects of a typed list.
fn add_objects(
    alloc: Global,
    objects: &mut Firsts<Items<u8>>,
    groups: &[Group],
) -> Result<(), NoMemory>
    ensures { OnOk result ((es : List Typed) → Lists objects.old.names objects.old.values es
        → Lists objects.new.names objects.new.values (with_firsts es (typed groups.now))) }
{
    for group in groups {
        add_group(alloc, objects, group)?;
    }
    Ok(())
}

/// The objects of a problem with their types, the constants of its domain first.
pub(crate) fn objects(
    alloc: Global,
    domain: &Domain,
    problem: &Problem,
) -> Result<Firsts<Items<u8>>, NoMemory>
    ensures { IfOk result (λ objects. Lists objects.names objects.values (objects_of domain.now problem.now)) }
{
    let mut objects = Firsts::new(alloc);
    add_objects(alloc, &mut objects, domain.constants.as_slice())?;
    add_objects(alloc, &mut objects, problem.objects.as_slice())?;
    Ok(objects)
}

// Puts the types of the names of a group at the end.
fn push_sorts(alloc: Global, sorts: &mut Items<Items<u8>>, group: &Group) -> Result<(), NoMemory>
    ensures { OnOk result (sorts.new ≡ sorts.old ++ map (λ n. type_bytes group.now.of) group.now.names) }
{
    for _name in group.names.as_slice() {
        let sort = Items::from_slice(alloc, sort_of(group))?;
        sorts.push(sort)?;
    }
    Ok(())
}

// The types of the names of a typed list.
fn sorts_of(alloc: Global, groups: &[Group]) -> Result<Items<Items<u8>>, NoMemory>
    ensures { IfOk result (λ sorts. sorts ≡ sorts_of groups.now) }
{
    let mut sorts = Items::new(alloc);
    for group in groups {
        push_sorts(alloc, &mut sorts, group)?;
    }
    Ok(sorts)
}

// Adds a predicate or a function with the types of its parameters.
fn add_declared(
    alloc: Global,
    found: &mut Firsts<Items<Items<u8>>>,
    declared: &Declared,
) -> Result<(), NoMemory>
    ensures { OnOk result ((es : List Signature) → Lists found.old.names found.old.values es
        → Lists found.new.names found.new.values (with_firsts es (signature_of declared.now))) }
{
    match declared {
        Declared::Named(_, name, parameters) => {
            let sorts = sorts_of(alloc, parameters.as_slice())?;
            found.add(alloc, name.bytes.as_slice(), sorts)
        }
        Declared::LeftOut(_) => Ok(()),
    }
}

/// The predicates or functions of a domain, with the types of their parameters.
pub(crate) fn signatures(
    alloc: Global,
    list: &[Declared],
) -> Result<Firsts<Items<Items<u8>>>, NoMemory>
    ensures { IfOk result (λ found. Lists found.names found.values (signatures_of list.now)) }
{
    let mut found = Firsts::new(alloc);
    for declared in list {
        add_declared(alloc, &mut found, declared)?;
    }
    Ok(found)
}
