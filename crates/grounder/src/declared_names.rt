//! The names that a domain and a problem declare, each once, in the order in which they first stand.

ghost use Rattle.std.specs.Prelude.{◌≡◌, [], ◌∷◌, map, IfOk, OnOk};
ghost use Rattle.pddl_names.specs.Declarations.{with_new, signature_of};
ghost use Rattle.ground_world.specs.World.{variable_names};
ghost use Rattle.ground_world.specs.FirstState.{names_of, objects_of, signatures_of};

use exact_lin::NoMemory;
use pddl_names::Names;
use pddl_terms::{Declared, Domain, Group, Name, Problem};
use sqlite_items::Items;
use std::alloc::Global;

// Names in the order in which they first came, and the same names to look up.
#[derive(Drop)]
struct FirstNames {
    list: Items<Items<u8>>,
    seen: Names,
}

// No names.
fn no_names(alloc: Global) -> FirstNames
    ensures list { result.list ≡ [] }
    ensures seen { result.seen ≡ [] }
{
    FirstNames {
        list: Items::new(alloc),
        seen: Names::new(alloc),
    }
}

// Puts a name at the end, unless it is there.
fn add_name(alloc: Global, name: &[u8], found: &mut FirstNames) -> Result<(), NoMemory>
    requires { found.old.seen ≡ found.old.list }
    ensures seen { OnOk result (found.new.seen ≡ found.new.list) }
    ensures list { OnOk result (found.new.list ≡ with_new found.old.list (name.now ∷ [])) }
{
    if found.seen.has(name) {
        return Ok(());
    }
    let copy = Items::from_slice(alloc, name)?;
    found.seen.add(alloc, name)?;
    found.list.push(copy)?;
    Ok(())
}

// Adds the names of a group.
fn add_names(alloc: Global, names: &[Name], found: &mut FirstNames) -> Result<(), NoMemory>
    requires { found.old.seen ≡ found.old.list }
    ensures seen { OnOk result (found.new.seen ≡ found.new.list) }
    ensures list { OnOk result (found.new.list ≡ with_new found.old.list (map (λ n. n.bytes) names.now)) }
{
    for name in names {
        add_name(alloc, name.bytes.as_slice(), found)?;
    }
    Ok(())
}

// Adds the names of a typed list.
fn add_groups(alloc: Global, groups: &[Group], found: &mut FirstNames) -> Result<(), NoMemory>
    requires { found.old.seen ≡ found.old.list }
    ensures seen { OnOk result (found.new.seen ≡ found.new.list) }
    ensures list { OnOk result (found.new.list ≡ with_new found.old.list (variable_names groups.now)) }
{
    for group in groups {
        add_names(alloc, group.names.as_slice(), found)?;
    }
    Ok(())
}

// Adds the name of a predicate or a function.
fn add_declared(alloc: Global, declared: &Declared, found: &mut FirstNames) -> Result<(), NoMemory>
    requires { found.old.seen ≡ found.old.list }
    ensures seen { OnOk result (found.new.seen ≡ found.new.list) }
    ensures list { OnOk result (found.new.list
        ≡ with_new found.old.list (names_of (signature_of declared.now))) }
{
    match declared {
        Declared::Named(_, name, _) => add_name(alloc, name.bytes.as_slice(), found),
        Declared::LeftOut(_) => Ok(()),
    }
}

/// The names of some predicates or functions.
pub fn declared_names(
    alloc: Global,
    declarations: &[Declared],
) -> Result<Items<Items<u8>>, NoMemory>
    ensures { IfOk result (λ names. names ≡ names_of (signatures_of declarations.now)) }
{
    let mut found = no_names(alloc);
    for declared in declarations {
        add_declared(alloc, declared, &mut found)?;
    }
    Ok(found.list)
}

/// The names of the objects of a problem: the constants of its domain, then its own objects.
pub fn object_names(
    alloc: Global,
    domain: &Domain,
    problem: &Problem,
) -> Result<Items<Items<u8>>, NoMemory>
    ensures { IfOk result (λ names. names ≡ names_of (objects_of domain.now problem.now)) }
{
    let mut found = no_names(alloc);
    add_groups(alloc, domain.constants.as_slice(), &mut found)?;
    add_groups(alloc, problem.objects.as_slice(), &mut found)?;
    Ok(found.list)
}
