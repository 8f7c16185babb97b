//! Bindings of variables to objects, and what terms stand for under them.

ghost use Rattle.std.specs.Prelude.{◌≡◌, ◌++◌, map, IfOk, OnOk};
ghost use Rattle.ground_world.specs.World as world;
ghost use Rattle.ground_world.specs.Shown.{env_of, world_of};

use crate::tables::Tables;
use exact_lin::NoMemory;
use pddl_terms::{Atom, Term};
use sqlite_items::Items;
use std::alloc::Global;

/// A variable and the object that it stands for, by its place among the objects.
#[derive(Clone, Copy, Drop)]
pub struct Bound<'a> {
    pub name: &'a Items<u8>,
    pub object: u32,
}

/// The object of a variable: the last one bound to its name.
pub fn bound_object(env: &[Bound], name: &[u8]) -> u32
    ensures { result ≡ world.bound (env_of env.now) name.now }
{
    let mut found = 0;
    for entry in env {
        if entry.name.as_slice() == name {
            found = entry.object;
        }
    }
    found
}

/// The object that a term stands for.
pub fn term_object(tables: &Tables, env: &[Bound], term: &Term) -> u32
    ensures { result ≡ world.term_object (world_of tables.now) (env_of env.now) term.now }
{
    match term {
        Term::Object(name) => tables.object(name.bytes.as_slice()),
        Term::Variable(name) => bound_object(env, name.bytes.as_slice()),
    }
}

// Puts the objects of some terms at the end.
fn push_arguments(
    out: &mut Items<u32>,
    tables: &Tables,
    env: &[Bound],
    terms: &[Term],
) -> Result<(), NoMemory>
    ensures { OnOk result (out.new ≡ out.old ++ map (world.term_object (world_of tables.now) (env_of env.now)) terms.now) }
{
    for term in terms {
        out.push(term_object(tables, env, term))?;
    }
    Ok(())
}

/// The ground atom of a predicate with its terms.
pub fn ground_atom(
    alloc: Global,
    tables: &Tables,
    env: &[Bound],
    atom: &Atom,
) -> Result<Items<u32>, NoMemory>
    ensures { IfOk result (λ a. a ≡ world.ground_atom (world_of tables.now) (env_of env.now) atom.now) }
{
    let mut numbers = Items::new(alloc);
    numbers.push(tables.predicate(atom.name.bytes.as_slice()))?;
    push_arguments(&mut numbers, tables, env, atom.terms.as_slice())?;
    Ok(numbers)
}

/// The ground fluent of a function with its terms.
pub fn ground_fluent(
    alloc: Global,
    tables: &Tables,
    env: &[Bound],
    fluent: &Atom,
) -> Result<Items<u32>, NoMemory>
    ensures { IfOk result (λ f. f ≡ world.ground_fluent (world_of tables.now) (env_of env.now) fluent.now) }
{
    let mut numbers = Items::new(alloc);
    numbers.push(tables.function(fluent.name.bytes.as_slice()))?;
    push_arguments(&mut numbers, tables, env, fluent.terms.as_slice())?;
    Ok(numbers)
}

/// The predicate of a ground atom, or the function of a ground fluent.
pub fn symbol(atom: &[u32]) -> u32
    ensures { result ≡ world.symbol atom.now }
{
    match atom.split_first() {
        Some((first, _)) => *first,
        None => 0,
    }
}
