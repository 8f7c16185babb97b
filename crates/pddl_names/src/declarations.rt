//! What a domain and a problem declare, as tables.

ghost use Rattle.std.specs.Prelude.{◌≡◌, [], ◌++◌, IfOk, OnOk, map};
ghost use Rattle.pddl_names.specs.Offences.{least};
ghost use Rattle.pddl_names.specs.Declarations.{
  type_bytes,
  sorts_of,
  signature_of,
  signatures,
  with_new,
  with_firsts,
};
ghost use Rattle.pddl_names.specs.Calls.{doubles};
ghost use Rattle.pddl_names.specs.Files.{
  declared_name,
  declared_names,
  texts_of,
  no_tables,
  with_domain,
  domain_tables,
};

use crate::names::Names;
use crate::offences::{Offence, earlier};
use crate::tables::Table;
use crate::typed_lists::{add_typed, double, type_bytes};
use exact_lin::NoMemory;
use pddl_terms::{Declared, Domain, Group};
use sqlite_items::Items;
use std::alloc::Global;

/// What is declared: types with the ones above them, objects with their types, predicates and functions with the types
/// of their parameters, and the names of functions, preferences and time costs.
#[derive(Drop)]
pub struct Tables {
    pub types: Table<Items<u8>>,
    pub objects: Table<Items<u8>>,
    pub predicates: Table<Items<Items<u8>>>,
    pub functions: Table<Items<Items<u8>>>,
    pub function_names: Names,
    pub preferences: Names,
    pub time_costs: Names,
}

fn push_sorts(alloc: Global, sorts: &mut Items<Items<u8>>, group: &Group) -> Result<(), NoMemory>
    ensures { OnOk result (sorts.new ≡ sorts.old ++ map (λ n. type_bytes group.now.of) group.now.names) }
{
    for _name in group.names.as_slice() {
        let sort = type_bytes(alloc, &group.of)?;
        sorts.push(sort)?;
    }
    Ok(())
}

fn sorts_of(alloc: Global, groups: &[Group]) -> Result<Items<Items<u8>>, NoMemory>
    ensures { IfOk result (λ sorts. sorts ≡ sorts_of groups.now) }
{
    let mut sorts = Items::new(alloc);
    for group in groups {
        push_sorts(alloc, &mut sorts, group)?;
    }
    Ok(sorts)
}

fn add_declared(
    alloc: Global,
    table: &mut Table<Items<Items<u8>>>,
    declared: &Declared,
) -> Result<(), NoMemory>
    ensures { OnOk result (table.new ≡ with_firsts table.old (signature_of declared.now)) }
{
    match declared {
        Declared::Named(_, name, parameters) => {
            let sorts = sorts_of(alloc, parameters.as_slice())?;
            table.add(alloc, name.bytes.as_slice(), sorts)?;
            Ok(())
        }
        Declared::LeftOut(_) => Ok(()),
    }
}

fn add_all_declared(
    alloc: Global,
    table: &mut Table<Items<Items<u8>>>,
    list: &[Declared],
) -> Result<(), NoMemory>
    ensures { OnOk result (table.new ≡ with_firsts table.old (signatures list.now)) }
{
    for item in list {
        add_declared(alloc, table, item)?;
    }
    Ok(())
}

fn double_of_declared(
    alloc: Global,
    seen: &mut Names,
    declared: &Declared,
) -> Result<Option<Offence>, NoMemory>
    ensures offence { IfOk result (λ o. o ≡ least (doubles seen.old (declared_name declared.now))) }
    ensures names { OnOk result (seen.new ≡ with_new seen.old (texts_of (declared_name declared.now))) }
{
    match declared {
        Declared::Named(_, name, _) => Ok(double(alloc, seen, name)?),
        Declared::LeftOut(_) => Ok(None),
    }
}

/// The first name of predicates or functions that stood before, and their names among those that stood before.
pub(crate) fn first_double_of_declared(
    alloc: Global,
    seen: &mut Names,
    list: &[Declared],
) -> Result<Option<Offence>, NoMemory>
    ensures offence { IfOk result (λ o. o ≡ least (doubles seen.old (declared_names list.now))) }
    ensures names { OnOk result (seen.new ≡ with_new seen.old (texts_of (declared_names list.now))) }
{
    let mut found = None;
    for item in list {
        let other = double_of_declared(alloc, seen, item)?;
        found = earlier(found, other);
    }
    Ok(found)
}

/// Nothing is declared.
fn no_tables(alloc: Global) -> Tables
    ensures { result ≡ no_tables }
{
    Tables {
        types: Table::new(alloc),
        objects: Table::new(alloc),
        predicates: Table::new(alloc),
        functions: Table::new(alloc),
        function_names: Names::new(alloc),
        preferences: Names::new(alloc),
        time_costs: Names::new(alloc),
    }
}

fn add_domain(alloc: Global, tables: &mut Tables, domain: &Domain) -> Result<(), NoMemory>
    ensures { OnOk result (tables.new ≡ with_domain tables.old domain.now) }
{
    add_typed(alloc, &mut tables.types, domain.types.as_slice())?;
    add_typed(alloc, &mut tables.objects, domain.constants.as_slice())?;
    add_all_declared(alloc, &mut tables.predicates, domain.predicates.as_slice())?;
    let functions = domain.functions.as_slice();
    add_all_declared(alloc, &mut tables.functions, functions)?;
    first_double_of_declared(alloc, &mut tables.function_names, functions)?;
    Ok(())
}

/// What a domain declares.
pub(crate) fn domain_tables(alloc: Global, domain: &Domain) -> Result<Tables, NoMemory>
    ensures { IfOk result (λ tables. tables ≡ domain_tables domain.now) }
{
    let mut tables = no_tables(alloc);
    add_domain(alloc, &mut tables, domain)?;
    Ok(tables)
}
