//! The parts of a ground task that are read off the tables: objects, schemas of actions, facts and fluents.

ghost use Rattle.std.specs.Prelude.{◌≡◌, [], map, slice_index_or, IfOk};
ghost use Rattle.rational.specs.Rational.{zeroℚ};
ghost use Rattle.ground_world.specs.World.{arguments, columns, either};
ghost use Rattle.ground_world.specs.FirstState.{names_of, signatures_of, world};
ghost use Rattle.ground_world.specs.Shown.{world_of};
ghost use Rattle.grounder.specs.PlainParts.{schema_of, fact_of, fluent_of};
ghost use Rattle.grounder.specs.ShownGrounding.{ground_of};

use crate::actions::is_durative;
use crate::declared_names::{declared_names, object_names};
use crate::grounding::Grounding;
use exact_lin::{Fraction, NoMemory, Scalar};
use ground_world::{Tables, symbol, variables};
use pddl_terms::{ActionDef, Declared, Domain, Group, Problem};
use sqlite_items::Items;
use std::alloc::Global;
use task_types::{Fact, Fluent, Schema};

/// The objects of a task, by their names: the constants of the domain, then the objects of the problem.
pub fn task_objects(
    alloc: Global,
    domain: &Domain,
    problem: &Problem,
) -> Result<Items<Items<u8>>, NoMemory>
    ensures { IfOk result (λ objects. objects ≡ (world domain.now problem.now).objects) }
{
    object_names(alloc, domain, problem)
}

// For each parameter the objects that fit it.
fn params(alloc: Global, tables: &Tables, groups: &[Group]) -> Result<Items<Items<u32>>, NoMemory>
    ensures { IfOk result (λ params. params ≡ columns (world_of tables.now) groups.now) }
{
    let variables = variables(alloc, tables, groups)?;
    let mut out = Items::new(alloc);
    for variable in variables.as_slice() {
        out.push(Items::from_slice(alloc, variable.column)?)?;
    }
    Ok(out)
}

// The schema of an action.
fn schema(alloc: Global, tables: &Tables, action: &ActionDef) -> Result<Schema, NoMemory>
    ensures { IfOk result (λ schema. schema ≡ schema_of (world_of tables.now) action.now) }
{
    let name = Items::from_slice(alloc, action.name.bytes.as_slice())?;
    let params = params(alloc, tables, action.parameters.as_slice())?;
    Ok(Schema {
        name,
        durative: is_durative(&action.body),
        params,
    })
}

/// The schemas of a domain's actions, in their order.
pub fn schemas(
    alloc: Global,
    tables: &Tables,
    actions: &[ActionDef],
) -> Result<Items<Schema>, NoMemory>
    ensures { IfOk result (λ schemas. schemas ≡ map (schema_of (world_of tables.now)) actions.now) }
{
    let mut out = Items::new(alloc);
    for action in actions {
        out.push(schema(alloc, tables, action)?)?;
    }
    Ok(out)
}

// What follows the predicate of a ground atom, or the function of a ground fluent.
fn arguments(atom: &[u32]) -> &[u32]
    ensures { result.now ≡ arguments atom.now }
{
    match atom.split_first() {
        Some((_, arguments)) => arguments,
        None => &[],
    }
}

// A copy of the name at a place, or no name where there is none.
fn name_at(alloc: Global, names: &[Items<u8>], place: u32) -> Result<Items<u8>, NoMemory>
    ensures { IfOk result (λ name. name ≡ slice_index_or names.now place []) }
{
    match names.get(place as usize) {
        Some(name) => Ok(Items::from_slice(alloc, name.as_slice())?),
        None => Ok(Items::new(alloc)),
    }
}

// A ground atom as a fact.
fn fact(
    alloc: Global,
    tables: &Tables,
    predicates: &[Items<u8>],
    atom: &[u32],
) -> Result<Fact, NoMemory>
    requires { predicates.now ≡ (world_of tables.now).predicates }
    ensures { IfOk result (λ fact. fact ≡ fact_of (world_of tables.now) atom.now) }
{
    let name = name_at(alloc, predicates, symbol(atom))?;
    let args = Items::from_slice(alloc, arguments(atom))?;
    Ok(Fact {
        name,
        args,
        holds: tables.is_held(atom),
    })
}

/// The facts of a task, in the order of their numbers. The declarations are those of the predicates.
pub fn task_facts(
    alloc: Global,
    grounding: &Grounding,
    declarations: &[Declared],
) -> Result<Items<Fact>, NoMemory>
    requires { (ground_of grounding.now).world.predicates ≡ names_of (signatures_of declarations.now) }
    ensures { IfOk result (λ facts. facts
        ≡ map (fact_of (ground_of grounding.now).world) (ground_of grounding.now).facts) }
{
    let predicates = declared_names(alloc, declarations)?;
    let mut out = Items::new(alloc);
    for atom in grounding.facts.keys() {
        let fact = fact(
            alloc,
            &grounding.tables,
            predicates.as_slice(),
            atom.as_slice(),
        )?;
        out.push(fact)?;
    }
    Ok(out)
}

// The first value of a fluent, 0 where there is none.
fn first_value(tables: &Tables, fluent: &[u32]) -> Fraction
    ensures { result ≡ either zeroℚ (λ q. q) ((world_of tables.now).value_of fluent.now) }
{
    match tables.value(fluent) {
        Some(value) => value,
        None => Fraction::of_int(0),
    }
}

// A ground fluent with its first value.
fn fluent(
    alloc: Global,
    tables: &Tables,
    functions: &[Items<u8>],
    fluent: &[u32],
) -> Result<Fluent, NoMemory>
    requires { functions.now ≡ (world_of tables.now).functions }
    ensures { IfOk result (λ f. f ≡ fluent_of (world_of tables.now) fluent.now) }
{
    let name = name_at(alloc, functions, symbol(fluent))?;
    let args = Items::from_slice(alloc, arguments(fluent))?;
    Ok(Fluent {
        name,
        args,
        value: first_value(tables, fluent),
    })
}

/// The fluents of a task, in the order of their numbers. The declarations are those of the functions.
pub fn task_fluents(
    alloc: Global,
    grounding: &Grounding,
    declarations: &[Declared],
) -> Result<Items<Fluent>, NoMemory>
    requires { (ground_of grounding.now).world.functions ≡ names_of (signatures_of declarations.now) }
    ensures { IfOk result (λ fluents. fluents
        ≡ map (fluent_of (ground_of grounding.now).world) (ground_of grounding.now).world.fluents) }
{
    let functions = declared_names(alloc, declarations)?;
    let mut out = Items::new(alloc);
    for key in grounding.tables.fluents.keys() {
        let fluent = fluent(
            alloc,
            &grounding.tables,
            functions.as_slice(),
            key.as_slice(),
        )?;
        out.push(fluent)?;
    }
    Ok(out)
}
