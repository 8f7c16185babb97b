//! What is wrong with the names, or with the types of terms, of a problem of a domain.

ghost use Rattle.std.specs.Prelude.{◌≡◌, [], ◌∷◌, ◌++◌, IfOk, OnOk};
ghost use Rattle.std.specs.List.{flat_map};
ghost use Rattle.pddl_names.specs.Offences.{least};
ghost use Rattle.pddl_names.specs.Declarations.{typed, with_new, with_firsts};
ghost use Rattle.pddl_names.specs.Calls.{doubles};
ghost use Rattle.pddl_names.specs.Files.{
  cost_name,
  cost_names,
  texts_of,
  term_text,
  fluent_text,
  written,
  written_call,
  valued_fluent,
  with_problem,
  problem_tables,
  entry_offences,
  init_offences,
  cost_offences,
  all_cost_offences,
  metric_offences,
  domain_name_offences,
  objects_offences,
  problem_offences,
  problem_name_offences,
  problem_type_offences,
};

use crate::calls::{first_in_atom, named};
use crate::declarations::{Tables, domain_tables};
use crate::domains::{first_in_constraints, first_in_list};
use crate::effects::{first_in_called_atom, first_in_called_fluent};
use crate::expressions::first_in_expression;
use crate::formulas::first_in_formula;
use crate::goals::first_in_goal;
use crate::names::Names;
use crate::offences::{Offence, Phase, earlier};
use crate::preferences::add_preferences;
use crate::scope::Scope;
use crate::typed_lists::{add_typed, double, first_double};
use exact_lin::NoMemory;
use pddl_terms::{Atom, Call, Domain, Group, InitEntry, Metric, Name, Problem, Term, TimeCost};
use sqlite_items::Items;
use std::alloc::Global;

fn double_of_cost(
    alloc: Global,
    seen: &mut Names,
    cost: &TimeCost,
) -> Result<Option<Offence>, NoMemory>
    ensures offence { IfOk result (λ o. o ≡ least (doubles seen.old (cost_name cost.now))) }
    ensures names { OnOk result (seen.new ≡ with_new seen.old (texts_of (cost_name cost.now))) }
{
    match cost {
        TimeCost::Named(_, name, _, _) => Ok(double(alloc, seen, name)?),
        TimeCost::LeftOut(_) => Ok(None),
    }
}

fn first_double_of_costs(
    alloc: Global,
    seen: &mut Names,
    costs: &[TimeCost],
) -> Result<Option<Offence>, NoMemory>
    ensures offence { IfOk result (λ o. o ≡ least (doubles seen.old (cost_names costs.now))) }
    ensures names { OnOk result (seen.new ≡ with_new seen.old (texts_of (cost_names costs.now))) }
{
    let mut found = None;
    for item in costs {
        let other = double_of_cost(alloc, seen, item)?;
        found = earlier(found, other);
    }
    Ok(found)
}

fn add_problem(
    alloc: Global,
    tables: &mut Tables,
    domain: &Domain,
    problem: &Problem,
) -> Result<(), NoMemory>
    ensures { OnOk result (tables.new ≡ with_problem tables.old domain.now problem.now) }
{
    add_typed(alloc, &mut tables.objects, problem.objects.as_slice())?;
    let always = &domain.constraints;
    let names = &mut tables.preferences;
    add_preferences(alloc, names, always, &problem.goal, &problem.constraints)?;
    first_double_of_costs(alloc, &mut tables.time_costs, problem.time_costs.as_slice())?;
    Ok(())
}

fn problem_tables(alloc: Global, domain: &Domain, problem: &Problem) -> Result<Tables, NoMemory>
    ensures { IfOk result (λ tables. tables ≡ problem_tables domain.now problem.now) }
{
    let mut tables = domain_tables(alloc, domain)?;
    add_problem(alloc, &mut tables, domain, problem)?;
    Ok(tables)
}

fn first_in_entry(phase: Phase, tables: &Tables, entry: &InitEntry) -> Option<Offence>
    ensures { result ≡ least (entry_offences phase tables.now entry.now) }
{
    match entry {
        InitEntry::Holds(atom) => first_in_atom(phase, tables, &Scope::Top, atom),
        InitEntry::Not(_, atom) => first_in_called_atom(phase, tables, &Scope::Top, atom),
        InitEntry::Value(_, fluent, _) => first_in_called_fluent(
            phase,
            tables,
            &Scope::Top,
            fluent,
        ),
        InitEntry::Timed(literal) => first_in_called_atom(
            phase,
            tables,
            &Scope::Top,
            &literal.atom,
        ),
        InitEntry::LeftOut(_) => None,
    }
}

fn first_in_entries(phase: Phase, tables: &Tables, entries: &[InitEntry]) -> Option<Offence>
    ensures { result ≡ least (flat_map (entry_offences phase tables.now) entries.now) }
{
    let mut found = None;
    for item in entries {
        let other = first_in_entry(phase, tables, item);
        found = earlier(found, other);
    }
    found
}

fn term_text(term: &Term) -> &[u8]
    ensures { result.now ≡ term_text term.now }
{
    match term {
        Term::Object(name) => name.bytes.as_slice(),
        Term::Variable(name) => name.bytes.as_slice(),
    }
}

fn push_term(alloc: Global, text: &mut Items<u8>, term: &Term) -> Result<(), NoMemory>
    ensures { OnOk result (text.new ≡ text.old ++ (32 ∷ term_text term.now)) }
{
    text.push(32)?;
    text.append(Items::from_slice(alloc, term_text(term))?)?;
    Ok(())
}

fn fluent_text(alloc: Global, fluent: &Atom) -> Result<Items<u8>, NoMemory>
    ensures { IfOk result (λ text. text ≡ fluent_text fluent.now) }
{
    let mut text = Items::from_slice(alloc, fluent.name.bytes.as_slice())?;
    for term in fluent.terms.as_slice() {
        push_term(alloc, &mut text, term)?;
    }
    Ok(text)
}

fn double_of_value(
    alloc: Global,
    seen: &mut Names,
    fluent: &Atom,
) -> Result<Option<Offence>, NoMemory>
    ensures offence { IfOk result (λ o. o ≡ least (doubles seen.old (written fluent.now ∷ []))) }
    ensures names { OnOk result (seen.new ≡ with_new seen.old (fluent_text fluent.now ∷ [])) }
{
    let name = Name {
        at: fluent.at,
        bytes: fluent_text(alloc, fluent)?,
    };
    Ok(double(alloc, seen, &name)?)
}

fn double_of_called(
    alloc: Global,
    seen: &mut Names,
    called: &Call,
) -> Result<Option<Offence>, NoMemory>
    ensures offence { IfOk result (λ o. o ≡ least (doubles seen.old (written_call called.now))) }
    ensures names { OnOk result (seen.new ≡ with_new seen.old (texts_of (written_call called.now))) }
{
    match called {
        Call::Named(fluent) => Ok(double_of_value(alloc, seen, fluent)?),
        Call::LeftOut(_) => Ok(None),
    }
}

fn double_of_entry(
    alloc: Global,
    seen: &mut Names,
    entry: &InitEntry,
) -> Result<Option<Offence>, NoMemory>
    ensures offence { IfOk result (λ o. o ≡ least (doubles seen.old (valued_fluent entry.now))) }
    ensures names { OnOk result (seen.new ≡ with_new seen.old (texts_of (valued_fluent entry.now))) }
{
    match entry {
        InitEntry::Value(_, called, _) => Ok(double_of_called(alloc, seen, called)?),
        InitEntry::Holds(_) => Ok(None),
        InitEntry::Not(_, _) => Ok(None),
        InitEntry::Timed(_) => Ok(None),
        InitEntry::LeftOut(_) => Ok(None),
    }
}

fn first_double_of_entries(
    alloc: Global,
    seen: &mut Names,
    entries: &[InitEntry],
) -> Result<Option<Offence>, NoMemory>
    ensures { IfOk result (λ o. o ≡ least (doubles seen.old (flat_map valued_fluent entries.now))) }
{
    let mut found = None;
    for item in entries {
        let other = double_of_entry(alloc, seen, item)?;
        found = earlier(found, other);
    }
    Ok(found)
}

fn first_valued_twice(alloc: Global, entries: &[InitEntry]) -> Result<Option<Offence>, NoMemory>
    ensures { IfOk result (λ o. o ≡ least (doubles [] (flat_map valued_fluent entries.now))) }
{
    let mut seen = Names::new(alloc);
    let found = first_double_of_entries(alloc, &mut seen, entries)?;
    Ok(found)
}

fn first_in_init(
    alloc: Global,
    phase: Phase,
    tables: &Tables,
    entries: &[InitEntry],
) -> Result<Option<Offence>, NoMemory>
    ensures { IfOk result (λ o. o ≡ least (init_offences phase tables.now entries.now)) }
{
    let own = first_in_entries(phase, tables, entries);
    match phase {
        Phase::Names => {
            let twice = first_valued_twice(alloc, entries)?;
            Ok(earlier(own, twice))
        }
        Phase::Types => Ok(own),
    }
}

fn first_in_cost(
    alloc: Global,
    phase: Phase,
    tables: &Tables,
    cost: &TimeCost,
) -> Result<Option<Offence>, NoMemory>
    ensures { IfOk result (λ o. o ≡ least (cost_offences phase tables.now cost.now)) }
{
    match cost {
        TimeCost::Named(_, _, formula, _) => {
            Ok(first_in_formula(alloc, phase, tables, &Scope::Top, formula)?)
        }
        TimeCost::LeftOut(_) => Ok(None),
    }
}

fn first_in_costs(
    alloc: Global,
    phase: Phase,
    tables: &Tables,
    costs: &[TimeCost],
) -> Result<Option<Offence>, NoMemory>
    ensures { IfOk result (λ o. o ≡ least (flat_map (cost_offences phase tables.now) costs.now)) }
{
    let mut found = None;
    for item in costs {
        let other = first_in_cost(alloc, phase, tables, item)?;
        found = earlier(found, other);
    }
    Ok(found)
}

fn first_cost_twice(alloc: Global, costs: &[TimeCost]) -> Result<Option<Offence>, NoMemory>
    ensures { IfOk result (λ o. o ≡ least (doubles [] (cost_names costs.now))) }
{
    let mut seen = Names::new(alloc);
    let found = first_double_of_costs(alloc, &mut seen, costs)?;
    Ok(found)
}

fn first_in_all_costs(
    alloc: Global,
    phase: Phase,
    tables: &Tables,
    costs: &[TimeCost],
) -> Result<Option<Offence>, NoMemory>
    ensures { IfOk result (λ o. o ≡ least (all_cost_offences phase tables.now costs.now)) }
{
    let own = first_in_costs(alloc, phase, tables, costs)?;
    match phase {
        Phase::Names => {
            let twice = first_cost_twice(alloc, costs)?;
            Ok(earlier(own, twice))
        }
        Phase::Types => Ok(own),
    }
}

fn first_in_metric(phase: Phase, tables: &Tables, metric: &Option<Metric>) -> Option<Offence>
    ensures { result ≡ least (metric_offences phase tables.now metric.now) }
{
    match metric {
        None => None,
        Some(metric) => first_in_expression(phase, tables, &Scope::Top, &metric.expression),
    }
}

fn in_domain_name(phase: Phase, domain: &Name, name: &Name) -> Option<Offence>
    ensures { result ≡ least (domain_name_offences phase domain.now name.now) }
{
    named(
        phase,
        name.bytes.as_slice() == domain.bytes.as_slice(),
        name,
    )
}

fn first_in_objects(
    alloc: Global,
    phase: Phase,
    tables: &Tables,
    constants: &[Group],
    objects: &[Group],
) -> Result<Option<Offence>, NoMemory>
    ensures { IfOk result (λ o. o ≡ least (objects_offences phase tables.now constants.now objects.now)) }
{
    let mut before = Names::new(alloc);
    first_double(alloc, &mut before, constants)?;
    let found = first_in_list(alloc, phase, tables, &mut before, objects)?;
    Ok(found)
}

fn first_in_problem(
    alloc: Global,
    phase: Phase,
    tables: &Tables,
    domain: &Domain,
    problem: &Problem,
) -> Result<Option<Offence>, NoMemory>
    ensures { IfOk result (λ o. o ≡ least (problem_offences phase tables.now domain.now problem.now)) }
{
    let name = in_domain_name(phase, &domain.name, &problem.domain);
    let constant_list = domain.constants.as_slice();
    let object_list = problem.objects.as_slice();
    let objects = first_in_objects(alloc, phase, tables, constant_list, object_list)?;
    let entry_list = problem.init.as_slice();
    let init = first_in_init(alloc, phase, tables, entry_list)?;
    let goal = first_in_goal(alloc, phase, tables, &Scope::Top, &problem.goal)?;
    let constraints = first_in_constraints(alloc, phase, tables, &problem.constraints)?;
    let cost_list = problem.time_costs.as_slice();
    let costs = first_in_all_costs(alloc, phase, tables, cost_list)?;
    let metric = first_in_metric(phase, tables, &problem.metric);
    let declared = earlier(name, objects);
    let start = earlier(declared, init);
    let asked = earlier(goal, constraints);
    let measured = earlier(costs, metric);
    let held = earlier(start, asked);
    Ok(earlier(held, measured))
}

/// The first name of a problem of this domain that isn't declared (`Name`), or is declared or told twice (`Double`);
/// none exactly where there is no such name.
pub fn first_problem_name_offence(
    alloc: Global,
    domain: &Domain,
    problem: &Problem,
) -> Result<Option<Offence>, NoMemory>
    ensures { IfOk result (λ o. o ≡ least (problem_name_offences domain.now problem.now)) }
{
    let tables = problem_tables(alloc, domain, problem)?;
    Ok(first_in_problem(alloc, Phase::Names, &tables, domain, problem)?)
}

/// The first term of a problem of this domain whose type doesn't fit (`Sort`), or the first predicate or function with
/// a wrong number of terms (`Arity`), whichever comes first.
pub fn first_problem_type_offence(
    alloc: Global,
    domain: &Domain,
    problem: &Problem,
) -> Result<Option<Offence>, NoMemory>
    ensures { IfOk result (λ o. o ≡ least (problem_type_offences domain.now problem.now)) }
{
    let tables = problem_tables(alloc, domain, problem)?;
    Ok(first_in_problem(alloc, Phase::Types, &tables, domain, problem)?)
}
