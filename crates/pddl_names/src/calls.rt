//! What is wrong with a name, a type, a list of variables, a term, and a predicate or function with its terms.

ghost use Rattle.std.specs.Prelude.{◌≡◌, is_some, unwrap_or, if◌then◌else◌, [], ◌∷◌};
ghost use Rattle.std.specs.List.{flat_map};
ghost use Rattle.pddl_names.specs.Scopes.{variables_of};
ghost use Rattle.pddl_names.specs.Declarations.{value_of};
ghost use Rattle.pddl_names.specs.Fitting.{fits};
ghost use Rattle.pddl_names.specs.Offences.{offence, least};
ghost use Rattle.pddl_terms.specs.declared.faults.Kind.TheVariants.{Sort};
ghost use Rattle.pddl_names.specs.Calls.{
  undeclared,
  is_type,
  type_offences,
  types_offences,
  term_offences,
  term_at,
  term_sort,
  misfits,
  sorts_offences,
  call_offences,
  atom_offences,
  fluent_offences,
  in_names,
};

use crate::declarations::Tables;
use crate::fitting::fits;
use crate::offences::{Offence, Phase, earlier};
use crate::scope::{Scope, sort_in};
use crate::tables::Table;
use pddl_terms::{Atom, Group, Kind, Name, Term, TypeName};
use sqlite_items::Items;

/// The offence of a name that isn't declared.
pub(crate) fn undeclared(known: bool, name: &Name) -> Option<Offence>
    ensures { result ≡ least (undeclared known name.now) }
{
    if known {
        return None;
    }
    Some(Offence {
        kind: Kind::Name,
        place: name.at,
    })
}

fn is_type(tables: &Tables, name: &[u8]) -> bool
    ensures { result ≡ is_type tables.now name.now }
{
    name == b"object".as_slice() || tables.types.get(name).is_some()
}

fn first_in_type(tables: &Tables, of: &TypeName) -> Option<Offence>
    ensures { result ≡ least (type_offences tables.now of.now) }
{
    match of {
        TypeName::Object => None,
        TypeName::Named(name) => undeclared(is_type(tables, name.bytes.as_slice()), name),
        TypeName::LeftOut(_) => None,
    }
}

/// The first type of a typed list that isn't declared.
pub(crate) fn first_in_types(tables: &Tables, groups: &[Group]) -> Option<Offence>
    ensures { result ≡ least (types_offences tables.now groups.now) }
{
    let mut found = None;
    for group in groups {
        found = earlier(found, first_in_type(tables, &group.of));
    }
    found
}

/// The offence of an object that isn't declared, or of a variable out of scope.
pub(crate) fn first_in_term(tables: &Tables, scope: &Scope, term: &Term) -> Option<Offence>
    ensures { result ≡ least (term_offences tables.now (variables_of scope.now) term.now) }
{
    match term {
        Term::Object(name) => {
            undeclared(tables.objects.get(name.bytes.as_slice()).is_some(), name)
        }
        Term::Variable(name) => {
            undeclared(sort_in(scope, name.bytes.as_slice()).is_some(), name)
        }
    }
}

fn first_in_terms(tables: &Tables, scope: &Scope, terms: &[Term]) -> Option<Offence>
    ensures { result ≡ least (flat_map (term_offences tables.now (variables_of scope.now)) terms.now) }
{
    let mut found = None;
    for term in terms {
        found = earlier(found, first_in_term(tables, scope, term));
    }
    found
}

fn term_at(term: &Term) -> u32
    ensures { result ≡ term_at term.now }
{
    match term {
        Term::Object(name) => name.at,
        Term::Variable(name) => name.at,
    }
}

fn object_sort<'a>(tables: &'a Tables, name: &Name) -> &'a [u8]
    ensures { result.now ≡ unwrap_or (value_of tables.now.objects name.now.bytes) [] }
{
    match tables.objects.get(name.bytes.as_slice()) {
        Some(sort) => sort.as_slice(),
        None => b"",
    }
}

fn variable_sort<'a>(scope: &'a Scope<'a>, name: &Name) -> &'a [u8]
    ensures { result.now ≡ unwrap_or (value_of (variables_of scope.now) name.now.bytes) [] }
{
    match sort_in(scope, name.bytes.as_slice()) {
        Some(sort) => sort.as_slice(),
        None => b"",
    }
}

fn term_fits(tables: &Tables, scope: &Scope, term: &Term, sort: &[u8]) -> bool
    ensures { result ≡ fits tables.now.types (term_sort tables.now (variables_of scope.now) term.now) sort.now }
{
    match term {
        Term::Object(name) => fits(&tables.types, object_sort(tables, name), sort),
        Term::Variable(name) => fits(&tables.types, variable_sort(scope, name), sort),
    }
}

fn misfit(fit: bool, term: &Term) -> Option<Offence>
    ensures { result ≡ least (if fit then [] else offence Sort (term_at term.now) ∷ []) }
{
    if fit {
        return None;
    }
    Some(Offence {
        kind: Kind::Sort,
        place: term_at(term),
    })
}

fn first_misfit(
    tables: &Tables,
    scope: &Scope,
    terms: &[Term],
    sorts: &[Items<u8>],
) -> Option<Offence>
    ensures { result ≡ least (misfits tables.now (variables_of scope.now) terms.now sorts.now) }
{
    let mut found = None;
    let mut left = terms;
    let mut wanted = sorts;
    while let Some((term, more_terms)) = left.split_first() {
        let Some((sort, more_sorts)) = wanted.split_first() else {
            return found;
        };
        let fit = term_fits(tables, scope, term, sort.as_slice());
        found = earlier(found, misfit(fit, term));
        left = more_terms;
        wanted = more_sorts;
    }
    found
}

fn first_in_sorts(
    tables: &Tables,
    scope: &Scope,
    at: u32,
    terms: &[Term],
    sorts: &[Items<u8>],
) -> Option<Offence>
    ensures { result ≡ least (sorts_offences tables.now (variables_of scope.now) at terms.now sorts.now) }
{
    if terms.len() == sorts.len() {
        return first_misfit(tables, scope, terms, sorts);
    }
    Some(Offence {
        kind: Kind::Arity,
        place: at,
    })
}

fn is_declared(declared: &Table<Items<Items<u8>>>, name: &Name) -> bool
    ensures { result ≡ is_some (value_of declared.now name.now.bytes) }
{
    declared.get(name.bytes.as_slice()).is_some()
}

/// The first offence of a predicate or function with its terms, where these are declared.
pub(crate) fn first_in_call(
    phase: Phase,
    tables: &Tables,
    declared: &Table<Items<Items<u8>>>,
    scope: &Scope,
    at: u32,
    name: &Name,
    terms: &[Term],
) -> Option<Offence>
    ensures { result ≡ least (call_offences phase tables.now declared.now (variables_of scope.now) at name.now terms.now) }
{
    match phase {
        Phase::Names => {
            let own = undeclared(is_declared(declared, name), name);
            earlier(own, first_in_terms(tables, scope, terms))
        }
        Phase::Types => match declared.get(name.bytes.as_slice()) {
            None => None,
            Some(sorts) => first_in_sorts(tables, scope, at, terms, sorts.as_slice()),
        },
    }
}

/// The first offence of a predicate with its terms.
pub(crate) fn first_in_atom(
    phase: Phase,
    tables: &Tables,
    scope: &Scope,
    atom: &Atom,
) -> Option<Offence>
    ensures { result ≡ least (atom_offences phase tables.now (variables_of scope.now) atom.now) }
{
    let terms = atom.terms.as_slice();
    first_in_call(
        phase,
        tables,
        &tables.predicates,
        scope,
        atom.at,
        &atom.name,
        terms,
    )
}

/// The first offence of a function with its terms.
pub(crate) fn first_in_fluent(
    phase: Phase,
    tables: &Tables,
    scope: &Scope,
    fluent: &Atom,
) -> Option<Offence>
    ensures { result ≡ least (fluent_offences phase tables.now (variables_of scope.now) fluent.now) }
{
    let terms = fluent.terms.as_slice();
    first_in_call(
        phase,
        tables,
        &tables.functions,
        scope,
        fluent.at,
        &fluent.name,
        terms,
    )
}

/// The offence of a name that isn't declared, where names are looked at.
pub(crate) fn named(phase: Phase, known: bool, name: &Name) -> Option<Offence>
    ensures { result ≡ least (in_names phase (undeclared known name.now)) }
{
    match phase {
        Phase::Names => undeclared(known, name),
        Phase::Types => None,
    }
}
