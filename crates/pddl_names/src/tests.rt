//! The first offence of each kind at its place, in conditions, in a domain and in a problem.

ghost use Rattle.std.specs.Prelude.{◌<◌, length, IfOk};

use crate::conditions::first_in_condition;
use crate::declarations::domain_tables;
use crate::scope::Scope;
use crate::typed_lists::variables;
use crate::{
    Offence, Phase, Table, first_name_offence, first_problem_name_offence,
    first_problem_type_offence, first_type_offence, fits,
};
use exact_lin::NoMemory;
use pddl_terms::{
    Declared, Domain, GoalTree, Group, Kind, Name, PddlFault, Problem, read_condition, read_typed,
};
use sexpr_text::{Forms, read_forms};
use sqlite_items::Items;
use std::alloc::Global;

/// The tokens of a short text that has two at least.
fn forms_of(alloc: Global, text: &[u8]) -> Result<Forms, PddlFault>
    ensures { IfOk result (λ forms. 1 < length forms.tokens) }
{
    if text.len() > 100 {
        return Err(PddlFault::Memory);
    }
    let forms = match read_forms(alloc, text) {
        Ok(forms) => forms,
        Err(fault) => return Err(PddlFault::Lex(fault)),
    };
    if forms.tokens().len() > 1 {
        Ok(forms)
    } else {
        Err(PddlFault::Memory)
    }
}

fn typed(alloc: Global, text: &[u8]) -> Result<Items<Group>, PddlFault> {
    let forms = forms_of(alloc, text)?;
    Ok(read_typed(alloc, &forms, 1)?)
}

fn table(alloc: Global, text: &[u8]) -> Result<Table<Items<u8>>, PddlFault> {
    let groups = typed(alloc, text)?;
    Ok(variables(alloc, groups.as_slice())?)
}

/// Two declarations, the first with these parameters, the second without.
fn declared(
    alloc: Global,
    name: &[u8],
    parameters: Items<Group>,
    plain: &[u8],
) -> Result<Items<Declared>, NoMemory> {
    let mut all = Items::new(alloc);
    all.push(Declared::Named(0, name_of(alloc, name)?, parameters))?;
    all.push(Declared::Named(0, name_of(alloc, plain)?, Items::new(alloc)))?;
    Ok(all)
}

fn name_of(alloc: Global, name: &[u8]) -> Result<Name, NoMemory> {
    Ok(Name {
        at: 0,
        bytes: Items::from_slice(alloc, name)?,
    })
}

fn domain_of(alloc: Global, types: Items<Group>) -> Result<Domain, NoMemory> {
    let bytes = Items::from_slice(alloc, b"d")?;
    Ok(Domain {
        name: Name { at: 0, bytes },
        requirements: Items::new(alloc),
        types,
        constants: Items::new(alloc),
        predicates: Items::new(alloc),
        functions: Items::new(alloc),
        constraints: None,
        actions: Items::new(alloc),
        left_out: Items::new(alloc),
    })
}

/// Type a below b, and c; objects k of a and l of c.
fn domain_of_objects(alloc: Global) -> Result<Domain, PddlFault> {
    let mut domain = domain_of(alloc, typed(alloc, b"(a - b b c)")?)?;
    domain.constants = typed(alloc, b"(k - a l - c)")?;
    Ok(domain)
}

/// With predicates p of b and q, and functions g of c and f.
fn small_domain(alloc: Global) -> Result<Domain, PddlFault> {
    let mut domain = domain_of_objects(alloc)?;
    domain.predicates = declared(alloc, b"p", typed(alloc, b"(?x - b)")?, b"q")?;
    domain.functions = declared(alloc, b"g", typed(alloc, b"(?x - c)")?, b"f")?;
    Ok(domain)
}

fn condition(alloc: Global, phase: Phase, text: &[u8]) -> Result<Option<Offence>, PddlFault> {
    let forms = forms_of(alloc, text)?;
    let tree = read_condition(alloc, &forms, 0)?;
    let domain = small_domain(alloc)?;
    let tables = domain_tables(alloc, &domain)?;
    Ok(first_in_condition(alloc, phase, &tables, &Scope::Top, &tree)?)
}

fn at(answer: Result<Option<Offence>, PddlFault>) -> Option<(Kind, u32)> {
    match answer {
        Ok(None) => None,
        Ok(Some(offence)) => Some((offence.kind, offence.place)),
        Err(_) => Some((Kind::Shape, u32::MAX)),
    }
}

#[test]
fn names_have_their_places(rt: HostRuntime) {
    let rows = [
        (b"(p k)".as_slice(), None),
        (b"(r k)", Some((Kind::Name, 1))),
        (b"(p ?x)", Some((Kind::Name, 3))),
        (b"(forall (?x - b) (p ?x))", None),
        (b"(forall (?x - t) (p ?x))", Some((Kind::Name, 14))),
        (b"(forall (?x ?x) (p ?x))", Some((Kind::Double, 12))),
        (b"(and (forall (?x) (q)) (p ?x))", Some((Kind::Name, 26))),
        (b"(= k l)", None),
        (b"(= f k)", Some((Kind::Name, 3))),
        (b"(= k (f))", Some((Kind::Name, 3))),
        (b"(= f (f))", None),
        (b"(<= (h) 5)", Some((Kind::Name, 5))),
        (b"(not (or (r ?z)))", None),
    ];
    for (text, place) in rows {
        assert_eq!(rt; at(condition(rt.alloc(), Phase::Names, text)), place);
    }
}

#[test]
fn types_have_their_places(rt: HostRuntime) {
    let rows = [
        (b"(p k)".as_slice(), None),
        (b"(p l)", Some((Kind::Sort, 3))),
        (b"(q k)", Some((Kind::Arity, 0))),
        (b"(and (p k) (p))", Some((Kind::Arity, 11))),
        (b"(forall (?x - b) (p ?x))", None),
        (b"(forall (?x) (p ?x))", Some((Kind::Sort, 16))),
        (b"(forall (?x) (forall (?x - a) (p ?x)))", None),
        (
            b"(forall (?x - a) (forall (?x - c) (p ?x)))",
            Some((Kind::Sort, 37)),
        ),
        (b"(forall (?x - (either a c)) (p ?x))", None),
        (b"(<= (g k) (g))", Some((Kind::Sort, 7))),
        (b"(<= g 5)", Some((Kind::Arity, 4))),
        (b"(= k l)", None),
    ];
    for (text, place) in rows {
        assert_eq!(rt; at(condition(rt.alloc(), Phase::Types, text)), place);
    }
}

fn problem_of(alloc: Global, domain: &[u8], objects: Items<Group>) -> Result<Problem, NoMemory> {
    let bytes = Items::from_slice(alloc, domain)?;
    Ok(Problem {
        name: Name {
            at: 0,
            bytes: Items::new(alloc),
        },
        domain: Name { at: 5, bytes },
        requirements: Items::new(alloc),
        objects,
        init: Items::new(alloc),
        goal: GoalTree::And(0, Items::new(alloc)),
        constraints: None,
        time_costs: Items::new(alloc),
        metric: None,
        left_out: Items::new(alloc),
    })
}

fn domain(alloc: Global, phase: Phase, types: &[u8]) -> Result<Option<Offence>, PddlFault> {
    let domain = domain_of(alloc, typed(alloc, types)?)?;
    match phase {
        Phase::Names => Ok(first_name_offence(alloc, &domain)?),
        Phase::Types => Ok(first_type_offence(alloc, &domain)?),
    }
}

fn problem(
    alloc: Global,
    phase: Phase,
    name: &[u8],
    objects: &[u8],
) -> Result<Option<Offence>, PddlFault> {
    let domain = domain_of(alloc, typed(alloc, b"(a b)")?)?;
    let problem = problem_of(alloc, name, typed(alloc, objects)?)?;
    match phase {
        Phase::Names => Ok(first_problem_name_offence(alloc, &domain, &problem)?),
        Phase::Types => Ok(first_problem_type_offence(alloc, &domain, &problem)?),
    }
}

#[test]
fn domains_are_judged(rt: HostRuntime) {
    let rows = [
        (b"(a b - a)".as_slice(), None),
        (b"(a a - b)", Some((Kind::Double, 3))),
        (b"(object)", Some((Kind::Double, 1))),
        (b"(a - b)", Some((Kind::Name, 5))),
    ];
    for (types, place) in rows {
        assert_eq!(rt; at(domain(rt.alloc(), Phase::Names, types)), place);
        assert_eq!(rt; at(domain(rt.alloc(), Phase::Types, types)), None);
    }
}

#[test]
fn problems_are_judged(rt: HostRuntime) {
    let rows = [
        (b"d".as_slice(), b"(k - a l)".as_slice(), None),
        (b"e", b"(k - c)", Some((Kind::Name, 5))),
        (b"d", b"(k - a l - c)", Some((Kind::Name, 11))),
        (b"d", b"(k k)", Some((Kind::Double, 3))),
    ];
    for (name, objects, place) in rows {
        assert_eq!(rt; at(problem(rt.alloc(), Phase::Names, name, objects)), place);
        assert_eq!(rt; at(problem(rt.alloc(), Phase::Types, name, objects)), None);
    }
}

fn fits_in_ring(alloc: Global, sub: &[u8], sup: &[u8]) -> Option<bool> {
    match table(alloc, b"(a - b b - c c - a d)") {
        Ok(types) => Some(fits(&types, sub, sup)),
        Err(_) => None,
    }
}

#[test]
fn types_in_a_ring_fit(rt: HostRuntime) {
    let rows = [
        (b"a".as_slice(), b"c".as_slice(), true),
        (b"c", b"b", true),
        (b"d", b"object", true),
        (b"a", b"d", false),
    ];
    for (sub, sup, fit) in rows {
        assert_eq!(rt; fits_in_ring(rt.alloc(), sub, sup), Some(fit));
    }
}
