//! Each call on texts that are accepted, and on those whose place of the wrong shape tells one reading from another.

ghost use Rattle.std.specs.Prelude.{◌<◌, length, IfOk};

use crate::{
    CondTree, Kind, PddlFault, read_condition, read_constraint, read_duration, read_expression,
    read_tree, read_typed,
};
use sexpr_text::{Forms, read_forms};
use std::alloc::Global;

/// The tokens of a short text that has two at least.
fn forms_of(alloc: Global, text: &[u8]) -> Result<Forms, PddlFault>
    ensures { IfOk result (λ forms. 1 < length forms.tokens) }
{
    if text.len() > 100 {
        return Err(PddlFault::Memory);
    }
    let forms = match read_forms(alloc, text) {
        Ok(forms) => forms,
        Err(fault) => return Err(PddlFault::Lex(fault)),
    };
    if forms.tokens().len() > 1 {
        Ok(forms)
    } else {
        Err(PddlFault::Memory)
    }
}

/// The place of the wrong shape, or none; of another fault a place that no text has.
fn place_of(answer: Result<(), PddlFault>) -> Option<u32> {
    match answer {
        Ok(()) => None,
        Err(PddlFault::At(Kind::Shape, place)) => Some(place),
        Err(_) => Some(u32::MAX),
    }
}

fn condition(alloc: Global, text: &[u8]) -> Result<(), PddlFault> {
    let forms = forms_of(alloc, text)?;
    read_condition(alloc, &forms, 0)?;
    Ok(())
}

fn tree(alloc: Global, text: &[u8]) -> Result<(), PddlFault> {
    let forms = forms_of(alloc, text)?;
    read_tree(alloc, &forms, 0)?;
    Ok(())
}

fn expression(alloc: Global, text: &[u8]) -> Result<(), PddlFault> {
    let forms = forms_of(alloc, text)?;
    read_expression(alloc, &forms, 1)?;
    Ok(())
}

fn constraint(alloc: Global, text: &[u8]) -> Result<(), PddlFault> {
    let forms = forms_of(alloc, text)?;
    read_constraint(alloc, &forms, 0)?;
    Ok(())
}

fn duration(alloc: Global, text: &[u8]) -> Result<(), PddlFault> {
    let forms = forms_of(alloc, text)?;
    read_duration(alloc, &forms, 0)?;
    Ok(())
}

fn typed(alloc: Global, text: &[u8]) -> Result<(), PddlFault> {
    let forms = forms_of(alloc, text)?;
    read_typed(alloc, &forms, 1)?;
    Ok(())
}

#[test]
fn conditions_have_their_places(rt: HostRuntime) {
    let rows = [
        (
            b"(AND () (p ?x a) (forall (?y - t) (<= (f ?y) 5)))".as_slice(),
            None,
        ),
        (b"(not (not (= a b)))", None),
        (b"(not (not (= ?x b)))", Some(13)),
        (b"(= ?x 5)", Some(3)),
        (b"(= ?x)", Some(5)),
        (b"(= c (h))", None),
        (b"(= (h) ?x)", Some(7)),
        (b"(not (and))", None),
        (b"(not ())", Some(6)),
        (b"(not (or 1 :x))", None),
        (b"(or 1 (2))", None),
        (b"(preference a (p))", None),
        (b"(at start (p))", Some(10)),
        (b"(<= ?duration 5)", Some(4)),
        (b"(<= 5)", Some(5)),
        (b"(5)", Some(1)),
    ];
    for (text, place) in rows {
        assert_eq!(rt; place_of(condition(rt.alloc(), text)), place);
    }
}

#[test]
fn trees_have_their_places(rt: HostRuntime) {
    let rows = [
        (
            b"(imply (p) (exists (?x) (or (= ?x a) (not ()))))".as_slice(),
            None,
        ),
        (b"(not (= (f) 5))", None),
        (b"(preference a)", None),
        (b"(hold-after 5)", None),
        (b"(imply (p))", Some(10)),
        (b"(<= 1 2)", Some(1)),
        (b"(and p)", Some(5)),
    ];
    for (text, place) in rows {
        assert_eq!(rt; place_of(tree(rt.alloc(), text)), place);
    }
}

#[test]
fn expressions_have_their_places(rt: HostRuntime) {
    let rows = [
        (
            b"((+ 1 (* ?DURATION f) (- 2) (- -.5 3.) (/ (f ?x) 2)))".as_slice(),
            None,
        ),
        (b"(?duration)", None),
        (b"(or)", None),
        (b"((or))", None),
        (b"((when))", None),
        (b"((+ 1))", Some(5)),
        (b"((- 1 2 3))", Some(8)),
        (b"((f (g)))", Some(4)),
        (b"(?x)", Some(1)),
    ];
    for (text, place) in rows {
        assert_eq!(rt; place_of(expression(rt.alloc(), text)), place);
    }
}

#[test]
fn constraints_have_their_places(rt: HostRuntime) {
    let rows = [
        (
            b"(and (always (p)) (preference late (within 4.5 (p))))".as_slice(),
            None,
        ),
        (b"(forall (?x) (preference (sometime-after (p) (q))))", None),
        (b"(at end (p))", None),
        (b"(always-within x)", None),
        (b"(preference (hold-during))", None),
        (b"()", Some(1)),
        (b"(at start (p))", Some(4)),
        (b"(preference late (and))", Some(18)),
        (b"(within (p))", Some(8)),
        (b"(p)", Some(1)),
    ];
    for (text, place) in rows {
        assert_eq!(rt; place_of(constraint(rt.alloc(), text)), place);
    }
}

#[test]
fn durations_have_their_places(rt: HostRuntime) {
    let rows = [
        (
            b"(and (>= ?duration 1) (at END (<= ?DURATION (f ?x))))".as_slice(),
            None,
        ),
        (b"(at start (and (when) (= ?duration f)))", None),
        (b"()", Some(1)),
        (b"(< ?duration 5)", Some(1)),
        (b"(= ?x 5)", Some(3)),
        (b"(= ?duration ?duration)", Some(13)),
        (b"(at all (= ?duration 1))", Some(4)),
        (b"(at start (at end (= ?duration 1)))", Some(10)),
        (b"(at start (and (at end (= ?duration 1))))", Some(15)),
    ];
    for (text, place) in rows {
        assert_eq!(rt; place_of(duration(rt.alloc(), text)), place);
    }
}

#[test]
fn typed_lists_have_their_places(rt: HostRuntime) {
    let rows = [
        (b"(a b - t c)".as_slice(), None),
        (b"(?x - (either t u) ?y)", None),
        (b"()", None),
        (b"(a - (b))", Some(5)),
        (b"(- t)", Some(1)),
        (b"(a -)", Some(4)),
        (b"(?x a)", Some(4)),
    ];
    for (text, place) in rows {
        assert_eq!(rt; place_of(typed(rt.alloc(), text)), place);
    }
}

/// Whether it is an atom of this name, which begins at this byte.
fn is_atom(tree: &CondTree, place: u32, name: &[u8]) -> bool {
    match tree {
        CondTree::Atom(atom) => atom.at == place && atom.name.bytes.as_slice() == name,
        _ => false,
    }
}

#[test]
fn names_are_in_lower_case(rt: HostRuntime) -> Result<(), PddlFault> {
    let forms = forms_of(rt.alloc(), b" (At-Home ?X)")?;
    let tree = read_condition(rt.alloc(), &forms, 0)?;
    assert!(rt; is_atom(&tree, 1, b"at-home"));
    Ok(())
}
