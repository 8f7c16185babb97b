//! A text for each kind of refusal.

use crate::read_domain;
use pddl_terms::{Kind, PddlFault};
use sexpr_text::LexFault;
use std::alloc::Global;

/// What a short text is refused for, if it is refused.
fn fault_of(alloc: Global, text: &[u8]) -> Option<PddlFault> {
    if text.len() > 10000 {
        return Some(PddlFault::Memory);
    }
    match read_domain(alloc, text) {
        Ok(_) => None,
        Err(fault) => Some(fault),
    }
}

fn at(kind: Kind, place: u32) -> Option<PddlFault> {
    Some(PddlFault::At(kind, place))
}

#[test]
fn tokens_come_first(rt: HostRuntime) {
    let rows = [
        (
            b"(define (domain d) $)".as_slice(),
            Some(PddlFault::Lex(LexFault::Byte(19))),
        ),
        (
            b"(define (domain d)",
            Some(PddlFault::Lex(LexFault::Open(0))),
        ),
        (
            b"(define (domain d)))",
            Some(PddlFault::Lex(LexFault::Close(19))),
        ),
        (
            b"(define (domain d) (:functions (f)) (:action a :effect (assign (f) 1.2.3)))",
            Some(PddlFault::Lex(LexFault::Number(67))),
        ),
    ];
    for (text, fault) in rows {
        assert_eq!(rt; fault_of(rt.alloc(), text), fault);
    }
}

#[test]
fn names_are_declared_once(rt: HostRuntime) {
    let rows = [
        (
            b"(define (domain d) (:predicates (p ?x - t)))".as_slice(),
            at(Kind::Name, 40),
        ),
        (
            b"(define (domain d) (:action a :precondition (p)))",
            at(Kind::Name, 45),
        ),
        (
            b"(define (domain d) (:predicates (p ?x)) (:action a :precondition (p c)))",
            at(Kind::Name, 68),
        ),
        (
            b"(define (domain d) (:predicates (p ?x)) (:action a :precondition (and (forall (?x) (p ?x)) (p ?x))))",
            at(Kind::Name, 94),
        ),
        (
            b"(define (domain d) (:functions (f)) (:action a :effect (increase (f) (g))))",
            at(Kind::Name, 70),
        ),
        (
            b"(define (domain d) (:functions (f)) (:action a :parameters (?x) :precondition (= ?x f)))",
            at(Kind::Name, 84),
        ),
        (b"(define (domain d) (:types a b a))", at(Kind::Double, 31)),
        (b"(define (domain d) (:types object))", at(Kind::Double, 27)),
        (
            b"(define (domain d) (:predicates (p) (P)))",
            at(Kind::Double, 37),
        ),
        (
            b"(define (domain d) (:action a) (:durative-action a :duration (= ?duration 1)))",
            at(Kind::Double, 49),
        ),
    ];
    for (text, fault) in rows {
        assert_eq!(rt; fault_of(rt.alloc(), text), fault);
    }
}

#[test]
fn terms_fit(rt: HostRuntime) {
    let rows = [
        (
            b"(define (domain d) (:types truck place) (:predicates (p ?t - truck)) (:action a :parameters (?x - place) :precondition (p ?x)))".as_slice(),
            at(Kind::Sort, 122),
        ),
        (
            b"(define (domain d) (:predicates (p ?t)) (:action a :precondition (p)))",
            at(Kind::Arity, 65),
        ),
        (
            b"(define (domain d) (:functions (f ?x)) (:action a :precondition (<= f 5)))",
            at(Kind::Arity, 68),
        ),
    ];
    for (text, fault) in rows {
        assert_eq!(rt; fault_of(rt.alloc(), text), fault);
    }
}

#[test]
fn forms_and_limits(rt: HostRuntime) {
    let rows = [
        (
            b"(define (domain d) (:functions (f)) (:action a :precondition (< (f) 5)))".as_slice(),
            at(Kind::Strict, 61),
        ),
        (
            b"(define (domain d) (:functions (f)) (:action a :precondition (not (<= (f) 5))))",
            at(Kind::Strict, 61),
        ),
        (
            b"(define (domain d) (:functions (f)) (:action a :effect (assign (f) (* (f) (f)))))",
            at(Kind::Nonlinear, 67),
        ),
        (
            b"(define (domain d) (:functions (f)) (:durative-action a :duration (= ?duration 1) :effect (increase (f) (* #t (f)))))",
            at(Kind::Nonlinear, 104),
        ),
        (
            b"(define (domain d) (:predicates (p)) (:action a :precondition (or (p) (p))))",
            at(Kind::LeftOut, 62),
        ),
        (
            b"(define (domain d) (:requirements :strips :derived-predicates))",
            at(Kind::Requirement, 42),
        ),
        (
            b"(define (domain d) (:action a :parameters (?a ?b ?c ?d ?e ?f ?g ?h ?i ?j ?k ?l ?m)))",
            at(Kind::Limit, 79),
        ),
        (
            b"(define (domain d) (:action a :parameters (?a ?b ?c ?d ?e ?f ?g ?h ?i ?j ?k ?l)))",
            None,
        ),
    ];
    for (text, fault) in rows {
        assert_eq!(rt; fault_of(rt.alloc(), text), fault);
    }
}

#[test]
fn an_earlier_phase_comes_first(rt: HostRuntime) {
    let rows = [
        (
            b"(define (domain d) (:action a :precondition (and (< 1 2) (p))))".as_slice(),
            at(Kind::Name, 58),
        ),
        (
            b"(define (domain d) (:predicates (p ?x)) (:action a :precondition (and (or) (p))))",
            at(Kind::Arity, 75),
        ),
        (
            b"(define (domain d) (:requirements :x) (:predicates (p x)))",
            at(Kind::Shape, 54),
        ),
        (
            b"(define (domain d) (:action a :precondition (q)) (:types a a))",
            at(Kind::Name, 45),
        ),
        (
            b"(define (domain d) (:requirements :x) (:action a :parameters (?a ?b ?c ?d ?e ?f ?g ?h ?i ?j ?k ?l ?m)))",
            at(Kind::Requirement, 34),
        ),
    ];
    for (text, fault) in rows {
        assert_eq!(rt; fault_of(rt.alloc(), text), fault);
    }
}
