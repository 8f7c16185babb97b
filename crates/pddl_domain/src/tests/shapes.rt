//! Domains that are accepted, and the first place of the wrong shape of those that aren't.

use crate::read::read_shape;
use pddl_terms::{Kind, PddlFault};
use std::alloc::Global;

/// Where the shape of a short text is wrong, or None; of another fault a place that no text has.
fn place_of(alloc: Global, text: &[u8]) -> Option<u32> {
    if text.len() > 10000 {
        return Some(u32::MAX);
    }
    match read_shape(alloc, text) {
        Ok(_) => None,
        Err(PddlFault::At(Kind::Shape, place)) => Some(place),
        Err(_) => Some(u32::MAX),
    }
}

#[test]
fn files_have_their_places(rt: HostRuntime) {
    let rows = [
        (b"".as_slice(), Some(0)),
        (b"; nothing\n", Some(0)),
        (b"define", Some(0)),
        (b"()", Some(1)),
        (b"(domain d)", Some(1)),
        (b"(define)", Some(7)),
        (b"(define d)", Some(8)),
        (b"(define (problem d))", Some(9)),
        (b"(define (domain))", Some(15)),
        (b"(define (domain ?d))", Some(16)),
        (b"(define (domain d e))", Some(18)),
        (b"(define (domain d)) x", Some(20)),
        (b"(define (domain d)) (define (domain d))", Some(20)),
        (b"(DEFINE (Domain D))", None),
    ];
    for (text, place) in rows {
        assert_eq!(rt; place_of(rt.alloc(), text), place);
    }
}

#[test]
fn sections_have_their_places(rt: HostRuntime) {
    let rows = [
        (
            b"(define (domain d) (:types a) (:requirements :x) (:constants) (:predicates) (:functions) (:constraints (and)))".as_slice(),
            None,
        ),
        (b"(define (domain d) x)", Some(19)),
        (b"(define (domain d) (:objects a))", Some(20)),
        (b"(define (domain d) ())", Some(20)),
        (b"(define (domain d) (:types a) (:types b))", Some(30)),
        (
            b"(define (domain d) (:functions) (:predicates) (:FUNCTIONS 5))",
            Some(46),
        ),
        (b"(define (domain d) (:requirements typing))", Some(34)),
        (b"(define (domain d) (:types a - (b)))", Some(31)),
        (b"(define (domain d) (:constraints a))", Some(33)),
        (
            b"(define (domain d) (:constraints (always (p)) (always (p))))",
            Some(46),
        ),
        (
            b"(define (domain d) (:derived 1 ?x) (:process) (:event) (:derived) (either))",
            None,
        ),
    ];
    for (text, place) in rows {
        assert_eq!(rt; place_of(rt.alloc(), text), place);
    }
}

#[test]
fn declarations_have_their_places(rt: HostRuntime) {
    let rows = [
        (
            b"(define (domain d) (:predicates (p) (q ?x ?y - t) (either 5)))".as_slice(),
            None,
        ),
        (b"(define (domain d) (:predicates p))", Some(32)),
        (b"(define (domain d) (:predicates (p a)))", Some(35)),
        (b"(define (domain d) (:predicates (?x)))", Some(33)),
        (b"(define (domain d) (:predicates ()))", Some(33)),
        (
            b"(define (domain d) (:functions (f) (g ?x) - number (when) - NUMBER (h)))",
            None,
        ),
        (b"(define (domain d) (:functions (f) number))", Some(35)),
        (b"(define (domain d) (:functions (f) - real))", Some(37)),
        (
            b"(define (domain d) (:functions (f) - number - number))",
            Some(44),
        ),
        (b"(define (domain d) (:functions - number))", Some(31)),
        (
            b"(define (domain d) (:functions (f) - (either number)))",
            Some(37),
        ),
        (b"(define (domain d) (:functions (f) -))", Some(36)),
    ];
    for (text, place) in rows {
        assert_eq!(rt; place_of(rt.alloc(), text), place);
    }
}

#[test]
fn actions_have_their_places(rt: HostRuntime) {
    let rows = [
        (b"(define (domain d) (:action a ))".as_slice(), None),
        (
            b"(define (domain d) (:action a :parameters (?x - t) :precondition (and (p ?x)) :effect (and () (q) (not (p ?x)) (assign f 5))))",
            None,
        ),
        (b"(define (domain d) (:action a) (:action a))", None),
        (b"(define (domain d) (:action :effect ()))", Some(28)),
        (b"(define (domain d) (:action a (p)))", Some(30)),
        (
            b"(define (domain d) (:action a :effect () :precondition ()))",
            Some(41),
        ),
        (
            b"(define (domain d) (:action a :parameters :effect ()))",
            Some(42),
        ),
        (
            b"(define (domain d) (:action a :precondition () :precondition ()))",
            Some(47),
        ),
        (
            b"(define (domain d) (:action a :duration (= ?duration 1)))",
            Some(30),
        ),
        (b"(define (domain d) (:action a :condition ()))", Some(30)),
        (
            b"(define (domain d) (:action a :effect (increase (f) ?duration)))",
            Some(52),
        ),
        (
            b"(define (domain d) (:action a :effect (at start (p))))",
            Some(48),
        ),
        (b"(define (domain d) (:action a :effect))", Some(37)),
        (b"(define (domain d) (:action a :effect (not p)))", Some(43)),
        (
            b"(define (domain d) (:action a :effect (increase 5 5)))",
            Some(48),
        ),
    ];
    for (text, place) in rows {
        assert_eq!(rt; place_of(rt.alloc(), text), place);
    }
}

#[test]
fn durative_actions_have_their_places(rt: HostRuntime) {
    let rows = [
        (
            b"(define (domain d) (:durative-action a :duration (= ?duration 1) ))".as_slice(),
            None,
        ),
        (
            b"(define (domain d) (:durative-action a :duration (= ?duration 1) :condition (and () (at START (p)) (over all (q))) :effect (and (at end (increase (f) ?duration)) (decrease f #t))))",
            None,
        ),
        (b"(define (domain d) (:durative-action a))", Some(38)),
        (
            b"(define (domain d) (:durative-action a :effect ()))",
            Some(39),
        ),
        (
            b"(define (domain d) (:durative-action a :duration (= ?duration 1) :precondition ()))",
            Some(65),
        ),
        (
            b"(define (domain d) (:durative-action a :duration (= ?duration 1) :condition (p)))",
            Some(77),
        ),
        (
            b"(define (domain d) (:durative-action a :duration (= ?duration 1) :condition (at all (p))))",
            Some(80),
        ),
        (
            b"(define (domain d) (:durative-action a :duration (= ?duration 1) :condition (over start (p))))",
            Some(82),
        ),
        (
            b"(define (domain d) (:durative-action a :duration (= ?duration 1) :condition (over all (p) (q))))",
            Some(90),
        ),
        (
            b"(define (domain d) (:durative-action a :duration (= ?duration 1) :condition (or (at start (p)))))",
            Some(77),
        ),
        (
            b"(define (domain d) (:durative-action a :duration (= ?duration 1) :condition (forall (?x) (at start (p)))))",
            Some(77),
        ),
        (
            b"(define (domain d) (:durative-action a :duration (= ?duration 1) :effect (p)))",
            Some(74),
        ),
        (
            b"(define (domain d) (:durative-action a :duration (= ?duration 1) :effect (assign (f) 1)))",
            Some(74),
        ),
        (
            b"(define (domain d) (:durative-action a :duration (= ?duration 1) :effect (at end (preference 5))))",
            Some(93),
        ),
    ];
    for (text, place) in rows {
        assert_eq!(rt; place_of(rt.alloc(), text), place);
    }
}

#[test]
fn rates_have_their_places(rt: HostRuntime) {
    let rows = [
        (
            b"(define (domain d) (:durative-action a :duration (= ?duration 1) :effect (increase (f) (* #t (g ?x)))))".as_slice(),
            None,
        ),
        (
            b"(define (domain d) (:durative-action a :duration (= ?duration 1) :effect (increase (f) (* (+ 1 2) #t))))",
            None,
        ),
        (
            b"(define (domain d) (:durative-action a :duration (= ?duration 1) :effect (increase (f) 1)))",
            Some(87),
        ),
        (
            b"(define (domain d) (:durative-action a :duration (= ?duration 1) :effect (increase (f) (* 2 3))))",
            Some(92),
        ),
        (
            b"(define (domain d) (:durative-action a :duration (= ?duration 1) :effect (increase (f) (* #t #t))))",
            Some(93),
        ),
        (
            b"(define (domain d) (:durative-action a :duration (= ?duration 1) :effect (increase (f) (* ?duration #t))))",
            Some(90),
        ),
        (
            b"(define (domain d) (:durative-action a :duration (= ?duration 1) :effect (increase (f) (* #t ?duration))))",
            Some(93),
        ),
        (
            b"(define (domain d) (:durative-action a :duration (= ?duration 1) :effect (increase (f) (+ #t 1))))",
            Some(88),
        ),
        (
            b"(define (domain d) (:durative-action a :duration (= ?duration 1) :effect (increase (f) #t #t)))",
            Some(90),
        ),
    ];
    for (text, place) in rows {
        assert_eq!(rt; place_of(rt.alloc(), text), place);
    }
}

#[test]
fn left_out_lists_stand_in_their_places(rt: HostRuntime) {
    let rows = [
        (
            b"(define (domain d) (:action a :precondition (preference a 5) :effect (when 1 2)))".as_slice(),
            None,
        ),
        (
            b"(define (domain d) (:action a :effect (and (forall 1) (not (when 2)) (not (forall)) (increase (either) (scale-up)))))",
            None,
        ),
        (
            b"(define (domain d) (:durative-action a :duration (when) :condition (and (preference) (when)) :effect (forall 5)))",
            None,
        ),
        (
            b"(define (domain d) (:durative-action a :duration (= ?duration 1) :condition (at start (or 5)) :effect (and (increase (either) (when)) (at end (not (forall))))))",
            None,
        ),
        (b"(define (domain d) (:constraints (hold-during 5)))", None),
    ];
    for (text, place) in rows {
        assert_eq!(rt; place_of(rt.alloc(), text), place);
    }
}
