//! Problems that are accepted, and the first place of the wrong shape of those that aren't.

use crate::read::read_shape;
use pddl_terms::{Kind, PddlFault};
use std::alloc::Global;

/// Where the shape of a short text is wrong, or None; of another fault a place that no text has.
fn place_of(alloc: Global, text: &[u8]) -> Option<u32> {
    if text.len() > 10000 {
        return Some(u32::MAX);
    }
    match read_shape(alloc, text) {
        Ok(_) => None,
        Err(PddlFault::At(Kind::Shape, place)) => Some(place),
        Err(_) => Some(u32::MAX),
    }
}

#[test]
fn files_have_their_places(rt: HostRuntime) {
    let rows = [
        (b"".as_slice(), Some(0)),
        (b"define", Some(0)),
        (b"()", Some(1)),
        (b"(define (domain d))", Some(9)),
        (b"(define (problem p))", Some(19)),
        (b"(define (problem p) (:init))", Some(21)),
        (b"(define (problem p) (:domain :d))", Some(29)),
        (b"(define (problem p) (:domain d))", Some(31)),
        (b"(define (problem p) (:domain d) (:init))", Some(39)),
        (b"(define (problem p) (:domain d) (:goal ()))", Some(42)),
        (b"(define (problem p) (:domain d) (:goal ()) (:init))", None),
        (
            b"(define (problem p) (:domain d) (:goal ()) (:init)) x",
            Some(52),
        ),
    ];
    for (text, place) in rows {
        assert_eq!(rt; place_of(rt.alloc(), text), place);
    }
}

#[test]
fn sections_have_their_places(rt: HostRuntime) {
    let rows = [
        (
            b"(define (problem p) (:domain d) (:requirements :a) (:objects a - t) (:init) (:goal ()) (:constraints (and)) (:time-costs) (:metric minimize 1))".as_slice(),
            None,
        ),
        (
            b"(define (problem p) (:domain d) (:init) (:init) (:goal ()))",
            Some(40),
        ),
        (
            b"(define (problem p) (:domain d) (:init) (:goal ()) (:goal 5))",
            Some(51),
        ),
        (
            b"(define (problem p) (:domain d) (:init) (:goal ()) (:domain d))",
            Some(52),
        ),
        (b"(define (problem p) (:domain d) (:types a))", Some(33)),
        (b"(define (problem p) (:domain d) (:objects ?x))", Some(42)),
        (b"(define (problem p) (:domain d) (:goal))", Some(38)),
        (b"(define (problem p) (:domain d) (:goal () ()))", Some(42)),
        (
            b"(define (problem p) (:domain d) (:derived) (:init) (:derived 1) (:goal ()))",
            None,
        ),
        (b"(define (problem p) (:domain d) init)", Some(32)),
    ];
    for (text, place) in rows {
        assert_eq!(rt; place_of(rt.alloc(), text), place);
    }
}

#[test]
fn entries_have_their_places(rt: HostRuntime) {
    let rows = [
        (
            b"(define (problem p) (:domain d) (:init (p a) (not (p a)) (= (f a) 5) (= f -1.5) (at 5 (p)) (at .5 (not (p))) (at) (at a b) (when 1)) (:goal ()))".as_slice(),
            None,
        ),
        (
            b"(define (problem p) (:domain d) (:init p) (:goal ()))",
            Some(39),
        ),
        (
            b"(define (problem p) (:domain d) (:init ()) (:goal ()))",
            Some(40),
        ),
        (
            b"(define (problem p) (:domain d) (:init (?x)) (:goal ()))",
            Some(40),
        ),
        (
            b"(define (problem p) (:domain d) (:init (not p)) (:goal ()))",
            Some(44),
        ),
        (
            b"(define (problem p) (:domain d) (:init (not (= a))) (:goal ()))",
            Some(45),
        ),
        (
            b"(define (problem p) (:domain d) (:init (= (f) a)) (:goal ()))",
            Some(46),
        ),
        (
            b"(define (problem p) (:domain d) (:init (= 5 5)) (:goal ()))",
            Some(42),
        ),
        (
            b"(define (problem p) (:domain d) (:init (at 5 x)) (:goal ()))",
            Some(45),
        ),
        (
            b"(define (problem p) (:domain d) (:init (at a (p))) (:goal ()))",
            Some(45),
        ),
        (
            b"(define (problem p) (:domain d) (:init (at 5 (not (not (p))))) (:goal ()))",
            Some(55),
        ),
        (
            b"(define (problem p) (:domain d) (:init (at 5 (p) (p))) (:goal ()))",
            Some(49),
        ),
        (
            b"(define (problem p) (:domain d) (:init (at 5 (either 1)) (not (either)) (= (when) 1)) (:goal ()))",
            None,
        ),
    ];
    for (text, place) in rows {
        assert_eq!(rt; place_of(rt.alloc(), text), place);
    }
}

#[test]
fn goals_have_their_places(rt: HostRuntime) {
    let rows = [
        (
            b"(define (problem p) (:domain d) (:init) (:goal (and (p) (preference (q)) (forall (?x - t) (preference n (and (p ?x) (<= 1 (f))))))))".as_slice(),
            None,
        ),
        (
            b"(define (problem p) (:domain d) (:init) (:goal (preference a (not (not (<= 1 2))))))",
            None,
        ),
        (
            b"(define (problem p) (:domain d) (:init) (:goal (preference (or (p) (imply (q) (not ()))))))",
            None,
        ),
        (
            b"(define (problem p) (:domain d) (:init) (:goal (or 5)))",
            None,
        ),
        (
            b"(define (problem p) (:domain d) (:init) (:goal (preference (not (= (f) 5)))))",
            None,
        ),
        (
            b"(define (problem p) (:domain d) (:init) (:goal (preference (not (and (<= 1 2))))))",
            Some(70),
        ),
        (
            b"(define (problem p) (:domain d) (:init) (:goal (preference (or (<= 1 2)))))",
            Some(64),
        ),
        (
            b"(define (problem p) (:domain d) (:init) (:goal (preference a b)))",
            Some(61),
        ),
        (
            b"(define (problem p) (:domain d) (:init) (:goal (preference a)))",
            Some(60),
        ),
        (
            b"(define (problem p) (:domain d) (:init) (:goal (not ())))",
            Some(53),
        ),
        (
            b"(define (problem p) (:domain d) (:init) (:goal (and p)))",
            Some(52),
        ),
        (
            b"(define (problem p) (:domain d) (:init) (:goal (preference (preference (p)))))",
            Some(71),
        ),
        (
            b"(define (problem p) (:domain d) (:init) (:goal (forall ?x (p))))",
            Some(55),
        ),
        (
            b"(define (problem p) (:domain d) (:init) (:goal (= ?x 5)))",
            Some(50),
        ),
        (
            b"(define (problem p) (:domain d) (:init) (:goal p))",
            Some(47),
        ),
    ];
    for (text, place) in rows {
        assert_eq!(rt; place_of(rt.alloc(), text), place);
    }
}

#[test]
fn time_costs_have_their_places(rt: HostRuntime) {
    let rows = [
        (
            b"(define (problem p) (:domain d) (:init) (:goal ()) (:time-costs (late (done) 2 6 8) (l (and) (2 0 0) (6 1 5) (when 1)) (when)))".as_slice(),
            None,
        ),
        (
            b"(define (problem p) (:domain d) (:init) (:goal ()) (:time-costs late))",
            Some(64),
        ),
        (
            b"(define (problem p) (:domain d) (:init) (:goal ()) (:time-costs (5)))",
            Some(65),
        ),
        (
            b"(define (problem p) (:domain d) (:init) (:goal ()) (:time-costs (late 5)))",
            Some(70),
        ),
        (
            b"(define (problem p) (:domain d) (:init) (:goal ()) (:time-costs (late (done))))",
            Some(76),
        ),
        (
            b"(define (problem p) (:domain d) (:init) (:goal ()) (:time-costs (late (done) 2 6)))",
            Some(80),
        ),
        (
            b"(define (problem p) (:domain d) (:init) (:goal ()) (:time-costs (late (done) 2 6 8 9)))",
            Some(83),
        ),
        (
            b"(define (problem p) (:domain d) (:init) (:goal ()) (:time-costs (late (done) 2 (2 0 0))))",
            Some(79),
        ),
        (
            b"(define (problem p) (:domain d) (:init) (:goal ()) (:time-costs (late (done) (2 0 0) 5)))",
            Some(85),
        ),
        (
            b"(define (problem p) (:domain d) (:init) (:goal ()) (:time-costs (late (done) (2 0))))",
            Some(81),
        ),
        (
            b"(define (problem p) (:domain d) (:init) (:goal ()) (:time-costs (late (done) ())))",
            Some(78),
        ),
        (
            b"(define (problem p) (:domain d) (:init) (:goal ()) (:time-costs (late (done) (2 0 0 0))))",
            Some(84),
        ),
    ];
    for (text, place) in rows {
        assert_eq!(rt; place_of(rt.alloc(), text), place);
    }
}

#[test]
fn metrics_have_their_places(rt: HostRuntime) {
    let rows = [
        (
            b"(define (problem p) (:domain d) (:init) (:goal ()) (:metric minimize (+ (total-time) total-time (* 3 (is-violated late)) (time-cost l) (f a))))".as_slice(),
            None,
        ),
        (
            b"(define (problem p) (:domain d) (:init) (:goal ()) (:metric MAXIMIZE f))",
            None,
        ),
        (
            b"(define (problem p) (:domain d) (:init) (:goal ()) (:metric f))",
            Some(60),
        ),
        (
            b"(define (problem p) (:domain d) (:init) (:goal ()) (:metric minimize))",
            Some(68),
        ),
        (
            b"(define (problem p) (:domain d) (:init) (:goal ()) (:metric minimize f f))",
            Some(71),
        ),
        (
            b"(define (problem p) (:domain d) (:init) (:goal ()) (:metric minimize ?duration))",
            Some(69),
        ),
        (
            b"(define (problem p) (:domain d) (:init) (:goal ()) (:metric minimize (total-time x)))",
            Some(81),
        ),
        (
            b"(define (problem p) (:domain d) (:init) (:goal ()) (:metric minimize (is-violated)))",
            Some(81),
        ),
        (
            b"(define (problem p) (:domain d) (:init) (:goal ()) (:metric minimize (time-cost 5)))",
            Some(80),
        ),
        (
            b"(define (problem p) (:domain d) (:init) (:goal ()) (:metric minimize (+ 1)))",
            Some(73),
        ),
        (
            b"(define (problem p) (:domain d) (:init) (:goal ()) (:metric minimize (when)))",
            None,
        ),
    ];
    for (text, place) in rows {
        assert_eq!(rt; place_of(rt.alloc(), text), place);
    }
}
