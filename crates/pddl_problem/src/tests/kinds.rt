//! A text for each kind of refusal.

use crate::tests::worked::fault_of;
use pddl_terms::{Kind, PddlFault};

const DOMAIN: &[u8] =
    b"(define (domain d) (:types t u) (:constants c - t) (:predicates (p) (q ?x - t)) (:functions (f) (g ?x) (h)) (:action a :effect (and (increase (f) 1) (increase (h) 1))))";

fn at(kind: Kind, place: u32) -> Option<PddlFault> {
    Some(PddlFault::At(kind, place))
}

#[test]
fn names_are_declared_once(rt: HostRuntime) {
    let rows = [
        (
            b"(define (problem p) (:domain e) (:init) (:goal ()))".as_slice(),
            at(Kind::Name, 29),
        ),
        (
            b"(define (problem p) (:domain d) (:objects o - v) (:init) (:goal ()))",
            at(Kind::Name, 46),
        ),
        (
            b"(define (problem p) (:domain d) (:init (q o)) (:goal ()))",
            at(Kind::Name, 42),
        ),
        (
            b"(define (problem p) (:domain d) (:init) (:goal (preference n (p))) (:metric minimize (is-violated m)))",
            at(Kind::Name, 98),
        ),
        (
            b"(define (problem p) (:domain d) (:init) (:goal ()) (:time-costs (late (p) 1 2 3)) (:metric minimize (time-cost l)))",
            at(Kind::Name, 111),
        ),
        (
            b"(define (problem p) (:domain d) (:objects o o) (:init) (:goal ()))",
            at(Kind::Double, 44),
        ),
        (
            b"(define (problem p) (:domain d) (:objects c) (:init) (:goal ()))",
            at(Kind::Double, 42),
        ),
        (
            b"(define (problem p) (:domain d) (:init (= (f) 1) (= (g c) 1) (= (f) 2)) (:goal ()))",
            at(Kind::Double, 64),
        ),
        (
            b"(define (problem p) (:domain d) (:init) (:goal ()) (:time-costs (l (p) 1 2 3) (l (p) 1 2 3)))",
            at(Kind::Double, 79),
        ),
    ];
    for (text, fault) in rows {
        assert_eq!(rt; fault_of(rt.alloc(), DOMAIN, text), fault);
    }
}

#[test]
fn terms_fit(rt: HostRuntime) {
    let rows = [
        (
            b"(define (problem p) (:domain d) (:objects o - u) (:init (q o)) (:goal ()))".as_slice(),
            at(Kind::Sort, 59),
        ),
        (
            b"(define (problem p) (:domain d) (:init) (:goal (q)))",
            at(Kind::Arity, 47),
        ),
        (
            b"(define (problem p) (:domain d) (:init (= g 1)) (:goal ()))",
            at(Kind::Arity, 42),
        ),
    ];
    for (text, fault) in rows {
        assert_eq!(rt; fault_of(rt.alloc(), DOMAIN, text), fault);
    }
}

#[test]
fn forms_are_linear_and_whole(rt: HostRuntime) {
    let rows = [
        (
            b"(define (problem p) (:domain d) (:init) (:goal (> (f) 1)))".as_slice(),
            at(Kind::Strict, 47),
        ),
        (
            b"(define (problem p) (:domain d) (:init) (:goal (preference (not (= (f) 1)))))",
            at(Kind::Strict, 59),
        ),
        (
            b"(define (problem p) (:domain d) (:init) (:goal ()) (:metric minimize (* (f) (h))))",
            at(Kind::Nonlinear, 69),
        ),
        (
            b"(define (problem p) (:domain d) (:init) (:goal ()) (:time-costs (l (p) 5 5 1)))",
            at(Kind::Nonlinear, 64),
        ),
        (
            b"(define (problem p) (:domain d) (:init) (:goal ()) (:time-costs (l (p) (2 0 3) (4 1 5))))",
            at(Kind::Nonlinear, 79),
        ),
        (
            b"(define (problem p) (:domain d) (:init) (:goal ()) (:constraints (always (or (p) (= (f) 1)))))",
            at(Kind::LeftOut, 81),
        ),
        (
            b"(define (problem p) (:domain d) (:requirements :x) (:init) (:goal ()))",
            at(Kind::Requirement, 47),
        ),
        (
            b"(define (problem p) (:domain d) (:init (at 0 (p))) (:goal ()))",
            at(Kind::TilClash, 43),
        ),
        (
            b"(define (problem p) (:domain d) (:init (at 5 (p)) (at 5.0 (not (p)))) (:goal ()))",
            at(Kind::TilClash, 50),
        ),
    ];
    for (text, fault) in rows {
        assert_eq!(rt; fault_of(rt.alloc(), DOMAIN, text), fault);
    }
}

#[test]
fn metrics_reward_no_lateness(rt: HostRuntime) {
    let rows = [
        (
            b"(define (problem p) (:domain d) (:init) (:goal ()) (:metric maximize (total-time)))".as_slice(),
            at(Kind::MetricSign, 69),
        ),
        (
            b"(define (problem p) (:domain d) (:init) (:goal (preference n (p))) (:metric minimize (- 5 (is-violated n))))",
            at(Kind::MetricSign, 90),
        ),
        (
            b"(define (problem p) (:domain d) (:init) (:goal ()) (:time-costs (l (p) 1 2 3)) (:metric minimize (* -2 (time-cost l))))",
            at(Kind::MetricSign, 103),
        ),
        (
            b"(define (problem p) (:domain d) (:init) (:goal ()) (:metric minimize (- (total-time) (* 2 total-time))))",
            at(Kind::MetricSign, 72),
        ),
    ];
    for (text, fault) in rows {
        assert_eq!(rt; fault_of(rt.alloc(), DOMAIN, text), fault);
    }
}

#[test]
fn signs_are_asked_among_the_forms(rt: HostRuntime) {
    let rows = [
        (
            b"(define (problem p) (:domain d) (:init) (:goal ()) (:metric maximize (total-time)) (:time-costs (l (p) 5 5 1)))".as_slice(),
            at(Kind::MetricSign, 69),
        ),
        (
            b"(define (problem p) (:domain d) (:init (at 0 (p))) (:goal ()) (:metric maximize (total-time)))",
            at(Kind::TilClash, 43),
        ),
        (
            b"(define (problem p) (:domain d) (:init) (:goal ()) (:metric maximize (+ (g c) (total-time))))",
            None,
        ),
    ];
    for (text, fault) in rows {
        assert_eq!(rt; fault_of(rt.alloc(), DOMAIN, text), fault);
    }
}

#[test]
fn an_earlier_phase_comes_first(rt: HostRuntime) {
    let rows = [
        (
            b"(define (problem p) (:domain d) (:init (at 0 (p))) (:goal (r)))".as_slice(),
            at(Kind::Name, 59),
        ),
        (
            b"(define (problem p) (:domain d) (:init (at 0 (p))) (:goal (q)))",
            at(Kind::Arity, 58),
        ),
        (
            b"(define (problem p) (:domain d) (:init (at 0 (p))) (:goal (q c) x))",
            at(Kind::Shape, 64),
        ),
        (
            b"(define (problem p) (:domain d) (:goal ()) (:init (at -1 (p))) (:requirements :x))",
            at(Kind::TilClash, 54),
        ),
    ];
    for (text, fault) in rows {
        assert_eq!(rt; fault_of(rt.alloc(), DOMAIN, text), fault);
    }
}
