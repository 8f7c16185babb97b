//! Tasks of a few lines, counted by hand.

use super::{Size, plain, size_of};

#[test]
fn instant_actions_have_one_snap_action(rt: HostRuntime) {
    for (domain, problem, size) in [
        (
            b"(define (domain flags) (:predicates (p) (q)) (:action set :effect (p)) (:action use :precondition (p) :effect (q)))".as_slice(),
            b"(define (problem f) (:domain flags) (:init) (:goal (q)))".as_slice(),
            plain(2, 0, 2, 2),
        ),
        (
            b"(define (domain grow) (:functions (f)) (:action grow :effect (assign (f) (* 999999999999999999 (f)))))",
            b"(define (problem w) (:domain grow) (:init (= (f) 999999999999999999)) (:goal (and)))",
            plain(0, 1, 1, 1),
        ),
        (
            b"(define (domain ready) (:predicates (p)))",
            b"(define (problem r) (:domain ready) (:init (p)) (:goal (p)))",
            plain(1, 0, 0, 0),
        ),
    ] {
        assert!(rt; size_of(rt.alloc(), domain, problem) == Some(size));
    }
}

#[test]
fn durative_actions_have_two(rt: HostRuntime) {
    for (domain, problem, size) in [
        (
            b"(define (domain chain) (:predicates (p) (q)) (:durative-action a1 :duration (= ?duration 1) :effect (at end (p))) (:durative-action a2 :duration (= ?duration 1) :condition (at start (p)) :effect (at end (q))))".as_slice(),
            b"(define (problem c) (:domain chain) (:init) (:goal (q)))".as_slice(),
            plain(2, 0, 2, 4),
        ),
        (
            b"(define (domain pair_watch) (:functions (f) (g)) (:durative-action hold :duration (= ?duration 1) :condition (over all (>= (+ (f) (g)) 5)) :effect ()) (:action up :effect (increase (f) 2)) (:action down :effect (decrease (g) 2)))",
            b"(define (problem w) (:domain pair_watch) (:init (= (f) 3) (= (g) 3)) (:goal (and)))",
            plain(0, 2, 3, 4),
        ),
    ] {
        assert!(rt; size_of(rt.alloc(), domain, problem) == Some(size));
    }
}

#[test]
fn moments_are_steps_and_preferences_terms(rt: HostRuntime) {
    for (domain, problem, size) in [
        (
            b"(define (domain gate) (:predicates (open) (through)) (:durative-action pass :duration (= ?duration 5) :condition (over all (open)) :effect (at end (through))))".as_slice(),
            b"(define (problem g) (:domain gate) (:init (at 5 (open)) (at 10 (not (open)))) (:goal (through)))".as_slice(),
            Size {
                facts: 2,
                fluents: 0,
                actions: 1,
                snaps: 4,
                timed: 2,
                soft: 0,
            },
        ),
        (
            b"(define (domain work) (:predicates (done)) (:durative-action work :duration (= ?duration 5) :effect (at end (done))))",
            b"(define (problem k) (:domain work) (:init) (:goal (done)) (:constraints (preference late (within 4 (done)))) (:metric minimize (+ (total-time) (* 3 (is-violated late)))))",
            Size {
                facts: 1,
                fluents: 0,
                actions: 1,
                snaps: 2,
                timed: 0,
                soft: 1,
            },
        ),
        (
            b"(define (domain spots) (:types spot) (:predicates (tidy ?x - spot)))",
            b"(define (problem s) (:domain spots) (:objects a b - spot) (:init) (:goal (forall (?x - spot) (preference clean (tidy ?x)))) (:metric minimize (* 2 (is-violated clean))))",
            Size {
                facts: 2,
                fluents: 0,
                actions: 0,
                snaps: 0,
                timed: 0,
                soft: 2,
            },
        ),
    ] {
        assert!(rt; size_of(rt.alloc(), domain, problem) == Some(size));
    }
}
