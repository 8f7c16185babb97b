//! Domains with problems of them that are accepted.

use crate::read_problem;
use pddl_domain::read_domain;
use pddl_terms::PddlFault;
use std::alloc::Global;

/// What two short texts are refused for as a domain and a problem of it, if one of them is refused.
pub(super) fn fault_of(alloc: Global, domain: &[u8], problem: &[u8]) -> Option<PddlFault> {
    if domain.len() > 10000 || problem.len() > 10000 {
        return Some(PddlFault::Memory);
    }
    let domain = match read_domain(alloc, domain) {
        Ok(domain) => domain,
        Err(fault) => return Some(fault),
    };
    match read_problem(alloc, problem, &domain) {
        Ok(_) => None,
        Err(fault) => Some(fault),
    }
}

#[test]
fn worked_problems_are_accepted(rt: HostRuntime) {
    let pairs = [
        (
            b"(define (domain flags) (:predicates (p) (q)) (:action set :effect (p)) (:action use :precondition (p) :effect (q)))".as_slice(),
            b"(define (problem f) (:domain flags) (:init) (:goal (q)))".as_slice(),
        ),
        (
            b"(define (domain meters) (:predicates (pa) (pb)) (:functions (total-cost)) (:action a :effect (and (pa) (increase (total-cost) 2))) (:action b :effect (and (pb) (increase (total-cost) 2))))",
            b"(define (problem m) (:domain meters) (:init (= (total-cost) 0)) (:goal (and (pa) (pb))) (:metric minimize (total-cost)))",
        ),
        (
            b"(define (domain pair_watch) (:functions (f) (g)) (:durative-action hold :duration (= ?duration 1) :condition (over all (>= (+ (f) (g)) 5)) :effect ()) (:action up :effect (increase (f) 2)) (:action down :effect (decrease (g) 2)))",
            b"(define (problem w) (:domain pair_watch) (:init (= (f) 3) (= (g) 3)) (:goal (and)))",
        ),
        (
            b"(define (domain ready) (:predicates (p)))",
            b"(define (problem r) (:domain ready) (:init (p)) (:goal (p)))",
        ),
        (
            b"(define (domain work) (:predicates (done)) (:durative-action work :duration (= ?duration 5) :effect (at end (done))))",
            b"(define (problem k) (:domain work) (:init) (:goal (done)) (:constraints (preference late (within 4 (done)))) (:metric minimize (+ (total-time) (* 3 (is-violated late)))))",
        ),
        (
            b"(define (domain work) (:predicates (done)) (:durative-action work :duration (= ?duration 6) :effect (at end (done))))",
            b"(define (problem k) (:domain work) (:init) (:goal (done)) (:time-costs (late (done) 2 6 8)) (:metric minimize (time-cost late)))",
        ),
        (
            b"(define (domain spots) (:types spot) (:predicates (tidy ?x - spot)))",
            b"(define (problem s) (:domain spots) (:objects a b - spot) (:init) (:goal (forall (?x - spot) (preference clean (tidy ?x)))) (:metric minimize (* 2 (is-violated clean))))",
        ),
        (
            b"(define (domain gate) (:predicates (open) (through)) (:durative-action pass :duration (= ?duration 5) :condition (over all (open)) :effect (at end (through))))",
            b"(define (problem g) (:domain gate) (:init (at 5 (open)) (at 10 (not (open)))) (:goal (through)))",
        ),
        (
            b"(define (domain chain) (:predicates (p) (q)) (:durative-action a1 :duration (= ?duration 1) :effect (at end (p))) (:durative-action a2 :duration (= ?duration 1) :condition (at start (p)) :effect (at end (q))))",
            b"(define (problem c) (:domain chain) (:init) (:goal (q)))",
        ),
        (
            b"(define (domain grow) (:functions (f)) (:action grow :effect (assign (f) (* 999999999999999999 (f)))))",
            b"(define (problem w) (:domain grow) (:init (= (f) 999999999999999999)) (:goal (and)))",
        ),
        (
            b"(define (domain haul) (:requirements :typing :fluents :durative-actions :continuous-effects) (:types truck parcel place) (:predicates (at ?t - truck ?l - place) (lies ?p - parcel ?l - place) (in ?p - parcel ?t - truck)) (:functions (fuel ?t - truck) (dist ?a ?b - place)) (:durative-action drive :parameters (?t - truck ?a ?b - place) :duration (= ?duration (dist ?a ?b)) :condition (and (at start (at ?t ?a)) (over all (>= (fuel ?t) 0))) :effect (and (at start (not (at ?t ?a))) (at end (at ?t ?b)) (decrease (fuel ?t) (* #t 2)))) (:durative-action load :parameters (?p - parcel ?t - truck ?l - place) :duration (= ?duration 1) :condition (and (at start (lies ?p ?l)) (over all (at ?t ?l))) :effect (and (at start (not (lies ?p ?l))) (at end (in ?p ?t)))))",
            b"(define (problem demo) (:domain haul) (:objects depot - place s1 - place t1 - truck a1 b1 - parcel) (:init (at t1 depot) (= (fuel t1) 100) (lies a1 depot) (lies b1 depot) (= (dist depot s1) 23) (= (dist s1 depot) 23)) (:goal (and (lies a1 s1) (lies b1 s1))))",
        ),
    ];
    for (domain, problem) in pairs {
        assert_eq!(rt; fault_of(rt.alloc(), domain, problem), None);
    }
}
