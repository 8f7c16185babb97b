//! A truck that carries two parcels from a depot to a site. Its objects are the depot, the site, the truck and the parcels.

use super::{plain, size_of, task_of};
use task_types::Action;

const DOMAIN: &[u8] = b"(define (domain haul)
(:requirements :typing :fluents :durative-actions :continuous-effects)
(:types truck parcel place)
(:predicates (at ?t - truck ?l - place) (lies ?p - parcel ?l - place) (in ?p - parcel ?t - truck))
(:functions (fuel ?t - truck) (dist ?a ?b - place))
(:durative-action drive :parameters (?t - truck ?a ?b - place) :duration (= ?duration (dist ?a ?b))
:condition (and (at start (at ?t ?a)) (over all (>= (fuel ?t) 0)))
:effect (and (at start (not (at ?t ?a))) (at end (at ?t ?b)) (decrease (fuel ?t) (* #t 2))))
(:durative-action load :parameters (?p - parcel ?t - truck ?l - place) :duration (= ?duration 1)
:condition (and (at start (lies ?p ?l)) (over all (at ?t ?l)))
:effect (and (at start (not (lies ?p ?l))) (at end (in ?p ?t))))
(:durative-action unload :parameters (?p - parcel ?t - truck ?l - place) :duration (= ?duration 1)
:condition (and (at start (in ?p ?t)) (over all (at ?t ?l)))
:effect (and (at start (not (in ?p ?t))) (at end (lies ?p ?l)))))
";

const PROBLEM: &[u8] = b"(define (problem demo)
(:domain haul)
(:objects depot - place
s1 - place t1 - truck a1 b1 - parcel
)
(:init
(at t1 depot) (= (fuel t1) 100) (lies a1 depot) (lies b1 depot) (= (dist depot s1) 23) (= (dist s1 depot) 23)
)
(:goal (and
(lies a1 s1) (lies b1 s1)
)))
";

fn is_action(action: &Action, name: &[u8], args: &[u32]) -> bool {
    action.name.as_slice() == name && action.args.as_slice() == args
}

#[test]
fn a_truck_drives_loads_and_unloads(rt: HostRuntime) {
    assert!(rt; size_of(rt.alloc(), DOMAIN, PROBLEM) == Some(plain(8, 1, 10, 20)));
}

#[test]
fn actions_stand_in_the_order_of_their_objects(rt: HostRuntime) {
    let task = task_of(rt.alloc(), DOMAIN, PROBLEM);
    let wanted = [
        (b"drive".as_slice(), [2, 0, 1]),
        (b"drive", [2, 1, 0]),
        (b"load", [3, 2, 0]),
    ];
    for (k, (name, args)) in wanted.into_iter().enumerate() {
        assert!(rt;
            task.as_ref()
                .and_then(|task| task.actions().get(k))
                .is_some_and(|action| is_action(action, name, args.as_slice()))
        );
    }
}
