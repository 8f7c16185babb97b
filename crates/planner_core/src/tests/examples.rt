//! The examples of the repository, each with a plan that is valid and one that isn't. `examples/run` tries the files themselves.

use super::answers;
use std::test::Fail;

const ROVER_DOMAIN: &str =
    "; A rover drives on its battery, which drains as it goes and charges at a dock.
(define (domain rover)
(:requirements :typing :fluents :durative-actions :duration-inequalities :continuous-effects)
(:types place)
(:predicates (stands ?p - place) (dock ?p - place) (visited ?p - place))
(:functions (battery) (way ?from ?to - place))
(:durative-action drive
  :parameters (?from ?to - place)
  :duration (= ?duration (way ?from ?to))
  :condition (and (at start (stands ?from)) (over all (>= (battery) 0)))
  :effect (and
    (at start (not (stands ?from)))
    (at end (stands ?to))
    (at end (visited ?to))
    (decrease (battery) (* #t 2))))
(:durative-action charge
  :parameters (?p - place)
  :duration (>= ?duration 1)
  :condition (and
    (at start (dock ?p))
    (over all (stands ?p))
    (over all (<= (battery) 20)))
  :effect (increase (battery) (* #t 5))))
";

const ROVER_PROBLEM: &str =
    "; Ways that aren't told aren't there: no road leads from the base to the lake.
(define (problem lake)
(:domain rover)
(:objects base hill lake - place)
(:init
  (stands base)
  (dock hill)
  (= (battery) 16)
  (= (way base hill) 6) (= (way hill base) 6)
  (= (way hill lake) 9) (= (way lake hill) 9))
(:goal (visited lake)))
";

const ROVER_VALID: &str = "; The battery goes from 16 down to 4, up to 19 and down to 1.
0: (drive base hill) [6]
6.001: (charge hill) [3]
9.001: (drive hill lake) [9]
";

const ROVER_INVALID: &str = "; Two minutes at the dock give 14, and the way to the lake takes 18.
0: (drive base hill) [6]
6.001: (charge hill) [2]
8.001: (drive hill lake) [9]
";

const PLANT_DOMAIN: &str =
    "; A tank between two pumps: one fills it, the other delivers from it, and both may run at once.
(define (domain plant)
(:requirements :fluents :durative-actions :duration-inequalities :continuous-effects)
(:predicates (inflow-off) (outflow-off))
(:functions (level) (delivered))
(:durative-action fill
  :parameters ()
  :duration (and (>= ?duration 1) (<= ?duration 10))
  :condition (and (at start (inflow-off)) (over all (<= (level) 20)))
  :effect (and
    (at start (not (inflow-off)))
    (at end (inflow-off))
    (increase (level) (* #t 3))))
(:durative-action deliver
  :parameters ()
  :duration (and (>= ?duration 1) (<= ?duration 10))
  :condition (and (at start (outflow-off)) (over all (>= (level) 2)))
  :effect (and
    (at start (not (outflow-off)))
    (at end (outflow-off))
    (decrease (level) (* #t 2))
    (increase (delivered) (* #t 2)))))
";

const PLANT_PROBLEM: &str = "(define (problem shift)
(:domain plant)
(:init (inflow-off) (outflow-off) (= (level) 5) (= (delivered) 0))
(:goal (and (>= (delivered) 20) (>= (level) 10)))
(:metric minimize (total-time)))
";

const PLANT_VALID: &str =
    "; The level goes from 5 to 8 while the first pump runs alone, to 17 while both run, and to 15 at the end.
0: (fill) [10]
1: (deliver) [10]
";

const PLANT_INVALID: &str =
    "; The first pump runs alone for too long: the level passes 20 at time 5, at no start or end of an action.
0: (fill) [8]
6: (deliver) [10]
";

const TELESCOPE_DOMAIN: &str =
    "; An instrument observes one target after another, each in sunlight alone.
(define (domain telescope)
(:requirements :typing :durative-actions)
(:types target)
(:predicates (sunlit) (ready) (seen ?t - target))
(:durative-action observe
  :parameters (?t - target)
  :duration (= ?duration 4)
  :condition (and (at start (ready)) (over all (sunlit)))
  :effect (and
    (at start (not (ready)))
    (at end (ready))
    (at end (seen ?t)))))
";

const TELESCOPE_PROBLEM: &str = "; The sun shines from 5 to 10 and from 20 to 25.
(define (problem day)
(:domain telescope)
(:requirements :timed-initial-literals)
(:objects north south - target)
(:init
  (ready)
  (at 5 (sunlit)) (at 10 (not (sunlit)))
  (at 20 (sunlit)) (at 25 (not (sunlit))))
(:goal (and (seen north) (seen south))))
";

const TELESCOPE_VALID: &str =
    "; Both observations touch the edge of their window: a condition over all is asked strictly inside.
5: (observe north) [4]
21: (observe south) [4]
";

const TELESCOPE_INVALID: &str = "; The second observation goes on for half a minute in the dark.
5: (observe north) [4]
21.5: (observe south) [4]
";

const PARCELS_DOMAIN: &str = "; A courier carries parcels from place to place.
(define (domain parcels)
(:requirements :typing :fluents :durative-actions)
(:types place)
(:predicates (stands ?p - place) (delivered ?p - place))
(:functions (way ?from ?to - place))
(:durative-action carry
  :parameters (?from ?to - place)
  :duration (= ?duration (way ?from ?to))
  :condition (at start (stands ?from))
  :effect (and
    (at start (not (stands ?from)))
    (at end (stands ?to))
    (at end (delivered ?to)))))
";

const PARCELS_PROBLEM: &str =
    "; Market and school have to be served, the harbour would be nice. The school would like its lunch by 10. What a later
; lunch costs is told in pieces: nothing up to 10, from 2 to 12 up to 20, and 20 from there on.
(define (problem morning)
(:domain parcels)
(:requirements :preferences :constraints :time-costs)
(:objects depot market school harbour - place)
(:init
  (stands depot)
  (= (way depot market) 6)
  (= (way market school) 8)
  (= (way market harbour) 9)
  (= (way school harbour) 11))
(:goal (and (delivered market) (delivered school) (preference far (delivered harbour))))
(:constraints (preference early (within 10 (delivered school))))
(:time-costs (lunch (delivered school) (10 0 0) (20 2 12) (30 20 20)))
(:metric minimize (+
  (total-time)
  (* 40 (is-violated far))
  (* 5 (is-violated early))
  (time-cost lunch))))
";

const PARCELS_VALID: &str =
    "; Lunch comes at 14.001, which breaks `early` and costs 2 + 4.001; the harbour is served by 25.002.
0: (carry depot market) [6]
6.001: (carry market school) [8]
14.002: (carry school harbour) [11]
";

const PARCELS_INVALID: &str =
    "; The harbour is a preference and the school a goal, so this isn't cheap but wrong.
0: (carry depot market) [6]
6.001: (carry market harbour) [9]
";

const CRANES_DOMAIN: &str =
    "; Two cranes hoist boxes from the quay to a deck that has room for one; a box is stowed before the next comes down.
(define (domain cranes)
(:requirements :typing :durative-actions)
(:types crane box)
(:predicates (idle ?c - crane) (on-quay ?b - box) (on-deck ?b - box) (deck-free) (stowed ?b - box))
(:durative-action hoist
  :parameters (?c - crane ?b - box)
  :duration (= ?duration 3)
  :condition (and (at start (idle ?c)) (at start (on-quay ?b)) (at end (deck-free)))
  :effect (and
    (at start (not (idle ?c)))
    (at start (not (on-quay ?b)))
    (at end (not (deck-free)))
    (at end (on-deck ?b))
    (at end (idle ?c))))
(:action stow
  :parameters (?b - box)
  :precondition (on-deck ?b)
  :effect (and (not (on-deck ?b)) (stowed ?b) (deck-free))))
";

const CRANES_PROBLEM: &str = "(define (problem quay)
(:domain cranes)
(:objects left right - crane red blue - box)
(:init (idle left) (idle right) (on-quay red) (on-quay blue) (deck-free))
(:goal (and (stowed red) (stowed blue))))
";

const CRANES_VALID: &str =
    "; What one step changes and the next reads is apart by epsilon, 1/1000, and not by more.
0: (hoist left red) [3]
0.002: (hoist right blue) [3]
3.001: (stow red)
3.003: (stow blue)
";

const CRANES_INVALID: &str =
    "; Both cranes set down at one moment: each needs the deck free, and takes it.
0: (hoist left red) [3]
0: (hoist right blue) [3]
3.001: (stow red)
3.002: (stow blue)
";

const KILN_DOMAIN: &str = "; A kiln must not pass 10 while it warms, and fires at 10 and above.
(define (domain kiln)
(:requirements :fluents :durative-actions :duration-inequalities :continuous-effects)
(:predicates (cold) (fired))
(:functions (heat))
(:durative-action warm
  :parameters ()
  :duration (<= ?duration 10)
  :condition (and (at start (cold)) (over all (<= (heat) 10)))
  :effect (and (at start (not (cold))) (increase (heat) (* #t 7))))
(:action fire
  :parameters ()
  :precondition (>= (heat) 10)
  :effect (fired)))
";

const KILN_PROBLEM: &str = "(define (problem pot)
(:domain kiln)
(:init (cold) (= (heat) 0))
(:goal (fired)))
";

const KILN_VALID: &str =
    "; From 0 to 10 at 7 a minute takes 10/7, which has no decimal form. A third later, all is done at 37/21.
1/3: (warm) [10/7]
37/21: (fire)
";

const KILN_INVALID: &str = "; Six decimal places give 9.999997, and no tolerance makes it 10.
1/3: (warm) [1.428571]
1.761905: (fire)
";

#[test]
fn a_battery_drains_and_charges(rt: HostRuntime) -> Result<(), Fail> {
    let alloc = rt.alloc();
    let valid = [ROVER_DOMAIN, ROVER_PROBLEM, ROVER_VALID];
    assert!(rt; answers(alloc, valid, 0, "valid cost 18.001\n")?);
    let invalid = [ROVER_DOMAIN, ROVER_PROBLEM, ROVER_INVALID];
    let text = "invalid over all line 4 between 8.001 and 17.001\n";
    assert!(rt; answers(alloc, invalid, 1, text)?);
    Ok(())
}

#[test]
fn a_tank_stands_between_two_pumps(rt: HostRuntime) -> Result<(), Fail> {
    let alloc = rt.alloc();
    let valid = [PLANT_DOMAIN, PLANT_PROBLEM, PLANT_VALID];
    assert!(rt; answers(alloc, valid, 0, "valid cost 11.000\n")?);
    let invalid = [PLANT_DOMAIN, PLANT_PROBLEM, PLANT_INVALID];
    let text = "invalid over all line 2 between 0.000 and 6.000\n";
    assert!(rt; answers(alloc, invalid, 1, text)?);
    Ok(())
}

#[test]
fn an_instrument_waits_for_sunlight(rt: HostRuntime) -> Result<(), Fail> {
    let alloc = rt.alloc();
    let valid = [TELESCOPE_DOMAIN, TELESCOPE_PROBLEM, TELESCOPE_VALID];
    assert!(rt; answers(alloc, valid, 0, "valid cost 25.000\n")?);
    let invalid = [TELESCOPE_DOMAIN, TELESCOPE_PROBLEM, TELESCOPE_INVALID];
    let text = "invalid over all line 3 between 25.000 and 25.500\n";
    assert!(rt; answers(alloc, invalid, 1, text)?);
    Ok(())
}

#[test]
fn deliveries_may_be_late(rt: HostRuntime) -> Result<(), Fail> {
    let alloc = rt.alloc();
    let valid = [PARCELS_DOMAIN, PARCELS_PROBLEM, PARCELS_VALID];
    assert!(rt; answers(alloc, valid, 0, "valid cost 36.003\n")?);
    let invalid = [PARCELS_DOMAIN, PARCELS_PROBLEM, PARCELS_INVALID];
    assert!(rt; answers(alloc, invalid, 1, "invalid goal\n")?);
    Ok(())
}

#[test]
fn cranes_keep_apart(rt: HostRuntime) -> Result<(), Fail> {
    let alloc = rt.alloc();
    let valid = [CRANES_DOMAIN, CRANES_PROBLEM, CRANES_VALID];
    assert!(rt; answers(alloc, valid, 0, "valid cost 3.003\n")?);
    let invalid = [CRANES_DOMAIN, CRANES_PROBLEM, CRANES_INVALID];
    assert!(rt; answers(alloc, invalid, 1, "invalid clash lines 2 3\n")?);
    Ok(())
}

#[test]
fn numbers_need_no_decimals(rt: HostRuntime) -> Result<(), Fail> {
    let alloc = rt.alloc();
    let valid = [KILN_DOMAIN, KILN_PROBLEM, KILN_VALID];
    assert!(rt; answers(alloc, valid, 0, "valid cost 37/21\n")?);
    let invalid = [KILN_DOMAIN, KILN_PROBLEM, KILN_INVALID];
    assert!(rt; answers(alloc, invalid, 1, "invalid at start line 3\n")?);
    Ok(())
}
