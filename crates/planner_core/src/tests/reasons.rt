//! Each reason why a plan isn't valid, and each place at which something is past 128 bits.

use super::{DOMAIN, PROBLEM, answers};
use std::test::Fail;

const FLAGS: &str = "(define (domain flags) (:predicates (p) (q))
(:action set :effect (p)) (:action use :precondition (p) :effect (q)))";

const FLAGS_PROBLEM: &str = "(define (problem f) (:domain flags) (:init) (:goal (q)))";

#[test]
fn lines_and_their_numbers_are_told(rt: HostRuntime) -> Result<(), Fail> {
    for (plan, text) in [
        ("; full\n-1: (fill) [5]", "invalid time line 2\n"),
        ("999996: (fill) [5]", "invalid time line 1\n"),
        ("\n\n0: (fill) [4]", "invalid duration line 3\n"),
        (
            "0: (fill) [5]\n9: (fill) [5]",
            "invalid over all line 2 between 9.000 and 14.000\n",
        ),
    ] {
        assert!(rt;
            answers(rt.alloc(), [DOMAIN, PROBLEM, plan], 1, text)?,
            "{text}"
        );
    }
    Ok(())
}

#[test]
fn clashes_are_told(rt: HostRuntime) -> Result<(), Fail> {
    for (texts, text) in [
        (
            [FLAGS, FLAGS_PROBLEM, "1: (set)\n1: (use)"],
            "invalid clash lines 1 2\n",
        ),
        (
            [
                "(define (domain gate) (:predicates (open) (through))
(:durative-action pass :duration (= ?duration 4) :condition (at start (open)) :effect (at end (through))))",
                "(define (problem g) (:domain gate) (:init (at 5 (open)) (at 10 (not (open)))) (:goal (through)))",
                "5: (pass) [4]",
            ],
            "invalid clash line 1 timed 5.000\n",
        ),
    ] {
        assert!(rt; answers(rt.alloc(), texts, 1, text)?, "{text}");
    }
    Ok(())
}

#[test]
fn conditions_that_fail_are_told(rt: HostRuntime) -> Result<(), Fail> {
    for (texts, text) in [
        (
            [FLAGS, FLAGS_PROBLEM, "1: (use)\n2: (set)"],
            "invalid at start line 1\n",
        ),
        (
            [
                "(define (domain wait) (:predicates (p) (q)) (:action set :effect (p))
(:durative-action wait :duration (= ?duration 1) :condition (at end (p)) :effect (at end (q))))",
                "(define (problem w) (:domain wait) (:init) (:goal (q)))",
                "0: (wait) [1]\n2: (set)",
            ],
            "invalid at end line 1\n",
        ),
        ([FLAGS, FLAGS_PROBLEM, "1: (set)"], "invalid goal\n"),
        (
            [
                FLAGS,
                "(define (problem f) (:domain flags) (:init) (:goal (p)) (:constraints (and (sometime (p)) (sometime (q)))))",
                "1: (set)",
            ],
            "invalid constraint 2\n",
        ),
    ] {
        assert!(rt; answers(rt.alloc(), texts, 1, text)?, "{text}");
    }
    Ok(())
}

#[test]
fn numbers_past_128_bits_are_told(rt: HostRuntime) -> Result<(), Fail> {
    for (texts, text) in [
        (
            [
                DOMAIN,
                PROBLEM,
                "1/170141183460469231731687303715884105727: (fill) [1/3]",
            ],
            "wide line 1\n",
        ),
        (
            [
                "(define (domain grow) (:functions (f))
(:action grow :effect (assign (f) (* 999999999999999999 (f)))))",
                "(define (problem w) (:domain grow) (:init (= (f) 1)) (:goal (and)))",
                "1: (grow)\n2: (grow)\n3: (grow)",
            ],
            "wide happening 2\n",
        ),
    ] {
        assert!(rt; answers(rt.alloc(), texts, 4, text)?, "{text}");
    }
    Ok(())
}
