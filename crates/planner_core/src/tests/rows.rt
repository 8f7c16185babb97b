//! Small tasks, each with a plan and what is answered to it.

use super::{DOMAIN, PLAN, PROBLEM, answers, desk_of, replies};
use std::test::Fail;

const FLAGS: &str = "(define (domain flags) (:predicates (p) (q))
(:action set :effect (p)) (:action use :precondition (p) :effect (q)))";

const FLAGS_PROBLEM: &str = "(define (problem f) (:domain flags) (:init) (:goal (q)))";

const CHARGE: &str = "(define (domain charge) (:functions (level))
(:durative-action fill :duration (and (>= ?duration 1) (<= ?duration (level)))
:effect (increase (level) (* #t 2))))";

const CHARGE_PROBLEM: &str =
    "(define (problem h) (:domain charge) (:init (= (level) 0)) (:goal (and)))";

#[test]
fn tanks_are_filled(rt: HostRuntime) -> Result<(), Fail> {
    let alloc = rt.alloc();
    let (from_one, to_eleven) = (
        PROBLEM.replace(alloc, "(level) 0", "(level) 1")?,
        PROBLEM.replace(alloc, "(level) 10", "(level) 11")?,
    );
    for (problem, plan, code, text) in [
        (PROBLEM, PLAN, 0, "valid cost 5.000\n"),
        (
            PROBLEM,
            "; full\r\n\n 0 :( Fill )[10/2] ; now",
            0,
            "valid cost 5.000\n",
        ),
        (PROBLEM, "0.25: (fill) [5]", 0, "valid cost 5.250\n"),
        (PROBLEM, "1/3: (fill) [5]", 0, "valid cost 16/3\n"),
        (
            from_one.as_str(),
            PLAN,
            1,
            "invalid over all line 1 between 0.000 and 5.000\n",
        ),
        (to_eleven.as_str(), PLAN, 1, "invalid goal\n"),
        (PROBLEM, "", 1, "invalid goal\n"),
    ] {
        assert!(rt;
            answers(alloc, [DOMAIN, problem, plan], code, text)?,
            "{text}"
        );
    }
    Ok(())
}

#[test]
fn flags_are_set_before_they_are_used(rt: HostRuntime) -> Result<(), Fail> {
    let alloc = rt.alloc();
    for (words, plan, code, text) in [
        (
            "validate tank.pddl tank_problem.pddl tank.plan",
            "1.000: (set)\n1.001: (use)\n",
            0,
            "valid cost 1.001\n",
        ),
        (
            "validate tank.pddl tank_problem.pddl tank.plan",
            "1.000: (set)\n1.0009: (use)\n",
            1,
            "invalid clash lines 1 2\n",
        ),
        (
            "validate tank.pddl tank_problem.pddl tank.plan --epsilon 0.0005",
            "1.000: (set)\n1.0009: (use)\n",
            0,
            "valid cost 1.0009\n",
        ),
    ] {
        let desk = desk_of(alloc, [FLAGS, FLAGS_PROBLEM, plan], "", 0)?;
        assert!(rt; replies(alloc, words, desk, code, text)?, "{words} {plan}");
    }
    Ok(())
}

#[test]
fn costs_are_told(rt: HostRuntime) -> Result<(), Fail> {
    for (texts, text) in [
        (
            [
                "(define (domain meters) (:predicates (pa) (pb)) (:functions (total-cost))
(:action a :effect (and (pa) (increase (total-cost) 2)))
(:action b :effect (and (pb) (increase (total-cost) 2))))",
                "(define (problem m) (:domain meters) (:init (= (total-cost) 0)) (:goal (and (pa) (pb)))
(:metric minimize (total-cost)))",
                "0: (a)\n0: (b)\n",
            ],
            "valid cost 4.000\n",
        ),
        (
            [
                "(define (domain ready) (:predicates (p)))",
                "(define (problem r) (:domain ready) (:init (p)) (:goal (p)))",
                "",
            ],
            "valid cost 0.000\n",
        ),
        (
            [
                "(define (domain spots) (:types spot) (:predicates (tidy ?x - spot)))",
                "(define (problem s) (:domain spots) (:objects a b - spot) (:init)
(:goal (forall (?x - spot) (preference clean (tidy ?x))))
(:metric minimize (* 2 (is-violated clean))))",
                "",
            ],
            "valid cost 4.000\n",
        ),
    ] {
        assert!(rt; answers(rt.alloc(), texts, 0, text)?, "{text}");
    }
    Ok(())
}

#[test]
fn a_bound_by_a_fluent_is_read_at_the_start(rt: HostRuntime) -> Result<(), Fail> {
    let texts = [CHARGE, CHARGE_PROBLEM, "0: (fill) [1]\n"];
    assert!(rt; answers(rt.alloc(), texts, 1, "invalid duration line 1\n")?);
    Ok(())
}
