//! Each kind of refusal, with a text that causes it and its place.

use super::{DOMAIN, PLAN, PROBLEM, answers};
use std::alloc::{AllocError, Global};
use std::test::Fail;

const READY: &str = "(define (domain ready) (:predicates (p)))";

const SETTING: &str = "(define (domain setting) (:predicates (p) (q))
(:action set :effect (q)) (:action never :precondition (p) :effect (q)))";

const SETTING_PROBLEM: &str = "(define (problem s) (:domain setting) (:init) (:goal (and)))";

// What refuses a domain, whatever the problem and the plan are.
fn domain_answers(alloc: Global, domain: &str, text: &str) -> Result<bool, AllocError> {
    answers(alloc, [domain, "", ""], 3, text)
}

#[test]
fn tokens_are_refused(rt: HostRuntime) -> Result<(), Fail> {
    let alloc = rt.alloc();
    let deep =
        "((((((((((((((((((((((((((((((((((((((((((((((((((((((((((((((((()))))))))))))))))))))))))))))))))))))))))))))))))))))))))))))))))";
    let long =
        "(define (domain aaaaaaaaaaaaaaaaaaaaaaaaaaaaaaaaaaaaaaaaaaaaaaaaaaaaaaaaaaaaaaaaa))";
    for (domain, text) in [
        ("(define (domain d) $x)", "refused domain Byte at byte 19\n"),
        ("(define (domain d)", "refused domain Open at byte 0\n"),
        ("(define (domain d)))", "refused domain Close at byte 19\n"),
        (deep, "refused domain Deep at byte 64\n"),
        (long, "refused domain LongName at byte 16\n"),
        (
            "(define (domain d) 1.2.3)",
            "refused domain Number at byte 19\n",
        ),
        ("", "refused domain Shape at byte 0\n"),
    ] {
        assert!(rt; domain_answers(alloc, domain, text)?, "{text}");
    }
    Ok(())
}

#[test]
fn domains_are_refused(rt: HostRuntime) -> Result<(), Fail> {
    for (domain, text) in [
        (
            "(define (domain d) (:action a :precondition (p) :effect ()))",
            "refused domain Name at byte 45\n",
        ),
        (
            "(define (domain d) (:types a b a))",
            "refused domain Double at byte 31\n",
        ),
        (
            "(define (domain d) (:types t u) (:predicates (at ?x - t)) (:action a :parameters (?y - u) :precondition (at ?y) :effect ()))",
            "refused domain Sort at byte 108\n",
        ),
        (
            "(define (domain d) (:predicates (at ?x)) (:action a :precondition (at) :effect ()))",
            "refused domain Arity at byte 66\n",
        ),
        (
            "(define (domain d) (:functions (f)) (:action a :precondition (< (f) 5) :effect ()))",
            "refused domain Strict at byte 61\n",
        ),
        (
            "(define (domain d) (:functions (f)) (:action a :effect (increase (f) (* (f) (f)))))",
            "refused domain Nonlinear at byte 69\n",
        ),
        (
            "(define (domain d) (:predicates (p)) (:action a :precondition (or (p) (p)) :effect ()))",
            "refused domain LeftOut at byte 62\n",
        ),
        (
            "(define (domain d) (:requirements :derived-predicates))",
            "refused domain Requirement at byte 34\n",
        ),
        (
            "(define (domain d) (:predicates (p ?a ?b ?c ?d ?e ?f ?g ?h ?i ?j ?k ?l ?m)))",
            "refused domain Limit at byte 71\n",
        ),
        (PROBLEM, "refused domain Shape at byte 9\n"),
    ] {
        assert!(rt; domain_answers(rt.alloc(), domain, text)?, "{text}");
    }
    Ok(())
}

#[test]
fn problems_are_refused(rt: HostRuntime) -> Result<(), Fail> {
    for (problem, text) in [
        (
            "(define (problem r) (:domain ready) (:init))",
            "refused problem Shape at byte 43\n",
        ),
        (
            "(define (problem r) (:domain other) (:init) (:goal (and)))",
            "refused problem Name at byte 29\n",
        ),
        (
            "(define (problem r) (:domain ready) (:init (at 0 (p))) (:goal (p)))",
            "refused problem TilClash at byte 47\n",
        ),
        (
            "(define (problem r) (:domain ready) (:init) (:goal (p)) (:metric maximize (total-time)))",
            "refused problem MetricSign at byte 74\n",
        ),
    ] {
        assert!(rt;
            answers(rt.alloc(), [READY, problem, ""], 3, text)?,
            "{text}"
        );
    }
    Ok(())
}

#[test]
fn ground_tasks_are_refused(rt: HostRuntime) -> Result<(), Fail> {
    let alloc = rt.alloc();
    let unvalued = PROBLEM.replace(alloc, "(= (level) 0)", "")?;
    for (domain, problem, text) in [
        (
            "(define (domain d) (:predicates (p)) (:action a :parameters (?w ?x ?y ?z) :effect (p)))",
            "(define (problem q) (:domain d) (:objects a b c d e f g h i j k l m n o p q r s t u v w x y z a1 b1 c1 d1 e1 f1 g1) (:init) (:goal (p)))",
            "refused ground Bindings\n",
        ),
        (
            "(define (domain d) (:predicates (near ?a ?b)))",
            "(define (problem q) (:domain d) (:objects a b c d e f g h i j k l m n o p q r s t u v w) (:init) (:goal (forall (?x ?y) (preference close (near ?x ?y)))))",
            "refused ground Terms\n",
        ),
        (
            DOMAIN,
            unvalued.as_str(),
            "refused ground NoValue at byte 55\n",
        ),
        (
            "(define (domain d) (:functions (f)) (:action a :effect (assign (f) (* 999999999999999999 999999999999999999 999))))",
            "(define (problem q) (:domain d) (:init (= (f) 0)) (:goal (and)))",
            "refused ground Wide at byte 67\n",
        ),
    ] {
        assert!(rt; answers(alloc, [domain, problem, PLAN], 3, text)?, "{text}");
    }
    Ok(())
}

// So many lines which each set the flag once more.
fn many_lines(alloc: Global, count: usize) -> Result<String, AllocError> {
    let mut lines = String::new(alloc);
    for _ in 0..count {
        lines.push_str("0: (set)\n")?;
    }
    Ok(lines)
}

#[test]
fn plans_are_refused(rt: HostRuntime) -> Result<(), Fail> {
    for (plan, text) in [
        ("0 (fill) [5]", "refused plan Shape at line 1\n"),
        ("; now\n0: (fill)", "refused plan Shape at line 2\n"),
        (".5: (fill) [5]", "refused plan Number at line 1\n"),
        (
            "0.000: (fill) [5]\n0.000: (spill) [1]",
            "refused plan Name at line 2\n",
        ),
    ] {
        assert!(rt;
            answers(rt.alloc(), [DOMAIN, PROBLEM, plan], 3, text)?,
            "{text}"
        );
    }
    Ok(())
}

#[test]
fn plans_of_other_tasks_are_refused(rt: HostRuntime) -> Result<(), Fail> {
    let alloc = rt.alloc();
    let lines = many_lines(alloc, 4097)?;
    for (plan, text) in [
        ("0: (never)", "refused plan Unground at line 1\n"),
        (lines.as_str(), "refused plan Limit at line 4097\n"),
    ] {
        assert!(rt;
            answers(alloc, [SETTING, SETTING_PROBLEM, plan], 3, text)?,
            "{text}"
        );
    }
    Ok(())
}
