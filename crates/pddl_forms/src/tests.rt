//! Each kind at its places, and each limit at it and past it, in files made by hand around parts that are read from texts.

ghost use Rattle.std.specs.Prelude.{◌<◌, length, IfOk};

mod files;

use crate::{
    domain_form_offence, domain_limit_offence, problem_form_offence, problem_limit_offence,
};
use files::{
    constrained_problem, domain_with_condition, domain_with_rate, domain_with_requirement,
    large_domain, large_problem, problem_with_cost, problem_with_literals, problem_with_pieces,
};
use pddl_names::Offence;
use pddl_terms::{Kind, PddlFault, read_condition, read_constraint};
use sexpr_text::{Forms, read_forms};
use std::alloc::Global;

fn forms_of(alloc: Global, text: &[u8]) -> Result<Forms, PddlFault>
    ensures { IfOk result (λ forms. 1 < length forms.tokens) }
{
    if text.len() > 200 {
        return Err(PddlFault::Memory);
    }
    let forms = match read_forms(alloc, text) {
        Ok(forms) => forms,
        Err(fault) => return Err(PddlFault::Lex(fault)),
    };
    if forms.tokens().len() > 1 {
        Ok(forms)
    } else {
        Err(PddlFault::Memory)
    }
}

/// What is wrong, or `Shape` at a place that no text has where a part of the file wasn't made.
fn told(answer: Result<Option<Offence>, PddlFault>) -> Option<(Kind, u32)> {
    match answer {
        Ok(Some(found)) => Some((found.kind, found.place)),
        Ok(None) => None,
        Err(_) => Some((Kind::Shape, u32::MAX)),
    }
}

fn condition(alloc: Global, text: &[u8]) -> Result<Option<Offence>, PddlFault> {
    let forms = forms_of(alloc, text)?;
    let tree = read_condition(alloc, &forms, 0)?;
    let domain = domain_with_condition(alloc, tree)?;
    Ok(domain_form_offence(alloc, &domain)?)
}

#[test]
fn conditions_have_their_offences(rt: HostRuntime) {
    let rows = [
        (b"(and (p) (not (p)) (<= (f) 5))".as_slice(), None),
        (b"(and (p) (< (f) 5))", Some((Kind::Strict, 9))),
        (b"(> (f) 5)", Some((Kind::Strict, 0))),
        (b"(not (<= (f) 5))", Some((Kind::Strict, 0))),
        (b"(not (= (f) 5))", Some((Kind::Strict, 0))),
        (b"(not (= a b))", None),
        (b"(not (= ?x f))", None),
        (b"(not (= f g))", Some((Kind::Strict, 0))),
        (b"(not (not (= a b)))", Some((Kind::Strict, 0))),
        (b"(= f g)", None),
        (b"(and (> (f) 1) (or (p)))", Some((Kind::Strict, 5))),
        (b"(and (or (p)) (> (f) 1))", Some((Kind::LeftOut, 5))),
        (b"(not (exists 5))", Some((Kind::LeftOut, 5))),
        (
            b"(forall (?x - (either a b)) (p))",
            Some((Kind::LeftOut, 14)),
        ),
    ];
    for (text, offence) in rows {
        assert_eq!(rt; told(condition(rt.alloc(), text)), offence);
    }
}

#[test]
fn expressions_are_linear(rt: HostRuntime) {
    let rows = [
        (b"(<= (* 2 (f) (g)) (- (/ (f) (g)) 3))".as_slice(), None),
        (b"(<= (* (f) (f)) 5)", Some((Kind::Nonlinear, 4))),
        (b"(= 5 (* f 2 f))", Some((Kind::Nonlinear, 5))),
        (b"(<= 0 (* (* 0 (f)) (f)))", Some((Kind::Nonlinear, 6))),
        (b"(<= 0 (* (g) (* (f) (f))))", Some((Kind::Nonlinear, 13))),
        (b"(<= 1 (/ 1 (f)))", Some((Kind::Nonlinear, 6))),
        (b"(<= 1 (/ (f) (+ 1 (g))))", None),
        (
            b"(<= (either 1) (* (f) (when 1)))",
            Some((Kind::LeftOut, 4)),
        ),
    ];
    for (text, offence) in rows {
        assert_eq!(rt; told(condition(rt.alloc(), text)), offence);
    }
}

fn constraint(alloc: Global, text: &[u8]) -> Result<Option<Offence>, PddlFault> {
    let forms = forms_of(alloc, text)?;
    let tree = read_constraint(alloc, &forms, 0)?;
    let domain = domain_with_requirement(alloc, b":strips")?;
    let problem = constrained_problem(alloc, tree)?;
    Ok(problem_form_offence(alloc, &domain, &problem)?)
}

#[test]
fn constraints_speak_of_facts(rt: HostRuntime) {
    let rows = [
        (b"(and (always (imply (p) (not (= a b)))))".as_slice(), None),
        (b"(always (= (f) 5))", Some((Kind::LeftOut, 8))),
        (b"(sometime (not (= (f) 5)))", Some((Kind::LeftOut, 15))),
        (
            b"(preference q (hold-during 1 2 (p)))",
            Some((Kind::LeftOut, 14)),
        ),
        (b"(sometime-after (p) (when 5))", Some((Kind::LeftOut, 20))),
    ];
    for (text, offence) in rows {
        assert_eq!(rt; told(constraint(rt.alloc(), text)), offence);
    }
}

fn requirement(alloc: Global, flag: &[u8]) -> Result<Option<Offence>, PddlFault> {
    let domain = domain_with_requirement(alloc, flag)?;
    Ok(domain_form_offence(alloc, &domain)?)
}

#[test]
fn requirements_are_known(rt: HostRuntime) {
    let known = [
        b":strips".as_slice(),
        b":typing",
        b":negative-preconditions",
        b":disjunctive-preconditions",
        b":existential-preconditions",
        b":universal-preconditions",
        b":quantified-preconditions",
        b":equality",
        b":adl",
        b":conditional-effects",
        b":fluents",
        b":numeric-fluents",
        b":action-costs",
        b":durative-actions",
        b":duration-inequalities",
        b":continuous-effects",
        b":timed-initial-literals",
        b":preferences",
        b":constraints",
        b":time-costs",
        b":time",
    ];
    for flag in known {
        assert_eq!(rt; told(requirement(rt.alloc(), flag)), None);
    }
    for flag in [b":derived-predicates".as_slice(), b":strip", b"strips"] {
        assert_eq!(rt;
            told(requirement(rt.alloc(), flag)),
            Some((Kind::Requirement, 7))
        );
    }
}

fn rate(alloc: Global, function: &[u8]) -> Result<Option<Offence>, PddlFault> {
    let domain = domain_with_rate(alloc, function)?;
    Ok(domain_form_offence(alloc, &domain)?)
}

#[test]
fn rates_are_constants(rt: HostRuntime) {
    assert_eq!(rt; told(rate(rt.alloc(), b"g")), None);
    // It is changed by that rate alone.
    assert_eq!(rt; told(rate(rt.alloc(), b"f")), Some((Kind::Nonlinear, 9)));
}

fn literals(
    alloc: Global,
    first: (i32, bool),
    second: (i32, bool),
) -> Result<Option<Offence>, PddlFault> {
    let domain = domain_with_requirement(alloc, b":strips")?;
    let problem = problem_with_literals(alloc, first, second)?;
    Ok(problem_form_offence(alloc, &domain, &problem)?)
}

#[test]
fn timed_literals_agree(rt: HostRuntime) {
    let rows = [
        ((5, true), (10, false), None),
        ((5, true), (5, true), None),
        ((5, true), (5, false), Some((Kind::TilClash, 20))),
        ((5, false), (5, true), Some((Kind::TilClash, 20))),
        ((0, true), (5, true), Some((Kind::TilClash, 14))),
        ((5, true), (-1, false), Some((Kind::TilClash, 24))),
    ];
    for (first, second, offence) in rows {
        assert_eq!(rt; told(literals(rt.alloc(), first, second)), offence);
    }
}

fn cost(alloc: Global, soft: i32, hard: i32, top: i32) -> Result<Option<Offence>, PddlFault> {
    let domain = domain_with_requirement(alloc, b":strips")?;
    let problem = problem_with_cost(alloc, soft, hard, top)?;
    Ok(problem_form_offence(alloc, &domain, &problem)?)
}

#[test]
fn time_costs_rise(rt: HostRuntime) {
    let rows = [
        (0, 1, 0, None),
        (2, 6, 8, None),
        (-1, 6, 8, Some((Kind::Nonlinear, 30))),
        (2, 2, 8, Some((Kind::Nonlinear, 30))),
        (2, 6, -1, Some((Kind::Nonlinear, 30))),
    ];
    for (soft, hard, top, offence) in rows {
        assert_eq!(rt; told(cost(rt.alloc(), soft, hard, top)), offence);
    }
}

fn pieces(
    alloc: Global,
    first: (i32, i32, i32),
    second: (i32, i32, i32),
) -> Result<Option<Offence>, PddlFault> {
    let domain = domain_with_requirement(alloc, b":strips")?;
    let problem = problem_with_pieces(alloc, first, second)?;
    Ok(problem_form_offence(alloc, &domain, &problem)?)
}

#[test]
fn pieces_rise(rt: HostRuntime) {
    let rows = [
        ((2, 0, 0), (6, 1, 5), None),
        ((0, 0, 0), (6, 1, 5), Some((Kind::Nonlinear, 40))),
        ((2, -1, 0), (6, 1, 5), Some((Kind::Nonlinear, 40))),
        ((2, 0, 2), (2, 2, 5), Some((Kind::Nonlinear, 50))),
        ((2, 0, 2), (6, 1, 5), Some((Kind::Nonlinear, 50))),
        ((2, 0, 0), (6, 1, 0), Some((Kind::Nonlinear, 50))),
    ];
    for (first, second, offence) in rows {
        assert_eq!(rt; told(pieces(rt.alloc(), first, second)), offence);
    }
}

fn domain_limit(
    alloc: Global,
    constants: u32,
    predicate: u32,
    action: u32,
) -> Result<Option<Offence>, PddlFault> {
    let domain = large_domain(alloc, constants, predicate, action)?;
    Ok(domain_limit_offence(&domain))
}

#[test]
fn domains_have_limits(rt: HostRuntime) {
    let rows = [
        (512, 12, 12, None),
        (513, 12, 12, Some((Kind::Limit, 512))),
        (600, 12, 12, Some((Kind::Limit, 512))),
        (512, 13, 12, Some((Kind::Limit, 12))),
        (512, 12, 13, Some((Kind::Limit, 12))),
    ];
    for (constants, predicate, action, offence) in rows {
        assert_eq!(rt;
            told(domain_limit(rt.alloc(), constants, predicate, action)),
            offence
        );
    }
}

fn problem_limit(
    alloc: Global,
    constants: u32,
    objects: u32,
    pieces: u32,
) -> Result<Option<Offence>, PddlFault> {
    let domain = large_domain(alloc, constants, 0, 0)?;
    let problem = large_problem(alloc, objects, pieces)?;
    Ok(problem_limit_offence(&domain, &problem))
}

#[test]
fn problems_have_limits(rt: HostRuntime) {
    let rows = [
        (0, 512, 16, None),
        (0, 513, 16, Some((Kind::Limit, 512))),
        (500, 12, 16, None),
        (500, 13, 16, Some((Kind::Limit, 12))),
        (512, 0, 16, None),
        (512, 1, 16, Some((Kind::Limit, 0))),
        (0, 0, 17, Some((Kind::Limit, 16))),
    ];
    for (constants, objects, pieces, offence) in rows {
        assert_eq!(rt;
            told(problem_limit(rt.alloc(), constants, objects, pieces)),
            offence
        );
    }
}
