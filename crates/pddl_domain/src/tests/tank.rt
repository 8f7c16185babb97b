//! The domain of the tank: its beginnings, and its tree.

use crate::read_domain;
use exact_lin::{Fraction, Scalar};
use pddl_terms::{
    ActionBody, ActionDef, Call, Comparison, CondTree, Declared, Domain, DurTree, ExprTree, Kind,
    Name, PddlFault, RateTree, TimedCond, TimedEff, Trend,
};
use sexpr_text::LexFault;
use std::alloc::Global;

const TANK: &str =
    "(define (domain tank)\n(:requirements :fluents :durative-actions :continuous-effects)\n(:functions (level))\n(:durative-action fill\n:parameters ()\n:duration (= ?duration 5)\n:condition (over all (<= (level) 10))\n:effect (increase (level) (* #t 2))))\n";

/// What the first bytes of the tank are refused for, if they are refused.
fn fault_of(alloc: Global, length: usize) -> Option<PddlFault> {
    let text = TANK.as_bytes();
    if length > text.len() || text.len() > 10000 {
        return Some(PddlFault::Memory);
    }
    match read_domain(alloc, &text[..length]) {
        Ok(_) => None,
        Err(fault) => Some(fault),
    }
}

/// Without the last line feed the domain is whole.
fn wanted(length: usize) -> Option<PddlFault> {
    if length == 0 {
        Some(PddlFault::At(Kind::Shape, 0))
    } else if length < 245 {
        Some(PddlFault::Lex(LexFault::Open(0)))
    } else {
        None
    }
}

#[test]
fn beginnings_of_the_tank(rt: HostRuntime) {
    for length in 0..=246 {
        assert_eq!(rt; fault_of(rt.alloc(), length), wanted(length));
    }
}

fn is_name(name: &Name, word: &[u8]) -> bool {
    name.bytes.as_slice() == word
}

fn is_number(tree: &ExprTree, value: i32) -> bool {
    match tree {
        ExprTree::Number(_, number) => *number == Fraction::of_int(value),
        _ => false,
    }
}

fn is_level(tree: &ExprTree) -> bool {
    match tree {
        ExprTree::Fluent(fluent) => is_name(&fluent.name, b"level") && fluent.terms.is_empty(),
        _ => false,
    }
}

/// `(= ?duration 5)`.
fn takes_five(tree: &DurTree) -> bool {
    match tree {
        DurTree::Bound(_, Comparison::Equal, bound) => is_number(bound, 5),
        _ => false,
    }
}

/// `(over all (<= (level) 10))`.
fn is_kept_low(tree: &Option<TimedCond>) -> bool {
    match tree {
        Some(TimedCond::OverAll(_, CondTree::Compare(_, Comparison::AtMost, left, right))) => {
            is_level(left) && is_number(right, 10)
        }
        _ => false,
    }
}

/// `(increase (level) (* #t 2))`.
fn rises_by_two(tree: &Option<TimedEff>) -> bool {
    match tree {
        Some(TimedEff::Rate(_, Trend::Rises, Call::Named(fluent), RateTree::Times(_, rate))) =>
            is_name(&fluent.name, b"level") && is_number(rate, 2),
        _ => false,
    }
}

fn is_fill(action: &ActionDef) -> bool {
    match &action.body {
        ActionBody::Durative(duration, condition, effect) => {
            action.at == 106
                && is_name(&action.name, b"fill")
                && action.parameters.is_empty()
                && takes_five(duration)
                && is_kept_low(condition)
                && rises_by_two(effect)
        }
        ActionBody::Instant(_, _) => false,
    }
}

fn declares_level(declared: &Declared) -> bool {
    match declared {
        Declared::Named(97, name, parameters) => is_name(name, b"level") && parameters.is_empty(),
        _ => false,
    }
}

fn is_tank(domain: &Domain) -> bool {
    is_name(&domain.name, b"tank")
        && domain.requirements.len() == 3
        && domain.types.is_empty()
        && domain.functions.as_slice().iter().all(declares_level)
        && domain.functions.len() == 1
        && domain.actions.as_slice().iter().all(is_fill)
        && domain.actions.len() == 1
        && domain.left_out.is_empty()
}

#[test]
fn tree_of_the_tank(rt: HostRuntime) {
    let text = TANK.as_bytes();
    if text.len() < 10000 {
        match read_domain(rt.alloc(), text) {
            Ok(domain) => assert!(rt; is_tank(&domain)),
            Err(_) => assert!(rt; false),
        }
    }
}
