//! Metrics made by hand, each with its first term that rewards a plan.

mod files;

use crate::metric_sign_offence;
use exact_lin::NoMemory;
use files::{
    difference, domain, fluent, number, problem, product, quotient, sum, time_cost, total_time,
    violated,
};
use pddl_names::Offence;
use pddl_terms::{Aim, ExprTree, Kind, Metric};
use std::alloc::Global;

fn asked(
    alloc: Global,
    value: Option<i32>,
    metric: Option<Metric>,
) -> Result<Option<Offence>, NoMemory> {
    let domain = domain(alloc)?;
    let problem = problem(alloc, value, metric)?;
    metric_sign_offence(alloc, &domain, &problem)
}

/// What is wrong, where the first value of `f` is this, or `Shape` at a place that no text has where memory ran out.
fn told(
    alloc: Global,
    value: Option<i32>,
    aim: Aim,
    expression: Result<ExprTree, NoMemory>,
) -> Option<(Kind, u32)> {
    let Ok(expression) = expression else {
        return Some((Kind::Shape, u32::MAX));
    };
    match asked(alloc, value, Some(Metric { aim, expression })) {
        Ok(Some(found)) => Some((found.kind, found.place)),
        Ok(None) => None,
        Err(NoMemory) => Some((Kind::Shape, u32::MAX)),
    }
}

/// Each of the terms times a number, with the terms at bytes 10, 20 and 30.
fn three_terms(alloc: Global, numbers: (i32, i32, i32)) -> Result<ExprTree, NoMemory> {
    let total = product(alloc, number(numbers.0), total_time(10))?;
    let late = product(alloc, number(numbers.1), violated(alloc, 20)?)?;
    let both = sum(alloc, total, late)?;
    let fee = product(alloc, number(numbers.2), time_cost(alloc, 30)?)?;
    sum(alloc, both, fee)
}

#[test]
fn terms_may_only_cost(rt: HostRuntime) {
    let rows = [
        (Aim::Minimize, (1, 3, 2), None),
        (Aim::Minimize, (0, 0, 0), None),
        (Aim::Minimize, (-1, 3, -2), Some((Kind::MetricSign, 10))),
        (Aim::Minimize, (1, -3, 2), Some((Kind::MetricSign, 20))),
        (Aim::Minimize, (0, 0, -2), Some((Kind::MetricSign, 30))),
        (Aim::Maximize, (-1, -3, -2), None),
        (Aim::Maximize, (-1, -3, 2), Some((Kind::MetricSign, 30))),
        (Aim::Maximize, (1, 0, 0), Some((Kind::MetricSign, 10))),
    ];
    for (aim, numbers, offence) in rows {
        let metric = three_terms(rt.alloc(), numbers);
        assert_eq!(rt; told(rt.alloc(), Some(1), aim, metric), offence);
    }
}

/// `(- (total-time) (* f (total-time)))`, with the terms at bytes 10 and 20.
fn twice(alloc: Global) -> Result<ExprTree, NoMemory> {
    let first = total_time(10);
    let second = product(alloc, fluent(alloc, b"f")?, total_time(20))?;
    difference(alloc, first, second)
}

#[test]
fn occurrences_count_together(rt: HostRuntime) {
    let rows = [
        (Some(1), None),
        (Some(-3), None),
        (Some(2), Some((Kind::MetricSign, 10))),
        (None, None),
    ];
    for (value, offence) in rows {
        assert_eq!(rt;
            told(rt.alloc(), value, Aim::Minimize, twice(rt.alloc())),
            offence
        );
    }
}

/// A part of a metric, beside the negative of the total time at byte 10.
#[derive(Clone, Copy)]
enum Beside {
    Constant,
    Changing,
    Divided,
    Squared,
    Wide,
}

/// 2 ^ 124, 2 ^ 31 times itself.
fn wide(alloc: Global) -> Result<ExprTree, NoMemory> {
    let square = product(alloc, number(i32::MIN), number(i32::MIN))?;
    let other = product(alloc, number(i32::MIN), number(i32::MIN))?;
    product(alloc, square, other)
}

fn part(alloc: Global, beside: Beside) -> Result<ExprTree, NoMemory> {
    match beside {
        Beside::Constant => fluent(alloc, b"f"),
        Beside::Changing => fluent(alloc, b"h"),
        Beside::Divided => quotient(alloc, number(1), fluent(alloc, b"f")?),
        Beside::Squared => product(alloc, fluent(alloc, b"h")?, fluent(alloc, b"h")?),
        Beside::Wide => product(alloc, wide(alloc)?, fluent(alloc, b"f")?),
    }
}

fn rewarded(alloc: Global, beside: Beside) -> Result<ExprTree, NoMemory> {
    let reward = product(alloc, number(-1), total_time(10))?;
    sum(alloc, reward, part(alloc, beside)?)
}

#[test]
fn signs_are_asked_where_there_is_a_value(rt: HostRuntime) {
    let rows = [
        (Some(0), Beside::Constant, Some((Kind::MetricSign, 10))),
        (None, Beside::Constant, None),
        (None, Beside::Changing, Some((Kind::MetricSign, 10))),
        (Some(2), Beside::Divided, Some((Kind::MetricSign, 10))),
        (Some(0), Beside::Divided, None),
        (Some(0), Beside::Squared, None),
        (Some(7), Beside::Wide, Some((Kind::MetricSign, 10))),
        (Some(8), Beside::Wide, None),
    ];
    for (value, beside, offence) in rows {
        let metric = rewarded(rt.alloc(), beside);
        assert_eq!(rt; told(rt.alloc(), value, Aim::Minimize, metric), offence);
    }
}

#[test]
fn no_metric_has_no_sign(rt: HostRuntime) -> Result<(), NoMemory> {
    assert!(rt; asked(rt.alloc(), Some(1), None)?.is_none());
    Ok(())
}
