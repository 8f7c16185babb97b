//! A small domain, problems of it, and expressions of their metrics.

use exact_lin::{Fraction, NoMemory, Scalar};
use pddl_terms::{
    ActionBody, ActionDef, Atom, Call, ChangeKind, CondTree, CostCurve, Declared, Domain, EffTree,
    ExprTree, FactForm, GoalTree, InitEntry, Metric, Name, Problem, SoftTree, TimeCost,
};
use sqlite_items::{Boxed, Items};
use std::alloc::Global;

fn name(alloc: Global, word: &[u8]) -> Result<Name, NoMemory> {
    Ok(Name {
        at: 0,
        bytes: Items::from_slice(alloc, word)?,
    })
}

fn atom(alloc: Global, word: &[u8]) -> Result<Atom, NoMemory> {
    Ok(Atom {
        at: 0,
        name: name(alloc, word)?,
        terms: Items::new(alloc),
    })
}

pub(super) fn number(value: i32) -> ExprTree {
    ExprTree::Number(0, Fraction::of_int(value))
}

pub(super) fn fluent(alloc: Global, word: &[u8]) -> Result<ExprTree, NoMemory> {
    Ok(ExprTree::Fluent(atom(alloc, word)?))
}

pub(super) fn total_time(at: u32) -> ExprTree {
    ExprTree::TotalTime(at)
}

/// `(is-violated late)`.
pub(super) fn violated(alloc: Global, at: u32) -> Result<ExprTree, NoMemory> {
    Ok(ExprTree::Violated(at, name(alloc, b"late")?))
}

/// `(time-cost fee)`.
pub(super) fn time_cost(alloc: Global, at: u32) -> Result<ExprTree, NoMemory> {
    Ok(ExprTree::TimeCost(at, name(alloc, b"fee")?))
}

fn pair(alloc: Global, left: ExprTree, right: ExprTree) -> Result<Items<ExprTree>, NoMemory> {
    let mut parts = Items::new(alloc);
    parts.push(left)?;
    parts.push(right)?;
    Ok(parts)
}

pub(super) fn sum(alloc: Global, left: ExprTree, right: ExprTree) -> Result<ExprTree, NoMemory> {
    Ok(ExprTree::Sum(0, pair(alloc, left, right)?))
}

pub(super) fn product(
    alloc: Global,
    left: ExprTree,
    right: ExprTree,
) -> Result<ExprTree, NoMemory> {
    Ok(ExprTree::Product(0, pair(alloc, left, right)?))
}

pub(super) fn difference(
    alloc: Global,
    left: ExprTree,
    right: ExprTree,
) -> Result<ExprTree, NoMemory> {
    let left = Boxed::new(alloc, left)?;
    let right = Boxed::new(alloc, right)?;
    Ok(ExprTree::Difference(0, left, right))
}

pub(super) fn quotient(
    alloc: Global,
    left: ExprTree,
    right: ExprTree,
) -> Result<ExprTree, NoMemory> {
    let left = Boxed::new(alloc, left)?;
    let right = Boxed::new(alloc, right)?;
    Ok(ExprTree::Quotient(0, left, right))
}

fn declared(alloc: Global, word: &[u8]) -> Result<Declared, NoMemory> {
    Ok(Declared::Named(0, name(alloc, word)?, Items::new(alloc)))
}

fn functions(alloc: Global) -> Result<Items<Declared>, NoMemory> {
    let mut all = Items::new(alloc);
    all.push(declared(alloc, b"f")?)?;
    all.push(declared(alloc, b"h")?)?;
    Ok(all)
}

/// `(increase (h) 1)`.
fn increase(alloc: Global) -> Result<EffTree, NoMemory> {
    Ok(EffTree::Change(
        0,
        ChangeKind::Increase,
        Call::Named(atom(alloc, b"h")?),
        number(1),
    ))
}

fn action(alloc: Global) -> Result<ActionDef, NoMemory> {
    let effect = increase(alloc)?;
    Ok(ActionDef {
        at: 0,
        name: name(alloc, b"go")?,
        parameters: Items::new(alloc),
        body: ActionBody::Instant(None, Some(effect)),
    })
}

/// A constant `f`, and a fluent `h` that an action changes.
pub(super) fn domain(alloc: Global) -> Result<Domain, NoMemory> {
    let mut actions = Items::new(alloc);
    actions.push(action(alloc)?)?;
    Ok(Domain {
        name: name(alloc, b"d")?,
        requirements: Items::new(alloc),
        types: Items::new(alloc),
        constants: Items::new(alloc),
        predicates: Items::new(alloc),
        functions: functions(alloc)?,
        constraints: None,
        actions,
        left_out: Items::new(alloc),
    })
}

fn value(alloc: Global, word: &[u8], number: i32) -> Result<InitEntry, NoMemory> {
    let fluent = Call::Named(atom(alloc, word)?);
    Ok(InitEntry::Value(0, fluent, Fraction::of_int(number)))
}

/// The fluent `h` begins at 5, and the constant `f` has this value, if any.
fn init(alloc: Global, first: Option<i32>) -> Result<Items<InitEntry>, NoMemory> {
    let mut entries = Items::new(alloc);
    entries.push(value(alloc, b"h", 5)?)?;
    if let Some(number) = first {
        entries.push(value(alloc, b"f", number)?)?;
    }
    Ok(entries)
}

/// A time cost `fee`.
fn costs(alloc: Global) -> Result<Items<TimeCost>, NoMemory> {
    let curve = CostCurve::Three {
        soft: Fraction::of_int(2),
        hard: Fraction::of_int(6),
        top: Fraction::of_int(8),
    };
    let mut costs = Items::new(alloc);
    costs.push(TimeCost::Named(0, name(alloc, b"fee")?, FactForm::Empty(0), curve))?;
    Ok(costs)
}

/// A preference `late`.
fn goal(alloc: Global) -> Result<GoalTree, NoMemory> {
    let late = name(alloc, b"late")?;
    Ok(GoalTree::Preference(0, Some(late), SoftTree::Formula(FactForm::Empty(0))))
}

/// A problem of the domain in which `f` has this value, with this metric.
pub(super) fn problem(
    alloc: Global,
    first: Option<i32>,
    metric: Option<Metric>,
) -> Result<Problem, NoMemory> {
    Ok(Problem {
        name: name(alloc, b"p")?,
        domain: name(alloc, b"d")?,
        requirements: Items::new(alloc),
        objects: Items::new(alloc),
        init: init(alloc, first)?,
        goal: goal(alloc)?,
        constraints: None,
        time_costs: costs(alloc)?,
        metric,
        left_out: Items::new(alloc),
    })
}
