//! The trees of whole domains and problems, section by section. A section that isn't there is an empty list, or `None`.

use crate::trees::{
    Atom, Call, ConForm, CondTree, DurTree, EffTree, ExprTree, FactForm, GoalTree, Group, Name,
    TimedCond, TimedEff,
};
use exact_lin::Fraction;
use sqlite_items::Items;

/// A predicate or a function with its parameters, or a list that is left out in its place.
#[derive(Drop)]
pub enum Declared {
    Named(u32, Name, Items<Group>),
    LeftOut(u32),
}

/// What an action asks and does: an instantaneous action, or a durative one.
#[derive(Drop)]
pub enum ActionBody {
    Instant(Option<CondTree>, Option<EffTree>),
    Durative(DurTree, Option<TimedCond>, Option<TimedEff>),
}

/// An action of a domain.
#[derive(Drop)]
pub struct ActionDef {
    pub at: u32,
    pub name: Name,
    pub parameters: Items<Group>,
    pub body: ActionBody,
}

/// A domain. A requirement keeps its colon. The sections that are left out are told by the bytes at which they begin.
#[derive(Drop)]
pub struct Domain {
    pub name: Name,
    pub requirements: Items<Name>,
    pub types: Items<Group>,
    pub constants: Items<Group>,
    pub predicates: Items<Declared>,
    pub functions: Items<Declared>,
    pub constraints: Option<ConForm>,
    pub actions: Items<ActionDef>,
    pub left_out: Items<u32>,
}

/// A literal that a problem makes true or false at a moment: a timed initial literal of PDDL 2.2.
#[derive(Drop)]
pub struct TimedLiteral {
    pub at: u32,
    pub moment_at: u32,
    pub moment: Fraction,
    pub holds: bool,
    pub atom: Call,
}

/// An entry of `:init`: a fact, a negated fact (which changes nothing), a fluent's value, or a timed literal.
#[derive(Drop)]
pub enum InitEntry {
    Holds(Atom),
    Not(u32, Call),
    Value(u32, Call, Fraction),
    Timed(TimedLiteral),
    LeftOut(u32),
}

/// A piece of a time cost: up to the moment `until` the cost goes from `from` to `to`. Or a list that is left out.
#[derive(Drop)]
pub enum PieceDef {
    Piece {
        at: u32,
        until: Fraction,
        from: Fraction,
        to: Fraction,
    },
    LeftOut(u32),
}

/// How a time cost rises: from 0 at `soft` to `top` at `hard` and beyond, or in pieces.
#[derive(Drop)]
pub enum CostCurve {
    Three {
        soft: Fraction,
        hard: Fraction,
        top: Fraction,
    },
    Pieces(Items<PieceDef>),
}

/// A time cost: what it costs that a formula first holds at some moment. Or a list that is left out in its place.
#[derive(Drop)]
pub enum TimeCost {
    Named(u32, Name, FactForm, CostCurve),
    LeftOut(u32),
}

/// Whether a metric is to be small or large.
#[derive(Clone, Copy, Debug, PartialEq, Eq)]
pub enum Aim {
    Minimize,
    Maximize,
}

/// What a plan is to be measured by.
#[derive(Drop)]
pub struct Metric {
    pub aim: Aim,
    pub expression: ExprTree,
}

/// A problem. A requirement keeps its colon. The sections that are left out are told by the bytes at which they begin.
#[derive(Drop)]
pub struct Problem {
    pub name: Name,
    pub domain: Name,
    pub requirements: Items<Name>,
    pub objects: Items<Group>,
    pub init: Items<InitEntry>,
    pub goal: GoalTree,
    pub constraints: Option<ConForm>,
    pub time_costs: Items<TimeCost>,
    pub metric: Option<Metric>,
    pub left_out: Items<u32>,
}
