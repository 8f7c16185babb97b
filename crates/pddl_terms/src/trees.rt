//! The trees of parts of a text. A variant begins with the byte at which it begins, and holds its parts in the order
//! of the text.

use exact_lin::Fraction;
use sqlite_items::{Boxed, Items};

/// A name in lower case, and the byte at which it begins. A variable keeps its question mark.
#[derive(Drop)]
pub struct Name {
    pub at: u32,
    pub bytes: Items<u8>,
}

/// An object or constant by its name, or a variable.
#[derive(Drop)]
pub enum Term {
    Object(Name),
    Variable(Name),
}

/// A name with terms: an atom of a predicate, or a fluent of a function.
#[derive(Drop)]
pub struct Atom {
    pub at: u32,
    pub name: Name,
    pub terms: Items<Term>,
}

/// The type of some names: `object` where none is written, or the name behind `-`, or a list that is left out.
#[derive(Drop)]
pub enum TypeName {
    Object,
    Named(Name),
    LeftOut(u32),
}

/// Names of one type.
#[derive(Drop)]
pub struct Group {
    pub names: Items<Name>,
    pub of: TypeName,
}

/// The mark of a comparison, or of a bound of a duration.
#[derive(Clone, Copy, Debug, PartialEq, Eq)]
pub enum Comparison {
    Equal,
    AtMost,
    AtLeast,
    Below,
    Above,
}

/// An expression. `Duration` stands in effects alone; the total time, a violated preference and a time cost in metrics.
#[derive(Drop)]
pub enum ExprTree {
    Number(u32, Fraction),
    Fluent(Atom),
    Duration(u32),
    Sum(u32, Items<ExprTree>),
    Product(u32, Items<ExprTree>),
    Negative(u32, Boxed<ExprTree>),
    Difference(u32, Boxed<ExprTree>, Boxed<ExprTree>),
    Quotient(u32, Boxed<ExprTree>, Boxed<ExprTree>),
    LeftOut(u32),
    TotalTime(u32),
    Violated(u32, Name),
    TimeCost(u32, Name),
}

/// The bounds of a duration. Those below no tag are read at the start.
#[derive(Drop)]
pub enum DurTree {
    And(u32, Items<DurTree>),
    AtStart(u32, Boxed<DurTree>),
    AtEnd(u32, Boxed<DurTree>),
    Bound(u32, Comparison, ExprTree),
    LeftOut(u32),
}

/// A side of an `=`: a variable, a bare name (an object, or a fluent without terms), or another expression.
#[derive(Drop)]
pub enum Side {
    Variable(Name),
    Bare(Name),
    Expression(ExprTree),
}

/// A condition; `( )` is `Empty`. `Equal` is an equality of terms or a comparison, by its sides.
#[derive(Drop)]
pub enum CondTree {
    Empty(u32),
    And(u32, Items<CondTree>),
    Forall(u32, Items<Group>, Boxed<CondTree>),
    Atom(Atom),
    Not(u32, Boxed<CondTree>),
    Equal(u32, Side, Side),
    Compare(u32, Comparison, ExprTree, ExprTree),
    LeftOut(u32),
}

/// A formula over facts; `( )` is `Empty`.
#[derive(Drop)]
pub enum FactForm {
    Empty(u32),
    Atom(Atom),
    Equal(u32, Side, Side),
    And(u32, Items<FactForm>),
    Or(u32, Items<FactForm>),
    Not(u32, Boxed<FactForm>),
    Imply(u32, Boxed<FactForm>, Boxed<FactForm>),
    Exists(u32, Items<Group>, Boxed<FactForm>),
    Forall(u32, Items<Group>, Boxed<FactForm>),
    LeftOut(u32),
}

/// A trajectory constraint of PDDL3.
#[derive(Drop)]
pub enum Trajectory {
    Always(u32, FactForm),
    Sometime(u32, FactForm),
    Within(u32, Fraction, FactForm),
    AtMostOnce(u32, FactForm),
    SometimeAfter(u32, FactForm, FactForm),
    SometimeBefore(u32, FactForm, FactForm),
    AtEnd(u32, FactForm),
    LeftOut(u32),
}

/// Constraints: hard ones, and preferences with or without a name.
#[derive(Drop)]
pub enum ConForm {
    And(u32, Items<ConForm>),
    Forall(u32, Items<Group>, Boxed<ConForm>),
    Hard(Trajectory),
    Preference(u32, Option<Name>, Trajectory),
}

/// An atom or a fluent, or a list that is left out where only one of these can stand.
#[derive(Drop)]
pub enum Call {
    Named(Atom),
    LeftOut(u32),
}

/// How an effect changes a fluent.
#[derive(Clone, Copy, Debug, PartialEq, Eq)]
pub enum ChangeKind {
    Increase,
    Decrease,
    Assign,
}

/// An effect; `( )` is `Empty`.
#[derive(Drop)]
pub enum EffTree {
    Empty(u32),
    And(u32, Items<EffTree>),
    Add(Atom),
    Delete(u32, Call),
    Change(u32, ChangeKind, Call, ExprTree),
    LeftOut(u32),
}

/// Whether a fluent grows or falls while an action runs.
#[derive(Clone, Copy, Debug, PartialEq, Eq)]
pub enum Trend {
    Rises,
    Falls,
}

/// What a rate adds or takes in a unit of time: 1 for `#t` alone, or the expression beside `#t`.
#[derive(Drop)]
pub enum RateTree {
    One(u32),
    Times(u32, ExprTree),
    LeftOut(u32),
}

/// An effect of a durative action; `( )` is `Empty`.
#[derive(Drop)]
pub enum TimedEff {
    Empty(u32),
    And(u32, Items<TimedEff>),
    AtStart(u32, EffTree),
    AtEnd(u32, EffTree),
    Rate(u32, Trend, Call, RateTree),
    LeftOut(u32),
}

/// A condition of a durative action; `( )` is `Empty`.
#[derive(Drop)]
pub enum TimedCond {
    Empty(u32),
    And(u32, Items<TimedCond>),
    AtStart(u32, CondTree),
    OverAll(u32, CondTree),
    AtEnd(u32, CondTree),
    LeftOut(u32),
}

/// What a preference of a goal asks: formulas over facts, and comparisons, which may be negated.
#[derive(Drop)]
pub enum SoftTree {
    Formula(FactForm),
    Equal(u32, Side, Side),
    Comparison(CondTree),
    And(u32, Items<SoftTree>),
}

/// A goal: conditions, and preferences with or without a name. An `and` or `forall` is always the goal's.
#[derive(Drop)]
pub enum GoalTree {
    Condition(CondTree),
    And(u32, Items<GoalTree>),
    Forall(u32, Items<Group>, Boxed<GoalTree>),
    Preference(u32, Option<Name>, SoftTree),
}
