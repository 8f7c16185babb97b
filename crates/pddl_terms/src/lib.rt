//! Parts of PDDL texts, read from the tokens of a text: typed lists, conditions, expressions, formulas over facts,
//! constraints and durations.
//!
//! Each call answers the tree that the grammar derives there, or the first place at which no accepted text can go on.
#![tactic(auto)]

mod action_lines;
pub mod calls;
pub mod conditions;
pub mod constraints;
pub mod domain_heads;
mod domain_lines;
pub mod durations;
pub mod expressions;
mod faults;
mod files;
pub mod formulas;
mod grammar;
mod heads;
pub mod items;
mod laws;
mod lines;
pub mod numbers;
pub mod problem_heads;
mod problem_lines;
mod readers;
pub mod sections;
pub mod shape;
mod trees;
pub mod typed;
pub mod words;

pub use domain_heads::{DomainHead, EffHead, TimedCondHead, TimedEffHead};
pub use faults::{Kind, PddlFault, of_lexer, tokens_of};
pub use files::{
    ActionBody, ActionDef, Aim, CostCurve, Declared, Domain, InitEntry, Metric, PieceDef, Problem,
    TimeCost, TimedLiteral,
};
pub use grammar::{
    ActionPlace, ActionSort, DomainGiven, DomainLine, DomainRest, Line, Listed, ProblemGiven,
    ProblemLine, ProblemRest, Rest,
};
pub use heads::{ConHead, CondHead, DurHead, ExprHead, TrailHead, TreeHead};
pub use laws::{first_is_least, no_text_goes_further, some_text_goes_so_far};
pub use problem_heads::{GoalHead, InitHead, MeasureHead, ProblemHead, SoftHead};
pub use readers::{
    read_condition, read_constraint, read_duration, read_expression, read_tree, read_typed,
};
pub use trees::{
    Atom, Call, ChangeKind, Comparison, ConForm, CondTree, DurTree, EffTree, ExprTree, FactForm,
    GoalTree, Group, Name, RateTree, Side, SoftTree, Term, TimedCond, TimedEff, Trajectory, Trend,
    TypeName,
};

#[cfg(test)]
mod tests;
