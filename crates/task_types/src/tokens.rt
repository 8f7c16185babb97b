//! Tokens, and how a step touches one.

use exact_lin::{ActionId, FactId, FluentId};
use sqlite_items::Items;

/// What two steps of an ordering may both touch: a fact, a tracked fluent, the fluents of an over-all comparison of an action, the facts of a constraint, a preference or a time cost, or a durative action.
#[derive(Drop)]
pub enum Token {
    Fact(FactId),
    Fluent(FluentId),
    Comparison(ActionId, Items<FluentId>),
    Formulas(Items<FactId>),
    Action(ActionId),
}

/// How a step touches a token: it reads it, changes it at its moment, or changes its rate.
#[derive(Clone, Copy, Debug, Drop, PartialEq, Eq)]
pub enum Touch {
    Look,
    Mark,
    Bend,
}
