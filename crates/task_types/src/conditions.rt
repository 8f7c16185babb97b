//! Conditions, and the effects of snap actions.

use exact_lin::{FactId, FluentId, Form, Fraction};
use sqlite_items::Items;

/// A fact, or with `holds` false its negation.
#[derive(Clone, Copy, Drop)]
pub struct Literal {
    pub fact: FactId,
    pub holds: bool,
}

/// Literals and comparisons that all have to hold. A comparison is a form that is to be at least 0.
#[derive(Drop)]
pub struct Condition {
    pub literals: Items<Literal>,
    pub comparisons: Items<Form<FluentId, Fraction>>,
}

/// A form over the fluents, plus `duration` times the duration of the action (`?duration` in PDDL 2.1).
#[derive(Drop)]
pub struct Amount {
    pub form: Form<FluentId, Fraction>,
    pub duration: Fraction,
}

/// What a snap action does at its moment. A decrease is the increase by the negative amount.
#[derive(Drop)]
pub struct Effect {
    pub adds: Items<FactId>,
    pub deletes: Items<FactId>,
    pub assigns: Items<(FluentId, Amount)>,
    pub increases: Items<(FluentId, Amount)>,
}
