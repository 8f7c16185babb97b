//! What a plan costs: preferences, time costs, and the metric.

use crate::constraints::Trail;
use crate::formulas::FactTree;
use exact_lin::{FluentId, Form, Fraction};
use sqlite_items::Items;

/// A cost of the moment m at which a formula first holds: nothing up to `soft`, then rising evenly to `top` at `hard`.
#[derive(Clone, Copy, Drop)]
pub struct LateCost {
    pub soft: Fraction,
    pub hard: Fraction,
    pub top: Fraction,
}

/// A piece of a time cost: from the `until` of the piece before it (or 0) to its own, the cost runs evenly from `from` to `to`.
#[derive(Clone, Copy, Drop)]
pub struct Piece {
    pub until: Fraction,
    pub from: Fraction,
    pub to: Fraction,
}

/// A soft term: a preference of a trajectory constraint, a goal preference (a formula and comparisons), or a time cost of a formula. The last field is the weight of a violation, or of the time cost.
#[derive(Drop)]
pub enum Soft {
    Trail(Trail, Fraction),
    Goal(FactTree, Items<Form<FluentId, Fraction>>, Fraction),
    Late(FactTree, LateCost, Fraction),
    Pieces(FactTree, Items<Piece>, Fraction),
}

/// The cost of a plan but for its soft terms: `constant`, plus `last` times the time of the last plan step, plus the form over the fluents at the end.
#[derive(Drop)]
pub struct Metric {
    pub constant: Fraction,
    pub last: Fraction,
    pub fluents: Form<FluentId, Fraction>,
}
