//! Formulas over facts.

use crate::conditions::Literal;
use sqlite_items::{Boxed, Items};

/// A formula over facts. `And` of nothing is true and `Or` of nothing is false.
#[derive(Drop)]
pub enum FactTree {
    True,
    Is(Literal),
    Not(Boxed<FactTree>),
    And(Items<FactTree>),
    Or(Items<FactTree>),
}
