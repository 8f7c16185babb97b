//! The parts of a condition under a binding, quantifiers written out.

use crate::binding::Bound;
use pddl_terms::{Comparison, ExprTree, Side};
use sqlite_items::Items;

/// What a comparison compares: an expression, or a side of an `=`.
#[derive(Clone, Copy, Drop)]
pub enum Operand<'a> {
    Tree(&'a ExprTree),
    Side(&'a Side),
}

/// A comparison with its place and the binding under which it stands.
#[derive(Drop)]
pub struct CondTest<'a> {
    pub place: u32,
    pub order: Comparison,
    pub left: Operand<'a>,
    pub right: Operand<'a>,
    pub env: Items<Bound<'a>>,
}

/// A part of a condition: a literal over a ground atom, an equality of terms that holds or not, or a comparison.
#[derive(Drop)]
pub enum CondPart<'a> {
    Literal(Items<u32>, bool),
    Same(bool),
    Compares(CondTest<'a>),
}
