//! Rows with their origins.

use crate::origins::Origin;
use exact_lin::{Fraction, VarId};
use sqlite_items::Items;

/// A row: the sum of its terms, in ascending order of their variables, at most its bound.
#[derive(Drop)]
pub struct OriginRow {
    pub terms: Items<(VarId, Fraction)>,
    pub bound: Fraction,
    pub origin: Origin,
}
