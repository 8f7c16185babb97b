//! Laws of the checks: each function does nothing, and claims a law by its contract.

ghost use Rattle.cert_core.specs.Laws.{FailsAtFirstLeaf, PassesWithItsLeaves};

use crate::soft::SoftRows;
use crate::tree::DualTree;
use exact_lin::{Id, Scalar};

/// The check of a tree fails exactly at the least leaf whose own check fails, with that leaf's fault.
pub fn tree_fails_at_first_leaf<T: Id, R: Id, V: Id, S: Scalar, P: SoftRows<T, R, V, S>>(_soft: &P)
    ensures { FailsAtFirstLeaf S.limit (P.soft _soft.now) }
{}

/// Each leaf of a tree passes its own check exactly where the tree proves its cost and each sum that its check reckons
/// is defined.
pub fn tree_passes_with_its_leaves<T: Id, R: Id, V: Id, S: Scalar, P: SoftRows<T, R, V, S>>(
    _soft: &P,
    _tree: &DualTree<T, R, S>,
)
    ensures { PassesWithItsLeaves T.number_of R.number_of S.value S.limit
        (P.soft _soft.now) _tree.now }
{}
