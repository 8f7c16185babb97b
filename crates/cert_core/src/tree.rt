//! Trees of decisions whose leaves are certificates.

ghost use Rattle.std.specs.Prelude.{◌<◌, ◌^◌};
ghost use Rattle.std.specs.List.{sum_by};
ghost use Rattle.std.specs.Option.{SomeIff};
ghost use Rattle.cert_core.specs.Trees.{leaf_count};

use crate::pairs::{DualRow, FarkasRow};
use crate::program::CertFault;
use sqlite_items::Items;

/// A tree of decisions, each leaf of which proves its program empty or bounds its cost.
#[derive(Drop)]
pub enum DualTree<T, R, S> {
    /// This term is decided, with a child for each of its ways in order.
    Split(T, Items<DualTree<T, R, S>>),
    /// No point solves the program under the decisions above.
    None(FarkasRow<R, S>),
    /// Each solution of the program under the decisions above costs at least the claimed cost.
    AtLeast(DualRow<R, S>),
}

/// The first leaf of a tree that doesn't prove its part, counted from 1, and why.
#[derive(Clone, Copy, Drop, PartialEq, Eq, Debug)]
pub struct TreeFault<R, V> {
    pub leaf: u32,
    pub fault: CertFault<R, V>,
}

impl<T, R, S> DualTree<T, R, S> {
    /// The number of leaves, or None where that is 2^32 or more. A split without children counts as one leaf.
    #[cycle(count)]
    pub fn leaves(&self) -> Option<u32>
        ensures { SomeIff result (leaf_count self.now < 2 ^ 32) (leaf_count self.now) }
    {
        match self {
            DualTree::None(_row) => Some(1),
            DualTree::AtLeast(_row) => Some(1),
            DualTree::Split(_term, children) => if children.is_empty() {
                Some(1)
            } else {
                leaves_of_all(children.as_slice())
            },
        }
    }
}

// The number of leaves of all these trees, or None where that is 2^32 or more.
#[cycle(count)]
fn leaves_of_all<T, R, S>(trees: &[DualTree<T, R, S>]) -> Option<u32>
    ensures { SomeIff result (sum_by leaf_count trees.now < 2 ^ 32) (sum_by leaf_count trees.now) }
{
    let mut total: u32 = 0;
    for tree in trees {
        let Some(count) = tree.leaves() else {
            return None;
        };
        match total.checked_add(count) {
            Some(sum) => total = sum,
            None => return None,
        }
    }
    Some(total)
}
