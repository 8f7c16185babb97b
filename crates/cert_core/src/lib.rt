//! Certificates of linear programs, and their checks.
#![tactic(auto)]

mod check;
mod claim;
mod column_sums;
mod decided;
mod laws;
mod pairs;
mod program;
mod soft;
mod sums;
mod tree;
mod tree_check;

pub use check::{check_dual, check_dual_in, check_farkas, check_farkas_in};
pub use decided::{Decided, under};
pub use laws::{tree_fails_at_first_leaf, tree_passes_with_its_leaves};
pub use pairs::{DualRow, FarkasRow};
pub use program::{CertFault, Rows, are_within};
pub use soft::{SoftRows, Way};
pub use tree::{DualTree, TreeFault};
pub use tree_check::{check_leaf, check_leaves, check_leaves_in, check_tree};

#[cfg(test)]
mod tests;

use exact_lin::{Fraction, Narrow, RowId, TermId, VarId};

// Certificates are checked on threads of their own.
fn cross_threads() {
    crosses_threads::<FarkasRow<RowId, Fraction>>();
    crosses_threads::<FarkasRow<RowId, Narrow>>();
    crosses_threads::<DualRow<RowId, Fraction>>();
    crosses_threads::<DualRow<RowId, Narrow>>();
    crosses_threads::<DualTree<TermId, RowId, Fraction>>();
    crosses_threads::<CertFault<RowId, VarId>>();
    crosses_threads::<TreeFault<RowId, VarId>>();
    crosses_threads::<Way>();
}

fn crosses_threads<T: Send + Sync>() {}
