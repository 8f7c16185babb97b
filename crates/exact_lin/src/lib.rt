//! Exact numbers for linear reasoning: fractions of two machine widths, ids, and linear forms.
//!
//! A sum or product is exact or refused: [`Wide`] comes exactly where a part of the reckoning passes the limit of the
//! width, and no result is ever rounded.
#![tactic(auto)]

mod arithmetic;
mod faults;
mod forms;
mod fractions;
mod id_vec;
mod ids;
mod narrow_reckoning;
mod reckoning;
pub mod reckoning_laws;
mod scalars;
mod terms;

pub use arithmetic::{add_product, is_at_most, is_below, is_negative, is_positive};
pub use faults::{FormFault, NoMemory};
pub use forms::Form;
pub use fractions::{Fraction, Narrow};
pub use id_vec::IdVec;
pub use ids::{ActionId, FactId, FluentId, Id, RowId, SnapId, StepId, TermId, TokenId, VarId};
pub use reckoning::WIDE_LIMIT;
pub use scalars::{Scalar, Sign, Wide};

#[cfg(test)]
mod tests;

// Threads share these and hand them back.
fn cross_threads() {
    crosses_threads::<Fraction>();
    crosses_threads::<Narrow>();
    crosses_threads::<Wide>();
    crosses_threads::<Sign>();
    crosses_threads::<NoMemory>();
    crosses_threads::<FormFault>();
    crosses_threads::<FactId>();
    crosses_threads::<FluentId>();
    crosses_threads::<ActionId>();
    crosses_threads::<SnapId>();
    crosses_threads::<StepId>();
    crosses_threads::<VarId>();
    crosses_threads::<RowId>();
    crosses_threads::<TermId>();
    crosses_threads::<TokenId>();
    crosses_threads::<IdVec<FactId, Fraction>>();
    crosses_threads::<Form<VarId, Fraction>>();
    crosses_threads::<Form<VarId, Narrow>>();
}

fn crosses_threads<T: Send + Sync>() {}
