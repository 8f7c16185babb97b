//! Exact rational numbers as values of contracts, and the laws that proofs about them stand on.
//!
//! The crate has no work of its own: each public function has an empty body, and its contract is a
//! law of the definitions in `specs/`, which every crate above cites.
#![tactic(auto)]

pub mod field_laws;
pub mod order_laws;
pub mod row_laws;
pub mod segment_laws;
