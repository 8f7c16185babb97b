//! A dictionary in parts of 64 or of 128 bits.

use crate::dictionary::SparseDictionary;
use exact_lin::{Fraction, Id, Narrow};

// A dictionary in parts of so many bits.
#[derive(Drop)]
pub(crate) enum Width<R: Id, V: Id> {
    In64(SparseDictionary<R, V, Narrow>),
    In128(SparseDictionary<R, V, Fraction>),
}
