//! Comparisons of exact numbers, as the definitions have them.

ghost use Rattle.std.specs.Prelude.{◌≡◌};
ghost use Rattle.task_types.specs.Tests.{◌≤?◌};
ghost use Rattle.task_types.specs.Cost.{greater as greater_of};

use exact_lin::{Fraction, Scalar};
use std::cmp::Ordering;

/// Whether one number is at most the other.
pub fn is_at_most(one: Fraction, other: Fraction) -> bool
    ensures { result ≡ (one ≤? other) }
{
    match Scalar::cmp(other, one) {
        Ordering::Less => false,
        Ordering::Equal => true,
        Ordering::Greater => true,
    }
}

/// The greater of two numbers.
pub fn greater(one: Fraction, other: Fraction) -> Fraction
    ensures { result ≡ greater_of one other }
{
    if is_at_most(one, other) { other } else { one }
}
