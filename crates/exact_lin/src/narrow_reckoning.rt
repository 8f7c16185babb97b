//! Sums, products and comparisons of fractions as plain numbers of 64 bits.
//!
//! Each part of such a reckoning has to keep to 2^63 - 1, so no step needs more bits; only a comparison multiplies
//! across, in 128.

ghost use Rattle.std.specs.Prelude.{◌≡◌, ℕ, ◌*◌, ◌/◌, ◌<◌, ◌≤◌, ◌^◌, pos, ◌+ℤ◌, ◌*ℤ◌};
ghost use Rattle.std.specs.Option.{SomeIff};
ghost use Rattle.std.specs.Ordering.{int_cmp};
ghost use Rattle.rational.specs.Gcd.{gcd};
ghost use Rattle.rational.specs.Lowest.{over};
ghost use Rattle.exact_lin.specs.Reckoning.{narrow_limit, Within, ProductFits, product_numerator, product_denominator, SumFits, sum_numerator, sum_denominator};

use crate::reckoning::greatest_narrow;
use std::cmp::Ordering;

/// The largest part of a fraction of 64 bits.
pub const NARROW_LIMIT: u64 = i64::MAX as u64;

// The greatest common divisor of two numbers, the second at least 1.
fn greatest(a: u64, b: u64) -> u64
    requires { 0 < b }
    ensures value { result ≡ gcd a b }
    ensures some { 0 < result }
    ensures fits { result ≤ b }
{
    greatest_narrow(a, b)
}

// A numerator divided by a common factor.
fn divided(a: i64, g: u64) -> i64
    requires some { 0 < g }
    requires fits { g ≤ narrow_limit }
    ensures { result ≡ over a g }
{
    if g == 1 { a } else { a / (g as i64) }
}

// A denominator divided by a common factor.
fn divided_up(a: u64, g: u64) -> u64
    requires { 0 < g }
    ensures { result ≡ a / g }
{
    if g == 1 { a } else { a / g }
}

// A numerator times an unsigned factor, or None past the limit.
fn multiply(a: i64, b: u64) -> Option<i64>
    requires { b ≤ narrow_limit }
    ensures { SomeIff result (Within narrow_limit (a *ℤ pos b)) (a *ℤ pos b) }
{
    multiply_signed(a, b as i64)
}

// The product of two numerators, or None past the limit.
fn multiply_signed(a: i64, b: i64) -> Option<i64>
    ensures { SomeIff result (Within narrow_limit (a *ℤ b)) (a *ℤ b) }
{
    match a.checked_mul(b) {
        Some(product) => if product.unsigned_abs() <= NARROW_LIMIT {
            Some(product)
        } else {
            None
        },
        None => None,
    }
}

// The product of two denominators, or None past the limit.
fn multiply_up(a: u64, b: u64) -> Option<u64>
    ensures { SomeIff result (a * b ≤ narrow_limit) (a * b) }
{
    match a.checked_mul(b) {
        Some(product) => if product <= NARROW_LIMIT {
            Some(product)
        } else {
            None
        },
        None => None,
    }
}

// The sum of two numerators, or None past the limit.
fn plus(a: i64, b: i64) -> Option<i64>
    ensures { SomeIff result (Within narrow_limit (a +ℤ b)) (a +ℤ b) }
{
    match a.checked_add(b) {
        Some(sum) => if sum.unsigned_abs() <= NARROW_LIMIT {
            Some(sum)
        } else {
            None
        },
        None => None,
    }
}

/// a / b + c / d in lowest terms, or None where a part passes the limit.
pub fn narrow_sum(a: i64, b: u64, c: i64, d: u64) -> Option<(i64, u64)>
    requires left { 0 < b }
    requires right { 0 < d }
    requires left_fits { b ≤ narrow_limit }
    requires right_fits { d ≤ narrow_limit }
    ensures { SomeIff result (SumFits narrow_limit a b c d) (sum_numerator a b c d, sum_denominator a b c d) }
{
    let g = greatest(b, d);
    let left = multiply(a, divided_up(d, g))?;
    let right = multiply(c, divided_up(b, g))?;
    let sum = plus(left, right)?;
    let h = greatest(sum.unsigned_abs(), g);
    let denominator = multiply_up(divided_up(b, g), divided_up(d, h))?;
    Some((divided(sum, h), denominator))
}

/// a / b times c / d in lowest terms, or None where a part passes the limit.
pub fn narrow_product(a: i64, b: u64, c: i64, d: u64) -> Option<(i64, u64)>
    requires left { 0 < b }
    requires right { 0 < d }
    requires left_fits { b ≤ narrow_limit }
    requires right_fits { d ≤ narrow_limit }
    ensures { SomeIff result (ProductFits narrow_limit a b c d) (product_numerator a b c d, product_denominator a b c d) }
{
    let g = greatest(a.unsigned_abs(), d);
    let h = greatest(c.unsigned_abs(), b);
    let numerator = multiply_signed(divided(a, g), divided(c, h))?;
    let denominator = multiply_up(divided_up(b, h), divided_up(d, g))?;
    Some((numerator, denominator))
}

// A numerator times a denominator, in as many bits as it needs.
fn across(a: i64, d: u64) -> i128
    requires { d ≤ narrow_limit }
    ensures { result ≡ a *ℤ pos d }
{
    (a as i128) * (d as i128)
}

/// How a / b and c / d compare.
pub fn narrow_order(a: i64, b: u64, c: i64, d: u64) -> Ordering
    requires left { b ≤ narrow_limit }
    requires right { d ≤ narrow_limit }
    ensures { result ≡ int_cmp (a *ℤ pos d) (c *ℤ pos b) }
{
    across(a, d).cmp(&across(c, b))
}
