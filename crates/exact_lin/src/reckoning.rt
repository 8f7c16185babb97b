//! Sums, products and comparisons of fractions as plain numbers of 128 bits: a numerator, and a denominator of at
//! least 1.
//!
//! Denominators are unsigned, so that no cast stands between a number and what is proved of it.

ghost use Rattle.std.specs.Prelude.{◌≡◌, ℕ, ◌*◌, ◌/◌, ◌<◌, ◌≤◌, ◌^◌, pos, ◌+ℤ◌, ◌*ℤ◌};
ghost use Rattle.std.specs.Option.{SomeIff};
ghost use Rattle.std.specs.Ordering.{nat_cmp, int_cmp};
ghost use Rattle.rational.specs.Gcd.{gcd};
ghost use Rattle.rational.specs.Lowest.{over};
ghost use Rattle.exact_lin.specs.Reckoning.{wide_limit, Within, ProductFits, product_numerator, product_denominator, SumFits, sum_numerator, sum_denominator};

use std::cmp::Ordering;

/// The largest part of a fraction of 128 bits.
pub const WIDE_LIMIT: u128 = i128::MAX as u128;

/// The greatest common divisor in 64 bits, where a division is cheap.
pub fn greatest_narrow(a: u64, b: u64) -> u64
    ensures { result ≡ gcd a b }
{
    let mut x = a;
    let mut y = b;
    while y != 0 {
        let rest = x % y;
        x = y;
        y = rest;
    }
    x
}

// The largest number of 64 bits.
const LARGEST_64: u128 = 18446744073709551615;

// The same in 128 bits, as long as it needs them.
fn greatest_wide(a: u128, b: u128) -> u128
    ensures { result ≡ gcd a b }
{
    let mut x = a;
    let mut y = b;
    while y > LARGEST_64 {
        let rest = x % y;
        x = y;
        y = rest;
    }
    if x <= LARGEST_64 {
        return greatest_narrow(x as u64, y as u64) as u128;
    }
    if y == 0 {
        return x;
    }
    greatest_narrow(y as u64, (x % y) as u64) as u128
}

/// The greatest common divisor of two numbers, the second at least 1.
pub fn greatest(a: u128, b: u128) -> u128
    requires { 0 < b }
    ensures value { result ≡ gcd a b }
    ensures some { 0 < result }
    ensures fits { result ≤ b }
{
    greatest_wide(a, b)
}

/// A numerator divided by a common factor.
pub fn divided(a: i128, g: u128) -> i128
    requires some { 0 < g }
    requires fits { g ≤ wide_limit }
    ensures { result ≡ over a g }
{
    if g == 1 { a } else { a / (g as i128) }
}

// A denominator divided by a common factor.
fn divided_up(a: u128, g: u128) -> u128
    requires { 0 < g }
    ensures { result ≡ a / g }
{
    if g == 1 { a } else { a / g }
}

// A numerator times an unsigned factor, or None past the limit.
fn multiply(a: i128, b: u128) -> Option<i128>
    requires { b ≤ wide_limit }
    ensures { SomeIff result (Within wide_limit (a *ℤ pos b)) (a *ℤ pos b) }
{
    multiply_signed(a, b as i128)
}

// The product of two numerators, or None past the limit.
fn multiply_signed(a: i128, b: i128) -> Option<i128>
    ensures { SomeIff result (Within wide_limit (a *ℤ b)) (a *ℤ b) }
{
    match a.checked_mul(b) {
        Some(product) => if product.unsigned_abs() <= WIDE_LIMIT {
            Some(product)
        } else {
            None
        },
        None => None,
    }
}

// The product of two denominators, or None past the limit.
fn multiply_up(a: u128, b: u128) -> Option<u128>
    ensures { SomeIff result (a * b ≤ wide_limit) (a * b) }
{
    match a.checked_mul(b) {
        Some(product) => if product <= WIDE_LIMIT {
            Some(product)
        } else {
            None
        },
        None => None,
    }
}

// The sum of two numerators, or None past the limit.
fn plus(a: i128, b: i128) -> Option<i128>
    ensures { SomeIff result (Within wide_limit (a +ℤ b)) (a +ℤ b) }
{
    match a.checked_add(b) {
        Some(sum) => if sum.unsigned_abs() <= WIDE_LIMIT {
            Some(sum)
        } else {
            None
        },
        None => None,
    }
}

/// a / b + c / d in lowest terms, or None where a part passes the limit.
pub fn sum_of(a: i128, b: u128, c: i128, d: u128) -> Option<(i128, u128)>
    requires left { 0 < b }
    requires right { 0 < d }
    requires left_fits { b ≤ wide_limit }
    requires right_fits { d ≤ wide_limit }
    ensures { SomeIff result (SumFits wide_limit a b c d) (sum_numerator a b c d, sum_denominator a b c d) }
{
    let g = greatest(b, d);
    let left = multiply(a, divided_up(d, g))?;
    let right = multiply(c, divided_up(b, g))?;
    let sum = plus(left, right)?;
    let h = greatest(sum.unsigned_abs(), g);
    let denominator = multiply_up(divided_up(b, g), divided_up(d, h))?;
    Some((divided(sum, h), denominator))
}

/// a / b times c / d in lowest terms, or None where a part passes the limit.
pub fn product_of(a: i128, b: u128, c: i128, d: u128) -> Option<(i128, u128)>
    requires left { 0 < b }
    requires right { 0 < d }
    requires left_fits { b ≤ wide_limit }
    requires right_fits { d ≤ wide_limit }
    ensures { SomeIff result (ProductFits wide_limit a b c d) (product_numerator a b c d, product_denominator a b c d) }
{
    let g = greatest(a.unsigned_abs(), d);
    let h = greatest(c.unsigned_abs(), b);
    let numerator = multiply_signed(divided(a, g), divided(c, h))?;
    let denominator = multiply_up(divided_up(b, h), divided_up(d, g))?;
    Some((numerator, denominator))
}

// How a / b and c / d compare, by Euclid's steps: by the whole parts, and then by the rests turned over.
fn compare(a: u128, b: u128, c: u128, d: u128) -> Ordering
    requires first { 0 < b }
    requires second { 0 < d }
    ensures { result ≡ nat_cmp (a * d) (c * b) }
{
    let p = a / b;
    let q = c / d;
    if p != q {
        return p.cmp(&q);
    }
    let r = a % b;
    let s = c % d;
    if r == 0 || s == 0 {
        return r.cmp(&s);
    }
    compare(d, s, b, r)
}

/// How a / b and c / d compare.
pub fn order_of(a: i128, b: u128, c: i128, d: u128) -> Ordering
    requires left { 0 < b }
    requires right { 0 < d }
    ensures { result ≡ int_cmp (a *ℤ pos d) (c *ℤ pos b) }
{
    if a < 0 {
        if c < 0 {
            compare(c.unsigned_abs(), d, a.unsigned_abs(), b)
        } else {
            Ordering::Less
        }
    } else if c < 0 {
        Ordering::Greater
    } else {
        compare(a.unsigned_abs(), b, c.unsigned_abs(), d)
    }
}
