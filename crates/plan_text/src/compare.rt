//! The comparison of a quotient of digits of any length with a fraction, in no memory.

ghost use Rattle.std.specs.Prelude.{◌≡◌, ℕ, ◌+◌, ◌*◌, ◌^◌, ◌≤◌, ◌<◌, ◌++◌, length};
ghost use Rattle.std.specs.Ordering.{MatchOrdering};
ghost use Rattle.exact_lin.specs.Reckoning.{wide_limit};
ghost use Rattle.basics.specs.Texts.{number};
ghost use Rattle.plan_text.specs.Quotients.{bytes_of, AreDigits, Compares, IsNear};

use crate::digits::Digits;
use std::cmp::Ordering;

/// 2^64, of which the parts of a difference are multiples and rests.
const WORD: u128 = 18446744073709551616;

/// 2^68, where the multiple stands for no difference.
const EVEN: u128 = 295147905179352825856;

/// 2^63: a difference so many words away from 0 keeps its sign whatever digits follow.
const FAR: u128 = 9223372036854775808;

/// A difference of two products: `high - EVEN` words, and `low`.
#[derive(Clone, Copy)]
struct Difference {
    high: u128,
    low: u128,
}

/// Ten times the difference, and p a - q b more.
fn next(difference: Difference, p: u128, a: u128, q: u128, b: u128) -> Difference
    requires near { IsNear difference.high difference.low }
    requires p { p ≤ wide_limit }
    requires q { q ≤ wide_limit }
    requires a { a ≤ 9 }
    requires b { b ≤ 9 }
    ensures value { result.high * WORD + result.low + 9 * (EVEN * WORD) + q * b
        ≡ 10 * (difference.high * WORD + difference.low) + p * a }
    ensures low { result.low < WORD }
{
    let low = 10 * difference.low + p % WORD * a + 9 * WORD - q % WORD * b;
    let high = 10 * difference.high + p / WORD * a + low / WORD - 9 * EVEN - 9 - q / WORD * b;
    Difference {
        high,
        low: low % WORD,
    }
}

/// Whether the difference is below 0, is 0 or is above 0.
fn sign(difference: Difference) -> Ordering
    requires { difference.low < WORD }
    ensures { MatchOrdering result (difference.high * WORD + difference.low < EVEN * WORD)
        (difference.high * WORD + difference.low ≡ EVEN * WORD)
        (EVEN * WORD < difference.high * WORD + difference.low) }
{
    if difference.high > EVEN {
        Ordering::Greater
    } else if difference.high < EVEN {
        Ordering::Less
    } else if difference.low > 0 {
        Ordering::Greater
    } else {
        Ordering::Equal
    }
}

/// How p / q stands to n / d.
pub fn compare(p: u128, q: u128, n: &Digits, d: &Digits) -> Ordering
    requires p { p ≤ wide_limit }
    requires q { q ≤ wide_limit }
    requires n { AreDigits (bytes_of n.now) }
    requires d { AreDigits (bytes_of d.now) }
    requires n_len { length n.now.front.now + length n.now.back.now < 2 ^ 64 }
    requires d_len { length d.now.front.now + length d.now.back.now < 2 ^ 64 }
    ensures { Compares result p q (number (bytes_of n.now)) (number (bytes_of d.now)) }
{
    let total = n.len().max(d.len());
    let mut difference = Difference { high: EVEN, low: 0 };
    for i in 0..total {
        difference = next(difference, p, d.aligned(total, i), q, n.aligned(total, i));
        if difference.high >= EVEN + FAR {
            return Ordering::Greater;
        }
        if difference.high < EVEN - FAR {
            return Ordering::Less;
        }
    }
    sign(difference)
}
