//! What the text of a number stands for.

ghost use Rattle.std.specs.Prelude.{
  ◌≡◌,
  ◌+◌,
  ◌*◌,
  ◌^◌,
  ◌≤◌,
  ◌<◌,
  ◌++◌,
  ◌∷◌,
  [],
  true,
  ◌&&◌,
  length,
  nat_lt,
  nat_le,
  pos,
  IfSome,
  IfNone,
  Some,
};
ghost use Rattle.std.specs.Option.{SomeIff};
ghost use Rattle.rational.specs.Rational.{ℚ, ratio};
ghost use Rattle.exact_lin.specs.Reckoning.{wide_limit, Fits};
ghost use Rattle.basics.specs.Texts.{is_digits, number};
ghost use Rattle.plan_text.specs.Numbers.{Spells};
ghost use Rattle.plan_text.specs.Quotients.{bytes_of, AreDigits};
ghost use Rattle.plan_text.specs.Reading.{front_of, rest_of, decimal_parts, quotient_parts, parts_marked, parts_of, Gives, GivesNegative, has_digit_above_zero};

use crate::digits::{Digits, is_digits, small_after};
use crate::lowest_terms::{Quotient, lowest_parts};
use exact_lin::{Fraction, Scalar};

/// The most places of a decimal.
const MAX_PLACES: usize = 18;

/// As many zeros.
const ZEROS: &[u8; 18] = b"000000000000000000";

/// The digits at the front, and what follows them.
fn split_digits(text: &[u8]) -> (&[u8], &[u8])
    ensures front { result.0.now ≡ front_of text.now }
    ensures rest { result.1.now ≡ rest_of text.now }
    ensures digits { AreDigits result.0.now }
    ensures len { length result.0.now + length result.1.now < 2 ^ 64 }
{
    let mut n = 0;
    while n < text.len() && text[n].is_ascii_digit() {
        n += 1;
    }
    text.split_at(n)
}

fn has_digit_above_zero(text: &[u8]) -> bool
    ensures { result ≡ has_digit_above_zero text.now }
{
    text.iter().any(|b| *b != b'0')
}

/// The number that digits stand for, where it is not past the limit.
fn small(digits: &Digits) -> Option<u128>
    requires { AreDigits (bytes_of digits.now) }
    ensures value { IfSome result (λ n. n ≡ number (bytes_of digits.now)) }
    ensures fits { IfSome result (λ n. n ≤ wide_limit) }
{
    small_after(small_after(0, digits.front)?, digits.back)
}

fn fraction(parts: Quotient) -> Fraction
    requires den { 0 < parts.den }
    requires num_fits { parts.num ≤ wide_limit }
    requires den_fits { parts.den ≤ wide_limit }
    ensures value { result ≡ ratio (pos parts.num) parts.den }
    ensures fits { Fits wide_limit (ratio (pos parts.num) parts.den) }
{
    Fraction::of_parts(parts.num as i128, parts.den as i128).unwrap()
}

/// The parts of n / d, in lowest terms or at most the limit.
fn parts(n: &Digits, d: &Digits) -> Option<Quotient>
    requires some { 0 < number (bytes_of d.now) }
    requires n { AreDigits (bytes_of n.now) }
    requires d { AreDigits (bytes_of d.now) }
    requires n_len { length n.now.front.now + length n.now.back.now < 2 ^ 64 }
    requires d_len { length d.now.front.now + length d.now.back.now < 2 ^ 64 }
    ensures same { IfSome result (λ r. r.num * number (bytes_of d.now)
        ≡ r.den * number (bytes_of n.now)) }
    ensures den { IfSome result (λ r. 0 < r.den) }
    ensures num_fits { IfSome result (λ r. r.num ≤ wide_limit) }
    ensures den_fits { IfSome result (λ r. r.den ≤ wide_limit) }
    ensures none { IfNone result (Fits wide_limit (ratio (pos (number (bytes_of n.now)))
        (number (bytes_of d.now))) → ⊥) }
{
    match (small(n), small(d)) {
        (Some(num), Some(den)) => Some(Quotient { num, den }),
        _ => lowest_parts(&n.trimmed(), &d.trimmed()),
    }
}

/// n / d, where its parts in lowest terms are not past the limit.
fn quotient(n: &Digits, d: &Digits) -> Option<Fraction>
    requires some { 0 < number (bytes_of d.now) }
    requires n { AreDigits (bytes_of n.now) }
    requires d { AreDigits (bytes_of d.now) }
    requires n_len { length n.now.front.now + length n.now.back.now < 2 ^ 64 }
    requires d_len { length d.now.front.now + length d.now.back.now < 2 ^ 64 }
    ensures { SomeIff result
        (Fits wide_limit (ratio (pos (number (bytes_of n.now))) (number (bytes_of d.now))))
        (ratio (pos (number (bytes_of n.now))) (number (bytes_of d.now))) }
{
    match parts(n, d) {
        Some(parts) => Some(fraction(parts)),
        None => None,
    }
}

fn read_whole(front: &[u8]) -> Option<Fraction>
    requires front { AreDigits front.now }
    requires len { length front.now < 2 ^ 64 }
    ensures { Gives (Some (number front.now, 1)) result }
{
    let n = Digits { front, back: b"" };
    let d = Digits {
        front: b"1",
        back: b"",
    };
    quotient(&n, &d)
}

fn read_decimal(front: &[u8], places: &[u8]) -> Option<Fraction>
    requires front { AreDigits front.now }
    requires len { length front.now + length places.now < 2 ^ 64 }
    ensures { Gives (decimal_parts front.now places.now) result }
{
    if !is_digits(places) || places.len() > MAX_PLACES {
        return None;
    }
    let n = Digits {
        front,
        back: places,
    };
    let d = Digits {
        front: b"1",
        back: &ZEROS[..places.len()],
    };
    quotient(&n, &d)
}

fn read_quotient(above: &[u8], below: &[u8]) -> Option<Fraction>
    requires above { AreDigits above.now }
    requires len { length above.now + length below.now < 2 ^ 64 }
    ensures { Gives (quotient_parts above.now below.now) result }
{
    if !is_digits(below) || !has_digit_above_zero(below) {
        return None;
    }
    let n = Digits {
        front: above,
        back: b"",
    };
    let d = Digits {
        front: below,
        back: b"",
    };
    quotient(&n, &d)
}

/// What digits, a mark and what follows it stand for.
fn read_marked(front: &[u8], mark: u8, more: &[u8]) -> Option<Fraction>
    requires front { AreDigits front.now }
    requires len { length front.now + length more.now < 2 ^ 64 }
    ensures { Gives (parts_marked front.now mark more.now) result }
{
    if mark == b'.' {
        read_decimal(front, more)
    } else if mark == b'/' {
        read_quotient(front, more)
    } else {
        None
    }
}

/// What a text without a minus stands for, where its parts in lowest terms are not past the limit.
fn read_unsigned(text: &[u8]) -> Option<Fraction>
    ensures { Gives (parts_of text.now) result }
{
    let (front, rest) = split_digits(text);
    if front.is_empty() {
        return None;
    }
    match rest.split_first() {
        None => read_whole(front),
        Some((mark, more)) => read_marked(front, *mark, more),
    }
}

fn read_negative(rest: &[u8]) -> Option<Fraction>
    ensures { GivesNegative (parts_of rest.now) result }
{
    match read_unsigned(rest) {
        Some(number) => Some(number.neg()),
        None => None,
    }
}

/// The number that a text stands for.
///
/// A text is digits, perhaps with a point and 1 to 18 places behind them, or two numbers with a slash between; a minus
/// may stand in front. Nothing is answered where the text is none of these, or where a part of its number, in lowest
/// terms, is past 2^127 - 1.
pub fn read_number(text: &[u8]) -> Option<Fraction>
    ensures spells { IfSome result (Spells text.now) }
    ensures fits { IfSome result (Fits wide_limit) }

    // Each text of a number that fits is read as that number.
    ensures read { (q : ℚ) → Spells text.now q → Fits wide_limit q → result ≡ Some q }
{
    match text.split_first() {
        None => None,
        Some((first, rest)) => {
            if *first == b'-' {
                read_negative(rest)
            } else {
                read_unsigned(text)
            }
        }
    }
}
