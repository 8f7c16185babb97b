//! The values of options: numbers and counts within their ranges.

ghost use Rattle.std.specs.Prelude.{◌≡◌, ◌≤◌, ◌-◌, SomeIff, true, option_map, IsTrue, ◌↔◌};
ghost use Rattle.std.specs.List.{list_all};
ghost use Rattle.std.specs.Char.{is_ascii_digit};
ghost use Rattle.rational.specs.Rational.{zeroℚ, ◌<ℚ◌, ◌≤ℚ◌};
ghost use Rattle.basics.specs.Texts.{number, ReadsExactly};
ghost use Rattle.command_words.specs.Values.{is_count, IsNumberWithin, IsNumberGiven, IsCountWithin, IsCountGiven};

use exact_lin::{Fraction, Scalar, Sign};
use plan_text::read_number;
use std::cmp::Ordering;

/// The number that 1 to 10 digits stand for.
fn read_count(text: &str) -> Option<u64>
    ensures { SomeIff result (is_count text.now ≡ true) (number text.now) }
{
    let digits = text.as_bytes();
    if is_count(digits) {
        Some(number_of(digits))
    } else {
        None
    }
}

fn is_count(text: &[u8]) -> bool
    ensures { result ≡ is_count text.now }
{
    !text.is_empty() && are_digits(text) && text.len() <= 10
}

fn are_digits(text: &[u8]) -> bool
    ensures { result ≡ list_all is_ascii_digit text.now }
{
    text.iter().all(|b| b.is_ascii_digit())
}

fn digit(b: u8) -> u64
    requires { is_ascii_digit b ≡ true }
    ensures value { result ≡ b - 48 }
    ensures small { result ≤ 9 }
{
    u64::from(b - b'0')
}

fn number_of(digits: &[u8]) -> u64
    requires { is_count digits.now ≡ true }
    ensures { result ≡ number digits.now }
{
    let mut n: u64 = 0;
    for b in digits {
        n = 10 * n + digit(*b);
    }
    n
}

fn is_within(number: Fraction, top: Fraction) -> bool
    ensures { IsTrue result ↔ ((zeroℚ <ℚ number) × (number ≤ℚ top)) }
{
    number.sign() == Sign::Plus && !matches!(number.cmp(top), Ordering::Greater)
}

fn number_in(text: &str, top: Fraction) -> Option<Fraction>
    ensures { ReadsExactly result (IsNumberWithin top text.now) }
{
    match read_number(text.as_bytes()) {
        Some(number) if is_within(number, top) => Some(number),
        _ => None,
    }
}

/// The number above 0 and at most the top that the text stands for, and the usual one where there is no text.
pub(crate) fn number_given(text: Option<&str>, usual: Fraction, top: Fraction) -> Option<Fraction>
    ensures { ReadsExactly result (IsNumberGiven usual top (option_map (λ s. s.now) text.entry)) }
{
    match text {
        None => Some(usual),
        Some(text) => number_in(text, top),
    }
}

fn count_in(text: &str, least: u64, most: u64) -> Option<u64>
    ensures { ReadsExactly result (IsCountWithin least most text.now) }
{
    let count = read_count(text)?;
    if count < least || most < count {
        return None;
    }
    Some(count)
}

/// The count within its range that the text stands for, and the usual one where there is no text.
pub(crate) fn count_given(text: Option<&str>, usual: u64, least: u64, most: u64) -> Option<u64>
    ensures { ReadsExactly result (IsCountGiven usual least most (option_map (λ s. s.now) text.entry)) }
{
    match text {
        None => Some(usual),
        Some(text) => count_in(text, least, most),
    }
}
