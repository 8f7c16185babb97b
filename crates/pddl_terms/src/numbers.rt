//! The value of a number.

ghost use Rattle.std.specs.Prelude.{◌≡◌, ◌≤◌, ◌<◌, ◌^◌, Ok, pos};
ghost use Rattle.rational.specs.Rational.{ratio};
ghost use Rattle.basics.specs.Texts.{number, digit_count, digit_limit, behind_point};
ghost use Rattle.sexpr_text.specs.Runs.{reading};
ghost use Rattle.sexpr_text.specs.declared.token.TokenKind.TheVariants.{Number};
ghost use Rattle.pddl_terms.specs.Content.{content_at};
ghost use Rattle.pddl_terms.specs.Numbers.{digits_of, is_negative, size, number_value, number_at};

use crate::items::{Item, item_at, word_bytes};
use crate::words::is_number;
use exact_lin::{Fraction, Scalar};
use sexpr_text::Forms;

/// The number that the digits among the bytes stand for.
fn number(bytes: &[u8]) -> u64
    requires { digit_count bytes.now ≤ digit_limit }
    ensures value { result ≡ number (digits_of bytes.now) }
    ensures bound { result < 10 ^ digit_count bytes.now }
{
    let mut number = 0;
    let mut left = bytes;
    while let Some((byte, rest)) = left.split_first() {
        if byte.is_ascii_digit() {
            number = 10 * number + (*byte - b'0') as u64;
        }
        left = rest;
    }
    number
}

fn digit_count(bytes: &[u8]) -> usize
    ensures { result ≡ digit_count bytes.now }
{
    bytes.iter().filter(|b| b.is_ascii_digit()).count()
}

/// What stands behind the first point, or nothing.
fn behind_point(bytes: &[u8]) -> &[u8]
    ensures { result.now ≡ behind_point bytes.now }
{
    let mut left = bytes;
    while let Some((first, rest)) = left.split_first() {
        if *first == b'.' {
            return rest;
        }
        left = rest;
    }
    &[]
}

fn is_negative(bytes: &[u8]) -> bool
    ensures { result ≡ is_negative bytes.now }
{
    match bytes {
        [first, ..] => *first == b'-',
        [] => false,
    }
}

fn quotient(number: u64, scale: u64) -> Fraction
    requires { 0 < scale }
    ensures { result ≡ ratio (pos number) scale }
{
    Fraction::of_parts(number as i128, scale as i128).unwrap()
}

/// The number without its minus.
fn size(bytes: &[u8]) -> Fraction
    requires { digit_count bytes.now ≤ digit_limit }
    ensures { result ≡ size bytes.now }
{
    let scale = 10u64.pow(digit_count(behind_point(bytes)) as u32);
    quotient(number(bytes), scale)
}

/// The value of a number's bytes.
pub fn number_value(bytes: &[u8]) -> Fraction
    requires { reading bytes.now ≡ Ok Number }
    ensures { result ≡ number_value bytes.now }
{
    let size = size(bytes);
    if is_negative(bytes) { size.neg() } else { size }
}

/// The value of the number that stands at a token, or 0 where none does.
pub fn number_at(forms: &Forms, at: usize) -> Fraction
    ensures { result ≡ number_at (content_at forms.now at) }
{
    match item_at(forms, at) {
        Item::Word(token) => {
            if is_number(token.kind) {
                number_value(word_bytes(forms, token))
            } else {
                Fraction::of_int(0)
            }
        }
        Item::End(_) => Fraction::of_int(0),
        Item::List(_) => Fraction::of_int(0),
    }
}
