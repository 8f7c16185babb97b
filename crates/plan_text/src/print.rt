//! How a number is printed.

ghost use Rattle.std.specs.Prelude.{
  ◌≡◌,
  ℕ,
  ◌+◌,
  ◌*◌,
  ◌/◌,
  ◌%◌,
  ◌^◌,
  ◌<◌,
  ◌≤◌,
  ◌++◌,
  ◌∷◌,
  [],
  decimal,
  Some,
  None,
  OnOk,
  IfOk,
  IfSome,
  IfNone,
  nat_abs,
};
ghost use Rattle.exact_lin.specs.Reckoning.{Fits, wide_limit};
ghost use Rattle.plan_text.specs.Numbers.{padded};
ghost use Rattle.plan_text.specs.Numbers.{places_of, decimal_text, quotient_text, sign_text, unsigned_text, number_text, Spells};

use exact_lin::{Fraction, NoMemory};
use itoa::Buffer;
use std::alloc::{AllocError, Global};

/// The fewest and the most places of a decimal.
const MIN_PLACES: u32 = 3;

const MAX_PLACES: u32 = 18;

/// How many places a fraction over `den` needs as a decimal, and the power of ten for them.
fn places(den: u128) -> Option<(u32, u128)>
    requires { 0 < den }
    ensures none { IfNone result (places_of den ≡ None) }
    ensures places { IfSome result (λ found. places_of den ≡ Some found.0) }
    ensures power { IfSome result (λ found. found.1 ≡ 10 ^ found.0) }
    ensures few { IfSome result (λ found. found.1 ≤ 10 ^ 18) }
{
    let mut power = 1000;
    for places in MIN_PLACES..MAX_PLACES + 1 {
        if power % den == 0 {
            return Some((places, power));
        }
        power *= 10;
    }
    None
}

fn push_number(text: &mut Vec<u8>, n: u128) -> Result<(), AllocError>
    ensures { OnOk result (text.new.items ≡ text.old.items ++ decimal n) }
{
    let mut buffer = Buffer::new();
    text.extend_from_slice(buffer.format(n).as_bytes())?;
    Ok(())
}

/// Adds so many of the last digits of a number.
fn push_places(text: &mut Vec<u8>, places: u32, n: u128) -> Result<(), AllocError>
    ensures { OnOk result (text.new.items ≡ text.old.items ++ padded places n) }
{
    if places > 0 {
        push_places(text, places - 1, n / 10)?;
        text.push(b'0' + (n % 10) as u8)?;
    }
    Ok(())
}

fn push_decimal(
    text: &mut Vec<u8>,
    n: u128,
    den: u128,
    places: u32,
    power: u128,
) -> Result<(), AllocError>
    requires some { 0 < den }
    requires power { power ≡ 10 ^ places }
    requires few { power ≤ 10 ^ 18 }
    ensures { OnOk result (text.new.items ≡ text.old.items ++ decimal_text n den places) }
{
    push_number(text, n / den)?;
    text.push(b'.')?;
    push_places(text, places, n % den * (power / den))
}

fn push_quotient(text: &mut Vec<u8>, n: u128, den: u128) -> Result<(), AllocError>
    ensures { OnOk result (text.new.items ≡ text.old.items ++ quotient_text n den) }
{
    push_number(text, n)?;
    text.push(b'/')?;
    push_number(text, den)
}

fn push_unsigned(text: &mut Vec<u8>, n: u128, den: u128) -> Result<(), AllocError>
    requires { 0 < den }
    ensures { OnOk result (text.new.items ≡ text.old.items ++ unsigned_text n den) }
{
    match places(den) {
        Some((places, power)) => push_decimal(text, n, den, places, power),
        None => push_quotient(text, n, den),
    }
}

/// The numerator without its sign.
fn numerator(value: Fraction) -> u128
    ensures value { result ≡ nat_abs value.num }
    ensures fits { Fits wide_limit value }
{
    value.num().unsigned_abs()
}

fn denominator(value: Fraction) -> u128
    ensures { result ≡ value.den }
{
    value.den().unsigned_abs()
}

fn push_sign(text: &mut Vec<u8>, value: Fraction) -> Result<(), AllocError>
    ensures { OnOk result (text.new.items ≡ text.old.items ++ sign_text value.num) }
{
    if value.num() < 0 {
        text.push(b'-')?;
    }
    Ok(())
}

/// Prints a number: a decimal with three places, or with as many as it needs up to 18, else `n/d` in lowest terms.
pub fn print_number(alloc: Global, value: Fraction) -> Result<Vec<u8>, NoMemory>
    ensures text { IfOk result (λ text. text.items ≡ number_text value) }
    // The text stands for the number, so that `read_number` gives the number back.
    ensures spells { IfOk result (λ text. Spells text.items value) }
{
    let mut text = Vec::new(alloc);
    push_sign(&mut text, value)?;
    push_unsigned(&mut text, numerator(value), denominator(value))?;
    Ok(text)
}
