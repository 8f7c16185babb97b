//! Decimal digits of any length.

ghost use Rattle.std.specs.Prelude.{
  ◌≡◌,
  ℕ,
  suc,
  ◌+◌,
  ◌-◌,
  ◌*◌,
  ◌^◌,
  ◌≤◌,
  ◌<◌,
  ◌++◌,
  length,
  take,
  slice_index,
  true,
};
ghost use Rattle.std.specs.Option.{SomeIff};
ghost use Rattle.std.specs.List.{list_all};
ghost use Rattle.std.specs.Char.{is_ascii_digit};
ghost use Rattle.exact_lin.specs.Reckoning.{wide_limit};
ghost use Rattle.basics.specs.Texts.{is_digits, number, number_after};
ghost use Rattle.plan_text.specs.Quotients.{bytes_of, AreDigits, leading};

use exact_lin::WIDE_LIMIT;

/// The digits of two texts, one behind the other.
#[derive(Clone, Copy)]
pub struct Digits<'a> {
    pub front: &'a [u8],
    pub back: &'a [u8],
}

impl<'a> Digits<'a> {
    pub fn len(&self) -> usize
        requires { length self.now.front.now + length self.now.back.now < 2 ^ 64 }
        ensures { result ≡ length (bytes_of self.now) }
    {
        self.front.len() + self.back.len()
    }

    fn byte(&self, i: usize) -> u8
        requires { i < length (bytes_of self.now) }
        ensures { result ≡ slice_index (bytes_of self.now) i }
    {
        if i < self.front.len() {
            self.front[i]
        } else {
            self.back[i - self.front.len()]
        }
    }

    /// The digit at a place, where zeros in front make the digits so many.
    pub fn aligned(&self, total: usize, i: usize) -> u128
        requires digits { AreDigits (bytes_of self.now) }
        requires len { length self.now.front.now + length self.now.back.now < 2 ^ 64 }
        requires total { length (bytes_of self.now) ≤ total }
        requires inside { i < total }
        ensures value { leading (bytes_of self.now) total (suc i)
            ≡ 10 * leading (bytes_of self.now) total i + result }
        ensures small { result ≤ 9 }
    {
        let zeros = total - self.len();
        if i < zeros {
            0
        } else {
            digit(self.byte(i - zeros))
        }
    }
}

fn all_digits(text: &[u8]) -> bool
    ensures { result ≡ list_all is_ascii_digit text.now }
{
    text.iter().all(|b| b.is_ascii_digit())
}

/// Whether a text is one digit or more.
pub fn is_digits(text: &[u8]) -> bool
    ensures { result ≡ is_digits text.now }
{
    !text.is_empty() && all_digits(text)
}

/// Digits without the zeros in front of them.
fn without_zeros(text: &[u8]) -> &[u8]
    requires { AreDigits text.now }
    ensures number { number result.now ≡ number text.now }
    ensures digits { AreDigits result.now }
    ensures len { length result.now ≤ length text.now }
{
    let mut zeros = 0;
    while zeros < text.len() && text[zeros] == b'0' {
        zeros += 1;
    }
    &text[zeros..]
}

impl<'a> Digits<'a> {
    /// The same number without zeros in front of the first part, so that a comparison has less to go over.
    pub fn trimmed(&self) -> Digits<'a>
        requires { AreDigits (bytes_of self.now) }
        ensures number { number (bytes_of result) ≡ number (bytes_of self.now) }
        ensures digits { AreDigits (bytes_of result) }
        ensures len { length result.front.now + length result.back.now
            ≤ length self.now.front.now + length self.now.back.now }
    {
        Digits {
            front: without_zeros(self.front),
            back: self.back,
        }
    }
}

/// What a digit stands for.
fn digit(b: u8) -> u128
    requires { is_ascii_digit b ≡ true }
    ensures value { result ≡ b - 48 }
    ensures small { result ≤ 9 }
{
    (b - b'0') as u128
}

/// The number that digits stand for behind another, where it is not past the limit.
pub fn small_after(start: u128, text: &[u8]) -> Option<u128>
    requires start { start ≤ wide_limit }
    requires digits { AreDigits text.now }
    ensures { SomeIff result (number_after start text.now ≤ wide_limit) (number_after start text.now) }
{
    let mut n = start;
    for b in text {
        if n > WIDE_LIMIT / 10 {
            return None;
        }
        n = 10 * n + digit(*b);
        if n > WIDE_LIMIT {
            return None;
        }
    }
    Some(n)
}
