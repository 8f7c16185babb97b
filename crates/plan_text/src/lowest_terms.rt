//! The parts of a quotient of digits of any length, in lowest terms and in no memory.
//!
//! The search goes down the tree of Stern and Brocot: the quotient lies between two neighbours, and no fraction between
//! them has smaller parts than the one that their parts add up to.

ghost use Rattle.std.specs.Prelude.{
  ◌≡◌,
  ℕ,
  ◌+◌,
  ◌*◌,
  ◌^◌,
  ◌≤◌,
  ◌<◌,
  ◌≢◌,
  ◌++◌,
  length,
  pos,
  IfSome,
  IfNone,
};
ghost use Rattle.rational.specs.Rational.{ratio};
ghost use Rattle.exact_lin.specs.Reckoning.{wide_limit, Fits};
ghost use Rattle.basics.specs.Texts.{number};
ghost use Rattle.plan_text.specs.Quotients.{bytes_of, AreDigits, Compares, LiesBetween, AreSteps, IsStep};

use crate::compare::compare;
use crate::digits::Digits;
use exact_lin::WIDE_LIMIT;
use std::cmp::Ordering;

/// A fraction.
#[derive(Clone, Copy)]
pub struct Quotient {
    pub num: u128,
    pub den: u128,
}

/// The fraction that another's parts lead to, where it is on the side of n / d and within the limit.
fn advanced(
    side: Ordering,
    from: Quotient,
    by: Quotient,
    n: &Digits,
    d: &Digits,
) -> Option<Quotient>
    requires from_num { from.num ≤ wide_limit }
    requires from_den { from.den ≤ wide_limit }
    requires by_num { by.num ≤ wide_limit }
    requires by_den { by.den ≤ wide_limit }
    requires n { AreDigits (bytes_of n.now) }
    requires d { AreDigits (bytes_of d.now) }
    requires n_len { length n.now.front.now + length n.now.back.now < 2 ^ 64 }
    requires d_len { length d.now.front.now + length d.now.back.now < 2 ^ 64 }
    ensures num { IfSome result (λ next. next.num ≡ from.num + by.num) }
    ensures den { IfSome result (λ next. next.den ≡ from.den + by.den) }
    ensures num_fits { IfSome result (λ next. next.num ≤ wide_limit) }
    ensures den_fits { IfSome result (λ next. next.den ≤ wide_limit) }
    ensures on_side { IfSome result (λ next. Compares side next.num next.den
        (number (bytes_of n.now)) (number (bytes_of d.now))) }
{
    let num = from.num + by.num;
    let den = from.den + by.den;
    if num > WIDE_LIMIT || den > WIDE_LIMIT {
        return None;
    }
    if compare(num, den, n, d) != side {
        return None;
    }
    Some(Quotient { num, den })
}

/// Goes on from a fraction by as many steps as leave it on its side of n / d: by one, by two more, by four more and so
/// on, and then back through the same numbers.
fn furthest(side: Ordering, best: Quotient, step: Quotient, n: &Digits, d: &Digits) -> Quotient
    requires num { best.num ≤ wide_limit }
    requires den { best.den ≤ wide_limit }
    requires step_num { step.num ≤ best.num }
    requires step_den { step.den ≤ best.den }
    requires some { 0 < step.num + step.den }
    requires on_side { Compares side best.num best.den
        (number (bytes_of n.now)) (number (bytes_of d.now)) }
    requires n { AreDigits (bytes_of n.now) }
    requires d { AreDigits (bytes_of d.now) }
    requires n_len { length n.now.front.now + length n.now.back.now < 2 ^ 64 }
    requires d_len { length d.now.front.now + length d.now.back.now < 2 ^ 64 }
    ensures steps { AreSteps best.num best.den step.num step.den result.num result.den }
    ensures on_side { Compares side result.num result.den
        (number (bytes_of n.now)) (number (bytes_of d.now)) }
    ensures num { result.num ≤ wide_limit }
    ensures den { result.den ≤ wide_limit }
{
    match advanced(side, best, step, n, d) {
        None => best,
        Some(next) => {
            let double = Quotient {
                num: step.num + step.num,
                den: step.den + step.den,
            };
            let far = furthest(side, next, double, n, d);
            match advanced(side, far, step, n, d) {
                None => far,
                Some(last) => last,
            }
        }
    }
}

/// Goes on from one fraction by the parts of another, as often as it stays on one side of n / d.
fn far(side: Ordering, from: Quotient, by: Quotient, n: &Digits, d: &Digits) -> Quotient
    requires num { from.num + by.num ≤ wide_limit }
    requires den { from.den + by.den ≤ wide_limit }
    requires some { 0 < by.num + by.den }
    requires on_side { Compares side (from.num + by.num) (from.den + by.den)
        (number (bytes_of n.now)) (number (bytes_of d.now)) }
    requires n { AreDigits (bytes_of n.now) }
    requires d { AreDigits (bytes_of d.now) }
    requires n_len { length n.now.front.now + length n.now.back.now < 2 ^ 64 }
    requires d_len { length d.now.front.now + length d.now.back.now < 2 ^ 64 }
    ensures step { IsStep from.num from.den by.num by.den result.num result.den }
    ensures on_side { Compares side result.num result.den
        (number (bytes_of n.now)) (number (bytes_of d.now)) }
    ensures num { result.num ≤ wide_limit }
    ensures den { result.den ≤ wide_limit }
{
    let best = Quotient {
        num: from.num + by.num,
        den: from.den + by.den,
    };
    furthest(side, best, by, n, d)
}

/// The parts of n / d in lowest terms, where they are not past the limit.
pub fn lowest_parts(n: &Digits, d: &Digits) -> Option<Quotient>
    requires some { 0 < number (bytes_of d.now) }
    requires n { AreDigits (bytes_of n.now) }
    requires d { AreDigits (bytes_of d.now) }
    requires n_len { length n.now.front.now + length n.now.back.now < 2 ^ 64 }
    requires d_len { length d.now.front.now + length d.now.back.now < 2 ^ 64 }
    ensures same { IfSome result (λ r. r.num * number (bytes_of d.now)
        ≡ r.den * number (bytes_of n.now)) }
    ensures den { IfSome result (λ r. 0 < r.den) }
    ensures num_fits { IfSome result (λ r. r.num ≤ wide_limit) }
    ensures den_fits { IfSome result (λ r. r.den ≤ wide_limit) }
    ensures none { IfNone result (Fits wide_limit (ratio (pos (number (bytes_of n.now)))
        (number (bytes_of d.now))) → ⊥) }
{
    let mut above = Quotient { num: 1, den: 0 };
    let mut below = Quotient { num: 0, den: 1 };
    if compare(below.num, below.den, n, d) == Ordering::Equal {
        return Some(below);
    }
    'descent: loop {
        let num = above.num + below.num;
        let den = above.den + below.den;
        if num > WIDE_LIMIT || den > WIDE_LIMIT {
            return None;
        }
        match compare(num, den, n, d) {
            Ordering::Equal => {
                return Some(Quotient { num, den });
            }
            Ordering::Greater => above = far(Ordering::Greater, above, below, n, d),
            Ordering::Less => below = far(Ordering::Less, below, above, n, d),
        }
    }
}
