//! Fractions in lowest terms, with parts of 128 and of 64 bits.

ghost use Rattle.std.specs.Prelude.{◌≡◌, ◌≢◌, ℕ, ◌<◌, ◌≤◌, ℤ, pos, ◌<ℤ◌, unsigned_abs, ◌↔◌, IsTrue};
ghost use Rattle.std.specs.Option.{SomeIff};
ghost use Rattle.std.specs.Result.{OkIff};
ghost use Rattle.std.specs.Ordering.{MatchOrdering};
ghost use Rattle.rational.specs.Rational.{ratio, whole, zeroℚ, ◌+ℚ◌, ◌*ℚ◌, neg_ℚ, inverse, ◌<ℚ◌, cmp_ℚ};
ghost use Rattle.exact_lin.specs.Reckoning.{wide_limit, narrow_limit, IsFraction, Within, Fits, CanAdd, CanMultiply};
ghost use Rattle.exact_lin.specs.Signs.{MatchSign};

use crate::narrow_reckoning::{NARROW_LIMIT, narrow_order, narrow_product, narrow_sum};
use crate::reckoning::{divided, greatest, order_of, product_of, sum_of};
use crate::scalars::{Scalar, Sign, Wide};
use std::cmp::Ordering;
use std::marker::Model;

/// An exact fraction in lowest terms. Its denominator is at least 1, and neither part is past 2^127 - 1.
#[derive(Clone, Copy, Debug, PartialEq, Eq)]
pub struct Fraction {
    num: i128,
    den: u128,
}

impl Model for Fraction {
    ghost use Rattle.rational.specs.Rational.{ℚ, ratio};
    ghost use Rattle.rational.proofs.Fractions.{ratio-num, ratio-den};
    ghost use Rattle.exact_lin.specs.Reckoning.{ℚ_code, IsFraction, wide_limit};

    ghost Value = { ℚ };

    ghost coded = { ℚ_code };

    ghost view = { λ f. ratio f.num f.den };

    ghost invariant = { λ f. IsFraction wide_limit f.num f.den };

    ghost inverse = { λ q. record { num = q.num; den = q.den } };

    ghost inverse_ok = { λ f h i. record { num = ratio-num f.num f.den h.lowest i; den = ratio-den f.num f.den h.lowest i } };
}

/// An exact fraction in lowest terms. Its denominator is at least 1, and neither part is past 2^63 - 1.
#[derive(Clone, Copy, Debug, PartialEq, Eq)]
pub struct Narrow {
    num: i64,
    den: u64,
}

impl Model for Narrow {
    ghost use Rattle.rational.specs.Rational.{ℚ, ratio};
    ghost use Rattle.rational.proofs.Fractions.{ratio-num, ratio-den};
    ghost use Rattle.exact_lin.specs.Reckoning.{ℚ_code, IsFraction, narrow_limit};

    ghost Value = { ℚ };

    ghost coded = { ℚ_code };

    ghost view = { λ f. ratio f.num f.den };

    ghost invariant = { λ f. IsFraction narrow_limit f.num f.den };

    ghost inverse = { λ q. record { num = q.num; den = q.den } };

    ghost inverse_ok = { λ f h i. record { num = ratio-num f.num f.den h.lowest i; den = ratio-den f.num f.den h.lowest i } };
}

impl Narrow {
    /// The same number in parts of 128 bits.
    pub fn widen(self) -> Fraction
        ensures value { result ≡ self }
        ensures fits { Fits narrow_limit result }
    {
        Fraction::made(self.num as i128, self.den as u128)
    }

    fn order(self, other: Narrow) -> Ordering
        ensures value { result ≡ cmp_ℚ self other }
        ensures order { MatchOrdering result (self <ℚ other) (self ≡ other) (other <ℚ self) }
    {
        narrow_order(self.num, self.den, other.num, other.den)
    }
}

impl Fraction {
    /// num / den in lowest terms, or None where `den` is below 1 or `num` is the least number of its type.
    pub fn of_parts(num: i128, den: i128) -> Option<Fraction>
        ensures { SomeIff result (pos 0 <ℤ den × Within wide_limit num) (ratio num (unsigned_abs den)) }
    {
        if den < 1 || num == i128::MIN {
            return None;
        }
        Some(Fraction::reduced(num, den.unsigned_abs()))
    }

    /// The numerator.
    pub fn num(self) -> i128
        ensures value { result ≡ self.num }
        ensures fits { Fits wide_limit self }
    {
        self.num
    }

    /// The denominator, at least 1.
    pub fn den(self) -> i128
        ensures value { result ≡ pos self.den }
        ensures positive { pos 0 <ℤ result }
    {
        self.den as i128
    }

    // The fraction of two parts that are in lowest terms and not too large.
    fn made(num: i128, den: u128) -> Fraction
        requires { IsFraction wide_limit num den }
        ensures { result ≡ ratio num den }
    {
        Fraction { num, den }
    }

    // The fraction of two parts, brought to lowest terms.
    fn reduced(num: i128, den: u128) -> Fraction
        requires numerator { Within wide_limit num }
        requires positive { 0 < den }
        requires denominator { den ≤ wide_limit }
        ensures { result ≡ ratio num den }
    {
        let g = greatest(num.unsigned_abs(), den);
        Fraction::made(divided(num, g), den / g)
    }

    pub(crate) fn of_whole(n: i32) -> Fraction
        ensures { result ≡ whole n }
    {
        Fraction::made(n as i128, 1)
    }

    pub(crate) fn negative(self) -> Fraction
        ensures { result ≡ neg_ℚ self }
    {
        Fraction::made(-self.num, self.den)
    }

    pub(crate) fn reciprocal(self) -> Fraction
        requires { self ≢ zeroℚ }
        ensures { result ≡ inverse self }
    {
        let size = self.num.unsigned_abs();
        if self.num < 0 {
            Fraction::made(-(self.den as i128), size)
        } else {
            Fraction::made(self.den as i128, size)
        }
    }

    pub(crate) fn sign_of(self) -> Sign
        ensures sign { MatchSign result self }
        ensures fits { Fits wide_limit self }
    {
        if self.num < 0 {
            Sign::Minus
        } else if self.num == 0 {
            Sign::Zero
        } else {
            Sign::Plus
        }
    }

    pub(crate) fn order(self, other: Fraction) -> Ordering
        ensures value { result ≡ cmp_ℚ self other }
        ensures order { MatchOrdering result (self <ℚ other) (self ≡ other) (other <ℚ self) }
    {
        order_of(self.num, self.den, other.num, other.den)
    }

    /// The same number in parts of 64 bits, or None where a part is past 2^63 - 1.
    pub fn narrow(self) -> Option<Narrow>
        ensures { SomeIff result (Fits narrow_limit self) self }
    {
        if self.is_within(NARROW_LIMIT as u128) {
            Some(self.narrowed())
        } else {
            None
        }
    }

    // Whether neither part is past the limit.
    fn is_within(self, limit: u128) -> bool
        ensures { IsTrue result ↔ Fits limit self }
    {
        self.num.unsigned_abs() <= limit && self.den <= limit
    }

    // The same number in parts of 64 bits, which it fits.
    fn narrowed(self) -> Narrow
        requires { Fits narrow_limit self }
        ensures { result ≡ self }
    {
        Narrow {
            num: self.num as i64,
            den: self.den as u64,
        }
    }
}

impl Scalar for Fraction {
    ghost use Rattle.std.specs.Prelude.{refl};
    ghost use Rattle.rational.specs.Rational.{ℚ};
    ghost use Rattle.exact_lin.specs.Reckoning.{wide_limit};
    ghost use Rattle.exact_lin.specs.Scalars.{parts-decide};
    ghost use Rattle.exact_lin.specs.Limits.{CanAdd-larger, CanMultiply-larger, narrow-below_wide};

    ghost value = { λ q. q };

    ghost limit = { wide_limit };

    fn of_int(n: i32) -> Fraction {
        Fraction::of_whole(n)
    }

    fn add(self, other: Fraction) -> Result<Fraction, Wide> {
        match sum_of(self.num, self.den, other.num, other.den) {
            Some((num, den)) => Ok(Fraction { num, den }),
            None => Err(Wide),
        }
    }

    fn mul(self, other: Fraction) -> Result<Fraction, Wide> {
        match product_of(self.num, self.den, other.num, other.den) {
            Some((num, den)) => Ok(Fraction { num, den }),
            None => Err(Wide),
        }
    }

    fn neg(self) -> Fraction {
        self.negative()
    }

    fn recip(self) -> Fraction {
        self.reciprocal()
    }

    fn sign(self) -> Sign {
        self.sign_of()
    }

    fn cmp(self, other: Fraction) -> Ordering {
        self.order(other)
    }

    ghost distinct = { λ x y e. e };

    ghost decides = { parts-decide };

    ghost narrow_sums = { λ x y. CanAdd-larger _ _ narrow-below_wide x y };

    ghost narrow_products = { λ x y. CanMultiply-larger _ _ narrow-below_wide x y };

    ghost wide_sums = { λ x y h. h };

    ghost wide_products = { λ x y h. h };
}

impl Scalar for Narrow {
    ghost use Rattle.std.specs.Prelude.{refl};
    ghost use Rattle.rational.specs.Rational.{ℚ};
    ghost use Rattle.exact_lin.specs.Reckoning.{narrow_limit};
    ghost use Rattle.exact_lin.specs.Scalars.{parts-decide};
    ghost use Rattle.exact_lin.specs.Limits.{CanAdd-larger, CanMultiply-larger, narrow-below_wide};

    ghost value = { λ q. q };

    ghost limit = { narrow_limit };

    fn of_int(n: i32) -> Narrow {
        Fraction::of_whole(n).narrowed()
    }

    fn add(self, other: Narrow) -> Result<Narrow, Wide> {
        match narrow_sum(self.num, self.den, other.num, other.den) {
            Some((num, den)) => Ok(Narrow { num, den }),
            None => Err(Wide),
        }
    }

    fn mul(self, other: Narrow) -> Result<Narrow, Wide> {
        match narrow_product(self.num, self.den, other.num, other.den) {
            Some((num, den)) => Ok(Narrow { num, den }),
            None => Err(Wide),
        }
    }

    fn neg(self) -> Narrow {
        self.widen().negative().narrowed()
    }

    fn recip(self) -> Narrow {
        self.widen().reciprocal().narrowed()
    }

    fn sign(self) -> Sign {
        self.widen().sign_of()
    }

    fn cmp(self, other: Narrow) -> Ordering {
        self.order(other)
    }

    ghost distinct = { λ x y e. e };

    ghost decides = { parts-decide };

    ghost narrow_sums = { λ x y h. h };

    ghost narrow_products = { λ x y h. h };

    ghost wide_sums = { λ x y. CanAdd-larger _ _ narrow-below_wide x y };

    ghost wide_products = { λ x y. CanMultiply-larger _ _ narrow-below_wide x y };
}

impl PartialOrd for Fraction {
    ghost use Rattle.std.specs.Prelude.{Some};
    ghost use Rattle.std.specs.Cmp.{po};
    ghost use Rattle.rational.specs.Rational.{cmp_ℚ};
    ghost use Rattle.rational.proofs.Comparisons.{cmp_total, cmp_ties};

    ghost partial_cmp = { λ a b. Some (cmp_ℚ a b) };

    ghost laws = { po cmp_total cmp_ties };

    fn partial_cmp(&self, other: &Fraction) -> Option<Ordering> {
        Some(self.order(*other))
    }
}

impl Ord for Fraction {
    ghost use Rattle.std.specs.Prelude.{refl};
    ghost use Rattle.rational.specs.Rational.{cmp_ℚ};
    ghost use Rattle.rational.proofs.Comparisons.{cmp_total, cmp_ties};

    ghost cmp = { cmp_ℚ };

    ghost total = { cmp_total };

    ghost matches_partial_cmp = { λ a b. refl };

    ghost matches_eq = { cmp_ties };

    fn cmp(&self, other: &Fraction) -> Ordering {
        self.order(*other)
    }
}

impl PartialOrd for Narrow {
    ghost use Rattle.std.specs.Prelude.{Some};
    ghost use Rattle.std.specs.Cmp.{po};
    ghost use Rattle.rational.specs.Rational.{cmp_ℚ};
    ghost use Rattle.rational.proofs.Comparisons.{cmp_total, cmp_ties};

    ghost partial_cmp = { λ a b. Some (cmp_ℚ a b) };

    ghost laws = { po cmp_total cmp_ties };

    fn partial_cmp(&self, other: &Narrow) -> Option<Ordering> {
        Some(self.order(*other))
    }
}

impl Ord for Narrow {
    ghost use Rattle.std.specs.Prelude.{refl};
    ghost use Rattle.rational.specs.Rational.{cmp_ℚ};
    ghost use Rattle.rational.proofs.Comparisons.{cmp_total, cmp_ties};

    ghost cmp = { cmp_ℚ };

    ghost total = { cmp_total };

    ghost matches_partial_cmp = { λ a b. refl };

    ghost matches_eq = { cmp_ties };

    fn cmp(&self, other: &Narrow) -> Ordering {
        self.order(*other)
    }
}
