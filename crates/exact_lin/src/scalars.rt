//! What exact numbers of every width can do.

ghost use Rattle.std.specs.Prelude.{◌≡◌, ◌≢◌, ℕ, ◌↔◌, IsTrue};
ghost use Rattle.std.specs.Ordering.{MatchOrdering};
ghost use Rattle.rational.specs.Rational.{ℚ, whole, zeroℚ, ◌+ℚ◌, ◌*ℚ◌, neg_ℚ, inverse, ◌<ℚ◌, cmp_ℚ};
ghost use Rattle.exact_lin.specs.Reckoning.{narrow_limit, wide_limit, Fits, CanAdd, CanMultiply, Reckons};
ghost use Rattle.exact_lin.specs.Signs.{MatchSign};

use std::cmp::Ordering;

/// A part of a reckoning is past the limit of the width.
#[derive(Clone, Copy, Debug, PartialEq, Eq)]
pub struct Wide;

/// The sign of a number.
#[derive(Clone, Copy, Debug, PartialEq, Eq)]
pub enum Sign {
    Minus,
    Zero,
    Plus,
}

/// An exact number of some width: a numerator and a positive denominator in lowest terms, neither past the limit of
/// the width. The numerators are symmetric about 0, so that negatives and reciprocals always exist.
pub trait Scalar: Copy + Eq {
    // the number that the scalar stands for
    ghost value: { Self → ℚ };

    // the largest part of a scalar of this width
    ghost limit: { ℕ };

    /// The whole number n.
    fn of_int(n: i32) -> Self
        ensures { value result ≡ whole n };

    /// The exact sum, or `Wide` where the sum is not defined in this width.
    fn add(self, other: Self) -> Result<Self, Wide>
        ensures { Reckons value result (CanAdd limit (value self) (value other)) (value self +ℚ value other) };

    /// The exact product, or `Wide` where the product is not defined in this width.
    fn mul(self, other: Self) -> Result<Self, Wide>
        ensures { Reckons value result (CanMultiply limit (value self) (value other)) (value self *ℚ value other) };

    /// The negative.
    fn neg(self) -> Self
        ensures { value result ≡ neg_ℚ (value self) };

    /// The reciprocal of a number that is not 0.
    fn recip(self) -> Self
        requires { value self ≢ zeroℚ }
        ensures { value result ≡ inverse (value self) };

    /// The sign.
    fn sign(self) -> Sign
        ensures sign { MatchSign result (value self) }
        ensures fits { Fits limit (value self) };

    /// How the two numbers compare. It never fails, whatever their parts.
    fn cmp(self, other: Self) -> Ordering
        ensures value { result ≡ cmp_ℚ (value self) (value other) }
        ensures order { MatchOrdering result (value self <ℚ value other) (value self ≡ value other) (value other <ℚ value self) };

    // two scalars of one value are one scalar, and `==` says so
    ghost distinct: { (x y : Self) → value x ≡ value y → x ≡ y };

    ghost decides: { (x y : Self) → IsTrue (Self.eq x y) ↔ (value x ≡ value y) };

    // what is defined in narrow parts is defined in this width, and what is defined in this width in wide parts; each
    // result is exact, so its value is the same in every width
    ghost narrow_sums: { (x y : Self) → CanAdd narrow_limit (value x) (value y) → CanAdd limit (value x) (value y) };

    ghost narrow_products: { (x y : Self) → CanMultiply narrow_limit (value x) (value y) → CanMultiply limit (value x) (value y) };

    ghost wide_sums: { (x y : Self) → CanAdd limit (value x) (value y) → CanAdd wide_limit (value x) (value y) };

    ghost wide_products: { (x y : Self) → CanMultiply limit (value x) (value y) → CanMultiply wide_limit (value x) (value y) };
}
