//! Products with a factor that is 1 or -1 more often than not.

ghost use Rattle.std.specs.Prelude.{◌≡◌};
ghost use Rattle.rational.specs.Rational.{◌*ℚ◌};
ghost use Rattle.exact_lin.specs.Reckoning.{CanMultiply, Fits, Reckons};

use exact_lin::{Scalar, Wide};

// The number, which keeps to the limit of its width.
fn kept<S: Scalar>(x: S) -> S
    ensures value { S.value result ≡ S.value x }
    ensures fits { Fits S.limit (S.value result) }
{
    let _sign = x.sign();
    x
}

// y times x. Where y is 1 or -1 no common factor is sought.
pub(crate) fn product_of<S: Scalar>(y: S, x: S) -> Result<S, Wide>
    ensures { Reckons S.value result (CanMultiply S.limit (S.value y) (S.value x))
        (S.value y *ℚ S.value x) }
{
    if y == S::of_int(1) {
        return Ok(kept(x));
    }
    if y == S::of_int(-1) {
        return Ok(kept(x.neg()));
    }
    y.mul(x)
}
