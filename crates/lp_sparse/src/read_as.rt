//! Numbers in the width in which they are handed out.

ghost use Rattle.std.specs.Prelude.{◌≡◌};

use exact_lin::{Fraction, Narrow, Scalar};

// Numbers that can be handed out in the width of T, which holds them all.
pub(crate) trait ReadAs<T: Scalar>: Scalar {
    fn read_as(self) -> T
        ensures { T.value result ≡ Self.value self };
}

impl<S: Scalar> ReadAs<S> for S {
    fn read_as(self) -> S {
        self
    }
}

impl ReadAs<Fraction> for Narrow {
    fn read_as(self) -> Fraction {
        self.widen()
    }
}
