//! Linear programs, read entry by entry, and why a certificate doesn't prove its claim.

ghost use Rattle.std.specs.Prelude.{◌≡◌, ◌<◌, ◌↔◌, length, IfSome, IsTrue};
ghost use Rattle.exact_lin.specs.Forms.{Covers, shown};
ghost use Rattle.cert_core.specs.Programs.{Program, IsEven, TellsRow, entry_of, bound_of, cost_of};

use exact_lin::{Id, Scalar};

/// A linear program, read entry by entry: among the points `x >= 0` with `A x <= b`, the least cost `base + c x`.
pub trait Rows<R: Id, V: Id, S: Scalar> {
    ghost program: { Self → Program };

    /// The number of rows.
    fn row_count(&self) -> u32
        ensures { result ≡ length (program self.now).rows };

    /// The number of variables.
    fn var_count(&self) -> u32
        ensures { result ≡ length (program self.now).costs };

    /// The entry of a row in a variable's column.
    fn entry(&self, r: R, v: V) -> S
        requires row { R.number_of r < length (program self.now).rows }
        requires variable { V.number_of v < length (program self.now).costs }
        ensures { S.value result ≡ entry_of (program self.now) (R.number_of r) (V.number_of v) };

    /// The entries of a row that aren't 0, each with its variable, in the order of the variables; or None, which is the
    /// default, where the program doesn't keep its rows so. What reads a whole row then asks for each entry.
    fn row(&self, _r: R) -> Option<&[(V, S)]>
        requires { R.number_of _r < length (program self.now).rows }
        ensures { IfSome result (λ terms. TellsRow (program self.now) (R.number_of _r)
            (shown V.number_of S.value terms.now)) }
    {
        None
    }

    /// The bound of a row.
    fn bound(&self, r: R) -> S
        requires { R.number_of r < length (program self.now).rows }
        ensures { S.value result ≡ bound_of (program self.now) (R.number_of r) };

    /// The cost's factor of a variable.
    fn cost(&self, v: V) -> S
        requires { V.number_of v < length (program self.now).costs }
        ensures { S.value result ≡ cost_of (program self.now) (V.number_of v) };

    /// The cost's constant.
    fn base(&self) -> S
        ensures { S.value result ≡ (program self.now).base };

    ghost even: { (p : Self) → IsEven (program p) };
}

/// Whether the variable of each term has a number below `count`: what the terms of a form have to be asked before they
/// tell a row of so many variables.
pub fn are_within<V: Id, S: Scalar>(terms: &[(V, S)], count: u32) -> bool
    ensures { IsTrue result ↔ Covers count (shown V.number_of S.value terms.now) }
{
    let mut left = terms;
    while let Some((term, later)) = left.split_first() {
        if term.0.number() >= count {
            return false;
        }
        left = later;
    }
    true
}

/// Why a certificate doesn't prove its claim.
#[derive(Clone, Copy, Drop, PartialEq, Eq, Debug)]
pub enum CertFault<R, V> {
    /// The multiplier of this row is below 0.
    Negative(R),
    /// The sum of this column is below 0.
    Column(V),
    /// The bounds' sum of a Farkas row isn't below 0.
    Constant,
    /// The cost that a dual row proves is below the claimed one.
    Bound,
    /// This row is out of range, or not above the one before; of a split, its term.
    Range(u32),
    /// A sum is undefined in the numbers' width.
    Wide,
}
