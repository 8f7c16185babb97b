//! What an ended chain gives: a point, and multipliers of the rows.

ghost use Rattle.std.specs.Prelude.{◌≡◌, ℕ, ◌+◌, ◌<◌, nat_eq, if◌then◌else◌, length, map};
ghost use Rattle.rational.specs.Lists.{at};
ghost use Rattle.rational.specs.Rational.{zeroℚ};
ghost use Rattle.lp_tableau.specs.Assignments.{point_of};
ghost use Rattle.lp_tableau.specs.Meanings.{IsDictionary};
ghost use Rattle.lp_tableau.specs.Multipliers.{dual_of, farkas_of};
ghost use Rattle.lp_sparse.specs.SparseTableaus.{AreRows, dictionary_of};

use crate::read_as::ReadAs;
use crate::tableau::Tableau;
use exact_lin::Scalar;

// Writes 0 at each place.
fn clear<S: Scalar>(out: &mut [S])
    ensures length { length out.new ≡ length out.old }
    ensures zeros { (w : ℕ) → w < length out.old → at (map S.value out.new) w ≡ zeroℚ }
{
    for k in 0..out.len() {
        out[k] = S::of_int(0);
    }
}

// Writes the value of a variable at its place, if there is one: the places stand for the variables from `start` on.
fn put<S: Scalar>(out: &mut [S], start: usize, variable: usize, value: S)
    ensures length { length out.new ≡ length out.old }
    ensures value { (w : ℕ) → w < length out.old → at (map S.value out.new) w
        ≡ (if nat_eq variable (start + w) then S.value value else at (map S.value out.old) w) }
{
    if start <= variable && variable - start < out.len() {
        out[variable - start] = value;
    }
}

// The basic variables' constants at the places of the program's variables.
pub(crate) fn write_point<S: ReadAs<T>, T: Scalar>(t: &Tableau<S>, out: &mut [T])
    requires rows { AreRows S.value S.limit t.now }
    requires dictionary { IsDictionary (dictionary_of S.value t.now) }
    requires length { length out.old ≡ length t.now.nonbasic.items }
    ensures { map T.value out.new
        ≡ point_of (dictionary_of S.value t.now) (length t.now.nonbasic.items) }
{
    clear(out);
    for i in 0..t.rows.len() {
        put(out, 0, t.basic[i], t.constant(i).read_as());
    }
}

// The cost's entries at the places of the slacks.
pub(crate) fn write_dual<S: ReadAs<T>, T: Scalar>(t: &Tableau<S>, out: &mut [T])
    requires rows { AreRows S.value S.limit t.now }
    requires dictionary { IsDictionary (dictionary_of S.value t.now) }
    requires length { length out.old ≡ length (dictionary_of S.value t.now).rows }
    ensures { map T.value out.new ≡ dual_of (dictionary_of S.value t.now) }
{
    clear(out);
    for j in 0..t.nonbasic.len() {
        put(
            out,
            t.nonbasic.len(),
            t.nonbasic[j],
            t.cost_entry(j).read_as(),
        );
    }
}

// Minus the entries of the row at i at the places of the slacks, and 1 at that of its basic variable.
pub(crate) fn write_farkas<S: ReadAs<T>, T: Scalar>(t: &Tableau<S>, i: usize, out: &mut [T])
    requires rows { AreRows S.value S.limit t.now }
    requires dictionary { IsDictionary (dictionary_of S.value t.now) }
    requires row { i < length (dictionary_of S.value t.now).rows }
    requires length { length out.old ≡ length (dictionary_of S.value t.now).rows }
    ensures { map T.value out.new ≡ farkas_of (dictionary_of S.value t.now) i }
{
    clear(out);
    put(out, t.nonbasic.len(), t.basic[i], T::of_int(1));
    for j in 0..t.nonbasic.len() {
        put(
            out,
            t.nonbasic.len(),
            t.nonbasic[j],
            t.entry(i, j).neg().read_as(),
        );
    }
}
