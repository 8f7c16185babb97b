//! Linear programs with terms to decide.

ghost use Rattle.std.specs.Prelude.{◌≡◌, ◌<◌, ◌↔◌, length, map, IsTrue, IfSome};
ghost use Rattle.std.specs.Result.{MatchResult};
ghost use Rattle.exact_lin.specs.Reckoning.{Reckons};
ghost use Rattle.exact_lin.specs.Forms.{shown};
ghost use Rattle.cert_core.specs.Programs.{TellsRow, bound_of, entry_of};
ghost use Rattle.cert_core.specs.Soft.{SoftProgram, AreDecisions, IsLawful, factor_of, program_under, ways_of};

use exact_lin::{Id, Scalar, Wide};
use std::marker::Model;

/// One of the ways to decide a term, counted from 0. The last way pays for the term.
#[derive(Clone, Copy, Drop, PartialEq, Eq, Debug)]
pub struct Way(pub u32);

impl Model for Way {
    ghost use Rattle.std.specs.Prelude.{ℕ};

    ghost Value = { ℕ };

    ghost view = { λ w. w.0 };

    ghost inverse = { λ n. record { 0 = n } };
}

/// A linear program with terms that are still to be decided: each decision may add rows, and may add to the base of
/// the cost. Decisions are a list with one entry for each term, None where the term is undecided.
pub trait SoftRows<T: Id, R: Id, V: Id, S: Scalar> {
    ghost soft: { Self → SoftProgram };

    /// The number of terms.
    fn term_count(&self) -> u32
        ensures { result ≡ length (soft self.now).ways };

    /// The number of ways to decide a term, at least 2.
    fn ways(&self, t: T) -> u32
        requires { T.number_of t < length (soft self.now).ways }
        ensures { result ≡ ways_of (soft self.now) (T.number_of t) };

    /// The number of variables.
    fn var_count(&self) -> u32
        ensures { result ≡ length (soft self.now).costs };

    /// The number of rows under these decisions.
    fn row_count(&self, made: &[Option<Way>]) -> u32
        requires { AreDecisions (soft self.now) made.now }
        ensures { result ≡ length (program_under (soft self.now) made.now).rows };

    /// The entry of a row in a variable's column.
    fn entry(&self, made: &[Option<Way>], r: R, v: V) -> S
        requires made { AreDecisions (soft self.now) made.now }
        requires row { R.number_of r < length (program_under (soft self.now) made.now).rows }
        requires variable { V.number_of v < length (soft self.now).costs }
        ensures { S.value result
            ≡ entry_of (program_under (soft self.now) made.now) (R.number_of r) (V.number_of v) };

    /// The entries of a row that aren't 0, as [`crate::Rows::row`] tells them.
    fn row(&self, _made: &[Option<Way>], _r: R) -> Option<&[(V, S)]>
        requires made { AreDecisions (soft self.now) _made.now }
        requires row { R.number_of _r < length (program_under (soft self.now) _made.now).rows }
        ensures { IfSome result (λ terms. TellsRow (program_under (soft self.now) _made.now)
            (R.number_of _r) (shown V.number_of S.value terms.now)) }
    {
        None
    }

    /// The bound of a row.
    fn bound(&self, made: &[Option<Way>], r: R) -> S
        requires made { AreDecisions (soft self.now) made.now }
        requires row { R.number_of r < length (program_under (soft self.now) made.now).rows }
        ensures { S.value result
            ≡ bound_of (program_under (soft self.now) made.now) (R.number_of r) };

    /// The cost's factor of a variable.
    fn cost(&self, v: V) -> S
        requires { V.number_of v < length (soft self.now).costs }
        ensures { S.value result ≡ factor_of (soft self.now) (V.number_of v) };

    /// The cost's constant with the costs of the decisions added, or `Wide` where that sum is not defined.
    fn base(&self, made: &[Option<Way>]) -> Result<S, Wide>
        requires { AreDecisions (soft self.now) made.now }
        ensures { Reckons S.value result ((soft self.now).CanReckonBase made.now)
            ((soft self.now).base made.now) };

    /// Whether the term costs nothing at the point, or `Wide` where the reckoning that tells so is not defined.
    fn free_at(&self, point: &[S], t: T) -> Result<bool, Wide>
        requires term { T.number_of t < length (soft self.now).ways }
        requires point { length point.now ≡ length (soft self.now).costs }
        ensures { MatchResult result
            (λ free. (soft self.now).CanTellFree (map S.value point.now) (T.number_of t)
            × (IsTrue free ↔ (soft self.now).IsFree (map S.value point.now) (T.number_of t)))
            (λ _. ¬ (soft self.now).CanTellFree (map S.value point.now) (T.number_of t)) };

    ghost lawful: { (p : Self) → IsLawful (soft p) };
}
