//! The sums of all columns at once, added up row by row, in room that the caller has.

ghost use Rattle.std.specs.Prelude.{◌≡◌, ◌≢◌, ℕ, ◌<◌, List, [], length, None, get_or};
ghost use Rattle.std.specs.List.{AllByRecursion};
ghost use Rattle.rational.specs.Rational.{ℚ};
ghost use Rattle.basics.specs.Duties.{Judges};
ghost use Rattle.exact_lin.specs.Forms.{shown, AscendFrom, Covers, coefficient};
ghost use Rattle.cert_core.specs.Programs.{TellsRow, entry_of};
ghost use Rattle.cert_core.specs.Checks.{claim_of, column_start, column_terms, columns_duties};
ghost use Rattle.cert_core.specs.Faults.{fault_of, multipliers_of};
ghost use Rattle.cert_core.specs.SumsSoFar.{AllFit, AreAdded, AreSums, IsAdded, IsSum, sum_duties};

use crate::claim::Claim;
use crate::program::{CertFault, Rows};
use crate::sums::column_start_of;
use exact_lin::{Id, Scalar, add_product, is_negative};

// The sum with y a added, or None where one of the two isn't defined.
fn added<S: Scalar>(sum: Option<S>, y: S, a: S) -> Option<S>
    ensures { IsAdded S.value S.limit (S.value y) (S.value a) sum result }
{
    match sum {
        Some(sum) => match add_product(sum, y, a) {
            Ok(total) => Some(total),
            Err(_) => None,
        },
        None => None,
    }
}

// y times a row added, which is told by its entries.
fn add_terms<V: Id, S: Scalar>(sums: &mut [Option<S>], y: S, terms: &[(V, S)])
    requires ascends { AscendFrom 0 (shown V.number_of S.value terms.now) }
    requires within { Covers (length sums.old) (shown V.number_of S.value terms.now) }
    requires fit { AllFit S.value S.limit sums.old }
    ensures { AreAdded S.value S.limit (S.value y)
        (coefficient (shown V.number_of S.value terms.now)) sums.old sums.new }
{
    let mut left = terms;
    while let Some((term, later)) = left.split_first() {
        let place = term.0.number() as usize;
        sums[place] = added(sums[place], y, term.1);
        left = later;
    }
}

// y times a row added, entry by entry.
fn add_entries<R: Id, V: Id, S: Scalar, P: Rows<R, V, S>>(
    program: &P,
    sums: &mut [Option<S>],
    y: S,
    r: R,
)
    requires row { R.number_of r < length (P.program program.now).rows }
    requires room { length sums.old ≡ length (P.program program.now).costs }
    ensures { AreAdded S.value S.limit (S.value y)
        (entry_of (P.program program.now) (R.number_of r)) sums.old sums.new }
{
    for number in 0..program.var_count() {
        let place = number as usize;
        sums[place] = added(sums[place], y, program.entry(r, V::of(number)));
    }
}

// y times a row added.
fn add_row<R: Id, V: Id, S: Scalar, P: Rows<R, V, S>>(
    program: &P,
    sums: &mut [Option<S>],
    y: S,
    r: R,
)
    requires row { R.number_of r < length (P.program program.now).rows }
    requires room { length sums.old ≡ length (P.program program.now).costs }
    requires fit { AllFit S.value S.limit sums.old }
    ensures { AreAdded S.value S.limit (S.value y)
        (entry_of (P.program program.now) (R.number_of r)) sums.old sums.new }
{
    match program.row(r) {
        Some(terms) => add_terms(sums, y, terms),
        None => add_entries(program, sums, y, r),
    }
}

// Where each column's sum begins.
fn begin<R: Id, V: Id, S: Scalar, P: Rows<R, V, S>>(
    program: &P,
    claim: Claim<S>,
    sums: &mut [Option<S>],
)
    requires { length sums.old ≡ length (P.program program.now).costs }
    ensures { AreSums S.value S.limit (P.program program.now) (claim_of S.value claim) [] sums.new }
{
    for number in 0..program.var_count() {
        let start = column_start_of(program, claim, V::of(number));
        let _sign = start.sign();
        sums[number as usize] = Some(start);
    }
}

// Each row, times its multiplier, added to the sums.
fn add_rows<R: Id, V: Id, S: Scalar, P: Rows<R, V, S>>(
    program: &P,
    pairs: &[(R, S)],
    claim: Claim<S>,
    sums: &mut [Option<S>],
)
    requires rows { AllByRecursion (λ y. R.number_of y.0 < length
        (P.program program.now).rows) pairs.now }
    requires room { length sums.old ≡ length (P.program program.now).costs }
    ensures { AreSums S.value S.limit (P.program program.now) (claim_of S.value claim)
        (multipliers_of R.number_of S.value pairs.now) sums.new }
{
    begin(program, claim, sums);
    for pair in pairs {
        add_row(program, sums, pair.1, pair.0);
    }
}

// A column's sum is defined and at least 0.
fn check_sum<R: Id, V: Id, S: Scalar>(sum: Option<S>, v: V) -> Result<(), CertFault<R, V>>
    ensures { (start : ℚ) (terms : List (ℚ × ℚ)) → IsSum S.value S.limit start terms sum
        → Judges result (fault_of R.number_of V.number_of)
        (sum_duties S.limit start terms (V.number_of v)) }
{
    match sum {
        Some(sum) => if is_negative(sum) {
            Err(CertFault::Column(v))
        } else {
            Ok(())
        },
        None => Err(CertFault::Wide),
    }
}

// Each column's sum is defined and at least 0: the sums are made in this room, row by row.
pub(crate) fn check_columns_in<R: Id, V: Id, S: Scalar, P: Rows<R, V, S>>(
    program: &P,
    pairs: &[(R, S)],
    claim: Claim<S>,
    sums: &mut [Option<S>],
) -> Result<(), CertFault<R, V>>
    requires rows { AllByRecursion (λ y. R.number_of y.0 < length
        (P.program program.now).rows) pairs.now }
    requires room { length sums.old ≡ length (P.program program.now).costs }
    ensures { Judges result (fault_of R.number_of V.number_of)
        (columns_duties S.limit (P.program program.now) (claim_of S.value claim)
        (multipliers_of R.number_of S.value pairs.now) 0 (length (P.program program.now).costs)) }
{
    add_rows(program, pairs, claim, sums);
    for number in 0..program.var_count() {
        match check_sum(sums[number as usize], V::of(number)) {
            Ok(()) => {},
            Err(fault) => return Err(fault),
        }
    }
    Ok(())
}
