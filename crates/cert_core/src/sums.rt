//! The sums that a check reckons: of a column, and of the constant.

ghost use Rattle.std.specs.Prelude.{◌≡◌, ◌<◌, length, OnOk};
ghost use Rattle.std.specs.List.{AllByRecursion};
ghost use Rattle.exact_lin.specs.Reckoning.{Reckons};
ghost use Rattle.exact_lin.specs.Reckonings.{AreDefined, product_sums, sum_of_products};
ghost use Rattle.cert_core.specs.Checks.{claim_of, column_start, column_terms, constant_start, constant_terms, signed_bound};
ghost use Rattle.cert_core.specs.Faults.{multipliers_of};

use crate::claim::Claim;
use crate::program::Rows;
use exact_lin::{Id, Scalar, Wide, add_product};

// start + the multipliers times the entries of their rows in the column of v
pub(crate) fn column_sum<R: Id, V: Id, S: Scalar, P: Rows<R, V, S>>(
    program: &P,
    pairs: &[(R, S)],
    v: V,
    start: S,
) -> Result<S, Wide>
    requires rows { AllByRecursion (λ y. R.number_of y.0 < length
        (P.program program.now).rows) pairs.now }
    requires variable { V.number_of v < length (P.program program.now).costs }
    ensures { let terms = column_terms (P.program program.now)
        (multipliers_of R.number_of S.value pairs.now) (V.number_of v) in
        Reckons S.value result (AreDefined S.limit (product_sums (S.value start) terms))
        (sum_of_products (S.value start) terms) }
{
    let mut sum = start;
    for pair in pairs {
        match add_product(sum, pair.1, program.entry(pair.0, v)) {
            Ok(total) => sum = total,
            Err(wide) => return Err(wide),
        }
    }
    Ok(sum)
}

// Where a column's sum begins.
pub(crate) fn column_start_of<R: Id, V: Id, S: Scalar, P: Rows<R, V, S>>(
    program: &P,
    claim: Claim<S>,
    v: V,
) -> S
    requires { V.number_of v < length (P.program program.now).costs }
    ensures { S.value result
        ≡ column_start (P.program program.now) (claim_of S.value claim) (V.number_of v) }
{
    match claim {
        Claim::Empty => S::of_int(0),
        Claim::AtLeast(_) => program.cost(v),
    }
}

// Where the constant's sum begins: at 0 for a Farkas row, at the base for a dual row.
fn constant_start_of<R: Id, V: Id, S: Scalar, P: Rows<R, V, S>>(program: &P, claim: Claim<S>) -> S
    ensures { S.value result ≡ constant_start (P.program program.now) (claim_of S.value claim) }
{
    match claim {
        Claim::Empty => S::of_int(0),
        Claim::AtLeast(_) => program.base(),
    }
}

// A row's bound, negated where it is taken off the base.
fn signed_bound_of<R: Id, V: Id, S: Scalar, P: Rows<R, V, S>>(
    program: &P,
    claim: Claim<S>,
    r: R,
) -> S
    requires { R.number_of r < length (P.program program.now).rows }
    ensures { S.value result
        ≡ signed_bound (P.program program.now) (claim_of S.value claim) (R.number_of r) }
{
    match claim {
        Claim::Empty => program.bound(r),
        Claim::AtLeast(_) => program.bound(r).neg(),
    }
}

// The multipliers times the bounds of their rows: from 0 for a Farkas row, taken off the base for a dual row.
pub(crate) fn constant_sum<R: Id, V: Id, S: Scalar, P: Rows<R, V, S>>(
    program: &P,
    pairs: &[(R, S)],
    claim: Claim<S>,
) -> Result<S, Wide>
    requires { AllByRecursion (λ y. R.number_of y.0 < length
        (P.program program.now).rows) pairs.now }
    ensures { let start = constant_start (P.program program.now) (claim_of S.value claim) in
        let terms = constant_terms (P.program program.now) (claim_of S.value claim)
        (multipliers_of R.number_of S.value pairs.now) in
        Reckons S.value result (AreDefined S.limit (product_sums start terms))
        (sum_of_products start terms) }
{
    let mut sum = constant_start_of(program, claim);
    for pair in pairs {
        match add_product(sum, pair.1, signed_bound_of(program, claim, pair.0)) {
            Ok(total) => sum = total,
            Err(wide) => return Err(wide),
        }
    }
    Ok(sum)
}
