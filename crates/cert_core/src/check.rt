//! The check of a certificate: its rows, its signs, its columns, its constant.

ghost use Rattle.std.specs.Prelude.{◌≡◌, ◌<◌, ◌≤◌, ◌↔◌, length, IfErr, OnOk};
ghost use Rattle.std.specs.Result.{IsOk};
ghost use Rattle.std.specs.List.{AllByRecursion};
ghost use Rattle.cert_core.specs.Programs.{ProvesEmpty, ProvesCost, HasNoSolution, CostsAtLeast};
ghost use Rattle.basics.specs.Duties.{Judges, IsFirstUnmet};
ghost use Rattle.cert_core.specs.Checks.{AreReckoned, claim_of, column_duties, columns_duties, constant_duties, duties, range_duties, sign_duties};
ghost use Rattle.cert_core.specs.Faults.{fault_of, multipliers_of};

use crate::claim::Claim;
use crate::column_sums::check_columns_in;
use crate::pairs::{DualRow, FarkasRow};
use crate::program::{CertFault, Rows};
use crate::sums::{column_start_of, column_sum, constant_sum};
use exact_lin::{Id, Scalar, is_below, is_negative};

// Each row is in range and above the one before.
fn check_ranges<R: Id, V: Id, S: Scalar, P: Rows<R, V, S>>(
    program: &P,
    pairs: &[(R, S)],
) -> Result<(), CertFault<R, V>>
    ensures { Judges result (fault_of R.number_of V.number_of)
        (range_duties (length (P.program program.now).rows) 0
        (multipliers_of R.number_of S.value pairs.now)) }
{
    let count = program.row_count();
    let mut least = 0;
    for pair in pairs {
        let row = pair.0.number();
        if row < least || count <= row {
            return Err(CertFault::Range(row));
        }
        least = row + 1;
    }
    Ok(())
}

// No multiplier is below 0.
fn check_signs<R: Id, V: Id, S: Scalar>(pairs: &[(R, S)]) -> Result<(), CertFault<R, V>>
    ensures { Judges result (fault_of R.number_of V.number_of) (sign_duties
        (multipliers_of R.number_of S.value pairs.now)) }
{
    for pair in pairs {
        if is_negative(pair.1) {
            return Err(CertFault::Negative(pair.0));
        }
    }
    Ok(())
}

// The column's sum is defined and at least 0.
fn check_column<R: Id, V: Id, S: Scalar, P: Rows<R, V, S>>(
    program: &P,
    pairs: &[(R, S)],
    claim: Claim<S>,
    v: V,
) -> Result<(), CertFault<R, V>>
    requires rows { AllByRecursion (λ y. R.number_of y.0 < length
        (P.program program.now).rows) pairs.now }
    requires variable { V.number_of v < length (P.program program.now).costs }
    ensures { Judges result (fault_of R.number_of V.number_of)
        (column_duties S.limit (P.program program.now) (claim_of S.value claim)
        (multipliers_of R.number_of S.value pairs.now) (V.number_of v)) }
{
    match column_sum(program, pairs, v, column_start_of(program, claim, v)) {
        Ok(sum) => if is_negative(sum) {
            Err(CertFault::Column(v))
        } else {
            Ok(())
        },
        Err(_) => Err(CertFault::Wide),
    }
}

// Each column's sum is defined and at least 0: one column is added up after another.
fn check_each_column<R: Id, V: Id, S: Scalar, P: Rows<R, V, S>>(
    program: &P,
    pairs: &[(R, S)],
    claim: Claim<S>,
) -> Result<(), CertFault<R, V>>
    requires { AllByRecursion (λ y. R.number_of y.0 < length
        (P.program program.now).rows) pairs.now }
    ensures { Judges result (fault_of R.number_of V.number_of)
        (columns_duties S.limit (P.program program.now) (claim_of S.value claim)
        (multipliers_of R.number_of S.value pairs.now) 0 (length (P.program program.now).costs)) }
{
    for number in 0..program.var_count() {
        match check_column(program, pairs, claim, V::of(number)) {
            Ok(()) => {},
            Err(fault) => return Err(fault),
        }
    }
    Ok(())
}

// Each column's sum is defined and at least 0: all are added up at once where there is room for each of them.
fn check_columns<R: Id, V: Id, S: Scalar, P: Rows<R, V, S>>(
    program: &P,
    pairs: &[(R, S)],
    claim: Claim<S>,
    sums: &mut [Option<S>],
) -> Result<(), CertFault<R, V>>
    requires { AllByRecursion (λ y. R.number_of y.0 < length
        (P.program program.now).rows) pairs.now }
    ensures { Judges result (fault_of R.number_of V.number_of)
        (columns_duties S.limit (P.program program.now) (claim_of S.value claim)
        (multipliers_of R.number_of S.value pairs.now) 0 (length (P.program program.now).costs)) }
{
    let count = program.var_count() as usize;
    if count <= sums.len() {
        check_columns_in(program, pairs, claim, &mut sums[..count])
    } else {
        check_each_column(program, pairs, claim)
    }
}

// The constant's sum is below 0 for a Farkas row, and at least the claimed cost for a dual row.
fn check_constant<R: Id, V: Id, S: Scalar, P: Rows<R, V, S>>(
    program: &P,
    pairs: &[(R, S)],
    claim: Claim<S>,
) -> Result<(), CertFault<R, V>>
    requires { AllByRecursion (λ y. R.number_of y.0 < length
        (P.program program.now).rows) pairs.now }
    ensures { Judges result (fault_of R.number_of V.number_of)
        (constant_duties S.limit (P.program program.now) (claim_of S.value claim)
        (multipliers_of R.number_of S.value pairs.now)) }
{
    match constant_sum(program, pairs, claim) {
        Ok(sum) => match claim {
            Claim::Empty => if is_negative(sum) {
                Ok(())
            } else {
                Err(CertFault::Constant)
            },
            Claim::AtLeast(cost) => if is_below(sum, cost) {
                Err(CertFault::Bound)
            } else {
                Ok(())
            },
        },
        Err(_) => Err(CertFault::Wide),
    }
}

// Rows, signs, columns, then the constant.
pub(crate) fn check<R: Id, V: Id, S: Scalar, P: Rows<R, V, S>>(
    program: &P,
    pairs: &[(R, S)],
    claim: Claim<S>,
    sums: &mut [Option<S>],
) -> Result<(), CertFault<R, V>>
    ensures { Judges result (fault_of R.number_of V.number_of)
        (duties S.limit (P.program program.now) (claim_of S.value claim)
        (multipliers_of R.number_of S.value pairs.now)) }
{
    match check_ranges(program, pairs) {
        Ok(()) => {},
        Err(fault) => return Err(fault),
    }
    match check_signs(pairs) {
        Ok(()) => {},
        Err(fault) => return Err(fault),
    }
    match check_columns(program, pairs, claim, sums) {
        Ok(()) => check_constant(program, pairs, claim),
        Err(fault) => Err(fault),
    }
}

/// Checks that the row shows that the program has no solution: its multipliers are at least 0, and the rows, each
/// times its own, add up to factors of at least 0 and a bound below 0 (Farkas 1902).
pub fn check_farkas<R: Id, V: Id, S: Scalar, P: Rows<R, V, S>>(
    program: &P,
    row: &FarkasRow<R, S>,
) -> Result<(), CertFault<R, V>>
    ensures ok { IsOk result
        ↔ (ProvesEmpty (P.program program.now) (multipliers_of R.number_of S.value row.now)
        × AreReckoned S.limit (P.program program.now) Claim.Empty
        (multipliers_of R.number_of S.value row.now)) }
    ensures first_fault { IfErr result (λ fault. IsFirstUnmet
        (duties S.limit (P.program program.now) Claim.Empty
        (multipliers_of R.number_of S.value row.now))
        (fault_of R.number_of V.number_of fault)) }
    ensures no_solution { OnOk result (HasNoSolution (P.program program.now)) }
{
    let mut no_sums = [];
    check_farkas_in(program, row, &mut no_sums)
}

/// What [`check_farkas`] answers. Where `sums` has a place for each variable, whatever it holds, all columns are added up
/// at once, which is linear in the entries where the program tells its rows; else one column after another.
pub fn check_farkas_in<R: Id, V: Id, S: Scalar, P: Rows<R, V, S>>(
    program: &P,
    row: &FarkasRow<R, S>,
    sums: &mut [Option<S>],
) -> Result<(), CertFault<R, V>>
    ensures ok { IsOk result
        ↔ (ProvesEmpty (P.program program.now) (multipliers_of R.number_of S.value row.now)
        × AreReckoned S.limit (P.program program.now) Claim.Empty
        (multipliers_of R.number_of S.value row.now)) }
    ensures first_fault { IfErr result (λ fault. IsFirstUnmet
        (duties S.limit (P.program program.now) Claim.Empty
        (multipliers_of R.number_of S.value row.now))
        (fault_of R.number_of V.number_of fault)) }
    ensures no_solution { OnOk result (HasNoSolution (P.program program.now)) }
{
    check(program, row.pairs(), Claim::Empty, sums)
}

/// Checks that the row shows that each solution of the program costs at least `cost`: its multipliers are at least 0,
/// the cost's factors and the rows, each times its own, add up to at least 0, and the base less the bounds, each times
/// its own, is at least `cost` (weak duality).
pub fn check_dual<R: Id, V: Id, S: Scalar, P: Rows<R, V, S>>(
    program: &P,
    row: &DualRow<R, S>,
    cost: S,
) -> Result<(), CertFault<R, V>>
    ensures ok { IsOk result
        ↔ (ProvesCost (P.program program.now) (multipliers_of R.number_of S.value row.now)
        (S.value cost)
        × AreReckoned S.limit (P.program program.now) (Claim.AtLeast (S.value cost))
        (multipliers_of R.number_of S.value row.now)) }
    ensures first_fault { IfErr result (λ fault. IsFirstUnmet
        (duties S.limit (P.program program.now) (Claim.AtLeast (S.value cost))
        (multipliers_of R.number_of S.value row.now))
        (fault_of R.number_of V.number_of fault)) }
    ensures bound { OnOk result (CostsAtLeast (P.program program.now) (S.value cost)) }
{
    let mut no_sums = [];
    check_dual_in(program, row, cost, &mut no_sums)
}

/// What [`check_dual`] answers, with room for all sums as [`check_farkas_in`] has it.
pub fn check_dual_in<R: Id, V: Id, S: Scalar, P: Rows<R, V, S>>(
    program: &P,
    row: &DualRow<R, S>,
    cost: S,
    sums: &mut [Option<S>],
) -> Result<(), CertFault<R, V>>
    ensures ok { IsOk result
        ↔ (ProvesCost (P.program program.now) (multipliers_of R.number_of S.value row.now)
        (S.value cost)
        × AreReckoned S.limit (P.program program.now) (Claim.AtLeast (S.value cost))
        (multipliers_of R.number_of S.value row.now)) }
    ensures first_fault { IfErr result (λ fault. IsFirstUnmet
        (duties S.limit (P.program program.now) (Claim.AtLeast (S.value cost))
        (multipliers_of R.number_of S.value row.now))
        (fault_of R.number_of V.number_of fault)) }
    ensures bound { OnOk result (CostsAtLeast (P.program program.now) (S.value cost)) }
{
    check(program, row.pairs(), Claim::AtLeast(cost), sums)
}
