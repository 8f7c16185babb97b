//! What a pivot does to rows: the entries of the nonbasic variables, and the constant at the end.

ghost use Rattle.std.specs.Prelude.{◌≡◌, ◌≢◌, ℕ, ◌+◌, ◌<◌, min, IsTrue, if◌then◌else◌, length, map};
ghost use Rattle.std.specs.Bool.{MatchBool};
ghost use Rattle.std.specs.Result.{MatchResult};
ghost use Rattle.rational.specs.Rational.{zeroℚ};
ghost use Rattle.rational.specs.Lists.{at, scale_list};
ghost use Rattle.exact_lin.specs.Reckoning.{CanMultiply};
ghost use Rattle.lp_tableau.specs.RowLists.{AreReady, HaveWidth, RowFits, RowsFit, shown_rows};
ghost use Rattle.lp_tableau.specs.Pivots.{solved, cleared, replaced, replaced_rows, CanSolve, CanReplace, CanReplaceOthers};

use exact_lin::{Scalar, Sign, Wide, add_product};
use std::mem::swap;

// y times each number of the row.
fn scale_row<S: Scalar>(row: &[S], y: S, out: &mut [S]) -> Result<(), Wide>
    requires { length out.old ≡ length row.now }
    ensures length { length out.new ≡ length row.now }
    ensures cases { MatchResult result
        (λ _. ((k : ℕ) → k < length row.now
        → CanMultiply S.limit (S.value y) (at (map S.value row.now) k))
        × map S.value out.new ≡ scale_list (S.value y) (map S.value row.now))
        (λ _. ¬ ((k : ℕ) → k < length row.now
        → CanMultiply S.limit (S.value y) (at (map S.value row.now) k))) }
{
    for k in 0..row.len() {
        match y.mul(row[k]) {
            Ok(product) => out[k] = product,
            Err(wide) => return Err(wide),
        }
    }
    Ok(())
}

// The row solved for the variable of column j.
pub(crate) fn solve_row<S: Scalar>(row: &[S], j: usize, out: &mut [S]) -> Result<(), Wide>
    requires column { j < length row.now }
    requires length { length out.old ≡ length row.now }
    requires pivot { at (map S.value row.now) j ≢ zeroℚ }
    ensures length { length out.new ≡ length row.now }
    ensures cases { MatchResult result
        (λ _. CanSolve S.limit (map S.value row.now) j × map S.value out.new
        ≡ solved (map S.value row.now) j)
        (λ _. ¬ CanSolve S.limit (map S.value row.now) j) }
{
    let reciprocal = row[j].recip();
    match scale_row(row, reciprocal.neg(), out) {
        Ok(()) => {
            out[j] = reciprocal;
            Ok(())
        },
        Err(wide) => Err(wide),
    }
}

// A number of the row, 0 in column j.
fn cleared_at<S: Scalar>(row: &[S], j: usize, k: usize) -> S
    requires { k < length row.now }
    ensures { S.value result ≡ at (cleared (map S.value row.now) j) k }
{
    if k == j { S::of_int(0) } else { row[k] }
}

// The row with the variable of column j replaced by the solved row.
pub(crate) fn replace_row<S: Scalar>(
    row: &[S],
    solution: &[S],
    j: usize,
    out: &mut [S],
) -> Result<(), Wide>
    requires column { j < length row.now }
    requires length { length out.old ≡ length row.now }
    requires solution { length solution.now ≡ length row.now }
    ensures length { length out.new ≡ length row.now }
    ensures cases { MatchResult result
        (λ _. CanReplace S.limit (map S.value solution.now) j (map S.value row.now)
        × map S.value out.new ≡ replaced (map S.value solution.now) j (map S.value row.now))
        (λ _. ¬ CanReplace S.limit (map S.value solution.now) j (map S.value row.now)) }
{
    let factor = row[j];
    for k in 0..row.len() {
        match add_product(cleared_at(row, j, k), factor, solution[k]) {
            Ok(total) => out[k] = total,
            Err(wide) => return Err(wide),
        }
    }
    Ok(())
}

// Whether the row holds the variable of column j.
fn holds<S: Scalar>(row: &[S], j: usize) -> bool
    requires { j < length row.now }
    ensures { MatchBool result (¬ (at (map S.value row.now) j
        ≡ zeroℚ)) (at (map S.value row.now) j ≡ zeroℚ) }
{
    match row[j].sign() {
        Sign::Zero => false,
        Sign::Minus | Sign::Plus => true,
    }
}

// Reckons a row after the pivot into `out`, where it changes: where it holds the entering variable, of column j, and
// isn't the leaving row.
fn reckon_row<S: Scalar>(
    row: &[S],
    solution: &[S],
    leaves: bool,
    j: usize,
    out: &mut [S],
) -> Result<(), Wide>
    requires column { j < length row.now }
    requires length { length out.old ≡ length row.now }
    requires solution { length solution.now ≡ length row.now }
    requires fits { RowFits S.limit (map S.value row.now) }
    ensures length { length out.new ≡ length row.now }
    ensures cases { MatchResult result
        (λ _. ¬ IsTrue leaves
        → CanReplace S.limit (map S.value solution.now) j (map S.value row.now)
        × (¬ (at (map S.value row.now) j ≡ zeroℚ)
        → map S.value out.new ≡ replaced (map S.value solution.now) j (map S.value row.now)))
        (λ _. ¬ IsTrue leaves
        × ¬ CanReplace S.limit (map S.value solution.now) j (map S.value row.now)) }
{
    if leaves {
        Ok(())
    } else if holds(row, j) {
        replace_row(row, solution, j, out)
    } else {
        Ok(())
    }
}

// The spare row for the row at k: those past the last share it.
fn spare_for(k: usize, last: usize) -> usize
    ensures { result ≡ min k last }
{
    if k < last { k } else { last }
}

// Reckons the rows after the pivot, which change nothing where one isn't defined. The spare rows but the last keep what
// was reckoned for the rows at their places; what the last one takes is only a trial.
pub(crate) fn reckon_rows<S: Scalar>(
    rows: &[Vec<S>],
    solution: &[S],
    i: usize,
    j: usize,
    spare: &mut [Vec<S>],
) -> Result<(), Wide>
    requires column { j < length solution.now }
    requires even { HaveWidth (length solution.now) rows.now }
    requires fits { RowsFit S.limit (shown_rows S.value rows.now) }
    requires some { 0 < length spare.old }
    requires spare_even { HaveWidth (length solution.now) spare.old }
    ensures length { length spare.new ≡ length spare.old }
    ensures spare_even { HaveWidth (length solution.now) spare.new }
    ensures cases { MatchResult result
        (λ _. CanReplaceOthers S.limit (map S.value solution.now) i j (shown_rows S.value rows.now)
        × AreReady (map S.value solution.now) i j (shown_rows S.value rows.now)
        (shown_rows S.value spare.new))
        (λ _. ¬ CanReplaceOthers S.limit (map S.value solution.now) i j
        (shown_rows S.value rows.now)) }
{
    let last = spare.len() - 1;
    for k in 0..rows.len() {
        let place = spare_for(k, last);
        match reckon_row(&rows[k], solution, k == i, j, &mut spare[place]) {
            Ok(()) => {},
            Err(wide) => return Err(wide),
        }
    }
    Ok(())
}

// Puts the row after the pivot, all of it defined, in the place of the row. Where `ready`, `spare` holds it already; it
// keeps the row's room.
fn rewrite_row<S: Scalar>(
    row: &mut Vec<S>,
    solution: &[S],
    leaves: bool,
    j: usize,
    ready: bool,
    spare: &mut Vec<S>,
)
    requires column { j < length solution.now }
    requires length { length row.old.items ≡ length solution.now }
    requires spare_length { length spare.old.items ≡ length solution.now }
    requires defined { ¬ IsTrue leaves
        → CanReplace S.limit (map S.value solution.now) j (map S.value row.old.items) }
    requires ready { IsTrue ready → ¬ IsTrue leaves → ¬ (at (map S.value row.old.items) j ≡ zeroℚ)
        → map S.value spare.old.items
        ≡ replaced (map S.value solution.now) j (map S.value row.old.items) }
    ensures length { length row.new.items ≡ length solution.now }
    ensures spare_length { length spare.new.items ≡ length solution.now }
    ensures row { map S.value row.new.items ≡ (if leaves then map S.value solution.now
        else replaced (map S.value solution.now) j (map S.value row.old.items)) }
{
    if leaves {
        row.copy_from_slice(solution);
    } else if holds(row, j) {
        if !ready {
            match replace_row(row, solution, j, spare) {
                Ok(()) => {},
                Err(_) => unreachable!(),
            }
        }
        swap(row, spare);
    }
}

// Puts the rows after the pivot, all of them defined, in the places of the rows. A row without the entering variable
// stays as it is. Spare rows but the last hold what `reckon_rows` left in them.
pub(crate) fn rewrite_rows<S: Scalar>(
    rows: &mut [Vec<S>],
    solution: &[S],
    i: usize,
    j: usize,
    spare: &mut [Vec<S>],
)
    requires column { j < length solution.now }
    requires even { HaveWidth (length solution.now) rows.old }
    requires some { 0 < length spare.old }
    requires spare_even { HaveWidth (length solution.now) spare.old }
    requires defined { CanReplaceOthers S.limit (map S.value solution.now) i j
        (shown_rows S.value rows.old) }
    requires ready { AreReady (map S.value solution.now) i j (shown_rows S.value rows.old)
        (shown_rows S.value spare.old) }
    ensures length { length rows.new ≡ length rows.old }
    ensures even { HaveWidth (length solution.now) rows.new }
    ensures spare_length { length spare.new ≡ length spare.old }
    ensures spare_even { HaveWidth (length solution.now) spare.new }
    ensures rows { shown_rows S.value rows.new
        ≡ replaced_rows (map S.value solution.now) i j (shown_rows S.value rows.old) }
{
    let last = spare.len() - 1;
    for k in 0..rows.len() {
        let place = spare_for(k, last);
        rewrite_row(
            &mut rows[k],
            solution,
            k == i,
            j,
            k < last,
            &mut spare[place],
        );
    }
}
