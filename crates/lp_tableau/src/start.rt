//! The first dictionary of a program.

ghost use Rattle.std.specs.Prelude.{◌≡◌, ℕ, ◌+◌, ◌<◌, ◌^◌, length, map, IfOk, ◌++◌, ◌∷◌, []};
ghost use Rattle.rational.specs.Rows.{row_at};
ghost use Rattle.std.specs.List.{range_with_len};
ghost use Rattle.exact_lin.specs.Reckoning.{Fits};
ghost use Rattle.lp_tableau.specs.Dictionaries.{initial, slack_row};
ghost use Rattle.lp_tableau.specs.RowLists.{shown_rows, HaveWidth, RowFits, RowsFit};
ghost use Rattle.lp_tableau.specs.Tableaus.{AreEven, IsRoomFor, dictionary_of};

use crate::pivot::Room;
use crate::tableau::Tableau;
use cert_core::Rows;
use exact_lin::{Id, NoMemory, Scalar};
use std::alloc::Global;

// `count` numbers from `start` on.
fn numbers(alloc: Global, start: usize, count: usize) -> Result<Vec<usize>, NoMemory>
    requires { start + count < 2 ^ 64 }
    ensures { IfOk result (λ v. v.items ≡ range_with_len start count) }
{
    let mut numbers = Vec::with_capacity(alloc, count)?;
    for k in 0..count {
        numbers.push(start + k)?;
    }
    Ok(numbers)
}

// The number, which keeps to the limit of its width.
fn kept<S: Scalar>(x: S) -> S
    ensures value { S.value result ≡ S.value x }
    ensures fits { Fits S.limit (S.value result) }
{
    let _sign = x.sign();
    x
}

// The row of a slack: the bound less the row's factors times the variables.
fn slack<R: Id, V: Id, S: Scalar, P: Rows<R, V, S>>(
    alloc: Global,
    program: &P,
    r: R,
) -> Result<Vec<S>, NoMemory>
    requires { R.number_of r < length (P.program program.now).rows }
    ensures row { IfOk result (λ v. map S.value v.items
        ≡ slack_row (row_at (P.program program.now).rows (R.number_of r))) }
    ensures fits { IfOk result (λ v. RowFits S.limit (map S.value v.items)) }
{
    let variables = program.var_count();
    let mut row = Vec::with_capacity(alloc, variables as usize + 1)?;
    for v in 0..variables {
        row.push(kept(program.entry(r, V::of(v)).neg()))?;
    }
    row.push(kept(program.bound(r)))?;
    Ok(row)
}

// The rows of all slacks.
fn slacks<R: Id, V: Id, S: Scalar, P: Rows<R, V, S>>(
    alloc: Global,
    program: &P,
) -> Result<Vec<Vec<S>>, NoMemory>
    ensures rows { IfOk result (λ v. shown_rows S.value v.items
        ≡ map slack_row (P.program program.now).rows) }
    ensures fits { IfOk result (λ v. RowsFit S.limit (shown_rows S.value v.items)) }
{
    let count = program.row_count();
    let mut rows = Vec::with_capacity(alloc, count as usize)?;
    for r in 0..count {
        rows.push(slack(alloc, program, R::of(r))?)?;
    }
    Ok(rows)
}

// The cost's row.
fn costs<R: Id, V: Id, S: Scalar, P: Rows<R, V, S>>(
    alloc: Global,
    program: &P,
) -> Result<Vec<S>, NoMemory>
    ensures { IfOk result (λ v. map S.value v.items
        ≡ (P.program program.now).costs ++ (P.program program.now).base ∷ []) }
{
    let variables = program.var_count();
    let mut row = Vec::with_capacity(alloc, variables as usize + 1)?;
    for v in 0..variables {
        row.push(program.cost(V::of(v)))?;
    }
    row.push(program.base())?;
    Ok(row)
}

// The first dictionary of the program.
pub(crate) fn first_tableau<R: Id, V: Id, S: Scalar, P: Rows<R, V, S>>(
    alloc: Global,
    program: &P,
) -> Result<Tableau<S>, NoMemory>
    ensures dictionary { IfOk result (λ t. dictionary_of S.value t
        ≡ initial (P.program program.now)) }
    ensures fits { IfOk result (λ t. RowsFit S.limit (shown_rows S.value t.rows.items)) }
{
    let variables = program.var_count() as usize;
    let basic = numbers(alloc, variables, program.row_count() as usize)?;
    let nonbasic = numbers(alloc, 0, variables)?;
    let rows = slacks(alloc, program)?;
    let cost = costs(alloc, program)?;
    Ok(Tableau {
        basic,
        nonbasic,
        rows,
        cost,
    })
}

// Spare rows as wide as this row.
fn spare_rows<S: Scalar>(alloc: Global, row: &[S], count: usize) -> Result<Vec<Vec<S>>, NoMemory>
    ensures count { IfOk result (λ v. length v.items ≡ count) }
    ensures widths { IfOk result (λ v. HaveWidth (length row.now) v.items) }
{
    let mut spare = Vec::with_capacity(alloc, count)?;
    for _k in 0..count {
        spare.push(Vec::from_slice(alloc, row)?)?;
    }
    Ok(spare)
}

// So many rows at most have a spare row of their own.
const OWN_SPARE_ROWS: usize = 256;

// Room for what a pivot reckons: a spare row for each of the first rows, and one for all the others.
pub(crate) fn room_for<S: Scalar>(alloc: Global, t: &Tableau<S>) -> Result<Room<S>, NoMemory>
    requires { AreEven t.now }
    ensures { IfOk result (IsRoomFor t.now) }
{
    let own = if t.rows.len() < OWN_SPARE_ROWS {
        t.rows.len()
    } else {
        OWN_SPARE_ROWS
    };
    let solution = Vec::from_slice(alloc, &t.cost)?;
    let rows = spare_rows(alloc, &t.cost, own + 1)?;
    let cost = Vec::from_slice(alloc, &t.cost)?;
    Ok(Room {
        solution,
        rows,
        cost,
    })
}
