//! The first dictionary of a program, without its zeros.

ghost use Rattle.std.specs.Prelude.{◌≡◌, ℕ, ◌+◌, ◌<◌, ◌^◌, length, map, IfOk, ◌++◌, ◌∷◌, []};
ghost use Rattle.rational.specs.Rows.{row_at};
ghost use Rattle.std.specs.List.{range_with_len, All};
ghost use Rattle.exact_lin.specs.Forms.{shown};
ghost use Rattle.cert_core.specs.Programs.{TellsRow};
ghost use Rattle.lp_tableau.specs.Dictionaries.{initial, slack_row};
ghost use Rattle.lp_sparse.specs.SparseRows.{terms_of, terms_of_rows, filled, IsRow, IsRowOf};
ghost use Rattle.lp_sparse.specs.SparseTableaus.{AreRows, dictionary_of};

use crate::marks::marks_for;
use crate::merge::{push_term, row_with_room};
use crate::tableau::Tableau;
use cert_core::Rows;
use exact_lin::{Id, NoMemory, Scalar};
use std::alloc::Global;

// `count` numbers from `start` on.
fn numbers(alloc: Global, start: usize, count: usize) -> Result<Vec<usize>, NoMemory>
    requires { start + count < 2 ^ 64 }
    ensures { IfOk result (λ v. v.items ≡ range_with_len start count) }
{
    let mut numbers = Vec::with_capacity(alloc, count)?;
    for k in 0..count {
        numbers.push(start + k)?;
    }
    Ok(numbers)
}

// The row of a slack, read entry by entry.
fn asked_slack<R: Id, V: Id, S: Scalar, P: Rows<R, V, S>>(
    alloc: Global,
    program: &P,
    r: R,
) -> Result<Vec<(usize, S)>, NoMemory>
    requires { R.number_of r < length (P.program program.now).rows }
    ensures { IfOk result (λ v. IsRowOf S.limit (length (P.program program.now).costs + 1)
        (slack_row (row_at (P.program program.now).rows (R.number_of r)))
        (terms_of S.value v.items)) }
{
    let mut row = Vec::new(alloc);
    let variables = program.var_count();
    for v in 0..variables {
        push_term(&mut row, v as usize, program.entry(r, V::of(v)).neg())?;
    }
    push_term(&mut row, variables as usize, program.bound(r))?;
    Ok(row)
}

// The row of a slack whose entries the program tells.
fn told_slack<R: Id, V: Id, S: Scalar, P: Rows<R, V, S>>(
    alloc: Global,
    program: &P,
    r: R,
    terms: &[(V, S)],
) -> Result<Vec<(usize, S)>, NoMemory>
    requires row { R.number_of r < length (P.program program.now).rows }
    requires told { TellsRow (P.program program.now) (R.number_of r)
        (shown V.number_of S.value terms.now) }
    ensures { IfOk result (λ v. IsRowOf S.limit (length (P.program program.now).costs + 1)
        (slack_row (row_at (P.program program.now).rows (R.number_of r)))
        (terms_of S.value v.items)) }
{
    let mut row = row_with_room(alloc, terms.len())?;
    let mut left = terms;
    while let Some((term, later)) = left.split_first() {
        push_term(&mut row, term.0.number() as usize, term.1.neg())?;
        left = later;
    }
    push_term(&mut row, program.var_count() as usize, program.bound(r))?;
    Ok(row)
}

// The row of a slack: the bound less the row's factors times the variables.
fn slack<R: Id, V: Id, S: Scalar, P: Rows<R, V, S>>(
    alloc: Global,
    program: &P,
    r: R,
) -> Result<Vec<(usize, S)>, NoMemory>
    requires { R.number_of r < length (P.program program.now).rows }
    ensures { IfOk result (λ v. IsRowOf S.limit (length (P.program program.now).costs + 1)
        (slack_row (row_at (P.program program.now).rows (R.number_of r)))
        (terms_of S.value v.items)) }
{
    match program.row(r) {
        Some(terms) => told_slack(alloc, program, r, terms),
        None => asked_slack(alloc, program, r),
    }
}

// The rows of all slacks.
fn slacks<R: Id, V: Id, S: Scalar, P: Rows<R, V, S>>(
    alloc: Global,
    program: &P,
) -> Result<Vec<Vec<(usize, S)>>, NoMemory>
    ensures rows { IfOk result (λ v. All (IsRow S.limit (length (P.program program.now).costs + 1))
        (terms_of_rows S.value v.items)) }
    ensures gives { IfOk result (λ v. map (filled (length (P.program program.now).costs + 1))
        (terms_of_rows S.value v.items) ≡ map slack_row (P.program program.now).rows) }
{
    let count = program.row_count();
    let mut rows = Vec::with_capacity(alloc, count as usize)?;
    for r in 0..count {
        let row = slack(alloc, program, R::of(r))?;
        rows.push(row)?;
    }
    Ok(rows)
}

// The cost's row.
fn costs<R: Id, V: Id, S: Scalar, P: Rows<R, V, S>>(
    alloc: Global,
    program: &P,
) -> Result<Vec<(usize, S)>, NoMemory>
    ensures { IfOk result (λ v. IsRowOf S.limit (length (P.program program.now).costs + 1)
        ((P.program program.now).costs ++ (P.program program.now).base ∷ [])
        (terms_of S.value v.items)) }
{
    let variables = program.var_count();
    let mut row = Vec::new(alloc);
    for v in 0..variables {
        push_term(&mut row, v as usize, program.cost(V::of(v)))?;
    }
    push_term(&mut row, variables as usize, program.base())?;
    Ok(row)
}

// The first dictionary of the program.
pub(crate) fn first_tableau<R: Id, V: Id, S: Scalar, P: Rows<R, V, S>>(
    alloc: Global,
    program: &P,
) -> Result<Tableau<S>, NoMemory>
    ensures rows { IfOk result (AreRows S.value S.limit) }
    ensures dictionary { IfOk result (λ t. dictionary_of S.value t
        ≡ initial (P.program program.now)) }
{
    let variables = program.var_count() as usize;
    let basic = numbers(alloc, variables, program.row_count() as usize)?;
    let nonbasic = numbers(alloc, 0, variables)?;
    let rows = slacks(alloc, program)?;
    let cost = costs(alloc, program)?;
    let marks = marks_for(alloc, &rows, variables + 1)?;
    Ok(Tableau {
        basic,
        nonbasic,
        rows,
        cost,
        marks,
    })
}
