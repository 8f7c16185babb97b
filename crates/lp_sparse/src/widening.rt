//! The same numbers in parts of 128 bits.

ghost use Rattle.std.specs.Prelude.{◌≡◌, IfOk};
ghost use Rattle.exact_lin.specs.Reckoning.{narrow_limit, wide_limit};
ghost use Rattle.lp_sparse.specs.SparseRows.{terms_of_rows};
ghost use Rattle.lp_sparse.specs.SparseTableaus.{AreRows, dictionary_of};

use crate::marks::marks_for;
use crate::tableau::Tableau;
use exact_lin::{Fraction, Narrow, NoMemory};
use std::alloc::Global;

fn widen_row(alloc: Global, row: &[(usize, Narrow)]) -> Result<Vec<(usize, Fraction)>, NoMemory>
    ensures { IfOk result (λ v. v.items ≡ row.now) }
{
    let mut wide = Vec::with_capacity(alloc, row.len())?;
    for term in row {
        wide.push((term.0, term.1.widen()))?;
    }
    Ok(wide)
}

fn widen_rows(
    alloc: Global,
    rows: &[Vec<(usize, Narrow)>],
) -> Result<Vec<Vec<(usize, Fraction)>>, NoMemory>
    ensures { IfOk result (λ v. terms_of_rows (λ q. q) v.items ≡ terms_of_rows (λ q. q) rows.now) }
{
    let mut wide = Vec::with_capacity(alloc, rows.len())?;
    for row in rows {
        let more = widen_row(alloc, row)?;
        wide.push(more)?;
    }
    Ok(wide)
}

// The same dictionary.
pub(crate) fn widen_tableau(
    alloc: Global,
    t: &Tableau<Narrow>,
) -> Result<Tableau<Fraction>, NoMemory>
    requires { AreRows (λ q. q) narrow_limit t.now }
    ensures rows { IfOk result (AreRows (λ q. q) wide_limit) }
    ensures dictionary { IfOk result (λ u. dictionary_of (λ q. q) u
        ≡ dictionary_of (λ q. q) t.now) }
{
    let basic = Vec::from_slice(alloc, &t.basic)?;
    let nonbasic = Vec::from_slice(alloc, &t.nonbasic)?;
    let rows = widen_rows(alloc, &t.rows)?;
    let cost = widen_row(alloc, &t.cost)?;
    let marks = marks_for(alloc, &rows, t.marks.len())?;
    Ok(Tableau {
        basic,
        nonbasic,
        rows,
        cost,
        marks,
    })
}
