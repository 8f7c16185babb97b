//! Dictionaries in parts of 64 bits.

ghost use Rattle.std.specs.Prelude.{◌≡◌, IfOk, MatchOption};
ghost use Rattle.exact_lin.specs.Reckoning.{narrow_limit, wide_limit};
ghost use Rattle.lp_sparse.specs.NarrowNumbers.{TermsFit, RowTermsFit, HasNarrowNumbers};
ghost use Rattle.lp_sparse.specs.SparseRows.{terms_of, terms_of_rows};
ghost use Rattle.lp_sparse.specs.SparseTableaus.{AreRows, dictionary_of};

use crate::merge::row_with_room;
use crate::tableau::Tableau;
use exact_lin::{Fraction, Narrow, NoMemory};
use std::alloc::Global;

// The terms in parts of 64 bits; None where a number has none.
fn narrow_row(
    alloc: Global,
    row: &[(usize, Fraction)],
) -> Result<Option<Vec<(usize, Narrow)>>, NoMemory>
    ensures { IfOk result (λ found. MatchOption found (¬ TermsFit narrow_limit (terms_of (λ q. q) row.now))
        (λ v. TermsFit narrow_limit (terms_of (λ q. q) row.now) × v.items ≡ row.now)) }
{
    let mut out = row_with_room(alloc, row.len())?;
    for term in row {
        match term.1.narrow() {
            Some(number) => out.push((term.0, number))?,
            None => return Ok(None),
        }
    }
    Ok(Some(out))
}

// The terms of each row.
fn narrow_rows(
    alloc: Global,
    rows: &[Vec<(usize, Fraction)>],
) -> Result<Option<Vec<Vec<(usize, Narrow)>>>, NoMemory>
    ensures { let terms = terms_of_rows (λ q. q) rows.now in
        IfOk result (λ found. MatchOption found (¬ RowTermsFit narrow_limit terms)
        (λ v. RowTermsFit narrow_limit terms × terms_of_rows (λ q. q) v.items ≡ terms)) }
{
    let mut out = Vec::with_capacity(alloc, rows.len())?;
    for row in rows {
        match narrow_row(alloc, row)? {
            Some(more) => out.push(more)?,
            None => return Ok(None),
        }
    }
    Ok(Some(out))
}

// The same dictionary; None where one of its numbers has no parts of 64 bits.
pub(crate) fn narrow_tableau(
    alloc: Global,
    t: Tableau<Fraction>,
) -> Result<Option<Tableau<Narrow>>, NoMemory>
    requires { AreRows (λ q. q) wide_limit t }
    ensures { IfOk result (λ found. MatchOption found
        (¬ HasNarrowNumbers (dictionary_of (λ q. q) t))
        (λ u. HasNarrowNumbers (dictionary_of (λ q. q) t) × AreRows (λ q. q) narrow_limit u
        × dictionary_of (λ q. q) u ≡ dictionary_of (λ q. q) t)) }
{
    match narrow_rows(alloc, &t.rows)? {
        Some(rows) => match narrow_row(alloc, &t.cost)? {
            Some(cost) => Ok(Some(Tableau {
                basic: t.basic,
                nonbasic: t.nonbasic,
                rows,
                cost,
                marks: t.marks,
            })),
            None => Ok(None),
        },
        None => Ok(None),
    }
}
