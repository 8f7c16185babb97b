//! Which rows may hold which column, so that a pivot passes the others over without reading them.

ghost use Rattle.std.specs.Prelude.{◌≡◌, ℕ, ◌≤◌, ◌<◌, true, false, IfOk, slice_index_or};
ghost use Rattle.lp_sparse.specs.SparseRows.{terms_of, terms_of_rows};
ghost use Rattle.lp_sparse.specs.ColumnMarks.{marks_of, may_hold, IsMarked, AreMarked, Keeps};

use exact_lin::{NoMemory, Scalar};
use std::alloc::Global;

// Whether the row at k may hold the column.
pub(crate) fn may_hold(marks: &[Vec<bool>], column: usize, k: usize) -> bool
    ensures { result ≡ may_hold (marks_of marks.now) column k }
{
    match marks.get(column) {
        Some(rows) => match rows.get(k) {
            Some(mark) => *mark,
            None => true,
        },
        None => true,
    }
}

// The first of the marks from k on that is set, or past the last; `count` where that is less.
fn next_mark(column: &[bool], k: usize, count: usize) -> usize
    requires { k ≤ count }
    ensures from { k ≤ result }
    ensures within { result ≤ count }
    ensures passed { (m : ℕ) → k ≤ m → m < result → slice_index_or column.now m true ≡ false }
{
    let mut next = k;
    while next < count {
        if next >= column.len() || column[next] {
            return next;
        }
        next += 1;
    }
    next
}

// The first row from k on that may hold the column, or `count` where there is none below it.
pub(crate) fn next_holding(marks: &[Vec<bool>], column: usize, k: usize, count: usize) -> usize
    requires { k ≤ count }
    ensures from { k ≤ result }
    ensures within { result ≤ count }
    ensures passed { (m : ℕ) → k ≤ m → m < result → may_hold (marks_of marks.now) column m ≡ false }
{
    match marks.get(column) {
        Some(rows) => next_mark(rows, k, count),
        None => k,
    }
}

// Marks the row at k in its column, where there is a mark for it.
fn mark_in(column: &mut Vec<bool>, k: usize)
    ensures here { slice_index_or column.new.items k true ≡ true }
    ensures kept { (m : ℕ) → slice_index_or column.new.items m true ≡ false
        → slice_index_or column.old.items m true ≡ false }
{
    if k < column.len() {
        column[k] = true;
    }
}

fn mark(marks: &mut Vec<Vec<bool>>, column: usize, k: usize)
    ensures here { may_hold (marks_of marks.new.items) column k ≡ true }
    ensures kept { Keeps (marks_of marks.old.items) (marks_of marks.new.items) }
{
    if column < marks.len() {
        mark_in(&mut marks[column], k);
    }
}

// Marks all columns of the row at k.
pub(crate) fn mark_row<S: Scalar>(marks: &mut Vec<Vec<bool>>, k: usize, row: &[(usize, S)])
    ensures here { IsMarked (marks_of marks.new.items) k (terms_of S.value row.now) }
    ensures kept { Keeps (marks_of marks.old.items) (marks_of marks.new.items) }
{
    for term in row {
        mark(marks, term.0, k);
    }
}

// No marks for so many rows.
fn unmarked(alloc: Global, rows: usize) -> Result<Vec<bool>, NoMemory> {
    let mut column = Vec::with_capacity(alloc, rows)?;
    for _k in 0..rows {
        column.push(false)?;
    }
    Ok(column)
}

// The marks of all rows, which have so many columns.
pub(crate) fn marks_for<S: Scalar>(
    alloc: Global,
    rows: &[Vec<(usize, S)>],
    columns: usize,
) -> Result<Vec<Vec<bool>>, NoMemory>
    ensures { IfOk result (λ marks. AreMarked (marks_of marks.items)
        (terms_of_rows S.value rows.now)) }
{
    let mut marks = Vec::with_capacity(alloc, columns)?;
    for _c in 0..columns {
        let column = unmarked(alloc, rows.len())?;
        marks.push(column)?;
    }
    mark_rows(&mut marks, rows);
    Ok(marks)
}

// Marks all columns of all rows.
fn mark_rows<S: Scalar>(marks: &mut Vec<Vec<bool>>, rows: &[Vec<(usize, S)>])
    ensures { AreMarked (marks_of marks.new.items) (terms_of_rows S.value rows.now) }
{
    for k in 0..rows.len() {
        mark_row(marks, k, &rows[k]);
    }
}
