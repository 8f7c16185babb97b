//! The pivot: first all that changes is reckoned, into rows of its own, then these take the places of what was.

ghost use Rattle.std.specs.Prelude.{◌≡◌, ◌≢◌, ℕ, ◌+◌, ◌<◌, [], length, OnOk, OnErr, IfOk, IsErrOf, slice_set};
ghost use Rattle.rational.specs.Rational.{zeroℚ};
ghost use Rattle.exact_lin.specs.Forms.{AscendFrom, coefficient};
ghost use Rattle.lp_tableau.specs.Dictionaries.{entry_of};
ghost use Rattle.lp_tableau.specs.Pivots.{pivoted, CanPivot, CanReplace, CanReplaceAll, CanReplaceOthers};
ghost use Rattle.lp_sparse.specs.SparseRows.{terms_of, terms_of_rows, filled, IsRow, IsSparse, IsSolved, IsReplaced, CanJoinHalves, joined_halves};
ghost use Rattle.lp_sparse.specs.SparseChanges.{terms_in, changes_of, with_changes, AreWithin, AreChanges, Becomes, noted, row_or};
ghost use Rattle.lp_sparse.specs.SparsePivots.{whole_of, IsReckoned};
ghost use Rattle.lp_sparse.specs.ColumnMarks.{marks_of, AreMarked};
ghost use Rattle.lp_sparse.specs.SparseTableaus.{AreRows, dictionary_of, width_of};

use crate::marks::{mark_row, next_holding};
use crate::merge::{merge, push_term};
use crate::products::product_of;
use crate::rows::{Halves, part_at};
use crate::solving::{solve_row, spare_row};
use crate::tableau::Tableau;
use exact_lin::{FormFault, Scalar};
use std::mem::swap;

// Puts a row with the entering variable replaced into `out`: the terms before that variable's, its own, those behind.
fn join<S: Scalar>(
    out: &mut Vec<(usize, S)>,
    row: &Halves<S>,
    solution: &Halves<S>,
    j: usize,
) -> Result<(), FormFault>
    requires empty { out.old.items ≡ [] }
    requires row_front { AscendFrom 0 (terms_of S.value row.now.front.now) }
    requires row_back { AscendFrom 0 (terms_of S.value row.now.back.now) }
    requires front { AscendFrom 0 (terms_of S.value solution.now.front.now) }
    requires back { AscendFrom 0 (terms_of S.value solution.now.back.now) }
    ensures terms { let shows = terms_of S.value in OnOk result (shows out.new.items
        ≡ joined_halves j (shows row.now.front.now) (S.value row.now.number)
        (shows row.now.back.now) (shows solution.now.front.now) (S.value solution.now.number)
        (shows solution.now.back.now)) }
    ensures defined { let shows = terms_of S.value in OnOk result (CanJoinHalves S.limit
        (shows row.now.front.now) (S.value row.now.number) (shows row.now.back.now)
        (shows solution.now.front.now) (S.value solution.now.number)
        (shows solution.now.back.now)) }
    ensures wide { let shows = terms_of S.value in IsErrOf result FormFault.Wide
        → ¬ CanJoinHalves S.limit
        (shows row.now.front.now) (S.value row.now.number) (shows row.now.back.now)
        (shows solution.now.front.now) (S.value solution.now.number) (shows solution.now.back.now) }
{
    merge(out, row.front, row.number, solution.front)?;
    let product = product_of(row.number, solution.number)?;
    push_term(out, j, product)?;
    match merge(out, row.back, row.number, solution.back) {
        Ok(()) => Ok(()),
        Err(fault) => Err(fault),
    }
}

// The row with the entering variable of column j replaced, None where it doesn't hold it and so stays as it is.
fn replace<S: Scalar>(
    row: &[(usize, S)],
    solution: &Halves<S>,
    j: usize,
    spare: &mut Vec<Vec<(usize, S)>>,
) -> Result<Option<Vec<(usize, S)>>, FormFault>
    requires row { AscendFrom 0 (terms_of S.value row.now) }
    requires solution { AscendFrom 0 (whole_of S.value j solution.now) }
    ensures replaced { IfOk result (λ out. (n : ℕ) → j < n
        → IsRow S.limit n (terms_of S.value row.now) → IsSparse n (whole_of S.value j solution.now)
        → IsReplaced S.limit n (whole_of S.value j solution.now) j (terms_of S.value row.now)
        (row_or S.value (terms_of S.value row.now) out)) }
    ensures wide { IsErrOf result FormFault.Wide → (n : ℕ) → j < n
        → IsRow S.limit n (terms_of S.value row.now) → IsSparse n (whole_of S.value j solution.now)
        → ¬ CanReplace S.limit (filled n (whole_of S.value j solution.now)) j
        (filled n (terms_of S.value row.now)) }
{
    match part_at(row, j) {
        Some(row) => {
            let mut out = spare_row(spare);
            match join(&mut out, &row, solution, j) {
                Ok(()) => Ok(Some(out)),
                Err(fault) => Err(fault),
            }
        },
        None => Ok(None),
    }
}

// The row at k replaced, None where it stays as it is for now: where it leaves, or doesn't hold the entering variable.
fn reckon_row<S: Scalar>(
    t: &Tableau<S>,
    k: usize,
    solution: &Halves<S>,
    i: usize,
    j: usize,
    spare: &mut Vec<Vec<(usize, S)>>,
) -> Result<Option<Vec<(usize, S)>>, FormFault>
    requires rows { AreRows S.value S.limit t.now }
    requires row { k < length t.now.rows.items }
    requires column { j < length t.now.nonbasic.items }
    requires solution { IsSparse (width_of t.now) (whole_of S.value j solution.now) }
    ensures becomes { let row = terms_in (terms_of_rows S.value t.now.rows.items) k in
        IfOk result (λ out. Becomes S.limit (width_of t.now)
        (whole_of S.value j solution.now) i j k row (row_or S.value row out)) }
    ensures wide { IsErrOf result FormFault.Wide → ¬ CanReplaceOthers S.limit
        (filled (width_of t.now) (whole_of S.value j solution.now)) i j
        (dictionary_of S.value t.now).rows }
{
    if k == i {
        return Ok(None);
    }
    match replace(&t.rows[k], solution, j, spare) {
        Ok(row) => Ok(row),
        Err(fault) => Err(fault),
    }
}

// Puts a changed row with its place at the end.
fn note<S: Scalar>(
    changes: &mut Vec<(usize, Vec<(usize, S)>)>,
    k: usize,
    row: Option<Vec<(usize, S)>>,
) -> Result<(), FormFault>
    ensures changes { OnOk result (changes_of S.value changes.new.items
        ≡ noted S.value (changes_of S.value changes.old.items) k row) }
    ensures memory { OnErr result (IsErrOf result FormFault.Memory) }
{
    match row {
        Some(row) => match changes.push((k, row)) {
            Ok(()) => Ok(()),
            Err(_) => Err(FormFault::Memory),
        },
        None => Ok(()),
    }
}

// The rows that hold the entering variable, but the leaving one, each replaced, with their places.
fn reckon_rows<S: Scalar>(
    t: &Tableau<S>,
    solution: &Halves<S>,
    i: usize,
    j: usize,
    spare: &mut Vec<Vec<(usize, S)>>,
) -> Result<Vec<(usize, Vec<(usize, S)>)>, FormFault>
    requires rows { AreRows S.value S.limit t.now }
    requires column { j < length t.now.nonbasic.items }
    requires solution { IsSparse (width_of t.now) (whole_of S.value j solution.now) }
    ensures changes { IfOk result (λ changes.
        AreChanges (Becomes S.limit (width_of t.now) (whole_of S.value j solution.now) i j) 0
        (terms_of_rows S.value t.now.rows.items) (changes_of S.value changes.items)) }
    ensures wide { IsErrOf result FormFault.Wide → ¬ CanReplaceOthers S.limit
        (filled (width_of t.now) (whole_of S.value j solution.now)) i j
        (dictionary_of S.value t.now).rows }
{
    let mut changes = Vec::new(*spare.allocator());
    let count = t.rows.len();
    let mut k = next_holding(&t.marks, j, 0, count);
    while k < count {
        match reckon_row(t, k, solution, i, j, spare) {
            Ok(row) => match note(&mut changes, k, row) {
                Ok(()) => {},
                Err(fault) => return Err(fault),
            },
            Err(fault) => return Err(fault),
        }
        k = next_holding(&t.marks, j, k + 1, count);
    }
    Ok(changes)
}

// What a pivot changes but the leaving row: rows with their places, and the cost where it holds the entering variable.
#[derive(Drop)]
pub(crate) struct Reckoned<S> {
    pub(crate) rows: Vec<(usize, Vec<(usize, S)>)>,
    pub(crate) cost: Option<Vec<(usize, S)>>,
}

// Reckons the other rows and the cost after the pivot, for a solved row at its column j.
fn reckon_at<S: Scalar>(
    t: &Tableau<S>,
    solution: &Halves<S>,
    i: usize,
    j: usize,
    spare: &mut Vec<Vec<(usize, S)>>,
) -> Result<Reckoned<S>, FormFault>
    requires rows { AreRows S.value S.limit t.now }
    requires column { j < length t.now.nonbasic.items }
    requires solution { IsSparse (width_of t.now) (whole_of S.value j solution.now) }
    ensures reckoned { IfOk result
        (IsReckoned S.value S.limit t.now (whole_of S.value j solution.now) i j) }
    ensures wide { IsErrOf result FormFault.Wide
        → ¬ CanReplaceAll S.limit (dictionary_of S.value t.now)
        (filled (width_of t.now) (whole_of S.value j solution.now)) i j }
{
    match reckon_rows(t, solution, i, j, spare) {
        Ok(rows) => match replace(&t.cost, solution, j, spare) {
            Ok(cost) => Ok(Reckoned { rows, cost }),
            Err(fault) => Err(fault),
        },
        Err(fault) => Err(fault),
    }
}

// Reckons the other rows and the cost after the pivot.
fn reckon<S: Scalar>(
    t: &Tableau<S>,
    solution: &[(usize, S)],
    i: usize,
    j: usize,
    spare: &mut Vec<Vec<(usize, S)>>,
) -> Result<Reckoned<S>, FormFault>
    requires rows { AreRows S.value S.limit t.now }
    requires column { j < length t.now.nonbasic.items }
    requires solution { IsSparse (width_of t.now) (terms_of S.value solution.now) }
    requires pivot { coefficient (terms_of S.value solution.now) j ≢ zeroℚ }
    ensures reckoned { IfOk result
        (IsReckoned S.value S.limit t.now (terms_of S.value solution.now) i j) }
    ensures wide { IsErrOf result FormFault.Wide
        → ¬ CanReplaceAll S.limit (dictionary_of S.value t.now)
        (filled (width_of t.now) (terms_of S.value solution.now)) i j }
{
    match part_at(solution, j) {
        Some(solution) => match reckon_at(t, &solution, i, j, spare) {
            Ok(reckoned) => Ok(reckoned),
            Err(fault) => Err(fault),
        },
        None => unreachable!(),
    }
}

// Keeps the room of a row for a later pivot, but not of too many.
const SPARE_ROWS: usize = 1024;

fn keep<S: Scalar>(spare: &mut Vec<Vec<(usize, S)>>, row: Vec<(usize, S)>) {
    if spare.len() < SPARE_ROWS {
        match spare.push(row) {
            Ok(()) => {},
            Err(_) => {},
        }
    }
}

// Puts a row in the place of another, whose room is kept.
fn put<S: Scalar>(
    place: &mut Vec<(usize, S)>,
    row: Vec<(usize, S)>,
    spare: &mut Vec<Vec<(usize, S)>>,
)
    ensures { place.new ≡ row }
{
    let mut old = row;
    swap(place, &mut old);
    keep(spare, old);
}

// Puts the changed rows at their places.
fn write_rows<S: Scalar>(
    rows: &mut Vec<Vec<(usize, S)>>,
    marks: &mut Vec<Vec<bool>>,
    changes: Vec<(usize, Vec<(usize, S)>)>,
    spare: &mut Vec<Vec<(usize, S)>>,
)
    requires within { AreWithin (length rows.old.items) (changes_of S.value changes.items) }
    requires marked { AreMarked (marks_of marks.old.items) (terms_of_rows S.value rows.old.items) }
    ensures rows { terms_of_rows S.value rows.new.items
        ≡ with_changes (changes_of S.value changes.items) (terms_of_rows S.value rows.old.items) }
    ensures marked { AreMarked (marks_of marks.new.items) (terms_of_rows S.value rows.new.items) }
{
    let mut left = changes;
    while let Some((k, row)) = left.pop() {
        mark_row(marks, k, &row);
        put(&mut rows[k], row, spare);
    }
}

// Puts the changed rows and the solved one at their places.
fn place_rows<S: Scalar>(
    rows: &mut Vec<Vec<(usize, S)>>,
    marks: &mut Vec<Vec<bool>>,
    i: usize,
    solution: Vec<(usize, S)>,
    changes: Vec<(usize, Vec<(usize, S)>)>,
    spare: &mut Vec<Vec<(usize, S)>>,
)
    requires row { i < length rows.old.items }
    requires changes { AreWithin (length rows.old.items) (changes_of S.value changes.items) }
    requires marked { AreMarked (marks_of marks.old.items) (terms_of_rows S.value rows.old.items) }
    ensures rows { terms_of_rows S.value rows.new.items ≡ slice_set
        (with_changes (changes_of S.value changes.items) (terms_of_rows S.value rows.old.items))
        i (terms_of S.value solution.items) }
    ensures marked { AreMarked (marks_of marks.new.items) (terms_of_rows S.value rows.new.items) }
{
    write_rows(rows, marks, changes, spare);
    mark_row(marks, i, &solution);
    put(&mut rows[i], solution, spare);
}

// Puts a changed row in the place of another, if it is one.
fn put_changed<S: Scalar>(
    place: &mut Vec<(usize, S)>,
    row: Option<Vec<(usize, S)>>,
    spare: &mut Vec<Vec<(usize, S)>>,
)
    ensures { terms_of S.value place.new.items
        ≡ row_or S.value (terms_of S.value place.old.items) row }
{
    match row {
        Some(row) => put(place, row, spare),
        None => {},
    }
}

// Makes the reckoned pivot, and the two variables change places.
fn make<S: Scalar>(
    t: &mut Tableau<S>,
    solution: Vec<(usize, S)>,
    reckoned: Reckoned<S>,
    i: usize,
    j: usize,
    spare: &mut Vec<Vec<(usize, S)>>,
)
    requires rows { AreRows S.value S.limit t.old }
    requires row { i < length t.old.rows.items }
    requires column { j < length t.old.nonbasic.items }
    requires solved { IsSolved S.limit (width_of t.old)
        (terms_in (terms_of_rows S.value t.old.rows.items) i) j (terms_of S.value solution.items) }
    requires reckoned { IsReckoned S.value S.limit t.old (terms_of S.value solution.items) i j
        reckoned }
    ensures rows { AreRows S.value S.limit t.new }
    ensures pivot { dictionary_of S.value t.new ≡ pivoted (dictionary_of S.value t.old) i j }
{
    place_rows(&mut t.rows, &mut t.marks, i, solution, reckoned.rows, spare);
    put_changed(&mut t.cost, reckoned.cost, spare);
    let leaving = t.basic[i];
    t.basic[i] = t.nonbasic[j];
    t.nonbasic[j] = leaving;
}

// The basic variable at i leaves, the nonbasic one at j enters; nothing changes where that is not defined, or where
// there is no memory for it.
pub(crate) fn pivot<S: Scalar>(
    t: &mut Tableau<S>,
    spare: &mut Vec<Vec<(usize, S)>>,
    i: usize,
    j: usize,
) -> Result<(), FormFault>
    requires rows { AreRows S.value S.limit t.old }
    requires row { i < length (dictionary_of S.value t.old).rows }
    requires column { j < length t.old.nonbasic.items }
    requires pivot { entry_of (dictionary_of S.value t.old) i j ≢ zeroℚ }
    ensures rows { AreRows S.value S.limit t.new }
    ensures pivot { OnOk result (CanPivot S.limit (dictionary_of S.value t.old) i j
        × dictionary_of S.value t.new ≡ pivoted (dictionary_of S.value t.old) i j) }
    ensures wide { IsErrOf result FormFault.Wide
        → ¬ CanPivot S.limit (dictionary_of S.value t.old) i j }
    ensures err { OnErr result (t.new ≡ t.old) }
{
    match solve_row(&t.rows[i], j, spare) {
        Ok(solution) => match reckon(t, &solution, i, j, spare) {
            Ok(reckoned) => {
                make(t, solution, reckoned, i, j, spare);
                Ok(())
            },
            Err(fault) => Err(fault),
        },
        Err(fault) => Err(fault),
    }
}
