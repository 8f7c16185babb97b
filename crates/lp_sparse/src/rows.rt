//! Rows without their zeros: columns with their numbers, in the order of the columns.

ghost use Rattle.std.specs.Prelude.{◌≡◌, ◌∷◌, ◌++◌, ◌+◌, MatchOption};
ghost use Rattle.rational.specs.Rational.{zeroℚ};
ghost use Rattle.exact_lin.specs.Forms.{AscendFrom, Covers, coefficient, place_in};
ghost use Rattle.lp_sparse.specs.SparseRows.{terms_of};

use exact_lin::Scalar;

// How many terms, from the first on, have columns below this one, by halves.
fn place_of<S: Scalar>(row: &[(usize, S)], column: usize) -> usize
    requires { AscendFrom 0 (terms_of S.value row.now) }
    ensures { result ≡ place_in (terms_of S.value row.now) column }
{
    let mut low = 0;
    let mut high = row.len();
    while low < high {
        let middle = low + (high - low) / 2;
        if row[middle].0 < column {
            low = middle + 1;
        } else {
            high = middle;
        }
    }
    low
}

// A row at one of its columns: the terms before it, its number, and the terms behind it.
#[derive(Clone, Copy, Drop)]
pub(crate) struct Halves<'a, S> {
    pub(crate) front: &'a [(usize, S)],
    pub(crate) number: S,
    pub(crate) back: &'a [(usize, S)],
}

// The row at the column; None where it has no term for it.
pub(crate) fn part_at<S: Scalar>(row: &[(usize, S)], column: usize) -> Option<Halves<'_, S>>
    requires { AscendFrom 0 (terms_of S.value row.now) }
    ensures { MatchOption result (coefficient (terms_of S.value row.now) column ≡ zeroℚ)
        (λ h. terms_of S.value row.now
        ≡ terms_of S.value h.front.now ++ (column, S.value h.number)
        ∷ terms_of S.value h.back.now) }
{
    let (front, rest) = row.split_at(place_of(row, column));
    match rest.split_first() {
        Some((term, back)) => if term.0 == column {
            Some(Halves {
                front,
                number: term.1,
                back,
            })
        } else {
            None
        },
        None => None,
    }
}

// The number of a column.
pub(crate) fn entry_in<S: Scalar>(row: &[(usize, S)], column: usize) -> S
    requires { AscendFrom 0 (terms_of S.value row.now) }
    ensures { S.value result ≡ coefficient (terms_of S.value row.now) column }
{
    match part_at(row, column) {
        Some(found) => found.number,
        None => S::of_int(0),
    }
}

// The number of the last column that the row may have.
pub(crate) fn last_in<S: Scalar>(row: &[(usize, S)], column: usize) -> S
    requires ascends { AscendFrom 0 (terms_of S.value row.now) }
    requires covered { Covers (column + 1) (terms_of S.value row.now) }
    ensures { S.value result ≡ coefficient (terms_of S.value row.now) column }
{
    match row.split_last() {
        Some((term, _front)) => if term.0 == column {
            term.1
        } else {
            S::of_int(0)
        },
        None => S::of_int(0),
    }
}
