//! The leaving row, solved for the entering variable.

ghost use Rattle.std.specs.Prelude.{◌≡◌, ◌≢◌, ℕ, ◌<◌, [], length, OnOk, IfOk, IsErrOf};
ghost use Rattle.std.specs.Result.{MatchResult};
ghost use Rattle.rational.specs.Rational.{zeroℚ};
ghost use Rattle.exact_lin.specs.Reckoning.{CanMultiply};
ghost use Rattle.exact_lin.specs.Forms.{AscendFrom, coefficient};
ghost use Rattle.lp_tableau.specs.Pivots.{CanSolve};
ghost use Rattle.lp_sparse.specs.SparseRows.{terms_of, filled, scaled_term, scaled_terms, CanScaleTerms, IsRow, IsSolved};

use crate::merge::push;
use crate::products::product_of;
use crate::rows::entry_in;
use exact_lin::{FormFault, Scalar, Wide};

// An empty row, with the room of a spare one where there is one.
pub(crate) fn spare_row<S: Scalar>(spare: &mut Vec<Vec<(usize, S)>>) -> Vec<(usize, S)>
    ensures { result.items ≡ [] }
{
    match spare.pop() {
        Some(row) => {
            let mut row = row;
            row.clear();
            row
        },
        None => Vec::new(*spare.allocator()),
    }
}

// The term times y, or the reciprocal in column j.
fn solved_term<S: Scalar>(
    term: (usize, S),
    j: usize,
    y: S,
    reciprocal: S,
) -> Result<(usize, S), Wide>
    ensures { MatchResult result
        (λ u. CanMultiply S.limit (S.value y) (S.value term.1)
        × (u.0, S.value u.1)
        ≡ scaled_term (S.value y) (S.value reciprocal) j (term.0, S.value term.1))
        (λ _. ¬ CanMultiply S.limit (S.value y) (S.value term.1)) }
{
    match product_of(y, term.1) {
        Ok(product) => if term.0 == j {
            Ok((term.0, reciprocal))
        } else {
            Ok((term.0, product))
        },
        Err(wide) => Err(wide),
    }
}

// Puts the terms times y into `out`, and the reciprocal in column j.
fn scale_terms<S: Scalar>(
    out: &mut Vec<(usize, S)>,
    row: &[(usize, S)],
    j: usize,
    y: S,
    reciprocal: S,
) -> Result<(), FormFault>
    requires { out.old.items ≡ [] }
    ensures terms { OnOk result (terms_of S.value out.new.items
        ≡ scaled_terms (S.value y) (S.value reciprocal) j (terms_of S.value row.now)) }
    ensures defined { OnOk result (CanScaleTerms S.limit (S.value y) (terms_of S.value row.now)) }
    ensures wide { IsErrOf result FormFault.Wide
        → ¬ CanScaleTerms S.limit (S.value y) (terms_of S.value row.now) }
{
    for term in row {
        match solved_term(*term, j, y, reciprocal) {
            Ok(solved) => match push(out, solved) {
                Ok(()) => {},
                Err(_) => return Err(FormFault::Memory),
            },
            Err(_) => return Err(FormFault::Wide),
        }
    }
    Ok(())
}

// The row solved for the variable of column j.
pub(crate) fn solve_row<S: Scalar>(
    row: &[(usize, S)],
    j: usize,
    spare: &mut Vec<Vec<(usize, S)>>,
) -> Result<Vec<(usize, S)>, FormFault>
    requires ascends { AscendFrom 0 (terms_of S.value row.now) }
    requires pivot { coefficient (terms_of S.value row.now) j ≢ zeroℚ }
    ensures solved { IfOk result (λ out. (n : ℕ) → j < n
        → IsRow S.limit n (terms_of S.value row.now)
        → IsSolved S.limit n (terms_of S.value row.now) j (terms_of S.value out.items)) }
    ensures wide { IsErrOf result FormFault.Wide → (n : ℕ) → j < n
        → IsRow S.limit n (terms_of S.value row.now)
        → ¬ CanSolve S.limit (filled n (terms_of S.value row.now)) j }
{
    let reciprocal = entry_in(row, j).recip();
    let mut out = spare_row(spare);
    match scale_terms(&mut out, row, j, reciprocal.neg(), reciprocal) {
        Ok(()) => Ok(out),
        Err(fault) => Err(fault),
    }
}
