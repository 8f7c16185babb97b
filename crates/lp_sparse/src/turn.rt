//! One turn of the method: what comes next.

ghost use Rattle.lp_tableau.specs.Chains.{NeverUnlimited, EntersSecond};
ghost use Rattle.lp_tableau.specs.Turns.{IsTurn};
ghost use Rattle.lp_sparse.specs.SparseTableaus.{AreRows, dictionary_of};

use crate::rules::{entering_cost, entering_row, leaving, tightest};
use crate::tableau::Tableau;
use exact_lin::Scalar;
use lp_tableau::Turn;

// The basic variable that leaves for the nonbasic one at j, by the second rule.
fn second_turn<S: Scalar>(t: &Tableau<S>, j: usize) -> Turn
    requires rows { AreRows S.value S.limit t.now }
    requires limited { NeverUnlimited (dictionary_of S.value t.now) }
    requires enters { EntersSecond (dictionary_of S.value t.now) j }
    ensures { IsTurn S.limit (dictionary_of S.value t.now) result }
{
    match tightest(t, j) {
        Ok(Some(best)) => Turn::Pivot(best.0, j),
        Ok(None) => unreachable!(),
        Err(_) => Turn::Wide,
    }
}

// The next turn.
pub(crate) fn next_turn<S: Scalar>(t: &Tableau<S>) -> Turn
    requires rows { AreRows S.value S.limit t.now }
    requires limited { NeverUnlimited (dictionary_of S.value t.now) }
    ensures { IsTurn S.limit (dictionary_of S.value t.now) result }
{
    match leaving(t) {
        Some(i) => match entering_row(t, i) {
            Some(j) => Turn::Pivot(i, j),
            None => Turn::Infeasible,
        },
        None => match entering_cost(t) {
            Some(j) => second_turn(t, j),
            None => Turn::Optimal,
        },
    }
}
