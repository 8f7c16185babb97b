//! One turn of the method: what comes next.

ghost use Rattle.lp_tableau.specs.Chains.{NeverUnlimited, EntersSecond};
ghost use Rattle.lp_tableau.specs.Tableaus.{AreEven, dictionary_of};
ghost use Rattle.lp_tableau.specs.Turns.{IsTurn};

use crate::rules::{entering_cost, entering_row, leaving, tightest};
use crate::tableau::Tableau;
use exact_lin::Scalar;

/// What the rules ask for next, of a dictionary.
#[derive(Clone, Copy, Drop)]
pub enum Turn {
    /// No constant is negative, and no entry of the cost.
    Optimal,
    /// A constant is negative, and no entry of its row is positive.
    Infeasible,
    /// The basic variable at the first place leaves, the nonbasic one at the second enters.
    Pivot(usize, usize),
    /// A ratio is not defined.
    Wide,
}

// The basic variable that leaves for the nonbasic one at j, by the second rule.
fn second_turn<S: Scalar>(t: &Tableau<S>, j: usize) -> Turn
    requires even { AreEven t.now }
    requires limited { NeverUnlimited (dictionary_of S.value t.now) }
    requires enters { EntersSecond (dictionary_of S.value t.now) j }
    ensures { IsTurn S.limit (dictionary_of S.value t.now) result }
{
    match tightest(t, j) {
        Ok(Some(best)) => Turn::Pivot(best.0, j),
        Ok(None) | Err(_) => Turn::Wide,
    }
}

// The next turn.
pub(crate) fn next_turn<S: Scalar>(t: &Tableau<S>) -> Turn
    requires even { AreEven t.now }
    requires limited { NeverUnlimited (dictionary_of S.value t.now) }
    ensures { IsTurn S.limit (dictionary_of S.value t.now) result }
{
    match leaving(t) {
        Some(i) => match entering_row(t, i) {
            Some(j) => Turn::Pivot(i, j),
            None => Turn::Infeasible,
        },
        None => match entering_cost(t) {
            Some(j) => second_turn(t, j),
            None => Turn::Optimal,
        },
    }
}
