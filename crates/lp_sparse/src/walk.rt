//! The chain of pivots.

ghost use Rattle.std.specs.Prelude.{OnErr, IfOk};
ghost use Rattle.lp_sparse.specs.Stops.{IsStopped};
ghost use Rattle.lp_sparse.specs.SparseTableaus.{IsSound, dictionary_of};
ghost use Rattle.lp_tableau.specs.Outcomes.{IsOutcome};

use crate::pivot::pivot;
use crate::tableau::Tableau;
use crate::turn::next_turn;
use exact_lin::{FormFault, NoMemory, Scalar};
use lp_tableau::{Outcome, Turn};

// At most `budget` pivots, as the rules name them.
pub(crate) fn walk<S: Scalar>(
    t: &mut Tableau<S>,
    spare: &mut Vec<Vec<(usize, S)>>,
    budget: u64,
) -> Result<Outcome, NoMemory>
    requires { IsSound S.value S.limit t.old }
    ensures sound { IsSound S.value S.limit t.new }
    ensures outcome { IfOk result (IsOutcome S.limit (dictionary_of S.value t.old) budget
        (dictionary_of S.value t.new)) }
    ensures memory { OnErr result (IsStopped S.limit (dictionary_of S.value t.old) budget
        (dictionary_of S.value t.new)) }
{
    for made in 0..budget {
        match next_turn(t) {
            Turn::Optimal => return Ok(Outcome::Optimal),
            Turn::Infeasible => return Ok(Outcome::Infeasible),
            Turn::Wide => return Ok(Outcome::Wide(made)),
            Turn::Pivot(i, j) => match pivot(t, spare, i, j) {
                Ok(()) => {},
                Err(FormFault::Wide) => return Ok(Outcome::Wide(made)),
                Err(FormFault::Memory) => return Err(NoMemory),
            },
        }
    }
    match next_turn(t) {
        Turn::Optimal => Ok(Outcome::Optimal),
        Turn::Infeasible => Ok(Outcome::Infeasible),
        Turn::Pivot(_, _) | Turn::Wide => Ok(Outcome::Spent(budget)),
    }
}
