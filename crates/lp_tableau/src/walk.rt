//! The chain of pivots.

ghost use Rattle.lp_tableau.specs.Meanings.{IsDictionary};
ghost use Rattle.lp_tableau.specs.Outcomes.{IsOutcome};
ghost use Rattle.lp_tableau.specs.RowLists.{RowsFit, shown_rows};
ghost use Rattle.lp_tableau.specs.Tableaus.{AreEven, IsRoomFor, dictionary_of};

use crate::outcome::Outcome;
use crate::pivot::{Room, pivot};
use crate::tableau::Tableau;
use crate::turn::{Turn, next_turn};
use exact_lin::Scalar;

// At most `budget` pivots, as the rules name them.
pub(crate) fn walk<S: Scalar>(t: &mut Tableau<S>, room: &mut Room<S>, budget: u64) -> Outcome
    requires even { AreEven t.old }
    requires fits { RowsFit S.limit (shown_rows S.value t.old.rows.items) }
    requires room { IsRoomFor t.old room.old }
    requires dictionary { IsDictionary (dictionary_of S.value t.old) }
    ensures even { AreEven t.new }
    ensures fits { RowsFit S.limit (shown_rows S.value t.new.rows.items) }
    ensures room { IsRoomFor t.new room.new }
    ensures dictionary { IsDictionary (dictionary_of S.value t.new) }
    ensures outcome { IsOutcome S.limit (dictionary_of S.value t.old) budget
        (dictionary_of S.value t.new) result }
{
    for made in 0..budget {
        match next_turn(t) {
            Turn::Optimal => return Outcome::Optimal,
            Turn::Infeasible => return Outcome::Infeasible,
            Turn::Wide => return Outcome::Wide(made),
            Turn::Pivot(i, j) => match pivot(t, room, i, j) {
                Ok(()) => {},
                Err(_) => return Outcome::Wide(made),
            },
        }
    }
    match next_turn(t) {
        Turn::Optimal => Outcome::Optimal,
        Turn::Infeasible => Outcome::Infeasible,
        Turn::Pivot(_, _) | Turn::Wide => Outcome::Spent(budget),
    }
}
