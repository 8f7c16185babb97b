//! The pivot: first all of it is reckoned, then, where it is defined, it is made in place.

ghost use Rattle.std.specs.Prelude.{◌≡◌, ◌≢◌, ◌+◌, ◌<◌, length, map};
ghost use Rattle.std.specs.Result.{MatchResult};
ghost use Rattle.rational.specs.Rational.{zeroℚ};
ghost use Rattle.lp_tableau.specs.Dictionaries.{entry_of};
ghost use Rattle.lp_tableau.specs.Pivots.{pivoted, replaced, CanPivot, CanReplaceAll};
ghost use Rattle.lp_tableau.specs.RowLists.{AreReady, HaveWidth, RowsFit, shown_rows};
ghost use Rattle.lp_tableau.specs.Tableaus.{AreEven, IsReckoned, IsRoomFor, dictionary_of};

use crate::rows::{reckon_rows, replace_row, rewrite_rows, solve_row};
use crate::tableau::Tableau;
use exact_lin::{Scalar, Wide};
use std::mem::swap;

// Room for what a pivot reckons before it changes anything: the solved row, the cost, and spare rows. The first rows of
// a dictionary have a spare row each, the others share the last one, and are reckoned twice.
#[derive(Drop)]
pub(crate) struct Room<S> {
    pub(crate) solution: Vec<S>,
    pub(crate) rows: Vec<Vec<S>>,
    pub(crate) cost: Vec<S>,
}

// Reckons the other rows and the cost after the pivot.
fn reckon_others<S: Scalar>(
    t: &Tableau<S>,
    solution: &[S],
    i: usize,
    j: usize,
    spare: &mut [Vec<S>],
    cost: &mut [S],
) -> Result<(), Wide>
    requires even { AreEven t.now }
    requires fits { RowsFit S.limit (shown_rows S.value t.now.rows.items) }
    requires column { j < length t.now.nonbasic.items }
    requires solution { length solution.now ≡ length t.now.nonbasic.items + 1 }
    requires some { 0 < length spare.old }
    requires spare { HaveWidth (length t.now.nonbasic.items + 1) spare.old }
    requires cost { length cost.old ≡ length t.now.nonbasic.items + 1 }
    ensures count { length spare.new ≡ length spare.old }
    ensures spare { HaveWidth (length t.now.nonbasic.items + 1) spare.new }
    ensures cost { length cost.new ≡ length cost.old }
    ensures cases { MatchResult result
        (λ _. CanReplaceAll S.limit (dictionary_of S.value t.now) (map S.value solution.now) i j
        × AreReady (map S.value solution.now) i j (shown_rows S.value t.now.rows.items)
        (shown_rows S.value spare.new)
        × map S.value cost.new
        ≡ replaced (map S.value solution.now) j (dictionary_of S.value t.now).cost)
        (λ _. ¬ CanReplaceAll S.limit (dictionary_of S.value t.now)
        (map S.value solution.now) i j) }
{
    match reckon_rows(&t.rows, solution, i, j, spare) {
        Ok(()) => replace_row(&t.cost, solution, j, cost),
        Err(wide) => Err(wide),
    }
}

// Reckons the pivot.
fn reckon<S: Scalar>(t: &Tableau<S>, room: &mut Room<S>, i: usize, j: usize) -> Result<(), Wide>
    requires even { AreEven t.now }
    requires fits { RowsFit S.limit (shown_rows S.value t.now.rows.items) }
    requires room { IsRoomFor t.now room.old }
    requires row { i < length t.now.rows.items }
    requires column { j < length t.now.nonbasic.items }
    requires pivot { entry_of (dictionary_of S.value t.now) i j ≢ zeroℚ }
    ensures room { IsRoomFor t.now room.new }
    ensures cases { MatchResult result (λ _. IsReckoned S.value S.limit t.now room.new i j)
        (λ _. ¬ CanPivot S.limit (dictionary_of S.value t.now) i j) }
{
    match solve_row(&t.rows[i], j, &mut room.solution) {
        Ok(()) => reckon_others(t, &room.solution, i, j, &mut room.rows, &mut room.cost),
        Err(wide) => Err(wide),
    }
}

// Makes the reckoned pivot, and the two variables change places.
fn make<S: Scalar>(t: &mut Tableau<S>, room: &mut Room<S>, i: usize, j: usize)
    requires even { AreEven t.old }
    requires room { IsRoomFor t.old room.old }
    requires row { i < length t.old.rows.items }
    requires column { j < length t.old.nonbasic.items }
    requires reckoned { IsReckoned S.value S.limit t.old room.old i j }
    ensures even { AreEven t.new }
    ensures room { IsRoomFor t.new room.new }
    ensures pivot { dictionary_of S.value t.new ≡ pivoted (dictionary_of S.value t.old) i j }
{
    rewrite_rows(&mut t.rows, &room.solution, i, j, &mut room.rows);
    swap(&mut t.cost, &mut room.cost);
    let leaving = t.basic[i];
    t.basic[i] = t.nonbasic[j];
    t.nonbasic[j] = leaving;
}

// The basic variable at i leaves, the nonbasic one at j enters; nothing changes where that is not defined.
pub(crate) fn pivot<S: Scalar>(
    t: &mut Tableau<S>,
    room: &mut Room<S>,
    i: usize,
    j: usize,
) -> Result<(), Wide>
    requires even { AreEven t.old }
    requires fits { RowsFit S.limit (shown_rows S.value t.old.rows.items) }
    requires room { IsRoomFor t.old room.old }
    requires row { i < length t.old.rows.items }
    requires column { j < length t.old.nonbasic.items }
    requires pivot { entry_of (dictionary_of S.value t.old) i j ≢ zeroℚ }
    ensures even { AreEven t.new }
    ensures room { IsRoomFor t.new room.new }
    ensures cases { MatchResult result
        (λ _. CanPivot S.limit (dictionary_of S.value t.old) i j
        × dictionary_of S.value t.new ≡ pivoted (dictionary_of S.value t.old) i j)
        (λ _. ¬ CanPivot S.limit (dictionary_of S.value t.old) i j × t.new ≡ t.old) }
{
    match reckon(t, room, i, j) {
        Ok(()) => {
            make(t, room, i, j);
            Ok(())
        },
        Err(wide) => Err(wide),
    }
}
