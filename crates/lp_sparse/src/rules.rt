//! Which pivot is next: the rules of least numbers (Bland 1977), over rows without their zeros.

ghost use Rattle.std.specs.Prelude.{◌≡◌, ◌<◌, ◌⊎◌, length, IfSome, MatchOption};
ghost use Rattle.std.specs.Bool.{MatchBool};
ghost use Rattle.std.specs.Option.{option_map};
ghost use Rattle.std.specs.Result.{MatchResult};
ghost use Rattle.rational.specs.Rational.{◌<ℚ◌};
ghost use Rattle.exact_lin.specs.Forms.{AscendFrom, coefficient};
ghost use Rattle.exact_lin.specs.Reckoning.{Reckons};
ghost use Rattle.lp_tableau.specs.Places.{FindsFirst, IsLesser};
ghost use Rattle.lp_tableau.specs.Chains.{IsNegative, IsRaising, IsCheaper, IsFalling, IsTighter, CanRatio, CanCompare, ratio_of};
ghost use Rattle.lp_sparse.specs.SparseRows.{terms_of};
ghost use Rattle.lp_sparse.specs.SparseTableaus.{AreRows, dictionary_of};
ghost use Rattle.lp_sparse.specs.Directions.{Points, HasDirection};

use crate::tableau::Tableau;
use exact_lin::{Scalar, Wide, is_negative, is_positive};
use std::cmp::Ordering;

// Which way a number differs from 0.
#[derive(Clone, Copy, Drop)]
pub(crate) enum Direction {
    Down,
    Up,
}

// Whether the number differs from 0 that way.
fn points<S: Scalar>(x: S, wanted: Direction) -> bool
    ensures { MatchBool result (HasDirection wanted (S.value x))
        (¬ HasDirection wanted (S.value x)) }
{
    match wanted {
        Direction::Down => is_negative(x),
        Direction::Up => is_positive(x),
    }
}

// Whether the term is a variable's, its column being below n, and differs from 0 that way.
fn counts<S: Scalar>(term: (usize, S), n: usize, wanted: Direction) -> bool
    ensures { MatchBool result (term.0 < n × HasDirection wanted (S.value term.1))
        (term.0 < n → ¬ HasDirection wanted (S.value term.1)) }
{
    if term.0 < n {
        points(term.1, wanted)
    } else {
        false
    }
}

// The place of the lesser number: the best so far, or k.
fn lesser(variables: &[usize], best: Option<usize>, k: usize) -> usize
    requires here { k < length variables.now }
    requires best { IfSome best (λ b. b < length variables.now) }
    ensures { MatchOption best (result ≡ k)
        (λ b. ((result ≡ b) × IsLesser variables.now b k)
        ⊎ ((result ≡ k) × IsLesser variables.now k b)) }
{
    match best {
        Some(b) => if variables[b] <= variables[k] { b } else { k },
        None => k,
    }
}

// The variable of least number of those whose number in the row differs from 0 that way. Terms behind the variables'
// columns don't count.
fn least_of<S: Scalar>(row: &[(usize, S)], variables: &[usize], wanted: Direction) -> Option<usize>
    requires { AscendFrom 0 (terms_of S.value row.now) }
    ensures { FindsFirst (Points wanted (terms_of S.value row.now)) (IsLesser variables.now)
        (length variables.now) result }
{
    let mut best = None;
    for term in row {
        if counts(*term, variables.len(), wanted) {
            best = Some(lesser(variables, best, term.0));
        }
    }
    best
}

// The basic variable of least number with a negative constant.
pub(crate) fn leaving<S: Scalar>(t: &Tableau<S>) -> Option<usize>
    requires { AreRows S.value S.limit t.now }
    ensures { FindsFirst (IsNegative (dictionary_of S.value t.now)) (IsLesser t.now.basic.items)
        (length (dictionary_of S.value t.now).rows) result }
{
    let mut best = None;
    for i in 0..t.rows.len() {
        if is_negative(t.constant(i)) {
            best = Some(lesser(&t.basic, best, i));
        }
    }
    best
}

// The nonbasic variable of least number with a positive entry in the row at i.
pub(crate) fn entering_row<S: Scalar>(t: &Tableau<S>, i: usize) -> Option<usize>
    requires rows { AreRows S.value S.limit t.now }
    requires row { i < length (dictionary_of S.value t.now).rows }
    ensures { FindsFirst (IsRaising (dictionary_of S.value t.now) i) (IsLesser t.now.nonbasic.items)
        (length t.now.nonbasic.items) result }
{
    least_of(&t.rows[i], &t.nonbasic, Direction::Up)
}

// The nonbasic variable of least number with a negative entry in the cost.
pub(crate) fn entering_cost<S: Scalar>(t: &Tableau<S>) -> Option<usize>
    requires { AreRows S.value S.limit t.now }
    ensures { FindsFirst (IsCheaper (dictionary_of S.value t.now)) (IsLesser t.now.nonbasic.items)
        (length t.now.nonbasic.items) result }
{
    least_of(&t.cost, &t.nonbasic, Direction::Down)
}

// The ratio of the basic variable at i in the column of j, whose entry is negative: its constant over minus its entry.
fn ratio<S: Scalar>(t: &Tableau<S>, i: usize, j: usize) -> Result<S, Wide>
    requires rows { AreRows S.value S.limit t.now }
    requires row { i < length t.now.rows.items }
    requires column { j < length t.now.nonbasic.items }
    requires falling { IsFalling (dictionary_of S.value t.now) j i }
    ensures { Reckons S.value result (CanRatio S.limit (dictionary_of S.value t.now) j i)
        (ratio_of (dictionary_of S.value t.now) j i) }
{
    t.constant(i).mul(t.entry(i, j).neg().recip())
}

// The tighter of the best so far and the basic variable at i, of this ratio.
fn tighter<S: Scalar>(
    variables: &[usize],
    best: Option<(usize, S)>,
    i: usize,
    ratio: S,
) -> (usize, S)
    requires here { i < length variables.now }
    requires best { IfSome best (λ b. b.0 < length variables.now) }
    ensures { MatchOption best (result ≡ (i, ratio)) (λ b.
        ((result ≡ b) × ((S.value b.1 <ℚ S.value ratio)
        ⊎ ((S.value b.1 ≡ S.value ratio) × IsLesser variables.now b.0 i)))
        ⊎ ((result ≡ (i, ratio)) × ((S.value ratio <ℚ S.value b.1)
        ⊎ ((S.value ratio ≡ S.value b.1) × IsLesser variables.now i b.0)))) }
{
    match best {
        Some(b) => match b.1.cmp(ratio) {
            Ordering::Less => b,
            Ordering::Equal => if variables[b.0] <= variables[i] {
                b
            } else {
                (i, ratio)
            },
            Ordering::Greater => (i, ratio),
        },
        None => (i, ratio),
    }
}

// The basic variable of least ratio in the column of j, and of these the one of least number, with that ratio.
pub(crate) fn tightest<S: Scalar>(t: &Tableau<S>, j: usize) -> Result<Option<(usize, S)>, Wide>
    requires rows { AreRows S.value S.limit t.now }
    requires column { j < length t.now.nonbasic.items }
    ensures { MatchResult result
        (λ best. CanCompare S.limit (dictionary_of S.value t.now) j
        × FindsFirst (IsFalling (dictionary_of S.value t.now) j)
        (IsTighter (dictionary_of S.value t.now) j) (length (dictionary_of S.value t.now).rows)
        (option_map (λ b. b.0) best))
        (λ _. ¬ CanCompare S.limit (dictionary_of S.value t.now) j) }
{
    let mut best = None;
    for i in 0..t.rows.len() {
        if is_negative(t.entry(i, j)) {
            match ratio(t, i, j) {
                Ok(ratio) => best = Some(tighter(&t.basic, best, i, ratio)),
                Err(wide) => return Err(wide),
            }
        }
    }
    Ok(best)
}
