//! Sums of rows without their zeros, made in one pass over both.

ghost use Rattle.std.specs.Prelude.{◌≡◌, ℕ, List, ◌<◌, ◌∷◌, ◌++◌, [], OnOk, IfOk, IsErrOf};
ghost use Rattle.std.specs.Result.{MatchResult};
ghost use Rattle.rational.specs.Rational.{ℚ};
ghost use Rattle.exact_lin.specs.Reckoning.{Fits};
ghost use Rattle.exact_lin.specs.Forms.{AscendFrom, with_term, is_zero, increased_by, CanAddTerms};
ghost use Rattle.exact_lin.specs.Merges.{CanMerge, KeepsBelow, CanJoin, joined_coefficient, behind, MergesTerm};
ghost use Rattle.lp_sparse.specs.SparseRows.{terms_of};

use crate::products::product_of;
use exact_lin::{FormFault, NoMemory, Scalar, Sign, Wide};
use std::alloc::Global;

// Whether x is 0; and that it keeps to the limit of its width.
pub(crate) fn vanishes<S: Scalar>(x: S) -> bool
    ensures value { result ≡ is_zero (S.value x) }
    ensures fits { Fits S.limit (S.value x) }
{
    match x.sign() {
        Sign::Zero => true,
        Sign::Minus => false,
        Sign::Plus => false,
    }
}

// A row has room for so many terms at least, since pivots fill it.
const LEAST_ROOM: usize = 8;

// An empty row with room for so many terms and the constant.
pub(crate) fn row_with_room<S: Scalar>(
    alloc: Global,
    terms: usize,
) -> Result<Vec<(usize, S)>, NoMemory>
    ensures { IfOk result (λ row. row.items ≡ []) }
{
    let room = if terms < LEAST_ROOM {
        LEAST_ROOM
    } else {
        terms.checked_add(1).unwrap_or(terms)
    };
    Ok(Vec::with_capacity(alloc, room)?)
}

// `Vec::push` with the error of this crate.
pub(crate) fn push<T: Drop>(items: &mut Vec<T>, item: T) -> Result<(), NoMemory>
    ensures { OnOk result (items.new.items ≡ items.old.items ++ item ∷ []) }
{
    items.push(item)?;
    Ok(())
}

// Puts a term at the end, unless its number is 0.
pub(crate) fn push_term<S: Scalar>(
    sum: &mut Vec<(usize, S)>,
    column: usize,
    c: S,
) -> Result<(), NoMemory>
    ensures terms { OnOk result (terms_of S.value sum.new.items
        ≡ terms_of S.value sum.old.items ++ with_term column (S.value c) []) }
    ensures fits { Fits S.limit (S.value c) }
{
    if !vanishes(c) {
        sum.push((column, c))?;
    }
    Ok(())
}

// Puts the terms of columns below this one at the end of the sum, and answers those from there on.
fn keep_below<'a, S: Scalar>(
    sum: &mut Vec<(usize, S)>,
    terms: &'a [(usize, S)],
    column: usize,
) -> Result<&'a [(usize, S)], NoMemory>
    ensures { let shows = terms_of S.value in
        IfOk result (λ rest. KeepsBelow column (shows terms.now)
        (shows sum.old.items) (shows sum.new.items) (shows rest.now)) }
{
    let mut rest = terms;
    while let Some((first, later)) = rest.split_first() {
        if first.0 >= column {
            break;
        }
        push(sum, *first)?;
        rest = later;
    }
    Ok(rest)
}

// What c in the column makes with the first of the terms, if that is the column's, and the terms behind it.
fn join_first<'a, S: Scalar>(
    terms: &'a [(usize, S)],
    column: usize,
    c: S,
) -> Result<(S, &'a [(usize, S)]), Wide>
    ensures { MatchResult result
        (λ joined. CanJoin S.limit column (S.value c) (terms_of S.value terms.now)
        × S.value joined.0 ≡ joined_coefficient column (S.value c) (terms_of S.value terms.now)
        × terms_of S.value joined.1.now ≡ behind column (terms_of S.value terms.now))
        (λ _. ¬ CanJoin S.limit column (S.value c) (terms_of S.value terms.now)) }
{
    match terms.split_first() {
        Some((first, later)) => if first.0 == column {
            match first.1.add(c) {
                Ok(sum) => Ok((sum, later)),
                Err(wide) => Err(wide),
            }
        } else {
            Ok((c, terms))
        },
        None => Ok((c, terms)),
    }
}

// Puts all terms up to the column of the other row's next term at the end of the sum, that one's multiple added, and
// answers what is left of them.
fn merge_term<'a, S: Scalar>(
    sum: &mut Vec<(usize, S)>,
    left: &'a [(usize, S)],
    by: S,
    term: (usize, S),
) -> Result<&'a [(usize, S)], FormFault>
    ensures merges { let shows = terms_of S.value in
        IfOk result (λ later. MergesTerm S.limit (S.value by) (shows left.now)
        (term.0, S.value term.1) (shows sum.old.items) (shows sum.new.items) (shows later.now)) }
    ensures wide { IsErrOf result FormFault.Wide → (us : List (ℕ × ℚ)) →
        ¬ (CanMerge S.limit (S.value by) ((term.0, S.value term.1) ∷ us)
        (terms_of S.value left.now)) }
{
    let product = product_of(by, term.1)?;
    let rest = keep_below(sum, left, term.0)?;
    let (coefficient, later) = join_first(rest, term.0, product)?;
    push_term(sum, term.0, coefficient)?;
    Ok(later)
}

// Puts the terms of one row with a multiple of those of another added at the end of the sum.
pub(crate) fn merge<S: Scalar>(
    sum: &mut Vec<(usize, S)>,
    one: &[(usize, S)],
    by: S,
    other: &[(usize, S)],
) -> Result<(), FormFault>
    requires one { AscendFrom 0 (terms_of S.value one.now) }
    requires other { AscendFrom 0 (terms_of S.value other.now) }
    ensures defined { OnOk result (CanAddTerms S.limit (terms_of S.value one.now) (S.value by)
        (terms_of S.value other.now)) }
    ensures terms { OnOk result (terms_of S.value sum.new.items ≡ terms_of S.value sum.old.items
        ++ increased_by (terms_of S.value one.now) (S.value by) (terms_of S.value other.now)) }
    ensures wide { IsErrOf result FormFault.Wide → ¬ (CanAddTerms S.limit
        (terms_of S.value one.now) (S.value by) (terms_of S.value other.now)) }
{
    let mut left = one;
    let mut right = other;
    while let Some((term, later)) = right.split_first() {
        match merge_term(sum, left, by, *term) {
            Ok(rest) => left = rest,
            Err(fault) => return Err(fault),
        }
        right = later;
    }
    match sum.extend_from_slice(left) {
        Ok(()) => Ok(()),
        Err(_) => Err(FormFault::Memory),
    }
}
