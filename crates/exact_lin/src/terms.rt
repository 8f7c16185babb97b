//! Terms of linear forms: ids with their coefficients, in the order of the ids.

ghost use Rattle.std.specs.Prelude.{◌≡◌, ℕ, ◌+◌, ◌<◌, ◌≤◌, List, [], ◌∷◌, ◌++◌, length, map, take, drop, OnOk, IfOk, OnErr, IsErrOf, MatchOption};
ghost use Rattle.rational.specs.Rational.{ℚ, ◌+ℚ◌};
ghost use Rattle.exact_lin.specs.Reckoning.{CanAdd, Fits, Reckons};
ghost use Rattle.std.specs.Result.{MatchResult};
ghost use Rattle.exact_lin.specs.Merges.{CanMerge, KeepsBelow, CanJoin, joined_coefficient, behind, MergesTerm};
ghost use Rattle.exact_lin.specs.Forms.{Terms, shown, AscendFrom, Covers, terms_at, values_of, coefficient, with_term, increased, increased_by, place_in, IsGap, IsTerm, CanAddTerms, CanSumTerms};

use crate::arithmetic::{add_product, is_zero};
use crate::faults::{FormFault, NoMemory};
use crate::ids::Id;
use crate::scalars::{Scalar, Wide};
use std::alloc::Global;
use std::cmp::Ordering;

// A number and the values of the terms at a point, summed one after the other.
pub fn sum_terms<V: Id, S: Scalar>(start: S, terms: &[(V, S)], point: &[S]) -> Result<S, Wide>
    requires { Covers (length point.now) (shown V.number_of S.value terms.now) }
    ensures { Reckons S.value result (CanSumTerms S.limit (S.value start) (shown V.number_of S.value terms.now) (values_of (map S.value point.now))) (S.value start +ℚ terms_at (shown V.number_of S.value terms.now) (values_of (map S.value point.now))) }
{
    let mut sum = start;
    let mut left = terms;
    while let Some((term, later)) = left.split_first() {
        match add_product(sum, term.1, point[term.0.number() as usize]) {
            Ok(next) => sum = next,
            Err(wide) => return Err(wide),
        }
        left = later;
    }
    Ok(sum)
}

// Puts a term at the end, unless its coefficient is 0.
fn push_term<V: Id, S: Scalar>(terms: &mut Vec<(V, S)>, id: V, c: S) -> Result<(), NoMemory>
    ensures { OnOk result (shown V.number_of S.value terms.new.items ≡ shown V.number_of S.value terms.old.items ++ with_term (V.number_of id) (S.value c) []) }
{
    if !is_zero(c) {
        terms.push((id, c))?;
    }
    Ok(())
}

// Puts the terms of ids below this number at the end of the sum, and answers those from there on.
fn keep_below<'a, V: Id, S: Scalar>(
    sum: &mut Vec<(V, S)>,
    terms: &'a [(V, S)],
    number: u32,
) -> Result<&'a [(V, S)], NoMemory>
    ensures { let shows = shown V.number_of S.value in
        IfOk result (λ rest. KeepsBelow number (shows terms.now)
        (shows sum.old.items) (shows sum.new.items) (shows rest.now)) }
{
    let mut rest = terms;
    while let Some((first, later)) = rest.split_first() {
        if first.0.number() >= number {
            break;
        }
        push(sum, *first)?;
        rest = later;
    }
    Ok(rest)
}

// The coefficient that c at the id v makes with the first of the terms, if that has the id, and the terms behind it.
fn join_first<'a, V: Id, S: Scalar>(
    terms: &'a [(V, S)],
    v: V,
    c: S,
) -> Result<(S, &'a [(V, S)]), Wide>
    ensures { MatchResult result
        (λ joined. CanJoin S.limit (V.number_of v) (S.value c) (shown V.number_of S.value terms.now)
        × S.value joined.0 ≡ joined_coefficient (V.number_of v) (S.value c) (shown V.number_of S.value terms.now)
        × shown V.number_of S.value joined.1.now ≡ behind (V.number_of v) (shown V.number_of S.value terms.now))
        (λ _. ¬ CanJoin S.limit (V.number_of v) (S.value c) (shown V.number_of S.value terms.now)) }
{
    match terms.split_first() {
        Some((first, later)) => if first.0.number() == v.number() {
            match first.1.add(c) {
                Ok(sum) => Ok((sum, later)),
                Err(wide) => Err(wide),
            }
        } else {
            Ok((c, terms))
        },
        None => Ok((c, terms)),
    }
}

// Puts all terms up to the id of the other form's next term at the end of the sum, that one's multiple added, and
// answers what is left of them.
fn merge_term<'a, V: Id, S: Scalar>(
    sum: &mut Vec<(V, S)>,
    left: &'a [(V, S)],
    by: S,
    term: (V, S),
) -> Result<&'a [(V, S)], FormFault>
    ensures merges { let shows = shown V.number_of S.value in
        IfOk result (λ later. MergesTerm S.limit (S.value by) (shows left.now)
        (V.number_of term.0, S.value term.1) (shows sum.old.items) (shows sum.new.items) (shows later.now)) }
    ensures wide { IsErrOf result FormFault.Wide → (us : Terms) →
        ¬ (CanMerge S.limit (S.value by) ((V.number_of term.0, S.value term.1) ∷ us)
        (shown V.number_of S.value left.now)) }
{
    let product = by.mul(term.1)?;
    let rest = keep_below(sum, left, term.0.number())?;
    let (coefficient, later) = join_first(rest, term.0, product)?;
    push_term(sum, term.0, coefficient)?;
    Ok(later)
}

// The terms of one form with a multiple of those of another added, both in the order of their ids.
pub fn merge<V: Id, S: Scalar>(
    alloc: Global,
    one: &[(V, S)],
    by: S,
    other: &[(V, S)],
) -> Result<Vec<(V, S)>, FormFault>
    requires one { AscendFrom 0 (shown V.number_of S.value one.now) }
    requires other { AscendFrom 0 (shown V.number_of S.value other.now) }
    ensures defined { OnOk result (CanAddTerms S.limit (shown V.number_of S.value one.now) (S.value by) (shown V.number_of S.value other.now)) }
    ensures terms { IfOk result (λ terms. shown V.number_of S.value terms.items ≡ increased_by (shown V.number_of S.value one.now) (S.value by) (shown V.number_of S.value other.now)) }
    ensures wide { IsErrOf result FormFault.Wide → ¬ (CanAddTerms S.limit (shown V.number_of S.value one.now) (S.value by) (shown V.number_of S.value other.now)) }
{
    let mut sum = with_room(alloc, one.len().saturating_add(other.len()))?;
    let mut left = one;
    let mut right = other;
    while let Some((term, later)) = right.split_first() {
        match merge_term(&mut sum, left, by, *term) {
            Ok(rest) => left = rest,
            Err(fault) => return Err(fault),
        }
        right = later;
    }
    match sum.extend_from_slice(left) {
        Ok(()) => Ok(sum),
        Err(_) => Err(FormFault::Memory),
    }
}

// An empty list with room for so many terms.
fn with_room<V: Id, S: Scalar>(alloc: Global, count: usize) -> Result<Vec<(V, S)>, NoMemory>
    ensures { IfOk result (λ list. list.items ≡ []) }
{
    let list = Vec::with_capacity(alloc, count)?;
    Ok(list)
}

// How many terms, from the first on, have ids below this number, by halves.
fn place_of<V: Id, S: Scalar>(terms: &[(V, S)], number: u32) -> usize
    requires { AscendFrom 0 (shown V.number_of S.value terms.now) }
    ensures { result ≡ place_in (shown V.number_of S.value terms.now) number }
{
    // Terms mostly come in the order of their ids.
    if let Some((last, _)) = terms.split_last() {
        if last.0.number() < number {
            return terms.len();
        }
    }
    let mut low = 0;
    let mut high = terms.len();
    while low < high {
        let middle = low + (high - low) / 2;
        if terms[middle].0.number() < number {
            low = middle + 1;
        } else {
            high = middle;
        }
    }
    low
}

/// The coefficient of an id, 0 where it has no term.
pub fn coefficient_of<V: Id, S: Scalar>(terms: &[(V, S)], v: V) -> S
    requires { AscendFrom 0 (shown V.number_of S.value terms.now) }
    ensures { S.value result ≡ coefficient (shown V.number_of S.value terms.now) (V.number_of v) }
{
    match coefficient_at(terms, v, place_of(terms, v.number())) {
        Some(found) => found,
        None => S::of_int(0),
    }
}

// Adds to the term of an id, or makes or removes it.
pub fn add_to_terms<V: Id, S: Scalar>(terms: &mut Vec<(V, S)>, v: V, c: S) -> Result<(), FormFault>
    requires { AscendFrom 0 (shown V.number_of S.value terms.old.items) }
    ensures defined { OnOk result (CanAdd S.limit (coefficient (shown V.number_of S.value terms.old.items) (V.number_of v)) (S.value c)) }
    ensures terms { OnOk result (shown V.number_of S.value terms.new.items ≡ increased (shown V.number_of S.value terms.old.items) (V.number_of v) (S.value c)) }
    ensures wide { IsErrOf result FormFault.Wide → ¬ (CanAdd S.limit (coefficient (shown V.number_of S.value terms.old.items) (V.number_of v)) (S.value c)) }
    ensures err { OnErr result (terms.new.items ≡ terms.old.items) }
{
    let place = place_of(terms.as_slice(), v.number());
    match coefficient_at(terms.as_slice(), v, place) {
        Some(old) => {
            let sum = old.add(c)?;
            set_term(terms, place, v, sum);
            Ok(())
        }
        None => insert_term(terms, place, v, c),
    }
}

// The coefficient of an id, if it has a term at its place.
fn coefficient_at<V: Id, S: Scalar>(terms: &[(V, S)], v: V, place: usize) -> Option<S>
    requires terms { AscendFrom 0 (shown V.number_of S.value terms.now) }
    requires place { place ≡ place_in (shown V.number_of S.value terms.now) (V.number_of v) }
    ensures { MatchOption result (IsGap (shown V.number_of S.value terms.now) (V.number_of v) place) (λ old. IsTerm (shown V.number_of S.value terms.now) (V.number_of v) place (S.value old)) }
{
    if place >= terms.len() {
        return None;
    }
    let term = terms[place];
    if term.0.number() == v.number() {
        Some(term.1)
    } else {
        None
    }
}

// Gives the term at a place a new coefficient, or removes it where that is 0.
fn set_term<V: Id, S: Scalar>(terms: &mut Vec<(V, S)>, place: usize, v: V, c: S)
    requires { place < length terms.old.items }
    ensures { shown V.number_of S.value terms.new.items ≡ take place (shown V.number_of S.value terms.old.items) ++ with_term (V.number_of v) (S.value c) (drop (place + 1) (shown V.number_of S.value terms.old.items)) }
{
    if is_zero(c) {
        terms.remove(place);
    } else {
        terms[place] = (v, c);
    }
}

// Puts a term at a place, unless its coefficient is 0.
fn insert_term<V: Id, S: Scalar>(
    terms: &mut Vec<(V, S)>,
    place: usize,
    v: V,
    c: S,
) -> Result<(), FormFault>
    requires { place ≤ length terms.old.items }
    ensures terms { OnOk result (shown V.number_of S.value terms.new.items ≡ take place (shown V.number_of S.value terms.old.items) ++ with_term (V.number_of v) (S.value c) (drop place (shown V.number_of S.value terms.old.items))) }
    ensures fits { Fits S.limit (S.value c) }
    ensures memory { OnErr result (IsErrOf result FormFault.Memory) }
    ensures err { OnErr result (terms.new.items ≡ terms.old.items) }
{
    if is_zero(c) {
        return Ok(());
    }
    match terms.insert(place, (v, c)) {
        Ok(()) => Ok(()),
        Err(_) => Err(FormFault::Memory),
    }
}

// `Vec::push` with the error of this crate.
fn push<T: Copy + Drop>(items: &mut Vec<T>, item: T) -> Result<(), NoMemory>
    ensures { OnOk result (items.new.items ≡ items.old.items ++ item ∷ []) }
{
    items.push(item)?;
    Ok(())
}
