//! Conditions of a text.

ghost use Rattle.std.specs.Prelude.{◌≡◌, IfOk};
ghost use Rattle.pddl_terms.specs.Content.{lexeme, content_at, behind};
ghost use Rattle.pddl_terms.specs.Items.{IsWord};
ghost use Rattle.pddl_terms.specs.Conditions.{
  equal,
  compare,
  cmp_by,
  cmp_tree,
  denied_by,
  denied_tree,
  cond_by,
  conds,
  cond_tree,
};

use crate::expressions::{expr_tree, side_tree};
use crate::heads::{CondHead, cond_head};
use crate::items::{Beginning, Item, beginning_at, item_at, next, word_bytes};
use crate::trees::{Comparison, CondTree};
use crate::typed::{atom_of, variables};
use exact_lin::NoMemory;
use sexpr_text::{Forms, Token};
use sqlite_items::{Boxed, Items};
use std::alloc::Global;

/// An `=` with its two sides, which stand from a token on.
fn equal(alloc: Global, forms: &Forms, place: u32, from: usize) -> Result<CondTree, NoMemory>
    ensures { IfOk result (λ tree. tree ≡ equal place (content_at forms.now from)) }
{
    let left = side_tree(alloc, forms, from)?;
    let right = side_tree(alloc, forms, next(forms, from))?;
    Ok(CondTree::Equal(place, left, right))
}

/// A comparison of two expressions, which stand from a token on.
fn compare(
    alloc: Global,
    forms: &Forms,
    place: u32,
    comparison: Comparison,
    from: usize,
) -> Result<CondTree, NoMemory>
    ensures { IfOk result (λ tree. tree ≡ compare place comparison (content_at forms.now from)) }
{
    let left = expr_tree(alloc, forms, from)?;
    let right = expr_tree(alloc, forms, next(forms, from))?;
    Ok(CondTree::Compare(place, comparison, left, right))
}

/// The comparison, or the negated one, that stands at a token.
#[cycle(comparisons)]
pub fn cmp_tree(alloc: Global, forms: &Forms, at: usize) -> Result<CondTree, NoMemory>
    ensures { IfOk result (λ tree. tree ≡ cmp_tree (content_at forms.now at)) }
{
    match beginning_at(forms, at) {
        Beginning::NoList => Ok(CondTree::Empty(0)),
        Beginning::NoWord(place) => Ok(CondTree::Empty(place)),
        Beginning::Word(place, word, from) => {
            let head = cond_head(word_bytes(forms, word));
            cmp_by(alloc, forms, head, place, from)
        }
    }
}

/// The comparison, or the negated one, that opens at a place, behind whose word its parts stand from a token on.
#[cycle(comparisons)]
fn cmp_by(
    alloc: Global,
    forms: &Forms,
    head: CondHead,
    place: u32,
    from: usize,
) -> Result<CondTree, NoMemory>
    ensures { IfOk result (λ tree. tree ≡ cmp_by head place (cmp_tree (content_at forms.now from)) (content_at forms.now from)) }
{
    match head {
        CondHead::Not => {
            let inner = cmp_tree(alloc, forms, from)?;
            Ok(CondTree::Not(place, Boxed::new(alloc, inner)?))
        }
        CondHead::Equal => compare(alloc, forms, place, Comparison::Equal, from),
        CondHead::Compare(comparison) => compare(alloc, forms, place, comparison, from),
        CondHead::LeftOut | CondHead::And | CondHead::Forall | CondHead::Named => {
            Ok(CondTree::LeftOut(place))
        }
    }
}

/// What the `not` of a condition holds, where it opens at a place with a word, behind which its parts stand.
fn denied_by(
    alloc: Global,
    forms: &Forms,
    head: CondHead,
    place: u32,
    word: Token,
    from: usize,
) -> Result<CondTree, NoMemory>
    requires { IsWord forms.now.text word }
    ensures { IfOk result (λ tree. tree ≡ denied_by head place (lexeme forms.now.text word) (content_at forms.now from)) }
{
    match head {
        CondHead::LeftOut => Ok(CondTree::LeftOut(place)),
        CondHead::Not => {
            let inner = cmp_tree(alloc, forms, from)?;
            Ok(CondTree::Not(place, Boxed::new(alloc, inner)?))
        }
        CondHead::Equal => equal(alloc, forms, place, from),
        CondHead::Compare(comparison) => compare(alloc, forms, place, comparison, from),
        CondHead::And | CondHead::Forall | CondHead::Named => {
            Ok(CondTree::Atom(atom_of(alloc, forms, place, word, from)?))
        }
    }
}

/// What the `not` of a condition holds, where it stands at a token.
pub fn denied_tree(alloc: Global, forms: &Forms, at: usize) -> Result<CondTree, NoMemory>
    ensures { IfOk result (λ tree. tree ≡ denied_tree (content_at forms.now at)) }
{
    match beginning_at(forms, at) {
        Beginning::NoList => Ok(CondTree::Empty(0)),
        Beginning::NoWord(place) => Ok(CondTree::Empty(place)),
        Beginning::Word(place, word, from) => {
            let head = cond_head(word_bytes(forms, word));
            denied_by(alloc, forms, head, place, word, from)
        }
    }
}

/// The condition that stands at a token.
#[cycle(conditions)]
pub fn cond_tree(alloc: Global, forms: &Forms, at: usize) -> Result<CondTree, NoMemory>
    ensures { IfOk result (λ tree. tree ≡ cond_tree (content_at forms.now at)) }
{
    match beginning_at(forms, at) {
        Beginning::NoList => Ok(CondTree::Empty(0)),
        Beginning::NoWord(place) => Ok(CondTree::Empty(place)),
        Beginning::Word(place, word, from) => {
            let head = cond_head(word_bytes(forms, word));
            cond_by(alloc, forms, head, place, word, from)
        }
    }
}

/// The condition that opens at a place with a word, behind which its parts stand from a token on.
#[cycle(conditions)]
fn cond_by(
    alloc: Global,
    forms: &Forms,
    head: CondHead,
    place: u32,
    word: Token,
    from: usize,
) -> Result<CondTree, NoMemory>
    requires { IsWord forms.now.text word }
    ensures { IfOk result (λ tree. tree ≡ cond_by head place (lexeme forms.now.text word) (conds (content_at forms.now from)) (cond_tree (behind (content_at forms.now from))) (content_at forms.now from)) }
{
    match head {
        CondHead::LeftOut => Ok(CondTree::LeftOut(place)),
        CondHead::And => Ok(CondTree::And(place, conds(alloc, forms, from)?)),
        CondHead::Forall => {
            let body = cond_tree(alloc, forms, next(forms, from))?;
            let body = Boxed::new(alloc, body)?;
            Ok(CondTree::Forall(place, variables(alloc, forms, from)?, body))
        }
        CondHead::Not => {
            let inner = denied_tree(alloc, forms, from)?;
            Ok(CondTree::Not(place, Boxed::new(alloc, inner)?))
        }
        CondHead::Equal => equal(alloc, forms, place, from),
        CondHead::Compare(comparison) => compare(alloc, forms, place, comparison, from),
        CondHead::Named => Ok(CondTree::Atom(atom_of(alloc, forms, place, word, from)?)),
    }
}

/// The conditions that stand from a token on.
#[cycle(conditions)]
fn conds(alloc: Global, forms: &Forms, from: usize) -> Result<Items<CondTree>, NoMemory>
    ensures { IfOk result (λ found. found ≡ conds (content_at forms.now from)) }
{
    let mut out = Items::new(alloc);
    let mut at = from;
    loop {
        match item_at(forms, at) {
            Item::End(_) => return Ok(out),
            Item::Word(_) => at += 1,
            Item::List(token) => {
                out.push(cond_tree(alloc, forms, at)?)?;
                at = token.mate as usize + 1;
            }
        }
    }
}
