//! Expressions of a text, and the sides of an `=`.

ghost use Rattle.std.specs.Prelude.{◌≡◌, IfOk};
ghost use Rattle.pddl_terms.specs.Content.{lexeme, content_at, behind};
ghost use Rattle.pddl_terms.specs.Items.{IsWord};
ghost use Rattle.pddl_terms.specs.Expressions.{
  expr_word,
  minus,
  expr_by,
  exprs,
  expr_tree,
  side_word,
  side_tree,
};

use crate::heads::{ExprHead, expr_head};
use crate::items::{Item, item_at, next, word_bytes};
use crate::numbers::number_value;
use crate::trees::{ExprTree, Side};
use crate::typed::{atom_of, bare_atom, name_of};
use crate::words::{is_number, is_variable};
use exact_lin::NoMemory;
use sexpr_text::{Forms, Token};
use sqlite_items::{Boxed, Items};
use std::alloc::Global;

/// A word as an expression.
pub fn expr_word(alloc: Global, forms: &Forms, word: Token) -> Result<ExprTree, NoMemory>
    requires { IsWord forms.now.text word }
    ensures { IfOk result (λ tree. tree ≡ expr_word (lexeme forms.now.text word)) }
{
    if is_number(word.kind) {
        Ok(ExprTree::Number(word.at, number_value(word_bytes(forms, word))))
    } else if is_variable(word.kind) {
        Ok(ExprTree::Duration(word.at))
    } else {
        Ok(ExprTree::Fluent(bare_atom(alloc, forms, word)?))
    }
}

/// The expression that stands at a token.
#[cycle(expressions)]
pub fn expr_tree(alloc: Global, forms: &Forms, at: usize) -> Result<ExprTree, NoMemory>
    ensures { IfOk result (λ tree. tree ≡ expr_tree (content_at forms.now at)) }
{
    match item_at(forms, at) {
        Item::End(_) => Ok(ExprTree::LeftOut(0)),
        Item::Word(token) => expr_word(alloc, forms, token),
        Item::List(list) => {
            let first = at + 1;
            match item_at(forms, first) {
                Item::End(_) => Ok(ExprTree::LeftOut(list.at)),
                Item::List(_) => Ok(ExprTree::LeftOut(list.at)),
                Item::Word(token) => {
                    let head = expr_head(word_bytes(forms, token));
                    expr_by(alloc, forms, head, list.at, token, first + 1)
                }
            }
        }
    }
}

/// The expression that opens at a place with a word, behind which its parts stand from a token on.
#[cycle(expressions)]
fn expr_by(
    alloc: Global,
    forms: &Forms,
    head: ExprHead,
    place: u32,
    word: Token,
    from: usize,
) -> Result<ExprTree, NoMemory>
    requires { IsWord forms.now.text word }
    ensures { IfOk result (λ tree. tree ≡ expr_by head place (lexeme forms.now.text word) (exprs (content_at forms.now from)) (expr_tree (content_at forms.now from)) (expr_tree (behind (content_at forms.now from))) (content_at forms.now from)) }
{
    match head {
        ExprHead::LeftOut => Ok(ExprTree::LeftOut(place)),
        ExprHead::Sum => Ok(ExprTree::Sum(place, exprs(alloc, forms, from)?)),
        ExprHead::Product => Ok(ExprTree::Product(place, exprs(alloc, forms, from)?)),
        ExprHead::Minus => minus(alloc, forms, place, from),
        ExprHead::Quotient => {
            let (left, right) = both(alloc, forms, from)?;
            Ok(ExprTree::Quotient(place, left, right))
        }
        ExprHead::Named => Ok(ExprTree::Fluent(atom_of(alloc, forms, place, word, from)?)),
    }
}

/// The expression that stands at a token, and the one behind it.
#[cycle(expressions)]
fn both(
    alloc: Global,
    forms: &Forms,
    at: usize,
) -> Result<(Boxed<ExprTree>, Boxed<ExprTree>), NoMemory>
    ensures left { IfOk result (λ pair. pair.0 ≡ expr_tree (content_at forms.now at)) }
    ensures right { IfOk result (λ pair. pair.1 ≡ expr_tree (behind (content_at forms.now at))) }
{
    let left = expr_tree(alloc, forms, at)?;
    let left = Boxed::new(alloc, left)?;
    let right = expr_tree(alloc, forms, next(forms, at))?;
    let right = Boxed::new(alloc, right)?;
    Ok((left, right))
}

/// A minus before one expression, or between two.
#[cycle(expressions)]
fn minus(alloc: Global, forms: &Forms, place: u32, at: usize) -> Result<ExprTree, NoMemory>
    ensures { IfOk result (λ tree. tree ≡ minus place (expr_tree (content_at forms.now at)) (expr_tree (behind (content_at forms.now at))) (behind (content_at forms.now at))) }
{
    match item_at(forms, next(forms, at)) {
        Item::End(_) => {
            let part = expr_tree(alloc, forms, at)?;
            Ok(ExprTree::Negative(place, Boxed::new(alloc, part)?))
        }
        _ => {
            let (left, right) = both(alloc, forms, at)?;
            Ok(ExprTree::Difference(place, left, right))
        }
    }
}

/// The expressions that stand from a token on.
#[cycle(expressions)]
fn exprs(alloc: Global, forms: &Forms, from: usize) -> Result<Items<ExprTree>, NoMemory>
    ensures { IfOk result (λ found. found ≡ exprs (content_at forms.now from)) }
{
    let mut out = Items::new(alloc);
    let mut at = from;
    loop {
        match item_at(forms, at) {
            Item::End(_) => return Ok(out),
            Item::Word(token) => {
                out.push(expr_word(alloc, forms, token)?)?;
                at += 1;
            }
            Item::List(token) => {
                out.push(expr_tree(alloc, forms, at)?)?;
                at = token.mate as usize + 1;
            }
        }
    }
}

fn side_word(alloc: Global, forms: &Forms, word: Token) -> Result<Side, NoMemory>
    requires { IsWord forms.now.text word }
    ensures { IfOk result (λ side. side ≡ side_word (lexeme forms.now.text word)) }
{
    if is_number(word.kind) {
        Ok(Side::Expression(expr_word(alloc, forms, word)?))
    } else if is_variable(word.kind) {
        Ok(Side::Variable(name_of(alloc, forms, word)?))
    } else {
        Ok(Side::Bare(name_of(alloc, forms, word)?))
    }
}

/// The side of an `=` that stands at a token.
pub fn side_tree(alloc: Global, forms: &Forms, at: usize) -> Result<Side, NoMemory>
    ensures { IfOk result (λ side. side ≡ side_tree (content_at forms.now at)) }
{
    match item_at(forms, at) {
        Item::Word(token) => side_word(alloc, forms, token),
        Item::End(_) => Ok(Side::Expression(expr_tree(alloc, forms, at)?)),
        Item::List(_) => Ok(Side::Expression(expr_tree(alloc, forms, at)?)),
    }
}
