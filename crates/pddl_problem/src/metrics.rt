//! Metrics of a text.

ghost use Rattle.std.specs.Prelude.{◌≡◌, IfOk};
ghost use lib.Chars.{codes};
ghost use Rattle.pddl_terms.specs.Content.{lexeme, content_at, behind};
ghost use Rattle.pddl_terms.specs.Items.{IsWord};
ghost use Rattle.pddl_terms.specs.Expressions.{expr_by, minus};
ghost use Rattle.pddl_terms.specs.Sections.{section};
ghost use Rattle.pddl_problem.specs.Metrics.{
  measure_word,
  measure_by,
  measures,
  measure_tree,
  aim_of,
  metric_tree,
  metric_of,
};

use exact_lin::NoMemory;
use pddl_terms::expressions::expr_word;
use pddl_terms::items::{Item, item_at, next, word_ahead, word_bytes};
use pddl_terms::problem_heads::{MeasureHead, measure_head};
use pddl_terms::sections::{name_at, section};
use pddl_terms::typed::atom_of;
use pddl_terms::words::same_word;
use pddl_terms::{Aim, ExprHead, ExprTree, Metric};
use sexpr_text::{Forms, Token};
use sqlite_items::{Boxed, Items};
use std::alloc::Global;

fn measure_word(alloc: Global, forms: &Forms, word: Token) -> Result<ExprTree, NoMemory>
    requires { IsWord forms.now.text word }
    ensures { IfOk result (λ tree. tree ≡ measure_word (lexeme forms.now.text word)) }
{
    if same_word(word_bytes(forms, word), b"total-time") {
        Ok(ExprTree::TotalTime(word.at))
    } else {
        expr_word(alloc, forms, word)
    }
}

/// The expression that stands at a token.
#[cycle(measures)]
fn measure_tree(alloc: Global, forms: &Forms, at: usize) -> Result<ExprTree, NoMemory>
    ensures { IfOk result (λ tree. tree ≡ measure_tree (content_at forms.now at)) }
{
    match item_at(forms, at) {
        Item::End(_) => Ok(ExprTree::LeftOut(0)),
        Item::Word(token) => measure_word(alloc, forms, token),
        Item::List(list) => {
            let first = at + 1;
            match item_at(forms, first) {
                Item::End(_) => Ok(ExprTree::LeftOut(list.at)),
                Item::List(_) => Ok(ExprTree::LeftOut(list.at)),
                Item::Word(token) => {
                    let head = measure_head(word_bytes(forms, token));
                    measure_by(alloc, forms, head, list.at, token, first + 1)
                }
            }
        }
    }
}

/// The expression that opens at a place with a word, behind which its parts stand from a token on.
#[cycle(measures)]
fn measure_by(
    alloc: Global,
    forms: &Forms,
    head: MeasureHead,
    place: u32,
    word: Token,
    from: usize,
) -> Result<ExprTree, NoMemory>
    requires { IsWord forms.now.text word }
    ensures { let w = lexeme forms.now.text word in
        let x = content_at forms.now from in
        let second = measure_tree (behind x) in
        let is = measure_by head place w (measures x) (measure_tree x) second x in
        IfOk result (λ tree. tree ≡ is) }
{
    match head {
        MeasureHead::TotalTime => Ok(ExprTree::TotalTime(place)),
        MeasureHead::Violated => Ok(ExprTree::Violated(place, name_at(alloc, forms, from)?)),
        MeasureHead::TimeCost => Ok(ExprTree::TimeCost(place, name_at(alloc, forms, from)?)),
        MeasureHead::Expression(head) => expression_by(alloc, forms, head, place, word, from),
    }
}

/// The same, of what a word begins in any expression.
#[cycle(measures)]
fn expression_by(
    alloc: Global,
    forms: &Forms,
    head: ExprHead,
    place: u32,
    word: Token,
    from: usize,
) -> Result<ExprTree, NoMemory>
    requires { IsWord forms.now.text word }
    ensures { let w = lexeme forms.now.text word in
        let x = content_at forms.now from in
        let second = measure_tree (behind x) in
        let is = expr_by head place w (measures x) (measure_tree x) second x in
        IfOk result (λ tree. tree ≡ is) }
{
    match head {
        ExprHead::LeftOut => Ok(ExprTree::LeftOut(place)),
        ExprHead::Sum => Ok(ExprTree::Sum(place, measures(alloc, forms, from)?)),
        ExprHead::Product => Ok(ExprTree::Product(place, measures(alloc, forms, from)?)),
        ExprHead::Minus => minus(alloc, forms, place, from),
        ExprHead::Quotient => {
            let (left, right) = both(alloc, forms, from)?;
            Ok(ExprTree::Quotient(place, left, right))
        }
        ExprHead::Named => Ok(ExprTree::Fluent(atom_of(alloc, forms, place, word, from)?)),
    }
}

/// The expression that stands at a token, and the one behind it.
#[cycle(measures)]
fn both(
    alloc: Global,
    forms: &Forms,
    at: usize,
) -> Result<(Boxed<ExprTree>, Boxed<ExprTree>), NoMemory>
    ensures left { IfOk result (λ pair. pair.0 ≡ measure_tree (content_at forms.now at)) }
    ensures right { IfOk result (λ pair. pair.1 ≡ measure_tree (behind (content_at forms.now at))) }
{
    let left = measure_tree(alloc, forms, at)?;
    let left = Boxed::new(alloc, left)?;
    let right = measure_tree(alloc, forms, next(forms, at))?;
    let right = Boxed::new(alloc, right)?;
    Ok((left, right))
}

/// A minus before one expression, or between two.
#[cycle(measures)]
fn minus(alloc: Global, forms: &Forms, place: u32, at: usize) -> Result<ExprTree, NoMemory>
    ensures { let x = content_at forms.now at in
        let second = measure_tree (behind x) in
        IfOk result (λ tree. tree ≡ minus place (measure_tree x) second (behind x)) }
{
    match item_at(forms, next(forms, at)) {
        Item::End(_) => {
            let part = measure_tree(alloc, forms, at)?;
            Ok(ExprTree::Negative(place, Boxed::new(alloc, part)?))
        }
        _ => {
            let (left, right) = both(alloc, forms, at)?;
            Ok(ExprTree::Difference(place, left, right))
        }
    }
}

/// The expressions that stand from a token on.
#[cycle(measures)]
fn measures(alloc: Global, forms: &Forms, from: usize) -> Result<Items<ExprTree>, NoMemory>
    ensures { IfOk result (λ found. found ≡ measures (content_at forms.now from)) }
{
    let mut out = Items::new(alloc);
    let mut at = from;
    loop {
        match item_at(forms, at) {
            Item::End(_) => return Ok(out),
            Item::Word(token) => {
                out.push(measure_word(alloc, forms, token)?)?;
                at += 1;
            }
            Item::List(token) => {
                out.push(measure_tree(alloc, forms, at)?)?;
                at = token.mate as usize + 1;
            }
        }
    }
}

fn aim_of(word: &[u8]) -> Aim
    ensures { result ≡ aim_of word.now }
{
    if same_word(word, b"minimize") {
        Aim::Minimize
    } else {
        Aim::Maximize
    }
}

/// The metric whose direction stands at a token.
fn metric_tree(alloc: Global, forms: &Forms, from: usize) -> Result<Metric, NoMemory>
    ensures { IfOk result (λ metric. metric ≡ metric_tree (content_at forms.now from)) }
{
    let aim = aim_of(word_ahead(forms, from));
    let expression = measure_tree(alloc, forms, next(forms, from))?;
    Ok(Metric { aim, expression })
}

/// The metric of a problem, where it has one.
pub(crate) fn metric(alloc: Global, forms: &Forms, from: usize) -> Result<Option<Metric>, NoMemory>
    ensures { let x = content_at forms.now from in
        IfOk result (λ metric. metric ≡ metric_of (section (codes ":metric") x)) }
{
    match section(forms, from, b":metric") {
        None => Ok(None),
        Some(at) => Ok(Some(metric_tree(alloc, forms, at)?)),
    }
}
