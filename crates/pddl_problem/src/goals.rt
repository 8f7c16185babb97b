//! Goals of a text, and their preferences.

ghost use Rattle.std.specs.Prelude.{◌≡◌, ◌+◌, IfOk};
ghost use Rattle.pddl_terms.specs.Content.{content_at, behind};
ghost use Rattle.pddl_terms.specs.Items.{HasList};
ghost use Rattle.pddl_problem.specs.Goals.{
  is_comparison,
  compares_by,
  denied_soft,
  soft_formula,
  soft_by,
  softs,
  soft_tree,
  preference,
  goal_cond,
  goal_by,
  goals,
  goal_tree,
};

use exact_lin::NoMemory;
use pddl_terms::conditions::{cmp_tree, cond_tree};
use pddl_terms::expressions::side_tree;
use pddl_terms::formulas::fact_tree;
use pddl_terms::items::{Beginning, Item, beginning_at, item_at, next, word_ahead, word_bytes};
use pddl_terms::problem_heads::{GoalHead, SoftHead, goal_head, soft_head};
use pddl_terms::typed::{name_of, variables};
use pddl_terms::{CondHead, CondTree, FactForm, GoalTree, SoftTree, TreeHead};
use sexpr_text::{Forms, Token};
use sqlite_items::{Boxed, Items};
use std::alloc::Global;

/// Whether a comparison, or a negated one, stands at the token.
#[cycle(comparisons)]
fn is_comparison(forms: &Forms, at: usize) -> bool
    ensures { result ≡ is_comparison (content_at forms.now at) }
{
    match beginning_at(forms, at) {
        Beginning::NoList => false,
        Beginning::NoWord(_) => false,
        Beginning::Word(_, word, next) => {
            compares_by(forms, soft_head(word_bytes(forms, word)), next)
        }
    }
}

/// Whether a list that such a word begins is a comparison, or a negated one; what it holds stands at the token.
#[cycle(comparisons)]
fn compares_by(forms: &Forms, head: SoftHead, at: usize) -> bool
    ensures { result ≡ compares_by head (is_comparison (content_at forms.now at)) }
{
    match head {
        SoftHead::Compare(_) => true,
        SoftHead::Formula(TreeHead::Not) => is_comparison(forms, at),
        SoftHead::Formula(_) => false,
    }
}

/// A negated comparison or a negated formula.
fn denied_soft(alloc: Global, forms: &Forms, list: Token, at: usize) -> Result<SoftTree, NoMemory>
    requires { HasList forms.now at list }
    ensures { let x = content_at forms.now (at + 1) in
        IfOk result (λ tree. tree ≡ denied_soft (is_comparison (behind x)) list.at x) }
{
    if is_comparison(forms, next(forms, at + 1)) {
        Ok(SoftTree::Comparison(cmp_tree(alloc, forms, at)?))
    } else {
        Ok(SoftTree::Formula(fact_tree(alloc, forms, at)?))
    }
}

/// What a preference asks, where it stands at a token.
#[cycle(softs)]
fn soft_tree(alloc: Global, forms: &Forms, at: usize) -> Result<SoftTree, NoMemory>
    ensures { IfOk result (λ tree. tree ≡ soft_tree (content_at forms.now at)) }
{
    match item_at(forms, at) {
        Item::End(_) => Ok(SoftTree::Formula(FactForm::Empty(0))),
        Item::Word(_) => Ok(SoftTree::Formula(FactForm::Empty(0))),
        Item::List(list) => {
            let head = soft_head(word_ahead(forms, at + 1));
            soft_by(alloc, forms, head, list, at)
        }
    }
}

/// What a preference asks, where the list stands at the token.
#[cycle(softs)]
fn soft_by(
    alloc: Global,
    forms: &Forms,
    head: SoftHead,
    list: Token,
    at: usize,
) -> Result<SoftTree, NoMemory>
    requires { HasList forms.now at list }
    ensures { let x = content_at forms.now (at + 1) in
        IfOk result (λ tree. tree ≡ soft_by head list.at (softs (behind x)) x) }
{
    match head {
        SoftHead::Compare(_) => Ok(SoftTree::Comparison(cmp_tree(alloc, forms, at)?)),
        SoftHead::Formula(head) => soft_formula(alloc, forms, head, list, at),
    }
}

/// The same, of a list that no mark of a comparison begins.
#[cycle(softs)]
fn soft_formula(
    alloc: Global,
    forms: &Forms,
    head: TreeHead,
    list: Token,
    at: usize,
) -> Result<SoftTree, NoMemory>
    requires { HasList forms.now at list }
    ensures { let x = content_at forms.now (at + 1) in
        IfOk result (λ tree. tree ≡ soft_formula head list.at (softs (behind x)) x) }
{
    let second = next(forms, at + 1);
    match head {
        TreeHead::And => Ok(SoftTree::And(list.at, softs(alloc, forms, second)?)),
        TreeHead::Equal => {
            let left = side_tree(alloc, forms, second)?;
            let right = side_tree(alloc, forms, next(forms, second))?;
            Ok(SoftTree::Equal(list.at, left, right))
        }
        TreeHead::Not => denied_soft(alloc, forms, list, at),
        TreeHead::LeftOut => Ok(SoftTree::Formula(fact_tree(alloc, forms, at)?)),
        TreeHead::Named => Ok(SoftTree::Formula(fact_tree(alloc, forms, at)?)),
        TreeHead::Or => Ok(SoftTree::Formula(fact_tree(alloc, forms, at)?)),
        TreeHead::Imply => Ok(SoftTree::Formula(fact_tree(alloc, forms, at)?)),
        TreeHead::Exists => Ok(SoftTree::Formula(fact_tree(alloc, forms, at)?)),
        TreeHead::Forall => Ok(SoftTree::Formula(fact_tree(alloc, forms, at)?)),
    }
}

/// What preferences ask that stand from a token on.
#[cycle(softs)]
fn softs(alloc: Global, forms: &Forms, from: usize) -> Result<Items<SoftTree>, NoMemory>
    ensures { IfOk result (λ found. found ≡ softs (content_at forms.now from)) }
{
    let mut out = Items::new(alloc);
    let mut at = from;
    loop {
        match item_at(forms, at) {
            Item::End(_) => return Ok(out),
            Item::Word(_) => at += 1,
            Item::List(token) => {
                out.push(soft_tree(alloc, forms, at)?)?;
                at = token.mate as usize + 1;
            }
        }
    }
}

/// A preference that opens at a place, behind whose word a name may stand, and then what it asks.
fn preference(alloc: Global, forms: &Forms, place: u32, at: usize) -> Result<GoalTree, NoMemory>
    ensures { IfOk result (λ tree. tree ≡ preference place (content_at forms.now at)) }
{
    match item_at(forms, at) {
        Item::Word(token) => {
            let name = name_of(alloc, forms, token)?;
            Ok(GoalTree::Preference(place, Some(name), soft_tree(alloc, forms, at + 1)?))
        }
        Item::End(_) => Ok(GoalTree::Preference(
            place,
            None,
            SoftTree::Formula(FactForm::Empty(0)),
        )),
        Item::List(_) => Ok(GoalTree::Preference(place, None, soft_tree(alloc, forms, at)?)),
    }
}

/// The goal that stands at a token.
#[cycle(goals)]
pub(crate) fn goal_tree(alloc: Global, forms: &Forms, at: usize) -> Result<GoalTree, NoMemory>
    ensures { IfOk result (λ tree. tree ≡ goal_tree (content_at forms.now at)) }
{
    match item_at(forms, at) {
        Item::End(_) => Ok(GoalTree::Condition(CondTree::Empty(0))),
        Item::Word(_) => Ok(GoalTree::Condition(CondTree::Empty(0))),
        Item::List(list) => {
            let head = goal_head(word_ahead(forms, at + 1));
            goal_by(alloc, forms, head, list, at)
        }
    }
}

/// The goal of the list that stands at the token.
#[cycle(goals)]
fn goal_by(
    alloc: Global,
    forms: &Forms,
    head: GoalHead,
    list: Token,
    at: usize,
) -> Result<GoalTree, NoMemory>
    requires { HasList forms.now at list }
    ensures { let x = content_at forms.now (at + 1) in
        let body = goal_tree (behind (behind x)) in
        IfOk result (λ tree. tree ≡ goal_by head list.at (goals (behind x)) body x) }
{
    match head {
        GoalHead::Preference => preference(alloc, forms, list.at, next(forms, at + 1)),
        GoalHead::Condition(head) => goal_cond(alloc, forms, head, list, at),
    }
}

/// The same, of a list that a word of a condition begins.
#[cycle(goals)]
fn goal_cond(
    alloc: Global,
    forms: &Forms,
    head: CondHead,
    list: Token,
    at: usize,
) -> Result<GoalTree, NoMemory>
    requires { HasList forms.now at list }
    ensures { let x = content_at forms.now (at + 1) in
        let body = goal_tree (behind (behind x)) in
        IfOk result (λ tree. tree ≡ goal_cond head list.at (goals (behind x)) body x) }
{
    let second = next(forms, at + 1);
    match head {
        CondHead::And => Ok(GoalTree::And(list.at, goals(alloc, forms, second)?)),
        CondHead::Forall => {
            let body = goal_tree(alloc, forms, next(forms, second))?;
            let body = Boxed::new(alloc, body)?;
            Ok(GoalTree::Forall(list.at, variables(alloc, forms, second)?, body))
        }
        CondHead::LeftOut => Ok(GoalTree::Condition(cond_tree(alloc, forms, at)?)),
        CondHead::Not => Ok(GoalTree::Condition(cond_tree(alloc, forms, at)?)),
        CondHead::Equal => Ok(GoalTree::Condition(cond_tree(alloc, forms, at)?)),
        CondHead::Compare(_) => Ok(GoalTree::Condition(cond_tree(alloc, forms, at)?)),
        CondHead::Named => Ok(GoalTree::Condition(cond_tree(alloc, forms, at)?)),
    }
}

/// The goals that stand from a token on.
#[cycle(goals)]
fn goals(alloc: Global, forms: &Forms, from: usize) -> Result<Items<GoalTree>, NoMemory>
    ensures { IfOk result (λ found. found ≡ goals (content_at forms.now from)) }
{
    let mut out = Items::new(alloc);
    let mut at = from;
    loop {
        match item_at(forms, at) {
            Item::End(_) => return Ok(out),
            Item::Word(_) => at += 1,
            Item::List(token) => {
                out.push(goal_tree(alloc, forms, at)?)?;
                at = token.mate as usize + 1;
            }
        }
    }
}
