//! Conditions and effects of durative actions of a text.

ghost use Rattle.std.specs.Prelude.{◌≡◌, IfOk};
ghost use Rattle.pddl_terms.specs.Content.{content_at, behind};
ghost use Rattle.pddl_domain.specs.Timed.{
  timed_cond_at,
  timed_cond_by,
  timed_conds,
  timed_cond_tree,
  factor,
  rate_by,
  rate_list,
  rate_tree,
  timed_eff_at,
  change_rate,
  timed_eff_by,
  timed_effs,
  timed_eff_tree,
};

use crate::effects::eff_tree;
use exact_lin::NoMemory;
use pddl_terms::calls::call_tree;
use pddl_terms::conditions::cond_tree;
use pddl_terms::domain_heads::{TimedCondHead, TimedEffHead, timed_cond_head, timed_eff_head};
use pddl_terms::durations::is_start;
use pddl_terms::expressions::expr_tree;
use pddl_terms::items::{Beginning, Item, beginning_at, item_at, kind_ahead, next, word_bytes};
use pddl_terms::words::{is_left_out, is_time};
use pddl_terms::{CondTree, EffTree, ExprTree, RateTree, TimedCond, TimedEff, Trend};
use sexpr_text::Forms;
use sqlite_items::Items;
use std::alloc::Global;

fn timed_cond_at(start: bool, place: u32, body: CondTree) -> TimedCond
    ensures { result ≡ timed_cond_at start place body }
{
    if start {
        TimedCond::AtStart(place, body)
    } else {
        TimedCond::AtEnd(place, body)
    }
}

/// The condition that stands at a token.
#[cycle(timed_conditions)]
pub(crate) fn timed_cond_tree(
    alloc: Global,
    forms: &Forms,
    at: usize,
) -> Result<TimedCond, NoMemory>
    ensures { IfOk result (λ tree. tree ≡ timed_cond_tree (content_at forms.now at)) }
{
    match beginning_at(forms, at) {
        Beginning::NoList => Ok(TimedCond::Empty(0)),
        Beginning::NoWord(place) => Ok(TimedCond::Empty(place)),
        Beginning::Word(place, word, from) => {
            let head = timed_cond_head(word_bytes(forms, word));
            timed_cond_by(alloc, forms, head, place, from)
        }
    }
}

/// The condition that opens at a place, behind whose word its parts stand from a token on.
#[cycle(timed_conditions)]
fn timed_cond_by(
    alloc: Global,
    forms: &Forms,
    head: TimedCondHead,
    place: u32,
    from: usize,
) -> Result<TimedCond, NoMemory>
    ensures { IfOk result (λ tree. tree ≡ timed_cond_by head place (timed_conds (content_at forms.now from)) (content_at forms.now from)) }
{
    let second = next(forms, from);
    match head {
        TimedCondHead::And => Ok(TimedCond::And(place, timed_conds(alloc, forms, from)?)),
        TimedCondHead::At => {
            let body = cond_tree(alloc, forms, second)?;
            Ok(timed_cond_at(is_start(forms, from), place, body))
        }
        TimedCondHead::Over => Ok(TimedCond::OverAll(place, cond_tree(alloc, forms, second)?)),
        TimedCondHead::LeftOut => Ok(TimedCond::LeftOut(place)),
        TimedCondHead::Unknown => Ok(TimedCond::LeftOut(place)),
    }
}

/// The conditions that stand from a token on.
#[cycle(timed_conditions)]
fn timed_conds(alloc: Global, forms: &Forms, from: usize) -> Result<Items<TimedCond>, NoMemory>
    ensures { IfOk result (λ found. found ≡ timed_conds (content_at forms.now from)) }
{
    let mut out = Items::new(alloc);
    let mut at = from;
    loop {
        match item_at(forms, at) {
            Item::End(_) => return Ok(out),
            Item::Word(_) => at += 1,
            Item::List(token) => {
                out.push(timed_cond_tree(alloc, forms, at)?)?;
                at = token.mate as usize + 1;
            }
        }
    }
}

/// The expression beside the time.
fn factor(alloc: Global, forms: &Forms, from: usize) -> Result<ExprTree, NoMemory>
    ensures { IfOk result (λ tree. tree ≡ factor (content_at forms.now from)) }
{
    if is_time(kind_ahead(forms, from)) {
        expr_tree(alloc, forms, next(forms, from))
    } else {
        expr_tree(alloc, forms, from)
    }
}

fn rate_by(
    alloc: Global,
    forms: &Forms,
    left_out: bool,
    place: u32,
    from: usize,
) -> Result<RateTree, NoMemory>
    ensures { IfOk result (λ rate. rate ≡ rate_by left_out place (content_at forms.now from)) }
{
    if left_out {
        Ok(RateTree::LeftOut(place))
    } else {
        Ok(RateTree::Times(place, factor(alloc, forms, from)?))
    }
}

/// The rate of the list that opens at a place, and holds what stands from a token on.
fn rate_list(alloc: Global, forms: &Forms, place: u32, from: usize) -> Result<RateTree, NoMemory>
    ensures { IfOk result (λ rate. rate ≡ rate_list place (content_at forms.now from)) }
{
    match item_at(forms, from) {
        Item::End(_) => Ok(RateTree::LeftOut(place)),
        Item::List(_) => Ok(RateTree::LeftOut(place)),
        Item::Word(word) => {
            let left_out = is_left_out(word_bytes(forms, word));
            rate_by(alloc, forms, left_out, place, from + 1)
        }
    }
}

/// The rate that stands at a token.
fn rate_tree(alloc: Global, forms: &Forms, at: usize) -> Result<RateTree, NoMemory>
    ensures { IfOk result (λ rate. rate ≡ rate_tree (content_at forms.now at)) }
{
    match item_at(forms, at) {
        Item::End(_) => Ok(RateTree::LeftOut(0)),
        Item::Word(word) => Ok(RateTree::One(word.at)),
        Item::List(token) => rate_list(alloc, forms, token.at, at + 1),
    }
}

fn timed_eff_at(start: bool, place: u32, body: EffTree) -> TimedEff
    ensures { result ≡ timed_eff_at start place body }
{
    if start {
        TimedEff::AtStart(place, body)
    } else {
        TimedEff::AtEnd(place, body)
    }
}

/// A fluent that stands at a token, and its rate behind it.
fn change_rate(
    alloc: Global,
    forms: &Forms,
    trend: Trend,
    place: u32,
    from: usize,
) -> Result<TimedEff, NoMemory>
    ensures { IfOk result (λ tree. tree ≡ change_rate trend place (content_at forms.now from)) }
{
    let fluent = call_tree(alloc, forms, from)?;
    let rate = rate_tree(alloc, forms, next(forms, from))?;
    Ok(TimedEff::Rate(place, trend, fluent, rate))
}

/// The effect that stands at a token.
#[cycle(timed_effects)]
pub(crate) fn timed_eff_tree(alloc: Global, forms: &Forms, at: usize) -> Result<TimedEff, NoMemory>
    ensures { IfOk result (λ tree. tree ≡ timed_eff_tree (content_at forms.now at)) }
{
    match beginning_at(forms, at) {
        Beginning::NoList => Ok(TimedEff::Empty(0)),
        Beginning::NoWord(place) => Ok(TimedEff::Empty(place)),
        Beginning::Word(place, word, from) => {
            let head = timed_eff_head(word_bytes(forms, word));
            timed_eff_by(alloc, forms, head, place, from)
        }
    }
}

/// The effect that opens at a place, behind whose word its parts stand from a token on.
#[cycle(timed_effects)]
fn timed_eff_by(
    alloc: Global,
    forms: &Forms,
    head: TimedEffHead,
    place: u32,
    from: usize,
) -> Result<TimedEff, NoMemory>
    ensures { IfOk result (λ tree. tree ≡ timed_eff_by head place (timed_effs (content_at forms.now from)) (content_at forms.now from)) }
{
    match head {
        TimedEffHead::And => Ok(TimedEff::And(place, timed_effs(alloc, forms, from)?)),
        TimedEffHead::At => {
            let body = eff_tree(alloc, forms, next(forms, from))?;
            Ok(timed_eff_at(is_start(forms, from), place, body))
        }
        TimedEffHead::Rate(trend) => change_rate(alloc, forms, trend, place, from),
        TimedEffHead::LeftOut => Ok(TimedEff::LeftOut(place)),
        TimedEffHead::Unknown => Ok(TimedEff::LeftOut(place)),
    }
}

/// The effects that stand from a token on.
#[cycle(timed_effects)]
fn timed_effs(alloc: Global, forms: &Forms, from: usize) -> Result<Items<TimedEff>, NoMemory>
    ensures { IfOk result (λ found. found ≡ timed_effs (content_at forms.now from)) }
{
    let mut out = Items::new(alloc);
    let mut at = from;
    loop {
        match item_at(forms, at) {
            Item::End(_) => return Ok(out),
            Item::Word(_) => at += 1,
            Item::List(token) => {
                out.push(timed_eff_tree(alloc, forms, at)?)?;
                at = token.mate as usize + 1;
            }
        }
    }
}
