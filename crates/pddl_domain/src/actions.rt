//! Actions of a text.

ghost use Rattle.std.specs.Prelude.{◌≡◌, IfOk, OnOk, ◌++◌};
ghost use lib.Chars.{codes};
ghost use Rattle.pddl_terms.specs.Content.{content_at};
ghost use Rattle.pddl_terms.specs.Sections.{behind_word};
ghost use Rattle.pddl_domain.specs.Actions.{
  parameters_of,
  condition_of,
  effect_of,
  duration_of,
  timed_condition_of,
  timed_effect_of,
  instant_body,
  durative_body,
  action_body,
  action_tree,
  as_action,
  actions,
};
ghost use Rattle.pddl_domain.specs.Held.{held};

use crate::effects::eff_tree;
use crate::timed::{timed_cond_tree, timed_eff_tree};
use exact_lin::NoMemory;
use pddl_terms::conditions::cond_tree;
use pddl_terms::domain_heads::{DomainHead, domain_head};
use pddl_terms::durations::dur_tree;
use pddl_terms::items::{Item, item_at, next, word_ahead};
use pddl_terms::sections::{behind_word, name_at};
use pddl_terms::typed::variables;
use pddl_terms::{
    ActionBody, ActionDef, ActionSort, CondTree, DurTree, EffTree, Group, TimedCond, TimedEff,
};
use sexpr_text::Forms;
use sqlite_items::Items;
use std::alloc::Global;

fn parameters(alloc: Global, forms: &Forms, from: usize) -> Result<Items<Group>, NoMemory>
    ensures { IfOk result (λ found. found ≡ parameters_of (behind_word (codes ":parameters") (content_at forms.now from))) }
{
    match behind_word(forms, from, b":parameters") {
        None => Ok(Items::new(alloc)),
        Some(at) => variables(alloc, forms, at),
    }
}

fn condition(alloc: Global, forms: &Forms, from: usize) -> Result<Option<CondTree>, NoMemory>
    ensures { IfOk result (λ found. found ≡ condition_of (behind_word (codes ":precondition") (content_at forms.now from))) }
{
    match behind_word(forms, from, b":precondition") {
        None => Ok(None),
        Some(at) => Ok(Some(cond_tree(alloc, forms, at)?)),
    }
}

fn effect(alloc: Global, forms: &Forms, from: usize) -> Result<Option<EffTree>, NoMemory>
    ensures { IfOk result (λ found. found ≡ effect_of (behind_word (codes ":effect") (content_at forms.now from))) }
{
    match behind_word(forms, from, b":effect") {
        None => Ok(None),
        Some(at) => Ok(Some(eff_tree(alloc, forms, at)?)),
    }
}

fn duration(alloc: Global, forms: &Forms, from: usize) -> Result<DurTree, NoMemory>
    ensures { IfOk result (λ found. found ≡ duration_of (behind_word (codes ":duration") (content_at forms.now from))) }
{
    match behind_word(forms, from, b":duration") {
        None => Ok(DurTree::LeftOut(0)),
        Some(at) => dur_tree(alloc, forms, at),
    }
}

/// The condition of a durative action, if it has one: a list of one at most, whose drop is one step.
fn timed_conditions(alloc: Global, forms: &Forms, from: usize) -> Result<Items<TimedCond>, NoMemory>
    ensures { IfOk result (λ found. found ≡ held (timed_condition_of (behind_word (codes ":condition") (content_at forms.now from)))) }
{
    let mut found = Items::new(alloc);
    match behind_word(forms, from, b":condition") {
        None => Ok(found),
        Some(at) => {
            found.push(timed_cond_tree(alloc, forms, at)?)?;
            Ok(found)
        }
    }
}

fn timed_effect(alloc: Global, forms: &Forms, from: usize) -> Result<Option<TimedEff>, NoMemory>
    ensures { IfOk result (λ found. found ≡ timed_effect_of (behind_word (codes ":effect") (content_at forms.now from))) }
{
    match behind_word(forms, from, b":effect") {
        None => Ok(None),
        Some(at) => Ok(Some(timed_eff_tree(alloc, forms, at)?)),
    }
}

fn instant_body(alloc: Global, forms: &Forms, from: usize) -> Result<ActionBody, NoMemory>
    ensures { IfOk result (λ body. body ≡ instant_body (content_at forms.now from)) }
{
    let condition = condition(alloc, forms, from)?;
    let effect = effect(alloc, forms, from)?;
    Ok(ActionBody::Instant(condition, effect))
}

fn durative_body(alloc: Global, forms: &Forms, from: usize) -> Result<ActionBody, NoMemory>
    ensures { IfOk result (λ body. body ≡ durative_body (content_at forms.now from)) }
{
    let duration = duration(alloc, forms, from)?;
    let mut condition = timed_conditions(alloc, forms, from)?;
    let effect = timed_effect(alloc, forms, from)?;
    Ok(ActionBody::Durative(duration, condition.pop(), effect))
}

fn action_body(
    alloc: Global,
    forms: &Forms,
    sort: ActionSort,
    from: usize,
) -> Result<ActionBody, NoMemory>
    ensures { IfOk result (λ body. body ≡ action_body sort (content_at forms.now from)) }
{
    match sort {
        ActionSort::Instant => instant_body(alloc, forms, from),
        ActionSort::Durative => durative_body(alloc, forms, from),
    }
}

/// The action that opens at a place, whose name stands at a token.
fn action_tree(
    alloc: Global,
    forms: &Forms,
    sort: ActionSort,
    place: u32,
    from: usize,
) -> Result<ActionDef, NoMemory>
    ensures { IfOk result (λ action. action ≡ action_tree sort place (content_at forms.now from)) }
{
    let name = name_at(alloc, forms, from)?;
    let parameters = parameters(alloc, forms, from)?;
    let body = action_body(alloc, forms, sort, from)?;
    Ok(ActionDef {
        at: place,
        name,
        parameters,
        body,
    })
}

/// Puts out the action that a section is, if it is one.
fn push_action(
    alloc: Global,
    forms: &Forms,
    out: &mut Items<ActionDef>,
    head: DomainHead,
    place: u32,
    from: usize,
) -> Result<(), NoMemory>
    ensures { OnOk result (out.new ≡ out.old ++ as_action head place (content_at forms.now from)) }
{
    match head {
        DomainHead::Action(sort) => {
            out.push(action_tree(alloc, forms, sort, place, from)?)?;
            Ok(())
        }
        DomainHead::LeftOut
        | DomainHead::Requirements
        | DomainHead::Types
        | DomainHead::Constants
        | DomainHead::Predicates
        | DomainHead::Functions
        | DomainHead::Constraints
        | DomainHead::Unknown => Ok(()),
    }
}

/// The actions among the sections that stand from a token on.
pub(crate) fn actions(
    alloc: Global,
    forms: &Forms,
    from: usize,
) -> Result<Items<ActionDef>, NoMemory>
    ensures { IfOk result (λ found. found ≡ actions (content_at forms.now from)) }
{
    let mut out = Items::new(alloc);
    let mut at = from;
    loop {
        match item_at(forms, at) {
            Item::End(_) => return Ok(out),
            Item::Word(_) => at += 1,
            Item::List(token) => {
                let first = at + 1;
                let head = domain_head(word_ahead(forms, first));
                push_action(alloc, forms, &mut out, head, token.at, next(forms, first))?;
                at = token.mate as usize + 1;
            }
        }
    }
}
