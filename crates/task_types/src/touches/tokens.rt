//! The tokens of a task, in their order.

ghost use Rattle.std.specs.Prelude.{◌≡◌, ◌++◌, ◌<◌, ◌^◌, false, map, length, slice_index_or, OnOk, IfOk, is_some, [], ◌∷◌, if◌then◌else◌};
ghost use Rattle.std.specs.List.{flat_map, filter, enumerate_from};
ghost use Rattle.task_types.specs.Sets.{numbers, are_several, is_in};
ghost use Rattle.task_types.specs.Clash.{form_fluents};
ghost use Rattle.task_types.specs.Touch.{tracked_fluents, tree_facts, trail_facts, soft_facts, comparison_tokens, tokens};

use crate::actions::Action;
use crate::constraints::Trail;
use crate::costs::Soft;
use crate::formulas::FactTree;
use crate::parts::TaskParts;
use crate::tokens::Token;
use crate::touches::tracked::tracked_flags;
use exact_lin::{ActionId, FactId, FluentId, Form, Fraction, Id, NoMemory};
use sqlite_items::Items;
use std::alloc::Global;

// Puts the facts of a formula at the end.
#[tactic(auto, using(crate::proofs::FormulaFacts::formula_facts))]
fn push_tree(out: &mut Items<FactId>, tree: &FactTree) -> Result<(), NoMemory>
    ensures { OnOk result (out.new ≡ out.old ++ tree_facts tree.now) }
{
    match tree {
        FactTree::True => Ok(()),
        FactTree::Is(literal) => {
            out.push(literal.fact)?;
            Ok(())
        }
        FactTree::Not(part) => push_tree(out, part.get()),
        FactTree::And(parts) | FactTree::Or(parts) => {
            for part in parts.as_slice() {
                push_tree(out, part)?;
            }
            Ok(())
        }
    }
}

// The facts of a constraint.
fn facts_of(alloc: Global, trail: &Trail) -> Result<Items<FactId>, NoMemory>
    ensures { IfOk result (λ facts. facts ≡ trail_facts trail.now) }
{
    let mut facts = Items::new(alloc);
    push_tree(&mut facts, &trail.first)?;
    push_tree(&mut facts, &trail.second)?;
    Ok(facts)
}

// The facts of a soft term, but for a goal preference.
fn soft_facts_of(alloc: Global, soft: &Soft) -> Result<Items<FactId>, NoMemory>
    ensures { IfOk result (λ facts. facts ≡ soft_facts soft.now) }
{
    match soft {
        Soft::Trail(trail, _) => facts_of(alloc, trail),
        Soft::Goal(_, _, _) => Ok(Items::new(alloc)),
        Soft::Late(formula, _, _) | Soft::Pieces(formula, _, _) => {
            let mut facts = Items::new(alloc);
            push_tree(&mut facts, formula)?;
            Ok(facts)
        }
    }
}

// The fluents of a form.
fn fluents_of(alloc: Global, form: &Form<FluentId, Fraction>) -> Result<Items<FluentId>, NoMemory>
    ensures { IfOk result (λ fluents. fluents ≡ form_fluents form.now) }
{
    let mut fluents = Items::new(alloc);
    for term in form.terms() {
        fluents.push(term.0)?;
    }
    Ok(fluents)
}

// Whether two different ids stand in the list.
fn has_several<I: Id>(ids: &[I]) -> bool
    ensures { result ≡ are_several (map I.number_of ids.now) }
{
    let Some((first, rest)) = ids.split_first() else {
        return false;
    };
    for id in rest {
        if id.number() != first.number() {
            return true;
        }
    }
    false
}

fn push_fact_tokens(out: &mut Items<Token>, count: usize) -> Result<(), NoMemory>
    requires { count < 2 ^ 32 }
    ensures { OnOk result (out.new ≡ out.old ++ map Token.Fact (numbers count)) }
{
    for fact in 0..count {
        out.push(Token::Fact(FactId::of(fact as u32)))?;
    }
    Ok(())
}

fn push_fluent_token(
    out: &mut Items<Token>,
    fluent: FluentId,
    is_tracked: bool,
) -> Result<(), NoMemory>
    ensures { OnOk result
        (out.new ≡ out.old ++ (if is_tracked then Token.Fluent fluent ∷ [] else [])) }
{
    if is_tracked {
        out.push(Token::Fluent(fluent))?;
    }
    Ok(())
}

fn push_fluent_tokens(out: &mut Items<Token>, flags: &[bool]) -> Result<(), NoMemory>
    requires { length flags.now < 2 ^ 32 }
    ensures { OnOk result
        (out.new ≡ out.old
        ++ map Token.Fluent (filter (λ f. slice_index_or flags.now f false) (numbers
        (length flags.now)))) }
{
    for fluent in 0..flags.len() {
        push_fluent_token(out, FluentId::of(fluent as u32), flags[fluent])?;
    }
    Ok(())
}

// The groups of the over-all comparisons of an action.
fn push_comparison_tokens(
    alloc: Global,
    out: &mut Items<Token>,
    id: ActionId,
    action: &Action,
) -> Result<(), NoMemory>
    ensures { OnOk result (out.new ≡ out.old ++ comparison_tokens id action.now) }
{
    for form in action.over_all.comparisons.as_slice() {
        let fluents = fluents_of(alloc, form)?;
        if has_several(fluents.as_slice()) {
            out.push(Token::Comparison(id, fluents))?;
        }
    }
    Ok(())
}

fn push_all_comparison_tokens(
    alloc: Global,
    out: &mut Items<Token>,
    actions: &[Action],
) -> Result<(), NoMemory>
    requires { length actions.now < 2 ^ 32 }
    ensures { OnOk result
        (out.new ≡ out.old
        ++ flat_map (λ a. comparison_tokens a.0 a.1) (enumerate_from 0 actions.now)) }
{
    for place in 0..actions.len() {
        push_comparison_tokens(alloc, out, ActionId::of(place as u32), &actions[place])?;
    }
    Ok(())
}

// The group of some facts, if there are several.
fn push_formula_token(out: &mut Items<Token>, facts: Items<FactId>) -> Result<(), NoMemory>
    ensures { OnOk result
        (out.new ≡ out.old ++ map Token.Formulas (filter are_several (facts ∷ []))) }
{
    if has_several(facts.as_slice()) {
        out.push(Token::Formulas(facts))?;
    }
    Ok(())
}

fn push_trail_tokens(
    alloc: Global,
    out: &mut Items<Token>,
    trails: &[Trail],
) -> Result<(), NoMemory>
    ensures { OnOk result
        (out.new ≡ out.old
        ++ map Token.Formulas (filter are_several (map trail_facts trails.now))) }
{
    for trail in trails {
        push_formula_token(out, facts_of(alloc, trail)?)?;
    }
    Ok(())
}

fn push_soft_tokens(alloc: Global, out: &mut Items<Token>, softs: &[Soft]) -> Result<(), NoMemory>
    ensures { OnOk result
        (out.new ≡ out.old
        ++ map Token.Formulas (filter are_several (map soft_facts softs.now))) }
{
    for soft in softs {
        push_formula_token(out, soft_facts_of(alloc, soft)?)?;
    }
    Ok(())
}

fn push_action_token(out: &mut Items<Token>, id: ActionId, action: &Action) -> Result<(), NoMemory>
    ensures { OnOk result
        (out.new ≡ out.old ++ (if is_some action.now.end then Token.Action id ∷ [] else [])) }
{
    if action.end.is_some() {
        out.push(Token::Action(id))?;
    }
    Ok(())
}

fn push_action_tokens(out: &mut Items<Token>, actions: &[Action]) -> Result<(), NoMemory>
    requires { length actions.now < 2 ^ 32 }
    ensures { OnOk result
        (out.new ≡ out.old
        ++ map (λ a. Token.Action a.0) (filter (λ a. is_some a.1.end)
        (enumerate_from 0 actions.now))) }
{
    for place in 0..actions.len() {
        push_action_token(out, ActionId::of(place as u32), &actions[place])?;
    }
    Ok(())
}

fn push_tracked_tokens(
    alloc: Global,
    out: &mut Items<Token>,
    parts: &TaskParts,
) -> Result<(), NoMemory>
    requires { length parts.now.fluents < 2 ^ 32 }
    ensures { OnOk result
        (out.new ≡ out.old
        ++ map Token.Fluent (filter (λ f. is_in f (tracked_fluents parts.now)) (numbers
        (length parts.now.fluents)))) }
{
    let flags = tracked_flags(alloc, parts)?;
    push_fluent_tokens(out, flags.as_slice())?;
    Ok(())
}

fn push_tokens(alloc: Global, out: &mut Items<Token>, parts: &TaskParts) -> Result<(), NoMemory>
    requires facts { length parts.now.facts < 2 ^ 32 }
    requires fluents { length parts.now.fluents < 2 ^ 32 }
    requires actions { length parts.now.actions < 2 ^ 32 }
    ensures { OnOk result (out.new ≡ out.old ++ tokens parts.now) }
{
    push_fact_tokens(out, parts.facts.len())?;
    push_tracked_tokens(alloc, out, parts)?;
    push_all_comparison_tokens(alloc, out, parts.actions.as_slice())?;
    push_trail_tokens(alloc, out, parts.hard.as_slice())?;
    push_soft_tokens(alloc, out, parts.soft.as_slice())?;
    push_action_tokens(out, parts.actions.as_slice())?;
    Ok(())
}

/// The tokens of a task, in their order.
pub fn tokens_of(alloc: Global, parts: &TaskParts) -> Result<Items<Token>, NoMemory>
    requires facts { length parts.now.facts < 2 ^ 32 }
    requires fluents { length parts.now.fluents < 2 ^ 32 }
    requires actions { length parts.now.actions < 2 ^ 32 }
    ensures { IfOk result (λ list. list ≡ tokens parts.now) }
{
    let mut list = Items::new(alloc);
    push_tokens(alloc, &mut list, parts)?;
    Ok(list)
}
