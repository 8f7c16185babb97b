//! Formulas over facts of a text.

ghost use Rattle.std.specs.Prelude.{◌≡◌, IfOk};
ghost use Rattle.pddl_terms.specs.Content.{lexeme, content_at, behind};
ghost use Rattle.pddl_terms.specs.Items.{IsWord};
ghost use Rattle.pddl_terms.specs.Formulas.{fact_by, facts, fact_tree};

use crate::expressions::side_tree;
use crate::heads::{TreeHead, tree_head};
use crate::items::{Beginning, Item, beginning_at, item_at, next, word_bytes};
use crate::trees::FactForm;
use crate::typed::{atom_of, variables};
use exact_lin::NoMemory;
use sexpr_text::{Forms, Token};
use sqlite_items::{Boxed, Items};
use std::alloc::Global;

/// The formula that stands at a token.
#[cycle(formulas)]
pub fn fact_tree(alloc: Global, forms: &Forms, at: usize) -> Result<FactForm, NoMemory>
    ensures { IfOk result (λ tree. tree ≡ fact_tree (content_at forms.now at)) }
{
    match beginning_at(forms, at) {
        Beginning::NoList => Ok(FactForm::Empty(0)),
        Beginning::NoWord(place) => Ok(FactForm::Empty(place)),
        Beginning::Word(place, word, from) => {
            let head = tree_head(word_bytes(forms, word));
            fact_by(alloc, forms, head, place, word, from)
        }
    }
}

/// The formula that stands at a token, on the heap.
#[cycle(formulas)]
fn boxed_fact(alloc: Global, forms: &Forms, at: usize) -> Result<Boxed<FactForm>, NoMemory>
    ensures { IfOk result (λ tree. tree ≡ fact_tree (content_at forms.now at)) }
{
    let tree = fact_tree(alloc, forms, at)?;
    Ok(Boxed::new(alloc, tree)?)
}

/// The formula that opens at a place with a word, behind which its parts stand from a token on.
#[cycle(formulas)]
fn fact_by(
    alloc: Global,
    forms: &Forms,
    head: TreeHead,
    place: u32,
    word: Token,
    from: usize,
) -> Result<FactForm, NoMemory>
    requires { IsWord forms.now.text word }
    ensures { IfOk result (λ tree. tree ≡ fact_by head place (lexeme forms.now.text word) (facts (content_at forms.now from)) (fact_tree (content_at forms.now from)) (fact_tree (behind (content_at forms.now from))) (content_at forms.now from)) }
{
    let second = next(forms, from);
    match head {
        TreeHead::LeftOut => Ok(FactForm::LeftOut(place)),
        TreeHead::Named => Ok(FactForm::Atom(atom_of(alloc, forms, place, word, from)?)),
        TreeHead::Equal => {
            let left = side_tree(alloc, forms, from)?;
            Ok(FactForm::Equal(place, left, side_tree(alloc, forms, second)?))
        }
        TreeHead::And => Ok(FactForm::And(place, facts(alloc, forms, from)?)),
        TreeHead::Or => Ok(FactForm::Or(place, facts(alloc, forms, from)?)),
        TreeHead::Not => Ok(FactForm::Not(place, boxed_fact(alloc, forms, from)?)),
        TreeHead::Imply => {
            let left = boxed_fact(alloc, forms, from)?;
            Ok(FactForm::Imply(place, left, boxed_fact(alloc, forms, second)?))
        }
        TreeHead::Exists => {
            let variables = variables(alloc, forms, from)?;
            Ok(FactForm::Exists(place, variables, boxed_fact(alloc, forms, second)?))
        }
        TreeHead::Forall => {
            let variables = variables(alloc, forms, from)?;
            Ok(FactForm::Forall(place, variables, boxed_fact(alloc, forms, second)?))
        }
    }
}

/// The formulas that stand from a token on.
#[cycle(formulas)]
fn facts(alloc: Global, forms: &Forms, from: usize) -> Result<Items<FactForm>, NoMemory>
    ensures { IfOk result (λ found. found ≡ facts (content_at forms.now from)) }
{
    let mut out = Items::new(alloc);
    let mut at = from;
    loop {
        match item_at(forms, at) {
            Item::End(_) => return Ok(out),
            Item::Word(_) => at += 1,
            Item::List(token) => {
                out.push(fact_tree(alloc, forms, at)?)?;
                at = token.mate as usize + 1;
            }
        }
    }
}
