//! Effects of a text.

ghost use Rattle.std.specs.Prelude.{◌≡◌, IfOk};
ghost use Rattle.pddl_terms.specs.Content.{lexeme, content_at};
ghost use Rattle.pddl_terms.specs.Items.{IsWord};
ghost use Rattle.pddl_domain.specs.Effects.{deleted_tree, change, eff_by, effs, eff_tree};

use exact_lin::NoMemory;
use pddl_terms::calls::{call_of, call_tree};
use pddl_terms::domain_heads::{EffHead, eff_head, is_left_out_of_effect};
use pddl_terms::expressions::expr_tree;
use pddl_terms::items::{Beginning, Item, beginning_at, item_at, next, word_bytes};
use pddl_terms::typed::atom_of;
use pddl_terms::{Call, ChangeKind, EffTree};
use sexpr_text::{Forms, Token};
use sqlite_items::Items;
use std::alloc::Global;

/// What the `not` of an effect holds, where it stands at a token.
fn deleted_tree(alloc: Global, forms: &Forms, at: usize) -> Result<Call, NoMemory>
    ensures { IfOk result (λ call. call ≡ deleted_tree (content_at forms.now at)) }
{
    match beginning_at(forms, at) {
        Beginning::NoList => Ok(Call::LeftOut(0)),
        Beginning::NoWord(place) => Ok(Call::LeftOut(place)),
        Beginning::Word(place, word, from) => {
            let left_out = is_left_out_of_effect(word_bytes(forms, word));
            call_of(alloc, forms, left_out, place, word, from)
        }
    }
}

/// A change of a fluent, which stands at a token, by an expression behind it.
fn change(
    alloc: Global,
    forms: &Forms,
    kind: ChangeKind,
    place: u32,
    from: usize,
) -> Result<EffTree, NoMemory>
    ensures { IfOk result (λ tree. tree ≡ change kind place (content_at forms.now from)) }
{
    let fluent = call_tree(alloc, forms, from)?;
    let amount = expr_tree(alloc, forms, next(forms, from))?;
    Ok(EffTree::Change(place, kind, fluent, amount))
}

/// The effect that stands at a token.
#[cycle(effects)]
pub(crate) fn eff_tree(alloc: Global, forms: &Forms, at: usize) -> Result<EffTree, NoMemory>
    ensures { IfOk result (λ tree. tree ≡ eff_tree (content_at forms.now at)) }
{
    match beginning_at(forms, at) {
        Beginning::NoList => Ok(EffTree::Empty(0)),
        Beginning::NoWord(place) => Ok(EffTree::Empty(place)),
        Beginning::Word(place, word, from) => {
            let head = eff_head(word_bytes(forms, word));
            eff_by(alloc, forms, head, place, word, from)
        }
    }
}

/// The effect that opens at a place with a word, behind which its parts stand from a token on.
#[cycle(effects)]
fn eff_by(
    alloc: Global,
    forms: &Forms,
    head: EffHead,
    place: u32,
    word: Token,
    from: usize,
) -> Result<EffTree, NoMemory>
    requires { IsWord forms.now.text word }
    ensures { IfOk result (λ tree. tree ≡ eff_by head place (lexeme forms.now.text word) (effs (content_at forms.now from)) (content_at forms.now from)) }
{
    match head {
        EffHead::LeftOut => Ok(EffTree::LeftOut(place)),
        EffHead::And => Ok(EffTree::And(place, effs(alloc, forms, from)?)),
        EffHead::Not => Ok(EffTree::Delete(place, deleted_tree(alloc, forms, from)?)),
        EffHead::Change(kind) => change(alloc, forms, kind, place, from),
        EffHead::Named => Ok(EffTree::Add(atom_of(alloc, forms, place, word, from)?)),
    }
}

/// The effects that stand from a token on.
#[cycle(effects)]
fn effs(alloc: Global, forms: &Forms, from: usize) -> Result<Items<EffTree>, NoMemory>
    ensures { IfOk result (λ found. found ≡ effs (content_at forms.now from)) }
{
    let mut out = Items::new(alloc);
    let mut at = from;
    loop {
        match item_at(forms, at) {
            Item::End(_) => return Ok(out),
            Item::Word(_) => at += 1,
            Item::List(token) => {
                out.push(eff_tree(alloc, forms, at)?)?;
                at = token.mate as usize + 1;
            }
        }
    }
}
