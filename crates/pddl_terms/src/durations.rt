//! Durations of a text.

ghost use Rattle.std.specs.Prelude.{◌≡◌, IfOk};
ghost use Rattle.pddl_terms.specs.Content.{content_at, behind};
ghost use Rattle.pddl_terms.specs.Durations.{is_start, tagged, dur_by, durs, dur_tree};

use crate::expressions::expr_tree;
use crate::heads::{DurHead, dur_head};
use crate::items::{Beginning, Item, beginning_at, item_at, next, word_bytes};
use crate::trees::DurTree;
use crate::words::same_word;
use exact_lin::NoMemory;
use sexpr_text::Forms;
use sqlite_items::{Boxed, Items};
use std::alloc::Global;

/// Whether the word `start` stands at the token.
pub fn is_start(forms: &Forms, at: usize) -> bool
    ensures { result ≡ is_start (content_at forms.now at) }
{
    match item_at(forms, at) {
        Item::Word(token) => same_word(word_bytes(forms, token), b"start"),
        Item::End(_) => false,
        Item::List(_) => false,
    }
}

/// A duration below its tag.
fn tagged(alloc: Global, start: bool, place: u32, body: DurTree) -> Result<DurTree, NoMemory>
    ensures { IfOk result (λ tree. tree ≡ tagged start place body) }
{
    let body = Boxed::new(alloc, body)?;
    if start {
        Ok(DurTree::AtStart(place, body))
    } else {
        Ok(DurTree::AtEnd(place, body))
    }
}

/// The duration that stands at a token.
#[cycle(durations)]
pub fn dur_tree(alloc: Global, forms: &Forms, at: usize) -> Result<DurTree, NoMemory>
    ensures { IfOk result (λ tree. tree ≡ dur_tree (content_at forms.now at)) }
{
    match beginning_at(forms, at) {
        Beginning::NoList => Ok(DurTree::LeftOut(0)),
        Beginning::NoWord(place) => Ok(DurTree::LeftOut(place)),
        Beginning::Word(place, word, from) => {
            let head = dur_head(word_bytes(forms, word));
            dur_by(alloc, forms, head, place, from)
        }
    }
}

/// The duration that opens at a place, behind whose word its parts stand from a token on.
#[cycle(durations)]
fn dur_by(
    alloc: Global,
    forms: &Forms,
    head: DurHead,
    place: u32,
    from: usize,
) -> Result<DurTree, NoMemory>
    ensures { IfOk result (λ tree. tree ≡ dur_by head place (durs (content_at forms.now from)) (dur_tree (behind (content_at forms.now from))) (content_at forms.now from)) }
{
    let second = next(forms, from);
    match head {
        DurHead::And => Ok(DurTree::And(place, durs(alloc, forms, from)?)),
        DurHead::At => {
            let body = dur_tree(alloc, forms, second)?;
            tagged(alloc, is_start(forms, from), place, body)
        }
        DurHead::Bound(comparison) => {
            Ok(DurTree::Bound(place, comparison, expr_tree(alloc, forms, second)?))
        }
        DurHead::LeftOut | DurHead::Unknown => Ok(DurTree::LeftOut(place)),
    }
}

/// The durations that stand from a token on.
#[cycle(durations)]
fn durs(alloc: Global, forms: &Forms, from: usize) -> Result<Items<DurTree>, NoMemory>
    ensures { IfOk result (λ found. found ≡ durs (content_at forms.now from)) }
{
    let mut out = Items::new(alloc);
    let mut at = from;
    loop {
        match item_at(forms, at) {
            Item::End(_) => return Ok(out),
            Item::Word(_) => at += 1,
            Item::List(token) => {
                out.push(dur_tree(alloc, forms, at)?)?;
                at = token.mate as usize + 1;
            }
        }
    }
}
