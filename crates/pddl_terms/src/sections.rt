//! The sections of a file, and what stands behind a word.

ghost use Rattle.std.specs.Prelude.{◌≡◌, ◌++◌, IfOk, OnOk};
ghost use Rattle.pddl_terms.specs.Content.{content_at};
ghost use Rattle.pddl_terms.specs.Sections.{
  content_of,
  section,
  behind_word,
  place_if,
  left_out,
  names,
  no_name,
  name_at,
  heading,
  names_of,
  groups_of,
  constraints_of,
};

use crate::constraints::con_tree;
use crate::grammar::Listed;
use crate::items::{Item, item_at, next, word_ahead, word_bytes};
use crate::trees::{ConForm, Group, Name};
use crate::typed::{groups, name_of};
use crate::words::{is_left_out, same_word};
use exact_lin::NoMemory;
use sexpr_text::Forms;
use sqlite_items::Items;
use std::alloc::Global;

/// Behind the word, the token at which the first list goes on that the word begins.
pub fn section(forms: &Forms, from: usize, key: &[u8]) -> Option<usize>
    ensures { content_of forms.now result ≡ section key.now (content_at forms.now from) }
{
    let mut at = from;
    loop {
        match item_at(forms, at) {
            Item::End(_) => return None,
            Item::Word(_) => at += 1,
            Item::List(token) => {
                let first = at + 1;
                if same_word(word_ahead(forms, first), key) {
                    return Some(next(forms, first));
                }
                at = token.mate as usize + 1;
            }
        }
    }
}

/// The token behind the word, where the word stands in the list.
pub fn behind_word(forms: &Forms, from: usize, key: &[u8]) -> Option<usize>
    ensures { content_of forms.now result ≡ behind_word key.now (content_at forms.now from) }
{
    let mut at = from;
    loop {
        match item_at(forms, at) {
            Item::End(_) => return None,
            Item::List(token) => at = token.mate as usize + 1,
            Item::Word(word) => {
                at += 1;
                if same_word(word_bytes(forms, word), key) {
                    return Some(at);
                }
            }
        }
    }
}

/// Puts out a place, where the list there is left out.
fn push_if(out: &mut Items<u32>, left_out: bool, place: u32) -> Result<(), NoMemory>
    ensures { OnOk result (out.new ≡ out.old ++ place_if left_out place) }
{
    if left_out {
        out.push(place)?;
    }
    Ok(())
}

/// The places of the left-out lists from a token on.
pub fn left_out(alloc: Global, forms: &Forms, from: usize) -> Result<Items<u32>, NoMemory>
    ensures { IfOk result (λ places. places ≡ left_out (content_at forms.now from)) }
{
    let mut out = Items::new(alloc);
    let mut at = from;
    loop {
        match item_at(forms, at) {
            Item::End(_) => return Ok(out),
            Item::Word(_) => at += 1,
            Item::List(token) => {
                let left = is_left_out(word_ahead(forms, at + 1));
                push_if(&mut out, left, token.at)?;
                at = token.mate as usize + 1;
            }
        }
    }
}

/// The names or keywords that stand from a token on.
fn names(alloc: Global, forms: &Forms, from: usize) -> Result<Items<Name>, NoMemory>
    ensures { IfOk result (λ found. found ≡ names (content_at forms.now from)) }
{
    let mut out = Items::new(alloc);
    let mut at = from;
    loop {
        match item_at(forms, at) {
            Item::End(_) => return Ok(out),
            Item::List(token) => at = token.mate as usize + 1,
            Item::Word(word) => {
                out.push(name_of(alloc, forms, word)?)?;
                at += 1;
            }
        }
    }
}

fn no_name(alloc: Global) -> Name
    ensures { result ≡ no_name }
{
    Name {
        at: 0,
        bytes: Items::new(alloc),
    }
}

/// The name that stands at a token.
pub fn name_at(alloc: Global, forms: &Forms, at: usize) -> Result<Name, NoMemory>
    ensures { IfOk result (λ name. name ≡ name_at (content_at forms.now at)) }
{
    match item_at(forms, at) {
        Item::Word(word) => name_of(alloc, forms, word),
        Item::End(_) => Ok(no_name(alloc)),
        Item::List(_) => Ok(no_name(alloc)),
    }
}

/// The name in the list of a word and a name that stands at a token.
pub fn heading(alloc: Global, forms: &Forms, at: usize) -> Result<Name, NoMemory>
    ensures { IfOk result (λ name. name ≡ heading (content_at forms.now at)) }
{
    match item_at(forms, at) {
        Item::List(_) => name_at(alloc, forms, next(forms, at + 1)),
        Item::End(_) => Ok(no_name(alloc)),
        Item::Word(_) => Ok(no_name(alloc)),
    }
}

/// The names or keywords of the section that the word begins.
pub fn names_of(
    alloc: Global,
    forms: &Forms,
    from: usize,
    key: &[u8],
) -> Result<Items<Name>, NoMemory>
    ensures { IfOk result (λ found. found ≡ names_of (section key.now (content_at forms.now from))) }
{
    match section(forms, from, key) {
        None => Ok(Items::new(alloc)),
        Some(at) => names(alloc, forms, at),
    }
}

/// The typed names of the section that the word begins.
pub fn groups_of(
    alloc: Global,
    forms: &Forms,
    from: usize,
    key: &[u8],
) -> Result<Items<Group>, NoMemory>
    ensures { IfOk result (λ found. found ≡ groups_of (section key.now (content_at forms.now from))) }
{
    match section(forms, from, key) {
        None => Ok(Items::new(alloc)),
        Some(at) => groups(alloc, forms, Listed::Names, at),
    }
}

/// The constraints of the section that the word begins.
pub fn constraints_of(
    alloc: Global,
    forms: &Forms,
    from: usize,
    key: &[u8],
) -> Result<Option<ConForm>, NoMemory>
    ensures { IfOk result (λ found. found ≡ constraints_of (section key.now (content_at forms.now from))) }
{
    match section(forms, from, key) {
        None => Ok(None),
        Some(at) => Ok(Some(con_tree(alloc, forms, at)?)),
    }
}
