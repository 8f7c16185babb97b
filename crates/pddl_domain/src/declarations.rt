//! Declarations of predicates and functions of a text.

ghost use Rattle.std.specs.Prelude.{◌≡◌, IfOk};
ghost use Rattle.pddl_terms.specs.Content.{lexeme, content_at};
ghost use Rattle.pddl_terms.specs.Items.{IsWord};
ghost use Rattle.pddl_terms.specs.Sections.{section};
ghost use Rattle.pddl_domain.specs.Domains.{
  declared_by,
  declared_list,
  declarations,
  declarations_of,
};

use exact_lin::NoMemory;
use pddl_terms::items::{Item, item_at, word_bytes};
use pddl_terms::sections::section;
use pddl_terms::typed::{groups, name_of};
use pddl_terms::words::is_left_out;
use pddl_terms::{Declared, Listed};
use sexpr_text::{Forms, Token};
use sqlite_items::Items;
use std::alloc::Global;

/// The declaration that opens at a place with a word, behind which its parameters stand.
fn declared_by(
    alloc: Global,
    forms: &Forms,
    left_out: bool,
    place: u32,
    word: Token,
    from: usize,
) -> Result<Declared, NoMemory>
    requires { IsWord forms.now.text word }
    ensures { IfOk result (λ found. found ≡ declared_by left_out place (lexeme forms.now.text word) (content_at forms.now from)) }
{
    if left_out {
        return Ok(Declared::LeftOut(place));
    }
    let name = name_of(alloc, forms, word)?;
    let parameters = groups(alloc, forms, Listed::Variables, from)?;
    Ok(Declared::Named(place, name, parameters))
}

/// The declaration of the list that opens at a place, and holds what stands from a token on.
fn declared_list(
    alloc: Global,
    forms: &Forms,
    place: u32,
    from: usize,
) -> Result<Declared, NoMemory>
    ensures { IfOk result (λ found. found ≡ declared_list place (content_at forms.now from)) }
{
    match item_at(forms, from) {
        Item::End(_) => Ok(Declared::LeftOut(place)),
        Item::List(_) => Ok(Declared::LeftOut(place)),
        Item::Word(word) => {
            let left_out = is_left_out(word_bytes(forms, word));
            declared_by(alloc, forms, left_out, place, word, from + 1)
        }
    }
}

/// The declarations that stand from a token on.
fn declarations(alloc: Global, forms: &Forms, from: usize) -> Result<Items<Declared>, NoMemory>
    ensures { IfOk result (λ found. found ≡ declarations (content_at forms.now from)) }
{
    let mut out = Items::new(alloc);
    let mut at = from;
    loop {
        match item_at(forms, at) {
            Item::End(_) => return Ok(out),
            Item::Word(_) => at += 1,
            Item::List(token) => {
                out.push(declared_list(alloc, forms, token.at, at + 1)?)?;
                at = token.mate as usize + 1;
            }
        }
    }
}

/// The declarations of the section that the word begins.
pub(crate) fn declarations_of(
    alloc: Global,
    forms: &Forms,
    from: usize,
    key: &[u8],
) -> Result<Items<Declared>, NoMemory>
    ensures { IfOk result (λ found. found ≡ declarations_of (section key.now (content_at forms.now from))) }
{
    match section(forms, from, key) {
        None => Ok(Items::new(alloc)),
        Some(at) => declarations(alloc, forms, at),
    }
}
