//! The entries of `:init` of a text.

ghost use Rattle.std.specs.Prelude.{◌≡◌, IfOk};
ghost use lib.Chars.{codes};
ghost use Rattle.pddl_terms.specs.Content.{lexeme, content_at};
ghost use Rattle.pddl_terms.specs.Items.{IsWord};
ghost use Rattle.pddl_terms.specs.Sections.{section};
ghost use Rattle.pddl_problem.specs.Entries.{
  place_ahead,
  is_denied,
  literal_atom,
  timed_literal,
  entry_value,
  entry_at,
  entry_by,
  entry_list,
  entries,
  entries_of,
};

use exact_lin::NoMemory;
use pddl_terms::calls::{call_list, call_tree};
use pddl_terms::items::{Item, item_at, kind_ahead, next, word_ahead, word_bytes};
use pddl_terms::numbers::number_at;
use pddl_terms::problem_heads::{InitHead, init_head};
use pddl_terms::sections::section;
use pddl_terms::typed::atom_of;
use pddl_terms::words::{is_number, same_word};
use pddl_terms::{Call, InitEntry, TimedLiteral};
use sexpr_text::{Forms, Token};
use sqlite_items::Items;
use std::alloc::Global;

/// Where what stands at the token begins.
fn place_ahead(forms: &Forms, at: usize) -> u32
    ensures { result ≡ place_ahead (content_at forms.now at) }
{
    match item_at(forms, at) {
        Item::End(place) => place,
        Item::Word(token) => token.at,
        Item::List(token) => token.at,
    }
}

/// Whether the list that stands at the token begins with `not`.
fn is_denied(forms: &Forms, at: usize) -> bool
    ensures { result ≡ is_denied (content_at forms.now at) }
{
    match item_at(forms, at) {
        Item::End(_) => false,
        Item::Word(_) => false,
        Item::List(_) => same_word(word_ahead(forms, at + 1), b"not"),
    }
}

/// The atom of the literal that stands at a token.
fn literal_atom(alloc: Global, forms: &Forms, at: usize) -> Result<Call, NoMemory>
    ensures { IfOk result (λ call. call ≡ literal_atom (content_at forms.now at)) }
{
    match item_at(forms, at) {
        Item::End(_) => Ok(Call::LeftOut(0)),
        Item::Word(_) => Ok(Call::LeftOut(0)),
        Item::List(list) => {
            let first = at + 1;
            if same_word(word_ahead(forms, first), b"not") {
                call_tree(alloc, forms, next(forms, first))
            } else {
                call_list(alloc, forms, list.at, first)
            }
        }
    }
}

/// A moment that stands at a token, and a literal behind it.
fn timed_literal(
    alloc: Global,
    forms: &Forms,
    place: u32,
    from: usize,
) -> Result<TimedLiteral, NoMemory>
    ensures { let x = content_at forms.now from in
        IfOk result (λ literal. literal ≡ timed_literal place x) }
{
    let second = next(forms, from);
    let atom = literal_atom(alloc, forms, second)?;
    Ok(TimedLiteral {
        at: place,
        moment_at: place_ahead(forms, from),
        moment: number_at(forms, from),
        holds: !is_denied(forms, second),
        atom,
    })
}

/// An entry that begins with `at`: a timed literal, or an atom.
fn entry_at(
    alloc: Global,
    forms: &Forms,
    timed: bool,
    place: u32,
    word: Token,
    from: usize,
) -> Result<InitEntry, NoMemory>
    requires { IsWord forms.now.text word }
    ensures { let x = content_at forms.now from in
        IfOk result (λ entry. entry ≡ entry_at timed place (lexeme forms.now.text word) x) }
{
    if timed {
        Ok(InitEntry::Timed(timed_literal(alloc, forms, place, from)?))
    } else {
        Ok(InitEntry::Holds(atom_of(alloc, forms, place, word, from)?))
    }
}

/// A fluent that stands at a token, and its value behind it.
fn entry_value(alloc: Global, forms: &Forms, place: u32, from: usize) -> Result<InitEntry, NoMemory>
    ensures { IfOk result (λ entry. entry ≡ entry_value place (content_at forms.now from)) }
{
    let fluent = call_tree(alloc, forms, from)?;
    let value = number_at(forms, next(forms, from));
    Ok(InitEntry::Value(place, fluent, value))
}

/// The entry that opens at a place with a word, behind which its parts stand from a token on.
fn entry_by(
    alloc: Global,
    forms: &Forms,
    head: InitHead,
    place: u32,
    word: Token,
    from: usize,
) -> Result<InitEntry, NoMemory>
    requires { IsWord forms.now.text word }
    ensures { let x = content_at forms.now from in
        IfOk result (λ entry. entry ≡ entry_by head place (lexeme forms.now.text word) x) }
{
    match head {
        InitHead::LeftOut => Ok(InitEntry::LeftOut(place)),
        InitHead::Not => Ok(InitEntry::Not(place, call_tree(alloc, forms, from)?)),
        InitHead::Value => entry_value(alloc, forms, place, from),
        InitHead::At => {
            let timed = is_number(kind_ahead(forms, from));
            entry_at(alloc, forms, timed, place, word, from)
        }
        InitHead::Named => Ok(InitEntry::Holds(atom_of(alloc, forms, place, word, from)?)),
    }
}

/// The entry of the list that opens at a place, and holds what stands from a token on.
fn entry_list(alloc: Global, forms: &Forms, place: u32, from: usize) -> Result<InitEntry, NoMemory>
    ensures { IfOk result (λ entry. entry ≡ entry_list place (content_at forms.now from)) }
{
    match item_at(forms, from) {
        Item::End(_) => Ok(InitEntry::LeftOut(place)),
        Item::List(_) => Ok(InitEntry::LeftOut(place)),
        Item::Word(word) => {
            let head = init_head(word_bytes(forms, word));
            entry_by(alloc, forms, head, place, word, from + 1)
        }
    }
}

/// The entries that stand from a token on.
fn entries(alloc: Global, forms: &Forms, from: usize) -> Result<Items<InitEntry>, NoMemory>
    ensures { IfOk result (λ found. found ≡ entries (content_at forms.now from)) }
{
    let mut out = Items::new(alloc);
    let mut at = from;
    loop {
        match item_at(forms, at) {
            Item::End(_) => return Ok(out),
            Item::Word(_) => at += 1,
            Item::List(token) => {
                out.push(entry_list(alloc, forms, token.at, at + 1)?)?;
                at = token.mate as usize + 1;
            }
        }
    }
}

/// The entries of `:init`.
pub(crate) fn init(alloc: Global, forms: &Forms, from: usize) -> Result<Items<InitEntry>, NoMemory>
    ensures { let x = content_at forms.now from in
        IfOk result (λ found. found ≡ entries_of (section (codes ":init") x)) }
{
    match section(forms, from, b":init") {
        None => Ok(Items::new(alloc)),
        Some(at) => entries(alloc, forms, at),
    }
}
