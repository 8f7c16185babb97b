//! Atoms and fluents of a text, and left-out lists in their place.

ghost use Rattle.std.specs.Prelude.{◌≡◌, IfOk};
ghost use Rattle.pddl_terms.specs.Content.{lexeme, content_at};
ghost use Rattle.pddl_terms.specs.Items.{IsWord};
ghost use Rattle.pddl_terms.specs.Calls.{call_of, call_list, call_tree};

use crate::items::{Item, item_at, word_bytes};
use crate::trees::Call;
use crate::typed::{atom_of, bare_atom};
use crate::words::is_left_out;
use exact_lin::NoMemory;
use sexpr_text::{Forms, Token};
use std::alloc::Global;

/// The list that opens at a place with a word, behind which its terms stand, or a left-out list.
pub fn call_of(
    alloc: Global,
    forms: &Forms,
    left_out: bool,
    place: u32,
    word: Token,
    from: usize,
) -> Result<Call, NoMemory>
    requires { IsWord forms.now.text word }
    ensures { IfOk result (λ call. call ≡ call_of left_out place (lexeme forms.now.text word) (content_at forms.now from)) }
{
    if left_out {
        Ok(Call::LeftOut(place))
    } else {
        Ok(Call::Named(atom_of(alloc, forms, place, word, from)?))
    }
}

/// What the list is that opens at a place, and holds what stands from a token on.
pub fn call_list(alloc: Global, forms: &Forms, place: u32, from: usize) -> Result<Call, NoMemory>
    ensures { IfOk result (λ call. call ≡ call_list place (content_at forms.now from)) }
{
    match item_at(forms, from) {
        Item::End(_) => Ok(Call::LeftOut(place)),
        Item::List(_) => Ok(Call::LeftOut(place)),
        Item::Word(word) => {
            let left_out = is_left_out(word_bytes(forms, word));
            call_of(alloc, forms, left_out, place, word, from + 1)
        }
    }
}

/// The atom or fluent that stands at a token.
pub fn call_tree(alloc: Global, forms: &Forms, at: usize) -> Result<Call, NoMemory>
    ensures { IfOk result (λ call. call ≡ call_tree (content_at forms.now at)) }
{
    match item_at(forms, at) {
        Item::End(_) => Ok(Call::LeftOut(0)),
        Item::Word(word) => Ok(Call::Named(bare_atom(alloc, forms, word)?)),
        Item::List(token) => call_list(alloc, forms, token.at, at + 1),
    }
}
