//! What stands at a token of a text.

ghost use Rattle.std.specs.Prelude.{◌≡◌, ◌≤◌, ◌<◌, ◌+◌, length};
ghost use Rattle.pddl_terms.specs.Content.{content_at, behind, bytes_of};
ghost use Rattle.pddl_terms.specs.Items.{IsItem, IsBeginning, IsWord};
ghost use Rattle.pddl_terms.specs.Shape.{kind_ahead, word_ahead};

use crate::words::bytes_of;
use sexpr_text::{Forms, Token, TokenKind};

/// What stands at a token: the end of a list with its place, a word, or a list.
#[derive(Clone, Copy)]
pub enum Item {
    End(u32),
    Word(Token),
    List(Token),
}

/// How a list begins that stands at a token: with no word, or with a word, behind which stands the token with the
/// number.
#[derive(Clone, Copy)]
pub enum Beginning {
    NoList,
    NoWord(u32),
    Word(u32, Token, usize),
}

/// What stands at the token.
pub fn item_at(forms: &Forms, at: usize) -> Item
    ensures { IsItem forms.now at result }
{
    let tokens = forms.tokens();
    if at >= tokens.len() {
        return Item::End(0);
    }
    let token = tokens[at];
    match token.kind {
        TokenKind::Close => Item::End(token.at),
        TokenKind::Open => Item::List(token),
        _ => Item::Word(token),
    }
}

/// The number of the token behind what stands at a token.
pub fn next(forms: &Forms, at: usize) -> usize
    ensures later { at ≤ result }
    ensures behind { content_at forms.now result ≡ behind (content_at forms.now at) }
{
    match item_at(forms, at) {
        Item::End(_) => at,
        Item::Word(_) => at + 1,
        Item::List(token) => token.mate as usize + 1,
    }
}

/// The bytes of a word.
pub fn word_bytes(forms: &Forms, token: Token) -> &[u8]
    requires { IsWord forms.now.text token }
    ensures { result.now ≡ bytes_of forms.now.text token }
{
    bytes_of(forms.text(), token)
}

/// How the list begins that stands at the token.
pub fn beginning_at(forms: &Forms, at: usize) -> Beginning
    ensures { IsBeginning forms.now at result }
{
    let list = match item_at(forms, at) {
        Item::End(_) => return Beginning::NoList,
        Item::Word(_) => return Beginning::NoList,
        Item::List(token) => token,
    };
    let first = at + 1;
    match item_at(forms, first) {
        Item::End(_) => Beginning::NoWord(list.at),
        Item::List(_) => Beginning::NoWord(list.at),
        Item::Word(token) => Beginning::Word(list.at, token, first + 1),
    }
}

/// The kind of the token with the number.
pub fn kind_ahead(forms: &Forms, at: usize) -> TokenKind
    ensures { result ≡ kind_ahead (content_at forms.now at) }
{
    match item_at(forms, at) {
        Item::End(_) => TokenKind::Close,
        Item::List(_) => TokenKind::Open,
        Item::Word(token) => token.kind,
    }
}

/// The bytes of the token with the number, where it is a word.
pub fn word_ahead(forms: &Forms, at: usize) -> &[u8]
    ensures { result.now ≡ word_ahead (content_at forms.now at) }
{
    match item_at(forms, at) {
        Item::End(_) => &[],
        Item::List(_) => &[],
        Item::Word(token) => word_bytes(forms, token),
    }
}
