//! Words of the notation.

ghost use Rattle.std.specs.Prelude.{◌≡◌, ◌≤◌, length};
ghost use Rattle.pddl_terms.specs.Content.{bytes_of};
ghost use Rattle.pddl_terms.specs.Words.{
  same_word,
  is_name,
  is_variable,
  is_number,
  is_keyword,
  is_time,
  is_term_or_end,
  is_left_out_list,
  is_left_out_formula,
  is_left_out,
  is_left_out_of_condition,
};

use sexpr_text::{Token, TokenKind};

/// The bytes of the token.
pub fn bytes_of<'a>(text: &'a [u8], token: Token) -> &'a [u8]
    requires order { token.at ≤ token.end }
    requires within { token.end ≤ length text.now }
    ensures { result.now ≡ bytes_of text.now token }
{
    &text[token.at as usize..token.end as usize]
}

/// Whether two words are the same but for upper and lower case.
pub fn same_word(word: &[u8], other: &[u8]) -> bool
    ensures { result ≡ same_word word.now other.now }
{
    word.eq_ignore_ascii_case(other)
}

pub fn is_name(kind: TokenKind) -> bool
    ensures { result ≡ is_name kind }
{
    matches!(kind, TokenKind::Name)
}

pub fn is_variable(kind: TokenKind) -> bool
    ensures { result ≡ is_variable kind }
{
    matches!(kind, TokenKind::Variable)
}

pub fn is_number(kind: TokenKind) -> bool
    ensures { result ≡ is_number kind }
{
    matches!(kind, TokenKind::Number)
}

pub fn is_keyword(kind: TokenKind) -> bool
    ensures { result ≡ is_keyword kind }
{
    matches!(kind, TokenKind::Keyword)
}

pub fn is_time(kind: TokenKind) -> bool
    ensures { result ≡ is_time kind }
{
    matches!(kind, TokenKind::Time)
}

/// Whether it is a name, a variable or the end of a list.
pub fn is_term_or_end(kind: TokenKind) -> bool
    ensures { result ≡ is_term_or_end kind }
{
    matches!(
        kind,
        TokenKind::Name | TokenKind::Variable | TokenKind::Close
    )
}

fn is_left_out_list(word: &[u8]) -> bool
    ensures { result ≡ is_left_out_list word.now }
{
    same_word(word, b"either")
        || same_word(word, b"when")
        || same_word(word, b"scale-up")
        || same_word(word, b"scale-down")
        || same_word(word, b":derived")
}

fn is_left_out_formula(word: &[u8]) -> bool
    ensures { result ≡ is_left_out_formula word.now }
{
    same_word(word, b"always-within")
        || same_word(word, b"hold-during")
        || same_word(word, b"hold-after")
        || same_word(word, b":process")
        || same_word(word, b":event")
}

/// Whether a list that begins with this word is left out wherever it stands.
#[tactic(auto, unfolding(crate::specs::Words::is_left_out))]
pub fn is_left_out(word: &[u8]) -> bool
    ensures { result ≡ is_left_out word.now }
{
    is_left_out_list(word) || is_left_out_formula(word)
}

/// Whether a list that begins with this word is left out in a condition.
#[tactic(auto, unfolding(crate::specs::Words::is_left_out_of_condition))]
pub fn is_left_out_of_condition(word: &[u8]) -> bool
    ensures { result ≡ is_left_out_of_condition word.now }
{
    is_left_out(word)
        || same_word(word, b"or")
        || same_word(word, b"imply")
        || same_word(word, b"exists")
        || same_word(word, b"preference")
}
