//! A text with its tokens.

ghost use Rattle.std.specs.Prelude.{◌≡◌, ◌^◌, ◌<◌, ◌⊎◌, List, length, IfOk, OnOk, IfErr, MatchResult};
ghost use Rattle.sexpr_text.specs.declared.token.Token.{Token};
ghost use Rattle.sexpr_text.specs.declared.fault.LexFault.{LexFault};
ghost use Rattle.sexpr_text.specs.declared.fault.LexFault.TheVariants as LexFault;
ghost use Rattle.sexpr_text.specs.Token.{AreSpans, HaveMates, Joins, AreTokens};
ghost use Rattle.sexpr_text.specs.LexFault.{IsFirstFault, MayRefuse};
ghost use Rattle.sexpr_text.specs.Scan.{AreUnmated};

use crate::fault::LexFault;
use crate::scan::scan_tokens;
use crate::token::{Token, TokenKind};
use std::alloc::{AllocError, Global};
use std::marker::Model;

/// Makes two tokens each other's mates.
fn join(tokens: &mut [Token], first: usize, last: usize)
    requires order { first < last }
    requires within { last < length tokens.old }
    requires small { length tokens.old < 2 ^ 32 }
    ensures { Joins tokens.old tokens.new first last }
{
    tokens[first].mate = last as u32;
    tokens[last].mate = first as u32;
}

/// Gives each parenthesis its mate.
fn join_lists(alloc: Global, text: &[u8], tokens: &mut [Token]) -> Result<(), AllocError>
    requires small { length text.now < 2 ^ 32 }
    requires tokens { AreUnmated text.now tokens.old }
    ensures spans { OnOk result (AreSpans text.now 0 (length text.now) tokens.new) }
    ensures mates { OnOk result (HaveMates text.now tokens.new) }
{
    let mut open: Vec<u32> = Vec::new(alloc);
    for i in 0..tokens.len() {
        match tokens[i].kind {
            TokenKind::Open => open.push(i as u32)?,
            TokenKind::Close => {
                let first = open.pop().unwrap();
                join(tokens, first as usize, i);
            }
            _ => {}
        }
    }
    Ok(())
}

/// A text with its tokens.
///
/// The tokens stand in the order of the text, and are all that it holds beside blanks and comments. Each is a span
/// of the text, and each parenthesis names its mate.
#[derive(Drop)]
pub struct Forms {
    text: Vec<u8>,
    tokens: Vec<Token>,
}

impl Model for Forms {
    ghost use Rattle.sexpr_text.specs.Token.{AreTokens};
    ghost use Rattle.sexpr_text.specs.Forms.{Lexed};

    ghost Value = { Lexed };

    ghost view = { λ a. record { text = a.text.items; tokens = a.tokens.items } };

    ghost invariant = { λ a. AreTokens a.text.items a.tokens.items };
}

impl Forms {
    ghost use Rattle.sexpr_text.specs.Token.{AreTokens};
    ghost use Rattle.sexpr_text.specs.Forms.{LieWithin, AreOrdered, MatesLeadBack, MatesAreBehind};

    /// The tokens of the text, in order.
    pub fn tokens(&self) -> &[Token]
        ensures value { result.now ≡ self.now.tokens }
        ensures lexed { AreTokens self.now.text self.now.tokens }
        ensures within { LieWithin self.now.text self.now.tokens }
        ensures ordered { AreOrdered self.now.tokens }
        ensures back { MatesLeadBack self.now.tokens }
        ensures behind { MatesAreBehind self.now.tokens }
    {
        &self.tokens
    }

    /// The bytes that were read, as they were written.
    pub fn text(&self) -> &[u8]
        ensures { result.now ≡ self.now.text }
    {
        &self.text
    }
}

/// The text with its tokens, or its first fault.
fn forms_of(alloc: Global, text: &[u8]) -> Result<Forms, LexFault>
    requires { length text.now < 2 ^ 32 }
    ensures text { IfOk result (λ forms. forms.text ≡ text.now) }
    ensures tokens { IfOk result (λ forms. AreTokens text.now forms.tokens) }
    ensures fault { IfErr result (MayRefuse text.now) }
{
    let mut tokens = scan_tokens(alloc, text)?;
    join_lists(alloc, text, &mut tokens)?;
    let text = text.to_vec(alloc)?;
    Ok(Forms { text, tokens })
}

/// Reads the tokens of a text, or says what is wrong with it first.
///
/// The fault is the one with the least place. Of lists that are never closed that is the outermost, also where
/// another fault stands behind its parenthesis.
pub fn read_forms(alloc: Global, text: &[u8]) -> Result<Forms, LexFault>
    requires { length text.now < 2 ^ 32 }
    ensures text { IfOk result (λ forms. forms.text ≡ text.now) }
    ensures tokens { IfOk result (λ forms. AreTokens text.now forms.tokens) }
    ensures fault { IfErr result (MayRefuse text.now) }

    // A text that has tokens is taken, with those tokens, unless memory runs out.
    ensures taken { (tokens : List Token) → AreTokens text.now tokens
        → MatchResult result (λ forms. forms.tokens ≡ tokens) (λ wrong. wrong ≡ LexFault.Memory) }

    // A text that has a first fault is refused for it, unless memory runs out before.
    ensures refused { (first : LexFault) → IsFirstFault text.now first
        → MatchResult result (λ _. ⊥) (λ wrong. (wrong ≡ first) ⊎ (wrong ≡ LexFault.Memory)) }
{
    forms_of(alloc, text)
}
