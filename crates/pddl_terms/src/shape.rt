//! Which texts have the right shape.

ghost use Rattle.std.specs.Prelude.{◌≡◌, [], MatchOption};
ghost use Rattle.pddl_terms.specs.Content.{content_at};
ghost use Rattle.pddl_terms.specs.Typed.{is_listed, typed, typed_more};
ghost use Rattle.pddl_terms.specs.Expressions.{first_side, other_side};
ghost use Rattle.pddl_terms.specs.Shape.{
  may_end,
  takes_line,
  takes,
  enters_line,
  enters_untagged,
  domain_enters,
  problem_enters,
  enters,
  leaves,
  wrong,
  wrong_item,
  IsFirst,
};

use crate::action_lines::{action_may_end, action_takes};
use crate::domain_lines::{domain_leaves, domain_may_end, domain_section_enters, domain_takes};
use crate::grammar::{
    DomainRest, Line, Listed, ProblemRest, Rest, after, domain_wanted, only_if, problem_wanted,
    wanted,
};
use crate::items::{Item, item_at, kind_ahead, word_ahead, word_bytes};
use crate::lines::{begins, inside, may_be_empty, stands};
use crate::problem_lines::{
    problem_leaves, problem_may_end, problem_section_enters, problem_takes,
};
use crate::words::{is_left_out, is_name, is_number, is_term_or_end, is_variable, same_word};
use sexpr_text::{Forms, TokenKind};

fn may_end(rest: Rest) -> bool
    ensures { result ≡ may_end rest }
{
    match rest {
        Rest::Whole(line) => may_be_empty(line),
        Rest::Action(place) => action_may_end(place),
        Rest::Domain(rest) => domain_may_end(rest),
        Rest::Problem(rest) => problem_may_end(rest),
        Rest::Nothing
        | Rest::Many(_)
        | Rest::Maybe(_)
        | Rest::Skipped
        | Rest::Typed(_)
        | Rest::TypedMore(_)
        | Rest::ManyUntagged => true,
        Rest::One(_)
        | Rest::Two(_, _)
        | Rest::OneAndSome(_)
        | Rest::Some(_)
        | Rest::OneAndMaybe(_)
        | Rest::TypeName(_)
        | Rest::Sides
        | Rest::Side(_)
        | Rest::OptionalName(_)
        | Rest::EndAnd(_)
        | Rest::Tag
        | Rest::OneUntagged => false,
    }
}

fn takes_line(line: Option<Line>, word: &[u8], kind: TokenKind, rest: Rest) -> Option<Rest>
    ensures { result ≡ takes_line line word.now kind rest }
{
    match line {
        None => None,
        Some(line) => only_if(stands(line, word, kind), rest),
    }
}

/// Whether a typed list lists such words.
pub fn is_listed(of: Listed, kind: TokenKind) -> bool
    ensures { result ≡ is_listed of kind }
{
    match of {
        Listed::Names => is_name(kind),
        Listed::Variables => is_variable(kind),
    }
}

fn typed(of: Listed, kind: TokenKind) -> Option<Rest>
    ensures { result ≡ typed of kind }
{
    only_if(is_listed(of, kind), Rest::TypedMore(of))
}

fn typed_more(of: Listed, word: &[u8], kind: TokenKind) -> Option<Rest>
    ensures { result ≡ typed_more of word.now kind }
{
    if is_listed(of, kind) {
        typed(of, kind)
    } else {
        only_if(same_word(word, b"-"), Rest::TypeName(of))
    }
}

fn first_side(kind: TokenKind, ahead: TokenKind) -> Option<Rest>
    ensures { result ≡ first_side kind ahead }
{
    if is_variable(kind) {
        only_if(is_term_or_end(ahead), Rest::Side(true))
    } else if is_name(kind) {
        Some(Rest::Side(true))
    } else {
        only_if(is_number(kind), Rest::Side(false))
    }
}

fn other_side(plain: bool, kind: TokenKind) -> Option<Rest>
    ensures { result ≡ other_side plain kind }
{
    if is_variable(kind) {
        only_if(plain, Rest::Nothing)
    } else {
        only_if(is_name(kind) || is_number(kind), Rest::Nothing)
    }
}

#[tactic(auto, unfolding(crate::specs::Shape::takes))]
fn takes(rest: Rest, word: &[u8], kind: TokenKind, ahead: TokenKind) -> Option<Rest>
    ensures { result ≡ takes rest word.now kind ahead }
{
    match rest {
        Rest::Whole(line) => begins(line, word, kind),
        Rest::Skipped => Some(Rest::Skipped),
        Rest::Typed(of) => typed(of, kind),
        Rest::TypedMore(of) => typed_more(of, word, kind),
        Rest::TypeName(of) => only_if(is_name(kind), Rest::Typed(of)),
        Rest::Sides => first_side(kind, ahead),
        Rest::Side(plain) => other_side(plain, kind),
        Rest::OptionalName(line) => only_if(is_name(kind), Rest::One(line)),
        Rest::EndAnd(line) => only_if(same_word(word, b"end"), Rest::One(line)),
        Rest::Tag => only_if(
            same_word(word, b"start") || same_word(word, b"end"),
            Rest::OneUntagged,
        ),
        Rest::Action(place) => action_takes(place, word, kind),
        Rest::Domain(rest) => domain_takes(rest, word, kind),
        Rest::Problem(rest) => problem_takes(rest, word, kind),
        Rest::Nothing
        | Rest::One(_)
        | Rest::Two(_, _)
        | Rest::Many(_)
        | Rest::OneAndSome(_)
        | Rest::Some(_)
        | Rest::OneAndMaybe(_)
        | Rest::Maybe(_)
        | Rest::OneUntagged
        | Rest::ManyUntagged => takes_line(wanted(rest), word, kind, after(rest)),
    }
}

fn enters_line(line: Option<Line>) -> Option<Rest>
    ensures { result ≡ enters_line line }
{
    match line {
        None => None,
        Some(line) => inside(line),
    }
}

/// What a list below a tag may hold, if it has no tag.
fn enters_untagged(first: &[u8]) -> Option<Rest>
    ensures { result ≡ enters_untagged first.now }
{
    if same_word(first, b"at") {
        None
    } else {
        Some(Rest::Whole(Line::UntaggedDur))
    }
}

fn domain_enters(rest: DomainRest, first: &[u8]) -> Option<Rest>
    ensures { result ≡ domain_enters rest first.now }
{
    match rest {
        DomainRest::Sections(given) => domain_section_enters(given, first),
        DomainRest::Heading
        | DomainRest::Functions
        | DomainRest::FunctionsMore
        | DomainRest::FunctionType
        | DomainRest::Snap(_)
        | DomainRest::All(_)
        | DomainRest::Factors => enters_line(domain_wanted(rest)),
    }
}

fn problem_enters(rest: ProblemRest, first: &[u8]) -> Option<Rest>
    ensures { result ≡ problem_enters rest first.now }
{
    match rest {
        ProblemRest::Sections(given) => problem_section_enters(given, first),
        ProblemRest::Heading
        | ProblemRest::DomainName
        | ProblemRest::AtInit
        | ProblemRest::CostFormula
        | ProblemRest::CostCurve
        | ProblemRest::Metric => enters_line(problem_wanted(rest)),
    }
}

#[tactic(auto, unfolding(crate::specs::Shape::enters))]
fn enters(rest: Rest, first: &[u8]) -> Option<Rest>
    ensures { result ≡ enters rest first.now }
{
    match rest {
        Rest::Skipped => Some(Rest::Skipped),
        Rest::TypeName(_) => only_if(is_left_out(first), Rest::Skipped),
        Rest::Sides => Some(Rest::Whole(Line::Expr)),
        Rest::Side(_) => Some(Rest::Whole(Line::Expr)),
        Rest::OneUntagged => enters_untagged(first),
        Rest::ManyUntagged => enters_untagged(first),
        Rest::Domain(rest) => domain_enters(rest, first),
        Rest::Problem(rest) => problem_enters(rest, first),
        Rest::Nothing
        | Rest::Whole(_)
        | Rest::Typed(_)
        | Rest::TypedMore(_)
        | Rest::One(_)
        | Rest::Two(_, _)
        | Rest::Many(_)
        | Rest::OneAndSome(_)
        | Rest::Some(_)
        | Rest::OneAndMaybe(_)
        | Rest::Maybe(_)
        | Rest::OptionalName(_)
        | Rest::EndAnd(_)
        | Rest::Tag
        | Rest::Action(_) => enters_line(wanted(rest)),
    }
}

#[tactic(auto, unfolding(crate::specs::Shape::leaves))]
fn leaves(rest: Rest, first: &[u8]) -> Rest
    ensures { result ≡ leaves rest first.now }
{
    match rest {
        Rest::Skipped => Rest::Skipped,
        Rest::TypeName(of) => Rest::Typed(of),
        Rest::Sides => Rest::Side(false),
        Rest::Side(_) => Rest::Nothing,
        Rest::ManyUntagged => Rest::ManyUntagged,
        Rest::Domain(rest) => domain_leaves(rest, first),
        Rest::Problem(rest) => problem_leaves(rest, first),
        Rest::Nothing
        | Rest::Whole(_)
        | Rest::Typed(_)
        | Rest::TypedMore(_)
        | Rest::One(_)
        | Rest::Two(_, _)
        | Rest::Many(_)
        | Rest::OneAndSome(_)
        | Rest::Some(_)
        | Rest::OneAndMaybe(_)
        | Rest::Maybe(_)
        | Rest::OptionalName(_)
        | Rest::EndAnd(_)
        | Rest::Tag
        | Rest::OneUntagged
        | Rest::Action(_) => after(rest),
    }
}

/// The first place of the wrong shape in a list, from a token of it on, where this may follow.
pub fn first_wrong(forms: &Forms, from: usize, rest: Rest) -> Option<u32>
    ensures { MatchOption result (wrong rest (content_at forms.now from) ≡ []) (λ place. IsFirst place (wrong rest (content_at forms.now from))) }
{
    let mut at = from;
    let mut left = rest;
    loop {
        match item_at(forms, at) {
            Item::End(place) => return if may_end(left) { None } else { Some(place) },
            Item::Word(token) => {
                let ahead = kind_ahead(forms, at + 1);
                let Some(next) = takes(left, word_bytes(forms, token), token.kind, ahead) else {
                    return Some(token.at);
                };
                at += 1;
                left = next;
            }
            Item::List(token) => {
                let first = word_ahead(forms, at + 1);
                let Some(inner) = enters(left, first) else {
                    return Some(token.at);
                };
                if let Some(place) = first_wrong(forms, at + 1, inner) {
                    return Some(place);
                }
                at = token.mate as usize + 1;
                left = leaves(left, first);
            }
        }
    }
}

/// The first place of the wrong shape in what stands at a token, where a line is wanted.
pub fn first_wrong_item(forms: &Forms, at: usize, line: Line) -> Option<u32>
    ensures { MatchOption result (wrong_item line (content_at forms.now at) ≡ []) (λ place. IsFirst place (wrong_item line (content_at forms.now at))) }
{
    match item_at(forms, at) {
        Item::End(place) => Some(place),
        Item::Word(token) => {
            if stands(line, word_bytes(forms, token), token.kind) {
                None
            } else {
                Some(token.at)
            }
        }
        Item::List(token) => match inside(line) {
            None => Some(token.at),
            Some(rest) => first_wrong(forms, at + 1, rest),
        },
    }
}
