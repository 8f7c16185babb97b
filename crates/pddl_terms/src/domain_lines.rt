//! The table of the lines of a domain.

ghost use Rattle.std.specs.Prelude.{◌≡◌};
ghost use Rattle.pddl_terms.specs.Effects.{
  eff_rest,
  deleted_rest,
  timed_eff_rest,
  rate_rest,
  first_factor,
  timed_cond_rest,
};
ghost use Rattle.pddl_terms.specs.Domains.{
  domain_section_rest,
  is_given,
  and_given,
  declared_rest,
  domain_begins,
  domain_stands,
  domain_may_be_empty,
  domain_has_lists,
  domain_may_end,
  domain_takes,
  domain_section_enters,
  domain_leaves,
};

use crate::domain_heads::{
    DomainHead, EffHead, TimedCondHead, TimedEffHead, domain_head, eff_head, is_left_out_of_effect,
    timed_cond_head, timed_eff_head,
};
use crate::grammar::{
    ActionPlace, DomainGiven, DomainLine, DomainRest, Line, Listed, Rest, domain_after, only_if,
};
use crate::lines::named;
use crate::words::{is_left_out, is_name, is_number, is_time, same_word};
use sexpr_text::TokenKind;

fn section_rest(head: DomainHead) -> Option<Rest>
    ensures { result ≡ domain_section_rest head }
{
    match head {
        DomainHead::LeftOut => Some(Rest::Skipped),
        DomainHead::Requirements => Some(Rest::Many(Line::Keyword)),
        DomainHead::Types | DomainHead::Constants => Some(Rest::Typed(Listed::Names)),
        DomainHead::Predicates => Some(Rest::Many(Line::Domain(DomainLine::Declared))),
        DomainHead::Functions => Some(Rest::Domain(DomainRest::Functions)),
        DomainHead::Constraints => Some(Rest::One(Line::Con)),
        DomainHead::Action(sort) => Some(Rest::Action(ActionPlace::Name(sort))),
        DomainHead::Unknown => None,
    }
}

/// Whether a section that stands once at most has been given.
fn is_given(given: DomainGiven, head: DomainHead) -> bool
    ensures { result ≡ is_given given head }
{
    match head {
        DomainHead::Requirements => given.requirements,
        DomainHead::Types => given.types,
        DomainHead::Constants => given.constants,
        DomainHead::Predicates => given.predicates,
        DomainHead::Functions => given.functions,
        DomainHead::Constraints => given.constraints,
        DomainHead::LeftOut | DomainHead::Action(_) | DomainHead::Unknown => false,
    }
}

/// The sections that are given, with one more.
fn and_given(given: DomainGiven, head: DomainHead) -> DomainGiven
    ensures { result ≡ and_given given head }
{
    let mut given = given;
    match head {
        DomainHead::Requirements => given.requirements = true,
        DomainHead::Types => given.types = true,
        DomainHead::Constants => given.constants = true,
        DomainHead::Predicates => given.predicates = true,
        DomainHead::Functions => given.functions = true,
        DomainHead::Constraints => given.constraints = true,
        DomainHead::LeftOut | DomainHead::Action(_) | DomainHead::Unknown => {}
    }
    given
}

/// In a list of the line, where an expression is one of the other line.
fn eff_rest(line: Line, expression: Line, head: EffHead, kind: TokenKind) -> Option<Rest>
    ensures { result ≡ eff_rest line expression head kind }
{
    match head {
        EffHead::LeftOut => Some(Rest::Skipped),
        EffHead::And => Some(Rest::Many(line)),
        EffHead::Not => Some(Rest::One(Line::Domain(DomainLine::Deleted))),
        EffHead::Change(_) => Some(Rest::Two(Line::Fluent, expression)),
        EffHead::Named => named(kind),
    }
}

fn deleted_rest(word: &[u8], kind: TokenKind) -> Option<Rest>
    ensures { result ≡ deleted_rest word.now kind }
{
    if is_left_out_of_effect(word) {
        Some(Rest::Skipped)
    } else {
        named(kind)
    }
}

fn timed_eff_rest(head: TimedEffHead) -> Option<Rest>
    ensures { result ≡ timed_eff_rest head }
{
    match head {
        TimedEffHead::LeftOut => Some(Rest::Skipped),
        TimedEffHead::And => Some(Rest::Many(Line::Domain(DomainLine::TimedEffect))),
        TimedEffHead::At => Some(Rest::Domain(DomainRest::Snap(Line::Domain(
            DomainLine::SnapEffect,
        )))),
        TimedEffHead::Rate(_) => Some(Rest::Two(Line::Fluent, Line::Domain(DomainLine::Rate))),
        TimedEffHead::Unknown => None,
    }
}

fn rate_rest(word: &[u8]) -> Option<Rest>
    ensures { result ≡ rate_rest word.now }
{
    if is_left_out(word) {
        Some(Rest::Skipped)
    } else {
        only_if(same_word(word, b"*"), Rest::Domain(DomainRest::Factors))
    }
}

fn first_factor(kind: TokenKind) -> Option<Rest>
    ensures { result ≡ first_factor kind }
{
    if is_time(kind) {
        Some(Rest::One(Line::Expr))
    } else {
        only_if(
            is_name(kind) || is_number(kind),
            Rest::One(Line::Domain(DomainLine::Time)),
        )
    }
}

fn timed_cond_rest(head: TimedCondHead) -> Option<Rest>
    ensures { result ≡ timed_cond_rest head }
{
    match head {
        TimedCondHead::LeftOut => Some(Rest::Skipped),
        TimedCondHead::And => Some(Rest::Many(Line::Domain(DomainLine::TimedCond))),
        TimedCondHead::At => Some(Rest::Domain(DomainRest::Snap(Line::Cond))),
        TimedCondHead::Over => Some(Rest::Domain(DomainRest::All(Line::Cond))),
        TimedCondHead::Unknown => None,
    }
}

fn declared_rest(word: &[u8], kind: TokenKind) -> Option<Rest>
    ensures { result ≡ declared_rest word.now kind }
{
    if is_left_out(word) {
        Some(Rest::Skipped)
    } else {
        only_if(is_name(kind), Rest::Typed(Listed::Variables))
    }
}

/// What may follow the word where it begins a list of the line.
#[tactic(auto, unfolding(crate::specs::Domains::domain_begins))]
pub(crate) fn domain_begins(line: DomainLine, word: &[u8], kind: TokenKind) -> Option<Rest>
    ensures { result ≡ domain_begins line word.now kind }
{
    match line {
        DomainLine::File => only_if(
            same_word(word, b"define"),
            Rest::Domain(DomainRest::Heading),
        ),
        DomainLine::Heading => only_if(same_word(word, b"domain"), Rest::One(Line::Name)),
        DomainLine::Section => section_rest(domain_head(word)),
        DomainLine::Declared => declared_rest(word, kind),
        DomainLine::TimedCond => timed_cond_rest(timed_cond_head(word)),
        DomainLine::Effect => eff_rest(Line::Domain(line), Line::Expr, eff_head(word), kind),
        DomainLine::SnapEffect => {
            eff_rest(Line::Domain(line), Line::EffectExpr, eff_head(word), kind)
        }
        DomainLine::TimedEffect => timed_eff_rest(timed_eff_head(word)),
        DomainLine::Deleted => deleted_rest(word, kind),
        DomainLine::Rate => rate_rest(word),
        DomainLine::Time => None,
    }
}

/// Whether a word of the kind may stand alone where the line is wanted.
pub(crate) fn domain_stands(line: DomainLine, kind: TokenKind) -> bool
    ensures { result ≡ domain_stands line kind }
{
    match line {
        DomainLine::Rate => is_time(kind),
        DomainLine::Time => is_time(kind),
        DomainLine::File
        | DomainLine::Heading
        | DomainLine::Section
        | DomainLine::Declared
        | DomainLine::TimedCond
        | DomainLine::Effect
        | DomainLine::SnapEffect
        | DomainLine::TimedEffect
        | DomainLine::Deleted => false,
    }
}

/// Whether `( )` is a list of the line.
pub(crate) fn domain_may_be_empty(line: DomainLine) -> bool
    ensures { result ≡ domain_may_be_empty line }
{
    matches!(
        line,
        DomainLine::TimedCond
            | DomainLine::Effect
            | DomainLine::SnapEffect
            | DomainLine::TimedEffect
    )
}

/// Whether a list may stand where the line is wanted.
pub(crate) fn domain_has_lists(line: DomainLine) -> bool
    ensures { result ≡ domain_has_lists line }
{
    !matches!(line, DomainLine::Time)
}

/// Whether a list may end here.
pub(crate) fn domain_may_end(rest: DomainRest) -> bool
    ensures { result ≡ domain_may_end rest }
{
    matches!(
        rest,
        DomainRest::Sections(_) | DomainRest::Functions | DomainRest::FunctionsMore
    )
}

/// What may follow behind a word that stands next, if it may stand there.
#[tactic(auto, unfolding(crate::specs::Domains::domain_takes))]
pub(crate) fn domain_takes(rest: DomainRest, word: &[u8], kind: TokenKind) -> Option<Rest>
    ensures { result ≡ domain_takes rest word.now kind }
{
    match rest {
        DomainRest::FunctionsMore => only_if(
            same_word(word, b"-"),
            Rest::Domain(DomainRest::FunctionType),
        ),
        DomainRest::FunctionType => only_if(
            same_word(word, b"number"),
            Rest::Domain(DomainRest::Functions),
        ),
        DomainRest::Snap(line) => only_if(
            same_word(word, b"start") || same_word(word, b"end"),
            Rest::One(line),
        ),
        DomainRest::All(line) => only_if(same_word(word, b"all"), Rest::One(line)),
        DomainRest::Factors => first_factor(kind),
        DomainRest::Heading | DomainRest::Sections(_) | DomainRest::Functions => None,
    }
}

/// What the section may hold whose first word this is, unless it was given before.
pub(crate) fn domain_section_enters(given: DomainGiven, first: &[u8]) -> Option<Rest>
    ensures { result ≡ domain_section_enters given first.now }
{
    if is_given(given, domain_head(first)) {
        None
    } else {
        Some(Rest::Whole(Line::Domain(DomainLine::Section)))
    }
}

/// What may follow behind a list that stands next and that the word begins.
pub(crate) fn domain_leaves(rest: DomainRest, first: &[u8]) -> Rest
    ensures { result ≡ domain_leaves rest first.now }
{
    match rest {
        DomainRest::Sections(given) => {
            Rest::Domain(DomainRest::Sections(and_given(given, domain_head(first))))
        }
        DomainRest::Heading
        | DomainRest::Functions
        | DomainRest::FunctionsMore
        | DomainRest::FunctionType
        | DomainRest::Snap(_)
        | DomainRest::All(_)
        | DomainRest::Factors => domain_after(rest),
    }
}
