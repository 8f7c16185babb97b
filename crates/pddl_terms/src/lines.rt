//! The table of all lines: where a word may stand alone, what may follow a first word, and what a list may hold.

ghost use Rattle.std.specs.Prelude.{◌≡◌};
ghost use Rattle.pddl_terms.specs.Typed.{named};
ghost use Rattle.pddl_terms.specs.Expressions.{expr_rest, is_duration};
ghost use Rattle.pddl_terms.specs.Conditions.{cond_rest, denied_rest, cmp_rest};
ghost use Rattle.pddl_terms.specs.Formulas.{tree_rest};
ghost use Rattle.pddl_terms.specs.Constraints.{behind_trail, con_rest, trail_rest};
ghost use Rattle.pddl_terms.specs.Durations.{dur_rest, untagged_rest};
ghost use Rattle.pddl_terms.specs.Lines.{stands, call_rest, begins, may_be_empty, inside};

use crate::domain_lines::{domain_begins, domain_has_lists, domain_may_be_empty, domain_stands};
use crate::grammar::{Line, Listed, Rest, only_if};
use crate::heads::{
    ConHead, CondHead, DurHead, ExprHead, TrailHead, TreeHead, con_head, cond_head, dur_head,
    expr_head, tree_head,
};
use crate::problem_lines::{problem_begins, problem_may_be_empty, problem_stands};
use crate::words::{is_keyword, is_left_out, is_name, is_number, is_variable, same_word};
use sexpr_text::TokenKind;

/// Behind a name: terms.
pub(crate) fn named(kind: TokenKind) -> Option<Rest>
    ensures { result ≡ named kind }
{
    only_if(is_name(kind), Rest::Many(Line::Term))
}

pub(crate) fn expr_rest(line: Line, head: ExprHead, kind: TokenKind) -> Option<Rest>
    ensures { result ≡ expr_rest line head kind }
{
    match head {
        ExprHead::LeftOut => Some(Rest::Skipped),
        ExprHead::Sum | ExprHead::Product => Some(Rest::OneAndSome(line)),
        ExprHead::Minus => Some(Rest::OneAndMaybe(line)),
        ExprHead::Quotient => Some(Rest::Two(line, line)),
        ExprHead::Named => named(kind),
    }
}

pub(crate) fn cond_rest(head: CondHead, kind: TokenKind) -> Option<Rest>
    ensures { result ≡ cond_rest head kind }
{
    match head {
        CondHead::LeftOut => Some(Rest::Skipped),
        CondHead::And => Some(Rest::Many(Line::Cond)),
        CondHead::Forall => Some(Rest::Two(Line::VariableList, Line::Cond)),
        CondHead::Not => Some(Rest::One(Line::Denied)),
        CondHead::Equal => Some(Rest::Sides),
        CondHead::Compare(_) => Some(Rest::Two(Line::Expr, Line::Expr)),
        CondHead::Named => named(kind),
    }
}

/// Behind the first word of what a `not` of a condition holds.
fn denied_rest(head: CondHead, kind: TokenKind) -> Option<Rest>
    ensures { result ≡ denied_rest head kind }
{
    match head {
        CondHead::LeftOut => Some(Rest::Skipped),
        CondHead::Not => Some(Rest::One(Line::Cmp)),
        CondHead::Equal => Some(Rest::Sides),
        CondHead::Compare(_) => Some(Rest::Two(Line::Expr, Line::Expr)),
        CondHead::And | CondHead::Forall | CondHead::Named => named(kind),
    }
}

fn cmp_rest(head: CondHead) -> Option<Rest>
    ensures { result ≡ cmp_rest head }
{
    match head {
        CondHead::LeftOut => Some(Rest::Skipped),
        CondHead::Not => Some(Rest::One(Line::Cmp)),
        CondHead::Equal => Some(Rest::Two(Line::Expr, Line::Expr)),
        CondHead::Compare(_) => Some(Rest::Two(Line::Expr, Line::Expr)),
        CondHead::And | CondHead::Forall | CondHead::Named => None,
    }
}

pub(crate) fn tree_rest(head: TreeHead, kind: TokenKind) -> Option<Rest>
    ensures { result ≡ tree_rest head kind }
{
    match head {
        TreeHead::LeftOut => Some(Rest::Skipped),
        TreeHead::Named => named(kind),
        TreeHead::Equal => Some(Rest::Sides),
        TreeHead::And | TreeHead::Or => Some(Rest::Many(Line::Tree)),
        TreeHead::Not => Some(Rest::One(Line::Tree)),
        TreeHead::Imply => Some(Rest::Two(Line::Tree, Line::Tree)),
        TreeHead::Exists | TreeHead::Forall => Some(Rest::Two(Line::VariableList, Line::Tree)),
    }
}

fn behind_trail(trail: TrailHead) -> Rest
    ensures { result ≡ behind_trail trail }
{
    match trail {
        TrailHead::Always | TrailHead::Sometime | TrailHead::AtMostOnce => Rest::One(Line::Tree),
        TrailHead::Within => Rest::Two(Line::Number, Line::Tree),
        TrailHead::SometimeAfter | TrailHead::SometimeBefore => Rest::Two(Line::Tree, Line::Tree),
        TrailHead::AtEnd => Rest::EndAnd(Line::Tree),
    }
}

fn con_rest(head: ConHead) -> Option<Rest>
    ensures { result ≡ con_rest head }
{
    match head {
        ConHead::LeftOut => Some(Rest::Skipped),
        ConHead::And => Some(Rest::Many(Line::Con)),
        ConHead::Forall => Some(Rest::Two(Line::VariableList, Line::Con)),
        ConHead::Preference => Some(Rest::OptionalName(Line::Trail)),
        ConHead::Trail(trail) => Some(behind_trail(trail)),
        ConHead::Unknown => None,
    }
}

fn trail_rest(head: ConHead) -> Option<Rest>
    ensures { result ≡ trail_rest head }
{
    match head {
        ConHead::LeftOut => Some(Rest::Skipped),
        ConHead::Trail(trail) => Some(behind_trail(trail)),
        ConHead::And | ConHead::Forall | ConHead::Preference | ConHead::Unknown => None,
    }
}

fn dur_rest(head: DurHead) -> Option<Rest>
    ensures { result ≡ dur_rest head }
{
    match head {
        DurHead::LeftOut => Some(Rest::Skipped),
        DurHead::And => Some(Rest::Many(Line::Dur)),
        DurHead::At => Some(Rest::Tag),
        DurHead::Bound(_) => Some(Rest::Two(Line::DurationName, Line::Expr)),
        DurHead::Unknown => None,
    }
}

/// The same below a tag.
fn untagged_rest(head: DurHead) -> Option<Rest>
    ensures { result ≡ untagged_rest head }
{
    match head {
        DurHead::LeftOut => Some(Rest::Skipped),
        DurHead::And => Some(Rest::ManyUntagged),
        DurHead::Bound(_) => Some(Rest::Two(Line::DurationName, Line::Expr)),
        DurHead::At | DurHead::Unknown => None,
    }
}

fn is_duration(word: &[u8], kind: TokenKind) -> bool
    ensures { result ≡ is_duration word.now kind }
{
    is_variable(kind) && same_word(word, b"?duration")
}

/// Whether the word may stand alone where the line is wanted.
pub(crate) fn stands(line: Line, word: &[u8], kind: TokenKind) -> bool
    ensures { result ≡ stands line word.now kind }
{
    match line {
        Line::Term => is_name(kind) || is_variable(kind),
        Line::Number => is_number(kind),
        Line::Expr => is_name(kind) || is_number(kind),
        Line::EffectExpr => is_name(kind) || is_number(kind) || is_duration(word, kind),
        Line::DurationName => is_duration(word, kind),
        Line::Name => is_name(kind),
        Line::Keyword => is_keyword(kind),
        Line::Fluent => is_name(kind),
        Line::Domain(line) => domain_stands(line, kind),
        Line::Problem(line) => problem_stands(line, kind),
        Line::Atom
        | Line::VariableList
        | Line::Cond
        | Line::Denied
        | Line::Cmp
        | Line::Tree
        | Line::Con
        | Line::Trail
        | Line::Dur
        | Line::UntaggedDur => false,
    }
}

/// Behind a name: terms, or anything where the list is left out.
fn call_rest(word: &[u8], kind: TokenKind) -> Option<Rest>
    ensures { result ≡ call_rest word.now kind }
{
    if is_left_out(word) {
        Some(Rest::Skipped)
    } else {
        named(kind)
    }
}

/// What may follow the word where it begins a list of the line.
pub(crate) fn begins(line: Line, word: &[u8], kind: TokenKind) -> Option<Rest>
    ensures { result ≡ begins line word.now kind }
{
    match line {
        Line::Expr => expr_rest(line, expr_head(word), kind),
        Line::EffectExpr => expr_rest(line, expr_head(word), kind),
        Line::Cond => cond_rest(cond_head(word), kind),
        Line::Denied => denied_rest(cond_head(word), kind),
        Line::Cmp => cmp_rest(cond_head(word)),
        Line::Tree => tree_rest(tree_head(word), kind),
        Line::Con => con_rest(con_head(word)),
        Line::Trail => trail_rest(con_head(word)),
        Line::Dur => dur_rest(dur_head(word)),
        Line::UntaggedDur => untagged_rest(dur_head(word)),
        Line::Fluent => call_rest(word, kind),
        Line::Atom => call_rest(word, kind),
        Line::Domain(line) => domain_begins(line, word, kind),
        Line::Problem(line) => problem_begins(line, word, kind),
        Line::Term
        | Line::Number
        | Line::VariableList
        | Line::DurationName
        | Line::Name
        | Line::Keyword => None,
    }
}

/// Whether `( )` is a list of the line.
pub(crate) fn may_be_empty(line: Line) -> bool
    ensures { result ≡ may_be_empty line }
{
    match line {
        Line::Cond | Line::Tree => true,
        Line::Domain(line) => domain_may_be_empty(line),
        Line::Problem(line) => problem_may_be_empty(line),
        Line::Term
        | Line::Number
        | Line::VariableList
        | Line::Expr
        | Line::EffectExpr
        | Line::Denied
        | Line::Cmp
        | Line::Con
        | Line::Trail
        | Line::DurationName
        | Line::Dur
        | Line::UntaggedDur
        | Line::Name
        | Line::Keyword
        | Line::Fluent
        | Line::Atom => false,
    }
}

/// What a list may hold where the line is wanted, if one may stand there.
pub(crate) fn inside(line: Line) -> Option<Rest>
    ensures { result ≡ inside line }
{
    match line {
        Line::Term | Line::Number | Line::DurationName | Line::Name | Line::Keyword => None,
        Line::VariableList => Some(Rest::Typed(Listed::Variables)),
        Line::Domain(inner) => only_if(domain_has_lists(inner), Rest::Whole(line)),
        Line::Problem(_)
        | Line::Fluent
        | Line::Atom
        | Line::Expr
        | Line::EffectExpr
        | Line::Cond
        | Line::Denied
        | Line::Cmp
        | Line::Tree
        | Line::Con
        | Line::Trail
        | Line::Dur
        | Line::UntaggedDur => Some(Rest::Whole(line)),
    }
}
