//! What a word begins in a list of a line.

ghost use Rattle.std.specs.Prelude.{◌≡◌};
ghost use Rattle.pddl_terms.specs.Expressions.{expr_head};
ghost use Rattle.pddl_terms.specs.Conditions.{comparison_of, compared, cond_head};
ghost use Rattle.pddl_terms.specs.Formulas.{tree_head};
ghost use Rattle.pddl_terms.specs.Constraints.{trail_head, or_unknown, con_head};
ghost use Rattle.pddl_terms.specs.Durations.{bound_head, dur_head};

use crate::trees::Comparison;
use crate::words::{is_left_out, is_left_out_of_condition, same_word};

/// What a word begins in an expression.
#[derive(Clone, Copy)]
pub enum ExprHead {
    LeftOut,
    Sum,
    Product,
    Minus,
    Quotient,
    Named,
}

/// What a word begins in a condition.
#[derive(Clone, Copy)]
pub enum CondHead {
    LeftOut,
    And,
    Forall,
    Not,
    Equal,
    Compare(Comparison),
    Named,
}

/// What a word begins in a formula over facts.
#[derive(Clone, Copy)]
pub enum TreeHead {
    LeftOut,
    Named,
    Equal,
    And,
    Or,
    Not,
    Imply,
    Exists,
    Forall,
}

/// A kind of trajectory constraint.
#[derive(Clone, Copy)]
pub enum TrailHead {
    Always,
    Sometime,
    Within,
    AtMostOnce,
    SometimeAfter,
    SometimeBefore,
    AtEnd,
}

/// What a word begins in a constraint.
#[derive(Clone, Copy)]
pub enum ConHead {
    LeftOut,
    And,
    Forall,
    Preference,
    Trail(TrailHead),
    Unknown,
}

/// What a word begins in a duration.
#[derive(Clone, Copy)]
pub enum DurHead {
    LeftOut,
    And,
    At,
    Bound(Comparison),
    Unknown,
}

#[tactic(auto, unfolding(crate::specs::Expressions::expr_head))]
pub(crate) fn expr_head(word: &[u8]) -> ExprHead
    ensures { result ≡ expr_head word.now }
{
    if is_left_out(word) {
        ExprHead::LeftOut
    } else if same_word(word, b"+") {
        ExprHead::Sum
    } else if same_word(word, b"*") {
        ExprHead::Product
    } else if same_word(word, b"-") {
        ExprHead::Minus
    } else if same_word(word, b"/") {
        ExprHead::Quotient
    } else {
        ExprHead::Named
    }
}

pub(crate) fn comparison_of(word: &[u8]) -> Option<Comparison>
    ensures { result ≡ comparison_of word.now }
{
    if same_word(word, b"<=") {
        Some(Comparison::AtMost)
    } else if same_word(word, b">=") {
        Some(Comparison::AtLeast)
    } else if same_word(word, b"<") {
        Some(Comparison::Below)
    } else if same_word(word, b">") {
        Some(Comparison::Above)
    } else {
        None
    }
}

fn compared(comparison: Option<Comparison>) -> CondHead
    ensures { result ≡ compared comparison }
{
    match comparison {
        None => CondHead::Named,
        Some(comparison) => CondHead::Compare(comparison),
    }
}

#[tactic(auto, unfolding(crate::specs::Conditions::cond_head))]
pub(crate) fn cond_head(word: &[u8]) -> CondHead
    ensures { result ≡ cond_head word.now }
{
    if is_left_out_of_condition(word) {
        CondHead::LeftOut
    } else if same_word(word, b"and") {
        CondHead::And
    } else if same_word(word, b"forall") {
        CondHead::Forall
    } else if same_word(word, b"not") {
        CondHead::Not
    } else if same_word(word, b"=") {
        CondHead::Equal
    } else {
        compared(comparison_of(word))
    }
}

#[tactic(auto, unfolding(crate::specs::Formulas::tree_head))]
pub(crate) fn tree_head(word: &[u8]) -> TreeHead
    ensures { result ≡ tree_head word.now }
{
    if is_left_out(word) {
        TreeHead::LeftOut
    } else if same_word(word, b"=") {
        TreeHead::Equal
    } else if same_word(word, b"and") {
        TreeHead::And
    } else if same_word(word, b"or") {
        TreeHead::Or
    } else if same_word(word, b"not") {
        TreeHead::Not
    } else if same_word(word, b"imply") {
        TreeHead::Imply
    } else if same_word(word, b"exists") {
        TreeHead::Exists
    } else if same_word(word, b"forall") {
        TreeHead::Forall
    } else {
        TreeHead::Named
    }
}

fn trail_head(word: &[u8]) -> Option<TrailHead>
    ensures { result ≡ trail_head word.now }
{
    if same_word(word, b"always") {
        Some(TrailHead::Always)
    } else if same_word(word, b"sometime") {
        Some(TrailHead::Sometime)
    } else if same_word(word, b"within") {
        Some(TrailHead::Within)
    } else if same_word(word, b"at-most-once") {
        Some(TrailHead::AtMostOnce)
    } else if same_word(word, b"sometime-after") {
        Some(TrailHead::SometimeAfter)
    } else if same_word(word, b"sometime-before") {
        Some(TrailHead::SometimeBefore)
    } else if same_word(word, b"at") {
        Some(TrailHead::AtEnd)
    } else {
        None
    }
}

fn or_unknown(trail: Option<TrailHead>) -> ConHead
    ensures { result ≡ or_unknown trail }
{
    match trail {
        None => ConHead::Unknown,
        Some(trail) => ConHead::Trail(trail),
    }
}

#[tactic(auto, unfolding(crate::specs::Constraints::con_head))]
pub(crate) fn con_head(word: &[u8]) -> ConHead
    ensures { result ≡ con_head word.now }
{
    if is_left_out(word) {
        ConHead::LeftOut
    } else if same_word(word, b"and") {
        ConHead::And
    } else if same_word(word, b"forall") {
        ConHead::Forall
    } else if same_word(word, b"preference") {
        ConHead::Preference
    } else {
        or_unknown(trail_head(word))
    }
}

fn bound_head(word: &[u8]) -> DurHead
    ensures { result ≡ bound_head word.now }
{
    if same_word(word, b"=") {
        DurHead::Bound(Comparison::Equal)
    } else if same_word(word, b"<=") {
        DurHead::Bound(Comparison::AtMost)
    } else if same_word(word, b">=") {
        DurHead::Bound(Comparison::AtLeast)
    } else {
        DurHead::Unknown
    }
}

#[tactic(auto, unfolding(crate::specs::Durations::dur_head))]
pub(crate) fn dur_head(word: &[u8]) -> DurHead
    ensures { result ≡ dur_head word.now }
{
    if is_left_out(word) {
        DurHead::LeftOut
    } else if same_word(word, b"and") {
        DurHead::And
    } else if same_word(word, b"at") {
        DurHead::At
    } else {
        bound_head(word)
    }
}
