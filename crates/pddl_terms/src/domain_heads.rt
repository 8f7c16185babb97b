//! What a word begins in a list of a domain.

ghost use Rattle.std.specs.Prelude.{◌≡◌};
ghost use Rattle.pddl_terms.specs.Effects.{
  is_left_out_of_effect,
  change_of,
  changed,
  eff_head,
  timed_eff_head,
  timed_cond_head,
};
ghost use Rattle.pddl_terms.specs.Domains.{action_head, domain_head};

use crate::grammar::ActionSort;
use crate::trees::{ChangeKind, Trend};
use crate::words::{is_left_out, same_word};

/// What a word begins as a section of a domain.
#[derive(Clone, Copy)]
pub enum DomainHead {
    LeftOut,
    Requirements,
    Types,
    Constants,
    Predicates,
    Functions,
    Constraints,
    Action(ActionSort),
    Unknown,
}

/// What a word begins in an effect.
#[derive(Clone, Copy)]
pub enum EffHead {
    LeftOut,
    And,
    Not,
    Change(ChangeKind),
    Named,
}

/// What a word begins in an effect of a durative action.
#[derive(Clone, Copy)]
pub enum TimedEffHead {
    LeftOut,
    And,
    At,
    Rate(Trend),
    Unknown,
}

/// What a word begins in a condition of a durative action.
#[derive(Clone, Copy)]
pub enum TimedCondHead {
    LeftOut,
    And,
    At,
    Over,
    Unknown,
}

fn action_head(word: &[u8]) -> DomainHead
    ensures { result ≡ action_head word.now }
{
    if same_word(word, b":action") {
        DomainHead::Action(ActionSort::Instant)
    } else if same_word(word, b":durative-action") {
        DomainHead::Action(ActionSort::Durative)
    } else {
        DomainHead::Unknown
    }
}

/// What a word begins as a section of a domain.
#[tactic(auto, unfolding(crate::specs::Domains::domain_head))]
pub fn domain_head(word: &[u8]) -> DomainHead
    ensures { result ≡ domain_head word.now }
{
    if is_left_out(word) {
        DomainHead::LeftOut
    } else if same_word(word, b":requirements") {
        DomainHead::Requirements
    } else if same_word(word, b":types") {
        DomainHead::Types
    } else if same_word(word, b":constants") {
        DomainHead::Constants
    } else if same_word(word, b":predicates") {
        DomainHead::Predicates
    } else if same_word(word, b":functions") {
        DomainHead::Functions
    } else if same_word(word, b":constraints") {
        DomainHead::Constraints
    } else {
        action_head(word)
    }
}

/// Whether a list that begins with this word is left out in an effect.
#[tactic(auto, unfolding(crate::specs::Effects::is_left_out_of_effect))]
pub fn is_left_out_of_effect(word: &[u8]) -> bool
    ensures { result ≡ is_left_out_of_effect word.now }
{
    is_left_out(word) || same_word(word, b"forall")
}

fn change_of(word: &[u8]) -> Option<ChangeKind>
    ensures { result ≡ change_of word.now }
{
    if same_word(word, b"increase") {
        Some(ChangeKind::Increase)
    } else if same_word(word, b"decrease") {
        Some(ChangeKind::Decrease)
    } else if same_word(word, b"assign") {
        Some(ChangeKind::Assign)
    } else {
        None
    }
}

fn changed(change: Option<ChangeKind>) -> EffHead
    ensures { result ≡ changed change }
{
    match change {
        None => EffHead::Named,
        Some(change) => EffHead::Change(change),
    }
}

/// What a word begins in an effect.
#[tactic(auto, unfolding(crate::specs::Effects::eff_head))]
pub fn eff_head(word: &[u8]) -> EffHead
    ensures { result ≡ eff_head word.now }
{
    if is_left_out_of_effect(word) {
        EffHead::LeftOut
    } else if same_word(word, b"and") {
        EffHead::And
    } else if same_word(word, b"not") {
        EffHead::Not
    } else {
        changed(change_of(word))
    }
}

/// What a word begins in an effect of a durative action.
#[tactic(auto, unfolding(crate::specs::Effects::timed_eff_head))]
pub fn timed_eff_head(word: &[u8]) -> TimedEffHead
    ensures { result ≡ timed_eff_head word.now }
{
    if is_left_out_of_effect(word) {
        TimedEffHead::LeftOut
    } else if same_word(word, b"and") {
        TimedEffHead::And
    } else if same_word(word, b"at") {
        TimedEffHead::At
    } else if same_word(word, b"increase") {
        TimedEffHead::Rate(Trend::Rises)
    } else if same_word(word, b"decrease") {
        TimedEffHead::Rate(Trend::Falls)
    } else {
        TimedEffHead::Unknown
    }
}

/// What a word begins in a condition of a durative action.
#[tactic(auto, unfolding(crate::specs::Effects::timed_cond_head))]
pub fn timed_cond_head(word: &[u8]) -> TimedCondHead
    ensures { result ≡ timed_cond_head word.now }
{
    if is_left_out(word) || same_word(word, b"preference") {
        TimedCondHead::LeftOut
    } else if same_word(word, b"and") {
        TimedCondHead::And
    } else if same_word(word, b"at") {
        TimedCondHead::At
    } else if same_word(word, b"over") {
        TimedCondHead::Over
    } else {
        TimedCondHead::Unknown
    }
}
