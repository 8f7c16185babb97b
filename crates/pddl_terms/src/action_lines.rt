//! What may follow in an action.

ghost use Rattle.std.specs.Prelude.{◌≡◌};
ghost use Rattle.pddl_terms.specs.Actions.{
  effect_line,
  tail_takes,
  timed_takes,
  instant_takes,
  body_takes,
  head_takes,
  action_takes,
  is_instant,
  action_may_end,
};

use crate::grammar::{ActionPlace, ActionSort, DomainLine, Line, Rest, only_if};
use crate::words::{is_name, same_word};
use sexpr_text::TokenKind;

fn effect_line(sort: ActionSort) -> Line
    ensures { result ≡ effect_line sort }
{
    match sort {
        ActionSort::Instant => Line::Domain(DomainLine::Effect),
        ActionSort::Durative => Line::Domain(DomainLine::TimedEffect),
    }
}

/// Behind the condition, or where there is none.
fn tail_takes(sort: ActionSort, word: &[u8]) -> Option<Rest>
    ensures { result ≡ tail_takes sort word.now }
{
    only_if(same_word(word, b":effect"), Rest::One(effect_line(sort)))
}

/// Behind the duration.
fn timed_takes(word: &[u8]) -> Option<Rest>
    ensures { result ≡ timed_takes word.now }
{
    if same_word(word, b":condition") {
        Some(Rest::Action(ActionPlace::Condition(ActionSort::Durative)))
    } else {
        tail_takes(ActionSort::Durative, word)
    }
}

/// Behind the parameters of an instantaneous action, or where there are none.
fn instant_takes(word: &[u8]) -> Option<Rest>
    ensures { result ≡ instant_takes word.now }
{
    if same_word(word, b":precondition") {
        Some(Rest::Action(ActionPlace::Condition(ActionSort::Instant)))
    } else {
        tail_takes(ActionSort::Instant, word)
    }
}

/// Behind the parameters, or where there are none.
fn body_takes(sort: ActionSort, word: &[u8]) -> Option<Rest>
    ensures { result ≡ body_takes sort word.now }
{
    match sort {
        ActionSort::Instant => instant_takes(word),
        ActionSort::Durative => only_if(
            same_word(word, b":duration"),
            Rest::Action(ActionPlace::Duration),
        ),
    }
}

/// Behind the name.
fn head_takes(sort: ActionSort, word: &[u8]) -> Option<Rest>
    ensures { result ≡ head_takes sort word.now }
{
    if same_word(word, b":parameters") {
        Some(Rest::Action(ActionPlace::Parameters(sort)))
    } else {
        body_takes(sort, word)
    }
}

/// What may follow behind a word at a place of an action.
#[tactic(auto, unfolding(crate::specs::Actions::action_takes))]
pub(crate) fn action_takes(place: ActionPlace, word: &[u8], kind: TokenKind) -> Option<Rest>
    ensures { result ≡ action_takes place word.now kind }
{
    match place {
        ActionPlace::Name(sort) => { only_if(is_name(kind), Rest::Action(ActionPlace::Head(sort))) }
        ActionPlace::Head(sort) => head_takes(sort, word),
        ActionPlace::Body(sort) => body_takes(sort, word),
        ActionPlace::Timed => timed_takes(word),
        ActionPlace::Tail(sort) => tail_takes(sort, word),
        ActionPlace::Parameters(_) | ActionPlace::Duration | ActionPlace::Condition(_) => None,
    }
}

fn is_instant(sort: ActionSort) -> bool
    ensures { result ≡ is_instant sort }
{
    matches!(sort, ActionSort::Instant)
}

/// Whether an action may end there.
pub(crate) fn action_may_end(place: ActionPlace) -> bool
    ensures { result ≡ action_may_end place }
{
    match place {
        ActionPlace::Head(sort) => is_instant(sort),
        ActionPlace::Body(sort) => is_instant(sort),
        ActionPlace::Timed | ActionPlace::Tail(_) => true,
        ActionPlace::Name(_)
        | ActionPlace::Parameters(_)
        | ActionPlace::Duration
        | ActionPlace::Condition(_) => false,
    }
}
