//! The limits of a ground task.

ghost use Rattle.std.specs.Prelude.{◌≡◌, [], ◌∷◌, Some, map, length};
ghost use Rattle.std.specs.List.{filter};
ghost use Rattle.ground_world.specs.World.{either};
ghost use Rattle.grounder.specs.Answer.{past, first_fault, limits, greatest, is_within, is_timed_term};
ghost use Rattle.grounder.specs.FaultSteps.{count_fault};

use crate::faults::{GroundFault, LimitName};
use task_types::{Action, Soft, TaskParts, TrailKind};

/// The most facts of a task.
pub(crate) const MOST_FACTS: usize = 16_384;

/// The most fluents of a task.
pub(crate) const MOST_FLUENTS: usize = 2_048;

/// The most actions of a task.
pub(crate) const MOST_ACTIONS: usize = 8_192;

// The fault of a count that is past its limit.
fn past(name: LimitName, count: usize, most: usize) -> Option<GroundFault>
    ensures { result ≡ past (record { name = name; count = count; most = most }) }
{
    if count <= most {
        None
    } else {
        Some(GroundFault::Limit(name))
    }
}

/// The first of two faults.
pub(crate) fn first_of(one: Option<GroundFault>, other: Option<GroundFault>) -> Option<GroundFault>
    ensures { result ≡ either other (λ fault. Some fault) one }
{
    match one {
        Some(fault) => Some(fault),
        None => other,
    }
}

// The most comparisons of an over-all condition.
fn most_watches(actions: &[Action]) -> usize
    ensures { result ≡ greatest (map (λ a. length a.over_all.comparisons) actions.now) }
{
    let mut most = 0;
    for action in actions {
        most = action.over_all.comparisons.len().max(most);
    }
    most
}

fn is_within(kind: TrailKind) -> bool
    ensures { result ≡ is_within kind }
{
    match kind {
        TrailKind::Always => false,
        TrailKind::Sometime => false,
        TrailKind::Within => true,
        TrailKind::AtMostOnce => false,
        TrailKind::SometimeAfter => false,
        TrailKind::SometimeBefore => false,
        TrailKind::AtEnd => false,
    }
}

// Whether a soft term looks at moments, or at numbers.
fn is_timed_term(term: &Soft) -> bool
    ensures { result ≡ is_timed_term term.now }
{
    match term {
        Soft::Trail(trail, _) => is_within(trail.kind),
        Soft::Goal(_, forms, _) => forms.len() > 0,
        Soft::Late(_, _, _) => true,
        Soft::Pieces(_, _, _) => true,
    }
}

// One for a soft term that looks at moments or at numbers, else 0.
fn timed_count(term: &Soft) -> usize
    ensures { result ≡ length (filter is_timed_term (term.now ∷ [])) }
{
    if is_timed_term(term) { 1 } else { 0 }
}

// How many soft terms look at moments, or at numbers.
fn timed_terms(terms: &[Soft]) -> usize
    ensures { result ≡ length (filter is_timed_term terms.now) }
{
    let mut count = 0;
    for term in terms {
        count += timed_count(term);
    }
    count
}

/// The first limit that numbers of facts, fluents and actions are past, as a fault.
pub(crate) fn count_fault(facts: usize, fluents: usize, actions: usize) -> Option<GroundFault>
    ensures { result ≡ count_fault facts fluents actions }
{
    first_of(
        past(LimitName::Facts, facts, MOST_FACTS),
        first_of(
            past(LimitName::Fluents, fluents, MOST_FLUENTS),
            past(LimitName::Actions, actions, MOST_ACTIONS),
        ),
    )
}

/// The first limit that a task is past, as a fault: facts, fluents, actions, constraints and soft terms together, timed
/// steps, comparisons of an over-all condition, soft terms that look at moments or at numbers.
pub fn limit_fault(task: &TaskParts) -> Option<GroundFault>
    ensures { result ≡ first_fault (map past (limits task.now)) }
{
    let terms = task.hard.len().saturating_add(task.soft.len());
    let watches = most_watches(task.actions.as_slice());
    let moments = timed_terms(task.soft.as_slice());
    let last = first_of(
        past(LimitName::Watches, watches, 8),
        past(LimitName::Moments, moments, 96),
    );
    let further = first_of(
        past(LimitName::Terms, terms, 512),
        first_of(past(LimitName::Timed, task.timed.len(), 64), last),
    );
    let actions = first_of(
        past(LimitName::Actions, task.actions.len(), MOST_ACTIONS),
        further,
    );
    let fluents = first_of(
        past(LimitName::Fluents, task.fluents.len(), MOST_FLUENTS),
        actions,
    );
    let facts = past(LimitName::Facts, task.facts.len(), MOST_FACTS);
    first_of(facts, fluents)
}
