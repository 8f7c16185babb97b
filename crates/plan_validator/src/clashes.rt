//! Steps that clash and are less than epsilon apart.

ghost use Rattle.std.specs.Prelude.{◌≡◌, ◌<◌, ◌&&◌, None, nat_le, length};
ghost use Rattle.std.specs.List.{AllByRecursion};
ghost use Rattle.task_types.specs.Valid.{are_apart};
ghost use Rattle.timed_meaning.specs.Told.{AreSteps};
ghost use Rattle.timed_meaning.specs.Owned.{steps_of};
ghost use Rattle.plan_validator.specs.Firsts.{all_noted};
ghost use Rattle.plan_validator.specs.Clashes.{is_far, pair_place, is_kept, window_notes, clash_notes, SumsFit};

use crate::conditions::is_at_most;
use crate::disturbing::clash;
use crate::least::Least;
use crate::readings::snap;
use exact_lin::{Scalar, Wide};
use task_types::{Rules, TaskParts};
use timed_meaning::OwnedStep;

fn is_far(rules: &Rules, one: &OwnedStep, other: &OwnedStep) -> bool
    requires { SumsFit rules.now one.now }
    ensures { result ≡ is_far rules.now one.now other.now }
{
    match one.time().add(rules.epsilon) {
        Ok(late) => is_at_most(late, other.time()),
        // never: the sum is defined
        Err(Wide) => true,
    }
}

fn are_apart(parts: &TaskParts, rules: &Rules, one: &OwnedStep, other: &OwnedStep) -> bool
    requires one { SumsFit rules.now one.now }
    requires other { SumsFit rules.now other.now }
    requires known { one.now.step.snap < length parts.now.snaps }
    requires other_known { other.now.step.snap < length parts.now.snaps }
    ensures { result ≡ are_apart parts.now rules.now one.now.step other.now.step }
{
    !clash(parts, snap(parts, &one.step), snap(parts, &other.step))
        || is_far(rules, one, other)
        || is_far(rules, other, one)
}

fn are_timed(lines: usize, one: &OwnedStep, other: &OwnedStep) -> bool
    ensures { result ≡ (nat_le lines one.now.owner && nat_le lines other.now.owner) }
{
    lines <= one.owner && lines <= other.owner
}

fn is_kept(
    parts: &TaskParts,
    rules: &Rules,
    lines: usize,
    one: &OwnedStep,
    other: &OwnedStep,
) -> bool
    requires one { SumsFit rules.now one.now }
    requires other { SumsFit rules.now other.now }
    requires known { one.now.step.snap < length parts.now.snaps }
    requires other_known { other.now.step.snap < length parts.now.snaps }
    ensures { result ≡ is_kept parts.now rules.now lines one.now other.now }
{
    are_timed(lines, one, other) || are_apart(parts, rules, one, other)
}

fn pair_place(one: &OwnedStep, other: &OwnedStep) -> (usize, usize)
    ensures { result ≡ pair_place one.now other.now }
{
    if one.owner <= other.owner {
        (one.owner, other.owner)
    } else {
        (other.owner, one.owner)
    }
}

// Notes of the steps behind one, up to the first that is epsilon later, whether they are kept apart from it.
fn note_window(
    least: &mut Least,
    parts: &TaskParts,
    rules: &Rules,
    lines: usize,
    first: &OwnedStep,
    later: &[OwnedStep],
)
    requires first { SumsFit rules.now first.now × (first.now.step.snap < length parts.now.snaps) }
    requires later { AllByRecursion (SumsFit rules.now) later.now }
    requires known { AreSteps parts.now (steps_of later.now) }
    ensures { least.new.place ≡ all_noted least.old.place
        (window_notes parts.now rules.now lines first.now later.now) }
{
    for other in later {
        if is_far(rules, first, other) {
            return;
        }
        least.note(
            pair_place(first, other),
            is_kept(parts, rules, lines, first, other),
        );
    }
}

/// Of steps with their owners in the order of their times, the least pair of owners with steps that clash and are less
/// than epsilon apart; behind so many lines the owners are timed steps.
pub fn least_clash(parts: &TaskParts, rules: &Rules, lines: usize, steps: &[OwnedStep]) -> Least
    requires sums { AllByRecursion (SumsFit rules.now) steps.now }
    requires known { AreSteps parts.now (steps_of steps.now) }
    ensures { result.place ≡ all_noted None (clash_notes parts.now rules.now lines steps.now) }
{
    let mut least = Least::new();
    let mut rest = steps;
    while let Some((first, later)) = rest.split_first() {
        note_window(&mut least, parts, rules, lines, first, later);
        rest = later;
    }
    least
}
