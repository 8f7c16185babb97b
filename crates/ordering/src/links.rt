//! The link of two snap actions, read off their touches.

ghost use Rattle.std.specs.Prelude.{◌≡◌, ℕ, ◌<◌, ◌≤◌, ◌&&◌, length, drop};
ghost use Rattle.task_types.specs.declared.tokens.Touch.{Touch};
ghost use Rattle.task_types.specs.Order.{link};
ghost use Rattle.task_types.specs.Plan.{snap_of};
ghost use Rattle.task_types.specs.Touch.{is_timed};
ghost use Rattle.ordering.specs.Meetings.{Ascend, AreFrom, stronger, link_of_touches, link_with, strongest_link};

use crate::snaps::has_moment;
use exact_lin::{Id, SnapId, TokenId};
use task_types::{Link, Task, Touch};

/// What two steps of these snap actions, the first before the second in the list, ask of their times: read in one pass
/// over their touches.
pub fn link_of(task: &Task, first: SnapId, second: SnapId) -> Link
    requires first { first < length task.now.parts.snaps }
    requires second { second < length task.now.parts.snaps }
    ensures { result ≡ link task.now.parts (snap_of task.now.parts first)
        (snap_of task.now.parts second) }
{
    if are_timed(task, first, second) {
        return Link::Free;
    }
    strongest(task.touches(first), task.touches(second))
}

fn are_timed(task: &Task, first: SnapId, second: SnapId) -> bool
    requires first { first < length task.now.parts.snaps }
    requires second { second < length task.now.parts.snaps }
    ensures { result ≡ (is_timed (snap_of task.now.parts first).kind
        && is_timed (snap_of task.now.parts second).kind) }
{
    has_moment(task, first) && has_moment(task, second)
}

// The strongest link over the tokens that two rows of touches have in common.
fn strongest(firsts: &[(TokenId, Touch)], seconds: &[(TokenId, Touch)]) -> Link
    requires firsts { Ascend firsts.now }
    requires seconds { Ascend seconds.now }
    ensures { result ≡ strongest_link firsts.now seconds.now }
{
    let mut link = Link::Free;
    let mut from = 0;
    for touch in firsts {
        from = first_from(seconds, from, touch.0.number());
        link = stronger_of(link, link_from(seconds, from, touch));
    }
    link
}

// The place from `from` on of the first touch of this token or a later one.
fn first_from(touches: &[(TokenId, Touch)], from: usize, token: u32) -> usize
    requires within { from ≤ length touches.now }
    requires ascending { Ascend touches.now }
    ensures within { result ≤ length touches.now }
    ensures rest { AreFrom token (drop result touches.now) }
    ensures skipped { (n : ℕ) (t : Touch) → token ≤ n →
        link_with n t (drop from touches.now) ≡ link_with n t (drop result touches.now) }
{
    let mut at = from;
    while at < touches.len() && touches[at].0.number() < token {
        at += 1;
    }
    at
}

// The strongest link of a touch with those of its token, which come first from `from` on.
fn link_from(touches: &[(TokenId, Touch)], from: usize, touch: &(TokenId, Touch)) -> Link
    requires within { from ≤ length touches.now }
    requires ascending { Ascend touches.now }
    requires rest { AreFrom touch.now.0 (drop from touches.now) }
    ensures { result ≡ link_with touch.now.0 touch.now.1 (drop from touches.now) }
{
    let mut link = Link::Free;
    let mut at = from;
    while at < touches.len() && touches[at].0.number() == touch.0.number() {
        link = stronger_of(link, link_between(touch.1, touches[at].1));
        at += 1;
    }
    link
}

fn link_between(first: Touch, second: Touch) -> Link
    ensures { result ≡ link_of_touches first second }
{
    match (first, second) {
        (Touch::Bend, _) | (_, Touch::Bend) => Link::Weak,
        (Touch::Look, Touch::Look) => Link::Free,
        (Touch::Mark, _) | (_, Touch::Mark) => Link::Apart,
    }
}

fn stronger_of(one: Link, other: Link) -> Link
    ensures { result ≡ stronger one other }
{
    match (one, other) {
        (Link::Apart, _) | (_, Link::Apart) => Link::Apart,
        (Link::Weak, _) | (_, Link::Weak) => Link::Weak,
        (Link::Free, Link::Free) => Link::Free,
    }
}
