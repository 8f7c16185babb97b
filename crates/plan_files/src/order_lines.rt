//! What a line of an ordering file puts to an ordering.

ghost use Rattle.std.specs.Prelude.{◌≡◌, ◌-◌, ◌≤◌, ◌<◌, true, find, option_map, length};
ghost use Rattle.std.specs.Char.{is_ascii_digit};
ghost use Rattle.task_types.specs.declared.parts.TaskParts.{TaskParts};
ghost use Rattle.task_types.specs.Plan.{action_of};
ghost use Rattle.task_types.specs.Tests.{◌=?◌};
ghost use Rattle.plan_files.specs.Known.{AreNames};
ghost use Rattle.plan_files.specs.Tokens.{tokens};
ghost use Rattle.plan_files.specs.WordsSeen.{runs_in_front};
ghost use Rattle.plan_files.specs.OrderWords.{Acts, Timed, Pair};
ghost use Rattle.plan_files.specs.OrdersSeen.{order_seen};
ghost use Rattle.plan_files.specs.OrderFiles.{Step, snap_for, timed_at};
ghost use Rattle.plan_files.specs.OrderParts.{put_seen, count_read, apart_read, ReadsPut, ReadsPutLine};

use crate::faults::{LineFault, LineKind};
use crate::names::{Found, Names, find_action};
use crate::order_words::{Doing, OrderText, read_order_words};
use exact_lin::{Fraction, Id, Scalar, SnapId};
use plan_text::read_number;
use std::alloc::Global;
use std::cmp::Ordering;
use task_types::{Action, Task};

/// What a line puts to an ordering: a step, by the number of its snap action, or two numbers of steps that are set
/// apart.
#[derive(Clone, Copy, Drop)]
pub enum Put {
    Step(u32),
    Apart(u32, u32),
}

fn end_of(action: &Action) -> Option<u32>
    ensures { result ≡ action.now.end }
{
    match action.end {
        Some(snap) => Some(snap.number()),
        None => None,
    }
}

fn snap_for(what: Doing, action: &Action) -> Option<u32>
    ensures { result ≡ snap_for what action.now }
{
    let start = action.start.number();
    match end_of(action) {
        Some(end) => match what {
            Doing::Start => Some(start),
            Doing::End => Some(end),
            Doing::Do => None,
        },
        None => match what {
            Doing::Start => None,
            Doing::End => None,
            Doing::Do => Some(start),
        },
    }
}

fn is_same(one: Fraction, other: Fraction) -> bool
    ensures { result ≡ (one =? other) }
{
    match Scalar::cmp(one, other) {
        Ordering::Less => false,
        Ordering::Equal => true,
        Ordering::Greater => false,
    }
}

fn timed_among(timed: &[(Fraction, SnapId)], moment: Fraction) -> Option<u32>
    ensures { result ≡ option_map (λ t. t.1) (find (λ t. t.0 =? moment) timed.now) }
{
    for step in timed {
        if is_same(step.0, moment) {
            return Some(step.1.number());
        }
    }
    None
}

// The timed step at a moment.
fn timed_at(task: &Task, moment: Fraction) -> Option<u32>
    ensures { result ≡ timed_at task.now.parts moment }
{
    timed_among(task.timed(), moment)
}

fn digit(b: u8) -> u64
    requires { is_ascii_digit b ≡ true }
    ensures value { result ≡ b - 48 }
    ensures small { result ≤ 9 }
{
    u64::from(b - b'0')
}

// The number below 2^32 that digits stand for.
fn count_of(bytes: &[u8]) -> Option<u32>
    ensures { result ≡ count_read bytes.now }
{
    if bytes.is_empty() {
        return None;
    }
    let mut n: u64 = 0;
    for b in bytes {
        if !b.is_ascii_digit() {
            return None;
        }
        n = 10 * n + digit(*b);
        if n > 4294967295 {
            return None;
        }
    }
    Some(n as u32)
}

fn snap_of(task: &Task, what: Doing, action: u32) -> Option<u32>
    requires { action < length task.now.parts.actions }
    ensures { result ≡ snap_for what (action_of task.now.parts action) }
{
    snap_for(what, &task.actions()[action as usize])
}

fn step(snap: Option<u32>) -> Option<Put>
    ensures { option_map put_seen result ≡ option_map Step snap }
{
    match snap {
        Some(snap) => Some(Put::Step(snap)),
        None => None,
    }
}

fn acted(
    alloc: Global,
    names: &Names<'_>,
    number: u32,
    what: Doing,
    name: &[u8],
    args: &[u8],
) -> Result<Option<Put>, LineFault>
    requires { AreNames names.now }
    ensures { ReadsPut names.now.task.now.parts number
        (Acts what name.now (runs_in_front (tokens args.now))) result }
{
    match find_action(alloc, names, name, args) {
        Ok(Found::Action(action)) => Ok(step(snap_of(names.task, what, action))),
        Ok(Found::Untyped) => Err(LineFault::At(number, LineKind::Name)),
        Ok(Found::Unground) => Err(LineFault::At(number, LineKind::Unground)),
        Err(_) => Err(LineFault::Memory),
    }
}

fn timed(task: &Task, number: u32, moment: &[u8]) -> Result<Option<Put>, LineFault>
    ensures { ReadsPut task.now.parts number (Timed moment.now) result }
{
    match read_number(moment) {
        Some(moment) => Ok(step(timed_at(task, moment))),
        None => Err(LineFault::At(number, LineKind::Number)),
    }
}

fn apart(first: &[u8], second: &[u8]) -> Option<Put>
    ensures { option_map put_seen result ≡ apart_read first.now second.now }
{
    match count_of(first) {
        Some(first) => match count_of(second) {
            Some(second) => Some(Put::Apart(first, second)),
            None => None,
        },
        None => None,
    }
}

fn paired(number: u32, first: &[u8], second: &[u8]) -> Result<Option<Put>, LineFault>
    ensures { (task : TaskParts) → ReadsPut task number (Pair first.now second.now) result }
{
    match apart(first, second) {
        Some(put) => Ok(Some(put)),
        None => Err(LineFault::At(number, LineKind::Number)),
    }
}

fn put_of(
    alloc: Global,
    names: &Names<'_>,
    number: u32,
    text: OrderText<'_>,
) -> Result<Option<Put>, LineFault>
    requires { AreNames names.now }
    ensures { ReadsPut names.now.task.now.parts number (order_seen text.entry) result }
{
    match text {
        OrderText::Acts { what, name, args } => acted(alloc, names, number, what, name, args),
        OrderText::Timed(moment) => timed(names.task, number, moment),
        OrderText::Pair(first, second) => paired(number, first, second),
    }
}

/// What a line of an ordering file puts, none where the task has no such step; or the first thing that is wrong with its
/// form or its words.
pub fn read_put(
    alloc: Global,
    names: &Names<'_>,
    number: u32,
    line: &[u8],
) -> Result<Option<Put>, LineFault>
    requires { AreNames names.now }
    ensures { ReadsPutLine names.now.task.now.parts (number, line.now) result }
{
    match read_order_words(line) {
        Some(text) => put_of(alloc, names, number, text),
        None => Err(LineFault::At(number, LineKind::Shape)),
    }
}
