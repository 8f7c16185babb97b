//! One line of a plan file.

ghost use Rattle.std.specs.Prelude.{◌≡◌, ◌<◌, not, IsTrue, IfOk, length, is_some, Some, None, option_map, if◌then◌else◌};
ghost use Rattle.task_types.specs.Plan.{action_of};
ghost use Rattle.plan_files.specs.PlanFiles.{has_bracket};
ghost use Rattle.plan_files.specs.LineParts.{ReadsWords, ReadsBracket, ReadsNumbers, ReadsParts, ReadsLine};
ghost use Rattle.plan_files.specs.Known.{AreNames};
ghost use Rattle.plan_files.specs.WordsSeen.{words_seen};

use crate::faults::{LineFault, LineKind};
use crate::names::{Found, Names, find_action, is_durative};
use crate::words::{PlanText, read_words};
use exact_lin::{Fraction, NoMemory};
use plan_text::read_number;
use std::alloc::Global;
use task_types::Task;

/// What a line of a plan tells, but for its own number: the number of its action, and when.
#[derive(Clone, Copy, Drop)]
pub struct LineParts {
    pub action: u32,
    pub start: Fraction,
    pub duration: Option<Fraction>,
}

/// The numbers of a line; the duration is that of the bracket, where there is one.
#[derive(Clone, Copy, Drop)]
pub struct LineNumbers {
    pub start: Fraction,
    pub bracket: Option<Fraction>,
}

// Whether the action that is named takes time and no bracket says how much.
fn lacks_bracket(alloc: Global, names: &Names<'_>, text: &PlanText<'_>) -> Result<bool, NoMemory>
    requires { AreNames names.now }
    ensures { IfOk result (λ b. b ≡ not (has_bracket names.now.task.now.parts (words_seen text.now))) }
{
    match text.duration {
        Some(_) => Ok(false),
        None => is_durative(alloc, names, text.name),
    }
}

// The words of a line, with a bracket where its action takes time.
fn words_of<'a>(
    alloc: Global,
    names: &Names<'_>,
    line: &'a [u8],
) -> Result<Option<PlanText<'a>>, NoMemory>
    requires { AreNames names.now }
    ensures { IfOk result (ReadsWords names.now.task.now.parts line.entry.now) }
{
    match read_words(line) {
        Some(text) => {
            if lacks_bracket(alloc, names, &text)? {
                Ok(None)
            } else {
                Ok(Some(text))
            }
        }
        None => Ok(None),
    }
}

fn bracket_number(bracket: Option<&[u8]>) -> Option<Option<Fraction>>
    ensures { ReadsBracket (option_map (λ d. d.now) bracket.entry) result }
{
    match bracket {
        Some(word) => match read_number(word) {
            Some(number) => Some(Some(number)),
            None => None,
        },
        None => Some(None),
    }
}

fn numbers_of(text: &PlanText<'_>) -> Option<LineNumbers>
    ensures { ReadsNumbers (words_seen text.now) result }
{
    match read_number(text.start) {
        Some(start) => match bracket_number(text.duration) {
            Some(bracket) => Some(LineNumbers { start, bracket }),
            None => None,
        },
        None => None,
    }
}

// How long an action lasts, which is what the bracket says where it takes time.
fn duration_of(task: &Task, action: u32, bracket: Option<Fraction>) -> Option<Fraction>
    requires { action < length task.now.parts.actions }
    ensures { result ≡ (if is_some (action_of task.now.parts action).end then bracket else None) }
{
    match task.actions()[action as usize].end {
        Some(_) => bracket,
        None => None,
    }
}

fn parts_with(task: &Task, action: u32, numbers: LineNumbers) -> LineParts
    requires { action < length task.now.parts.actions }
    ensures { result ≡ record {
      action = action;
      start = numbers.start;
      duration = (if is_some (action_of task.now.parts action).end then numbers.bracket else None);
    } }
{
    let duration = duration_of(task, action, numbers.bracket);
    LineParts {
        action,
        start: numbers.start,
        duration,
    }
}

fn parts_of(
    alloc: Global,
    names: &Names<'_>,
    number: u32,
    text: &PlanText<'_>,
    numbers: LineNumbers,
) -> Result<LineParts, LineFault>
    requires names { AreNames names.now }
    requires bracket { IsTrue (has_bracket names.now.task.now.parts (words_seen text.now)) }
    requires numbers { ReadsNumbers (words_seen text.now) (Some numbers) }
    ensures { ReadsParts names.now.task.now.parts number (words_seen text.now) result }
{
    match find_action(alloc, names, text.name, text.args) {
        Ok(Found::Action(action)) => Ok(parts_with(names.task, action, numbers)),
        Ok(Found::Untyped) => Err(LineFault::At(number, LineKind::Name)),
        Ok(Found::Unground) => Err(LineFault::At(number, LineKind::Unground)),
        Err(_) => Err(LineFault::Memory),
    }
}

/// Reads a line of a plan file: its parts, or the first kind that is wrong with it.
pub fn read_line(
    alloc: Global,
    names: &Names<'_>,
    number: u32,
    line: &[u8],
) -> Result<LineParts, LineFault>
    requires { AreNames names.now }
    ensures { ReadsLine names.now.task.now.parts number line.now result }
{
    match words_of(alloc, names, line) {
        Ok(Some(text)) => match numbers_of(&text) {
            Some(numbers) => parts_of(alloc, names, number, &text, numbers),
            None => Err(LineFault::At(number, LineKind::Number)),
        },
        Ok(None) => Err(LineFault::At(number, LineKind::Shape)),
        Err(_) => Err(LineFault::Memory),
    }
}
