//! The words of a line of an ordering file.

ghost use Rattle.std.specs.Prelude.{◌≡◌, option_map};
ghost use Rattle.std.specs.Str.{bytes_eq};
ghost use Rattle.basics.specs.Texts.{ReadsExactly};
ghost use Rattle.plan_files.specs.Tokens.{tokens};
ghost use Rattle.plan_files.specs.OrderWords.{Orders};
ghost use Rattle.plan_files.specs.OrdersSeen.{order_seen};
ghost use Rattle.plan_files.specs.OrderScan.{acts_in, timed_in, pair_in, behind_word, order_in};

use crate::words::{after_mark, after_runs, first_run, is_at_end};

/// What is done with an action: it starts, it ends, or an action that takes no time is done.
#[derive(Clone, Copy, Debug, Drop, PartialEq, Eq)]
pub enum Doing {
    Start,
    End,
    Do,
}

/// The words of a line of an ordering file; `args` is the line from the first argument on.
#[derive(Clone, Copy, Drop)]
pub enum OrderText<'a> {
    Acts {
        what: Doing,
        name: &'a [u8],
        args: &'a [u8],
    },
    Timed(&'a [u8]),
    Pair(&'a [u8], &'a [u8]),
}

// The rest of a line behind what is done with an action: `(name args)`.
fn acts(what: Doing, line: &[u8]) -> Option<OrderText<'_>>
    ensures { option_map order_seen result ≡ acts_in what (tokens line.entry.now) }
{
    let (name, args) = first_run(after_mark(b'(', line)?)?;
    let rest = after_mark(b')', after_runs(args))?;
    if is_at_end(rest) {
        Some(OrderText::Acts { what, name, args })
    } else {
        None
    }
}

// The rest of a line behind `timed`.
fn timed(line: &[u8]) -> Option<OrderText<'_>>
    ensures { option_map order_seen result ≡ timed_in (tokens line.entry.now) }
{
    let (moment, rest) = first_run(line)?;
    if is_at_end(rest) {
        Some(OrderText::Timed(moment))
    } else {
        None
    }
}

// The rest of a line behind `pair`.
fn pair(line: &[u8]) -> Option<OrderText<'_>>
    ensures { option_map order_seen result ≡ pair_in (tokens line.entry.now) }
{
    let (first, rest) = first_run(line)?;
    let (second, rest) = first_run(rest)?;
    if is_at_end(rest) {
        Some(OrderText::Pair(first, second))
    } else {
        None
    }
}

fn is_word(word: &[u8], other: &[u8]) -> bool
    ensures { result ≡ bytes_eq word.now other.now }
{
    word == other
}

// The rest of a line behind its first word.
fn behind_word<'a>(word: &[u8], rest: &'a [u8]) -> Option<OrderText<'a>>
    ensures { option_map order_seen result ≡ behind_word word.now (tokens rest.entry.now) }
{
    if is_word(word, b"start") {
        acts(Doing::Start, rest)
    } else if is_word(word, b"end") {
        acts(Doing::End, rest)
    } else if is_word(word, b"do") {
        acts(Doing::Do, rest)
    } else if is_word(word, b"timed") {
        timed(rest)
    } else if is_word(word, b"pair") {
        pair(rest)
    } else {
        None
    }
}

fn order_met(line: &[u8]) -> Option<OrderText<'_>>
    ensures { option_map order_seen result ≡ order_in (tokens line.entry.now) }
{
    let (word, rest) = first_run(line)?;
    behind_word(word, rest)
}

/// The words of a line of an ordering file: `start (name args)`, `end (name args)`, `do (name args)`, `timed t` or
/// `pair i j`, where the line is made of such words.
pub fn read_order_words(line: &[u8]) -> Option<OrderText<'_>>
    ensures { ReadsExactly (option_map order_seen result) (Orders line.entry.now) }
{
    order_met(line)
}
