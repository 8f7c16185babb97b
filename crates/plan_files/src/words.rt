//! The words of a plan line.

ghost use Rattle.std.specs.Prelude.{◌≡◌, option_map};
ghost use Rattle.std.specs.Prelude.{true};
ghost use Rattle.basics.specs.Texts.{ReadsExactly};
ghost use Rattle.plan_files.specs.Tokens.{is_mark, tokens};
ghost use Rattle.plan_files.specs.PlanWords.{Says};
ghost use Rattle.plan_files.specs.WordsSeen.{words_seen};
ghost use Rattle.plan_files.specs.WordScan.{behind_runs, is_none_left, bracketed, bracket_in, mark_first, run_first, words_in};

use crate::scan::{are_blanks, behind_mark, next_run};

/// The words of a plan line; `args` is the line from the first argument on.
#[derive(Clone, Copy)]
pub struct PlanText<'a> {
    pub start: &'a [u8],
    pub name: &'a [u8],
    pub args: &'a [u8],
    pub duration: Option<&'a [u8]>,
}

/// The rest of the line behind its first token, where that is this mark.
pub(crate) fn after_mark(mark: u8, line: &[u8]) -> Option<&[u8]>
    requires { is_mark mark ≡ true }
    ensures { option_map (λ rest. tokens rest.now) result ≡ mark_first mark (tokens line.now) }
{
    behind_mark(mark, line)
}

/// The first token of the line, where that is a run, and the rest of the line.
pub(crate) fn first_run(line: &[u8]) -> Option<(&[u8], &[u8])>
    ensures { option_map (λ found. (found.0.now, tokens found.1.now)) result ≡ run_first (tokens line.now) }
{
    next_run(line)
}

/// The rest of the line behind the runs in front.
pub(crate) fn after_runs(line: &[u8]) -> &[u8]
    ensures { tokens result.now ≡ behind_runs (tokens line.now) }
{
    let mut rest = line;
    while let Some((_, behind)) = first_run(rest) {
        rest = behind;
    }
    rest
}

/// Whether no token is left.
pub(crate) fn is_at_end(line: &[u8]) -> bool
    ensures { result ≡ is_none_left (tokens line.now) }
{
    are_blanks(line)
}

// What stands in a bracket behind its first mark; nothing else may be left.
fn in_bracket(line: &[u8]) -> Option<Option<&[u8]>>
    ensures { option_map (λ d. option_map (λ t. t.now) d) result ≡ bracketed (tokens line.now) }
{
    let (word, rest) = first_run(line)?;
    let rest = after_mark(b']', rest)?;
    if is_at_end(rest) {
        Some(Some(word))
    } else {
        None
    }
}

// What stands in the bracket, if there is one; nothing else may be left.
fn bracket(line: &[u8]) -> Option<Option<&[u8]>>
    ensures { option_map (λ d. option_map (λ t. t.now) d) result ≡ bracket_in (tokens line.now) }
{
    match after_mark(b'[', line) {
        Some(rest) => in_bracket(rest),
        None => { if is_at_end(line) { Some(None) } else { None } }
    }
}

// The words that the tokens of a line are made of.
#[tactic(auto, unfolding(crate::specs::WordScan::words_in))]
fn words_met(line: &[u8]) -> Option<PlanText<'_>>
    ensures { option_map words_seen result ≡ words_in (tokens line.entry.now) }
{
    let (start, rest) = first_run(line)?;
    let rest = after_mark(b':', rest)?;
    let (name, args) = first_run(after_mark(b'(', rest)?)?;
    let rest = after_mark(b')', after_runs(args))?;
    let duration = bracket(rest)?;
    Some(PlanText {
        start,
        name,
        args,
        duration,
    })
}

/// The words of a plan line, `start: (name args)` with or without `[duration]`, where the line is made of such words.
pub fn read_words(line: &[u8]) -> Option<PlanText<'_>>
    ensures { ReadsExactly (option_map words_seen result) (Says line.entry.now) }
{
    words_met(line)
}
