//! The lines of a text that aren't blank once comments are cut.

ghost use Rattle.std.specs.Prelude.{◌≡◌, ◌+◌, ◌<◌, ◌^◌, [], length, MatchOption};
ghost use Rattle.plan_files.specs.Lines.{before, lines_of, written_from};
ghost use Rattle.plan_files.specs.LineScan.{skip_to, behind_line};
ghost use Rattle.plan_files.specs.Written.{FindsWritten};

use crate::scan::are_blanks;

/// A line that isn't blank, without its comment; its number; and what is left behind it.
#[derive(Clone, Copy)]
pub struct Written<'a> {
    pub number: u32,
    pub line: &'a [u8],
    pub rest: &'a [u8],
}

// What is left from the first such byte on.
fn skip_to(byte: u8, text: &[u8]) -> &[u8]
    ensures { result.now ≡ skip_to byte text.now }
{
    let mut rest = text;
    while let [first, behind @ ..] = rest {
        if *first == byte {
            break;
        }
        rest = behind;
    }
    rest
}

// The bytes before the first such byte, and what is left from it on.
fn split_at_byte(byte: u8, text: &[u8]) -> (&[u8], &[u8])
    ensures front { result.0.now ≡ before byte text.now }
    ensures rest { result.1.now ≡ skip_to byte text.now }
{
    let rest = skip_to(byte, text);
    (&text[..text.len() - rest.len()], rest)
}

// The first line, and what is left behind its line feed.
fn split_line(text: &[u8]) -> (&[u8], &[u8])
    ensures line { result.0.now ≡ before 10 text.now }
    ensures rest { result.1.now ≡ behind_line text.now }
    ensures shorter { 0 < length text.now → length result.1.now < length text.now }
{
    match split_at_byte(b'\n', text) {
        (line, [_, rest @ ..]) => (line, rest),
        (line, []) => (line, &[]),
    }
}

/// The next line that isn't blank once comments are cut, where the first has this number.
pub fn next_written(text: &[u8], number: u32) -> Option<Written<'_>>
    requires { number + length text.now < 2 ^ 32 }
    ensures { MatchOption result (written_from number (lines_of text.entry.now) ≡ [])
        (FindsWritten text.entry.now number) }
{
    let mut rest = text;
    let mut number = number;
    while !rest.is_empty() {
        let (line, behind) = split_line(rest);
        let (line, _) = split_at_byte(b';', line);
        if !are_blanks(line) {
            return Some(Written {
                number,
                line,
                rest: behind,
            });
        }
        number += 1;
        rest = behind;
    }
    None
}
