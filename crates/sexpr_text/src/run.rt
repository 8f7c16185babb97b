//! What a run of bytes spells.

ghost use Rattle.std.specs.Prelude.{◌≡◌};
ghost use Rattle.std.specs.List.{list_all};
ghost use Rattle.basics.specs.Texts.{is_name_byte, is_name, unsigned, is_digit_or_point, digit_count, point_count, is_decimal};
ghost use Rattle.sexpr_text.specs.Runs.{is_prefixed, begins_as_number, is_mark_byte, is_mark, is_time, name_reading, number_reading, reading};

use crate::token::TokenKind;

/// The most bytes of a name.
const NAME_LIMIT: usize = 64;

/// The most digits of a number.
const DIGIT_LIMIT: usize = 18;

/// What is wrong with a run.
#[derive(Clone, Copy, Debug, PartialEq, Eq)]
pub enum RunFault {
    /// It spells nothing.
    Unknown,
    /// It is a name of more than 64 bytes, perhaps behind a prefix.
    LongName,
    /// It begins as a number and is none, or has more than 18 digits.
    Malformed,
}

fn is_name_byte(b: u8) -> bool
    ensures { result ≡ is_name_byte b }
{
    b.is_ascii_alphabetic() || b.is_ascii_digit() || b == b'-' || b == b'_'
}

fn are_name_bytes(bytes: &[u8]) -> bool
    ensures { result ≡ list_all is_name_byte bytes.now }
{
    bytes.iter().all(|b| is_name_byte(*b))
}

fn is_name(run: &[u8]) -> bool
    ensures { result ≡ is_name run.now }
{
    match run {
        [first, rest @ ..] => first.is_ascii_alphabetic() && are_name_bytes(rest),
        [] => false,
    }
}

fn is_prefixed(prefix: u8, run: &[u8]) -> bool
    ensures { result ≡ is_prefixed prefix run.now }
{
    match run {
        [first, name @ ..] => *first == prefix && is_name(name),
        [] => false,
    }
}

fn unsigned(run: &[u8]) -> &[u8]
    ensures { result.now ≡ unsigned run.now }
{
    match run {
        [b'-', rest @ ..] => rest,
        _ => run,
    }
}

fn is_digit_or_point(b: u8) -> bool
    ensures { result ≡ is_digit_or_point b }
{
    b.is_ascii_digit() || b == b'.'
}

fn digit_count(run: &[u8]) -> usize
    ensures { result ≡ digit_count run.now }
{
    run.iter().filter(|b| b.is_ascii_digit()).count()
}

fn point_count(run: &[u8]) -> usize
    ensures { result ≡ point_count run.now }
{
    run.iter().filter(|b| **b == b'.').count()
}

fn are_digits_and_points(bytes: &[u8]) -> bool
    ensures { result ≡ list_all is_digit_or_point bytes.now }
{
    bytes.iter().all(|b| is_digit_or_point(*b))
}

fn is_decimal(bytes: &[u8]) -> bool
    ensures { result ≡ is_decimal bytes.now }
{
    are_digits_and_points(bytes) && point_count(bytes) <= 1 && digit_count(bytes) > 0
}

fn begins_as_number(run: &[u8]) -> bool
    ensures { result ≡ begins_as_number run.now }
{
    match unsigned(run) {
        [first, ..] => is_digit_or_point(*first),
        [] => false,
    }
}

fn is_mark_byte(b: u8) -> bool
    ensures { result ≡ is_mark_byte b }
{
    matches!(b, b'=' | b'<' | b'>' | b'+' | b'-' | b'*' | b'/')
}

fn is_mark(run: &[u8]) -> bool
    ensures { result ≡ is_mark run.now }
{
    match run {
        [only] => is_mark_byte(*only),
        [b'<' | b'>', second] => *second == b'=',
        _ => false,
    }
}

fn is_time(run: &[u8]) -> bool
    ensures { result ≡ is_time run.now }
{
    match run {
        [b'#', second] => *second == b't',
        _ => false,
    }
}

fn name_reading(kind: TokenKind, name: &[u8]) -> Result<TokenKind, RunFault>
    ensures { result ≡ name_reading kind name.now }
{
    if name.len() <= NAME_LIMIT {
        Ok(kind)
    } else {
        Err(RunFault::LongName)
    }
}

fn number_reading(run: &[u8]) -> Result<TokenKind, RunFault>
    ensures { result ≡ number_reading run.now }
{
    if is_decimal(unsigned(run)) && digit_count(run) <= DIGIT_LIMIT {
        Ok(TokenKind::Number)
    } else {
        Err(RunFault::Malformed)
    }
}

/// What the run spells.
#[tactic(auto, unfolding(crate::specs::Runs::reading))]
pub fn reading(run: &[u8]) -> Result<TokenKind, RunFault>
    ensures { result ≡ reading run.now }
{
    if is_name(run) {
        name_reading(TokenKind::Name, run)
    } else if is_prefixed(b'?', run) {
        name_reading(TokenKind::Variable, &run[1..])
    } else if is_prefixed(b':', run) {
        name_reading(TokenKind::Keyword, &run[1..])
    } else if begins_as_number(run) {
        number_reading(run)
    } else if is_mark(run) {
        Ok(TokenKind::Mark)
    } else if is_time(run) {
        Ok(TokenKind::Time)
    } else {
        Err(RunFault::Unknown)
    }
}
