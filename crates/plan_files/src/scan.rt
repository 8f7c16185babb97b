//! The tokens of a line, one after the other.

ghost use Rattle.std.specs.Prelude.{◌≡◌, option_map};
ghost use Rattle.std.specs.List.{list_all};
ghost use Rattle.basics.specs.Texts.{is_blank};
ghost use Rattle.plan_files.specs.Tokens.{is_run_byte};
ghost use Rattle.plan_files.specs.LineScan.{skip_blanks, skip_run, run_in_front, behind_mark, next_run};

fn is_blank(b: u8) -> bool
    ensures { result ≡ is_blank b }
{
    matches!(b, b' ' | b'\t' | b'\n' | b'\r')
}

/// Whether all bytes are blanks.
pub fn are_blanks(line: &[u8]) -> bool
    ensures { result ≡ list_all is_blank line.now }
{
    line.iter().all(|b| is_blank(*b))
}

fn is_run_byte(b: u8) -> bool
    ensures { result ≡ is_run_byte b }
{
    !is_blank(b) && !matches!(b, b'(' | b')' | b'[' | b']' | b':')
}

// What is left behind the blanks in front.
fn skip_blanks(line: &[u8]) -> &[u8]
    ensures { result.now ≡ skip_blanks line.now }
{
    let mut rest = line;
    while let [first, behind @ ..] = rest {
        if !is_blank(*first) {
            break;
        }
        rest = behind;
    }
    rest
}

// What is left behind the run in front, if there is one.
fn skip_run(line: &[u8]) -> &[u8]
    ensures { result.now ≡ skip_run line.now }
{
    let mut rest = line;
    while let [first, behind @ ..] = rest {
        if !is_run_byte(*first) {
            break;
        }
        rest = behind;
    }
    rest
}

// The run in front, which may be empty, and what is left behind it.
fn split_run(line: &[u8]) -> (&[u8], &[u8])
    ensures run { result.0.now ≡ run_in_front line.now }
    ensures rest { result.1.now ≡ skip_run line.now }
{
    let rest = skip_run(line);
    (&line[..line.len() - rest.len()], rest)
}

/// The rest of the line behind its first token, where that is this mark.
pub fn behind_mark(mark: u8, line: &[u8]) -> Option<&[u8]>
    ensures { option_map (λ rest. rest.now) result ≡ behind_mark mark line.now }
{
    match skip_blanks(line) {
        [first, rest @ ..] if *first == mark => Some(rest),
        _ => None,
    }
}

/// The first token of the line, where that is a run, and the rest of the line.
pub fn next_run(line: &[u8]) -> Option<(&[u8], &[u8])>
    ensures { option_map (λ found. (found.0.now, found.1.now)) result ≡ next_run line.now }
{
    let (run, rest) = split_run(skip_blanks(line));
    if run.is_empty() {
        None
    } else {
        Some((run, rest))
    }
}
